//! The tools of all workers, called in from their homes and sent back.

ghost use Rattle.std.specs.Prelude.{◌≡◌, ◌≤◌, [], All, vec_len, vec_capacity, IsTrue};
ghost use Rattle.shared_store.specs.Tools.{AreAtHome};

use crate::house::{Home, House};
use crate::tools::Tools;

/// Takes the tools of all workers, into lists that have room for them. False if a worker is open: then some are in the lists.
pub(crate) fn called_in(
    house: &House,
    workers: u32,
    tools: &mut Vec<Tools>,
    homes: &mut Vec<Home>,
) -> bool
    requires places { house.now.homes.places ≡ workers }
    requires none { (tools.old.items ≡ []) × (homes.old.items ≡ []) }
    requires room { (workers ≤ vec_capacity tools.old) × (workers ≤ vec_capacity homes.old) }
    ensures pairs { vec_len homes.new ≡ vec_len tools.new }
    ensures tools { All (AreAtHome house.now.commons) tools.new.items }
    ensures homes { All (λ h. h.table ≡ house.now.homes.table) homes.new.items }
    ensures all { IsTrue result → vec_len tools.new ≡ workers }
    ensures capacity { (vec_capacity tools.new ≡ vec_capacity tools.old) × (vec_capacity homes.new ≡ vec_capacity homes.old) }
{
    for worker in 0..workers {
        let Ok((set, home)) = house.homes.take(worker as usize) else {
            return false;
        };
        tools.push_reserved(set);
        homes.push_reserved(home);
    }
    true
}

/// Puts all tools of these lists back to their homes.
pub(crate) fn sent_back(house: &House, tools: &mut Vec<Tools>, homes: &mut Vec<Home>)
    requires pairs { vec_len homes.old ≡ vec_len tools.old }
    requires tools { All (AreAtHome house.now.commons) tools.old.items }
    requires homes { All (λ h. h.table ≡ house.now.homes.table) homes.old.items }
    ensures none { (tools.new.items ≡ []) × (homes.new.items ≡ []) }
    ensures capacity { (vec_capacity tools.new ≡ vec_capacity tools.old) × (vec_capacity homes.new ≡ vec_capacity homes.old) }
{
    while let Some(home) = homes.pop() {
        let set = tools.take_last();
        house.homes.put(home, set);
    }
}
