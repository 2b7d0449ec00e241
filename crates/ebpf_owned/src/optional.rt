//! What a call of `swap` gives up, which may be nothing.

ghost use Rattle.std.specs.Prelude.{◌≡◌, ◌<◌, ◌≤◌, option_map};
ghost use Rattle.owners_table.specs.declared.mark.TheConstants.{SHELVES};
ghost use Rattle.owners_table.specs.declared.owners.TheConstants.{ARENA_SLOTS};
ghost use Rattle.ebpf_owned.specs.Exchanges.{IsSwappable, less, shelved_if};
ghost use Rattle.ebpf_object.specs.Object.{slot_of};

use crate::owned::Owned;
use ebpf_object::Object;
use owners_table::owners::{OwnerSeat, Owners};

/// The slot of an object, if there is one.
pub fn slot_in(owned: &Option<Owned>) -> Option<u32>
    ensures { result ≡ option_map slot_of owned.now }
{
    match owned {
        Some(owned) => Some(owned.slot()),
        None => None,
    }
}

/// Passes the slot of an object to the shelf of this number, if there is one, and then returns the object.
pub fn shelved(
    given: Option<Owned>,
    owners: &Owners,
    seat: &mut OwnerSeat,
    shelf: u8,
) -> Option<Object>
    requires slots { ARENA_SLOTS ≤ owners.now.slots }
    requires seated { seat.old.table ≡ owners.now.table }
    requires given { IsSwappable given shelf seat.old.held }
    requires shelf { shelf < SHELVES }
    ensures same { result ≡ given }
    ensures seat { seat.new ≡ shelved_if seat.old (option_map slot_of given) shelf }
    ensures held { seat.new.held ≡ less (option_map slot_of given) seat.old.held }
    ensures notes { (seat.new.notes ≡ seat.old.notes) × (seat.new.fetches ≡ seat.old.fetches) }
    ensures table { seat.new.table ≡ seat.old.table }
    ensures rest { (seat.new.tries ≡ seat.old.tries) × (seat.new.got ≡ seat.old.got) }
{
    match given {
        Some(owned) => Some(owned.shelve(owners, seat, shelf)),
        None => None,
    }
}
