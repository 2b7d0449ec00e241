//! The end of what workers shared of one kind.
//!
//! *The order.* All stocks are taken apart. The shelf is closed with its hands, which gives the object that is there, if any. Then the cache is
//! closed with its hands, and this object goes back to it.
//!
//! *The reason.* A stock that holds nothing gave back and put on the shelf as many objects as it took and got from there. So what all stocks took
//! came back, but for what is on the shelf.

ghost use Rattle.std.specs.Prelude.{◌≡◌, ◌<◌, ◌≤◌, ◌+◌, ◌*◌, ◌^◌, ℕ, All, sum_by, vec_len, vec_capacity};
ghost use Rattle.exchange_shelf.specs.Views.{one_if as one_on_shelf};
ghost use Rattle.exchange_shelf.specs.Views as shelf;
ghost use Rattle.shared_cache.specs.HandView.{HandView};
ghost use Rattle.shared_cache.specs.Last.{one_if};
ghost use Rattle.shared_cache.specs.declared.count.TheConstants.{MAX_HANDS};
ghost use Rattle.shared_store.specs.Closing.{IsEnded, clashes_of, strays_of};
ghost use Rattle.shared_store.specs.Making.{HasHands, IsUnused};
ghost use Rattle.shared_store.specs.Parting.{AreEven, IsFree, IsOnePass};
ghost use Rattle.shared_store.specs.Room.{IsRoom};

use crate::commons::{Base, Supply};
use crate::room::Hands;
use crate::stock::Stock;
use crate::totals::KindTotals;
use exchange_shelf::Left;
use owners_table::owners::{OwnerSeat, Owners};
use shared_cache::{ArenaPass, PAUSES, Parcel};
use slab_layer::{Held, Kind, Obj};

/// What became of one kind: its totals, and how many objects went back since their slots had an owner, or since they were strays.
#[derive(Clone, Copy)]
pub(crate) struct KindEnd {
    pub(crate) totals: KindTotals,
    pub(crate) clashes: u64,
    pub(crate) strays: u64,
}

/// What is ended after the kinds: a pass to the arena, and the seats of all of them.
pub(crate) struct Rest {
    pub(crate) pages: ArenaPass,
    pub(crate) seats: Vec<OwnerSeat>,
}

// Takes stocks apart, into lists that have room for their parts. The numbers count their clashes and their strays.
fn parted<K: Kind>(
    supply: &Supply<K>,
    owners: &Owners,
    mut stocks: Vec<Stock<K>>,
    room: Hands<K>,
    seats: &mut Vec<OwnerSeat>,
) -> (Hands<K>, u64, u64)
    requires few { vec_len stocks ≤ MAX_HANDS }
    requires unused { All (IsUnused supply.now owners.now) stocks.items }
    requires room { IsRoom (vec_len stocks) room.0 × IsRoom (vec_len stocks) room.1 }
    requires seats { All (IsFree owners.now) seats.old.items × (vec_len seats.old + vec_len stocks ≤ vec_capacity seats.old) }
    ensures hands { All (λ h. h.table ≡ supply.now.cache.table) result.0.0.items × (vec_len result.0.0 ≡ vec_len stocks) }
    ensures shelf_hands { All (λ h. h.table ≡ supply.now.shelf.table) result.0.1.items × (vec_len result.0.1 ≡ vec_len stocks) }
    ensures seats { All (IsFree owners.now) seats.new.items × (vec_len seats.new ≡ vec_len seats.old + vec_len stocks)
        × (vec_capacity seats.new ≡ vec_capacity seats.old) }
    ensures whole { sum_by (λ h. h.parts) result.0.1.items ≡ vec_len stocks }
    ensures same { (f : HandView → ℕ) → sum_by f result.0.0.items ≡ sum_by (λ s. f s.hand) stocks.items }
    ensures same_on_shelf { (f : shelf.HandView → ℕ) → sum_by f result.0.1.items ≡ sum_by (λ s. f s.shelf_hand) stocks.items }
    ensures even { AreEven result.0.0.items result.0.1.items }
    ensures clashes { (result.1 ≡ clashes_of stocks.items) × (result.1 ≤ MAX_HANDS * 2 ^ 56) }
    ensures strays { (result.2 ≡ strays_of stocks.items) × (result.2 ≤ MAX_HANDS * 2 ^ 56) }
{
    let (mut hands, mut shelf_hands) = room;
    let mut clashes = 0;
    let mut strays = 0;
    while let Some(stock) = stocks.pop() {
        let (hand, shelf_hand, seat, own_clashes, own_strays) = stock.end();
        hands.push_reserved(hand);
        shelf_hands.push_reserved(shelf_hand);
        seats.push_reserved(seat);
        clashes += own_clashes;
        strays += own_strays;
    }
    stocks.destroy_empty();
    ((hands, shelf_hands), clashes, strays)
}

// The object in a parcel, if there is one.
fn opened<K: Kind>(parcel: Option<Parcel<K>>) -> Option<Obj<K, Held>>
    ensures { one_if result ≡ one_on_shelf parcel }
{
    match parcel {
        Some(parcel) => Some(parcel.open()),
        None => None,
    }
}

/// Ends the cache and the shelf of one kind, with all stocks. What is on the shelf goes back to the cache.
pub(crate) fn ended<K: Kind>(
    supply: Supply<K>,
    stocks: Vec<Stock<K>>,
    room: Hands<K>,
    base: &Base,
    rest: &mut Rest,
) -> KindEnd
    requires few { (0 < vec_len stocks) × (vec_len stocks ≤ MAX_HANDS) }
    requires made { HasHands (vec_len stocks) supply }
    requires unused { All (IsUnused supply base.now.owners) stocks.items }
    requires room { IsRoom (vec_len stocks) room.0 × IsRoom (vec_len stocks) room.1 }
    requires seats { All (IsFree base.now.owners) rest.old.seats.items × (vec_len rest.old.seats + vec_len stocks ≤ vec_capacity rest.old.seats) }
    requires pages { IsOnePass base.now.arena rest.old.pages }
    ensures seats { All (IsFree base.now.owners) rest.new.seats.items × (vec_len rest.new.seats ≡ vec_len rest.old.seats + vec_len stocks)
        × (vec_capacity rest.new.seats ≡ vec_capacity rest.old.seats) }
    ensures pages { IsOnePass base.now.arena rest.new.pages }
    ensures ended { IsEnded stocks.items result }
{
    let ((hands, shelf_hands), clashes, strays) = parted(
        &supply,
        &base.owners,
        stocks,
        room,
        &mut rest.seats,
    );
    let Supply { cache, shelf } = supply;
    let Left { object, puts, gets } = shelf.close(shelf_hands);
    let last = opened(object);
    let left = u64::from(last.is_some());
    let totals = cache.close(hands, last, &base.arena, &mut rest.pages, PAUSES);
    KindEnd {
        totals: KindTotals {
            allocs: totals.allocs,
            frees: totals.frees,
            nulls: totals.nulls,
            busy: totals.busy,
            missing: totals.missing,
            foreign: totals.foreign,
            puts,
            gets,
            left,
        },
        clashes,
        strays,
    }
}
