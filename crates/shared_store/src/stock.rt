//! What a worker takes objects of one kind with.
//!
//! *The idea.* A hand at the cache, a hand at the shelf, and a seat at the table of owners, in which each slot is noted that a run has. An
//! object that the hand gives is a run's only once the seat has claimed its slot; one that comes off the shelf, only once the seat has
//! fetched the slot from the shelf. What a run gives back is released first.
//!
//! *The invariant.* The hand has lent as many objects as the seat holds slots. Each object that was put on the shelf was left by the
//! hand to others, and each that came off it was taken over.
//!
//! *The reason.* So what a run gives back always has room in its worker's hand. And when a worker holds nothing, its counts say that what
//! it took and got is what it gave and put.

ghost use Rattle.std.specs.Prelude.{◌≡◌, ◌≢◌, ◌+◌, ◌<◌, ◌≤◌, ◌^◌, Some, length, replicate, option_map, IfSome, IfNone, OnSome, IsTrue, false};
ghost use Rattle.std.specs.Option.{MatchOption};
ghost use Rattle.owners_table.specs.Marking.{mark_word};
ghost use Rattle.owners_table.specs.Owning.{Holds, without};
ghost use Rattle.owners_table.specs.declared.mark.TheConstants.{SHELVES};
ghost use Rattle.shared_cache.specs.Asking.{Moves};
ghost use Rattle.shared_row.specs.Views.{IsIdleAt};
ghost use Rattle.ebpf_owned.specs.Claims.{IsClaimed};
ghost use Rattle.ebpf_owned.specs.Exchanges.{HasPassed, less, one_if, shelved_if};
ghost use Rattle.owners_table.specs.Owning.{fresh as fresh_seat};
ghost use Rattle.exchange_shelf.specs.Views.{fresh_hand as fresh_shelf_hand};
ghost use Rattle.shared_cache.specs.HandView.{Counted, HasNone, IsLaden, adopts, fresh_hand, gets_back, passes_on};
ghost use Rattle.shared_store.specs.Stock.{Answers, IsOf, IsStock, none_if};

use crate::commons::{Base, Supply};
use exchange_shelf::ShelfHand;
use owners_table::mark::Mark;
use owners_table::owners::OwnerSeat;
use shared_cache::{ArenaPass, Hand, PAUSES, Parcel};
use slab_layer::{Held, Kind, Obj};
use std::marker::Model;

/// What a worker takes objects of one kind with. One that is dropped takes along what its hand has.
#[derive(Drop)]
pub struct Stock<K: Kind> {
    hand: Hand<K>,
    shelf_hand: ShelfHand<Parcel<K>>,
    seat: OwnerSeat,
    // How many objects went back since their slots had an owner.
    clashes: u64,
    // How many objects that came off the shelf went back since the table had their slots as another's.
    strays: u64,
}

impl<K: Kind> Model for Stock<K> {
    ghost use Rattle.shared_store.specs.Stock.{IsStock, StockView};

    ghost Value = { StockView };

    ghost view = { λ s. record { hand = s.hand; shelf_hand = s.shelf_hand; seat = s.seat; clashes = s.clashes; strays = s.strays } };

    ghost invariant = { λ s. IsStock (record { hand = s.hand; shelf_hand = s.shelf_hand; seat = s.seat; clashes = s.clashes; strays = s.strays }) };
}

impl<K: Kind> Stock<K> {
    /// A stock of hands and a seat with which nothing was done.
    pub fn new(hand: Hand<K>, shelf_hand: ShelfHand<Parcel<K>>, seat: OwnerSeat) -> Stock<K>
        requires hand { hand ≡ fresh_hand hand.table }
        requires shelf_hand { shelf_hand ≡ fresh_shelf_hand shelf_hand.table }
        requires seat { seat ≡ fresh_seat seat.table }
        ensures parts { (result.hand ≡ hand) × (result.shelf_hand ≡ shelf_hand) × (result.seat ≡ seat) }
        ensures none { (result.clashes ≡ 0) × (result.strays ≡ 0) }
    {
        Stock {
            hand,
            shelf_hand,
            seat,
            clashes: 0,
            strays: 0,
        }
    }

    /// Its hands and its seat, with its clashes and its strays.
    pub fn end(self) -> (Hand<K>, ShelfHand<Parcel<K>>, OwnerSeat, u64, u64)
        ensures parts { (result.0 ≡ self.hand) × (result.1 ≡ self.shelf_hand) × (result.2 ≡ self.seat)
            × (result.3 ≡ self.clashes) × (result.4 ≡ self.strays) }
        ensures stock { IsStock self }
    {
        let Stock {
            hand,
            shelf_hand,
            seat,
            clashes,
            strays,
        } = self;
        (hand, shelf_hand, seat, clashes, strays)
    }

    /// What always holds of a stock. Nothing is computed.
    #[inline(always)]
    pub fn known(&self)
        ensures { IsStock self.now }
    {
        let _strays = self.strays;
    }

    /// Takes an object, and claims its slot with this mark. None if the cache has none, or if the slot has an owner: then the object goes
    /// back, which is counted as a clash.
    #[inline(always)]
    pub fn take(
        &mut self,
        supply: &Supply<K>,
        base: &Base,
        pages: &mut ArenaPass,
        mark: Mark,
    ) -> Option<Obj<K, Held>>
        requires of { IsOf supply.now base.now.owners self.old }
        requires pages { IsIdleAt base.now.arena.table pages.old }
        ensures pages { Moves pages.old pages.new 0 0 }
        ensures image { IfSome result (λ o. o.bytes.value.items ≡ replicate K.SIZE K.FILL) }
        ensures granted { IfSome result (λ o. IsClaimed o.slot (mark_word mark.run mark.at) self.old.seat.held self.new.seat.held) }
        ensures refused { IfNone result (self.new.seat.held ≡ self.old.seat.held) }
        ensures answers { Answers self.old self.new (one_if result) (none_if result) 0 }
        ensures puts { self.new.shelf_hand.puts ≡ self.old.shelf_hand.puts }
    {
        let Ok(object) = self.hand.take(&supply.cache, &base.arena, pages, PAUSES) else {
            return None;
        };
        let Err(_) = base.owners.claim(&mut self.seat, object.slot(), mark) else {
            return Some(object);
        };
        self.clashes += 1;
        self.hand.give(&supply.cache, object);
        None
    }

    /// Gives an object back whose slot the seat holds: it is released first.
    #[inline(always)]
    pub fn give(&mut self, supply: &Supply<K>, base: &Base, object: Obj<K, Held>)
        requires of { IsOf supply.now base.now.owners self.old }
        requires held { Holds object.slot self.old.seat.held }
        ensures held { self.new.seat.held ≡ without object.slot self.old.seat.held }
        ensures answers { Answers self.old self.new 0 0 0 }
        ensures puts { self.new.shelf_hand.puts ≡ self.old.shelf_hand.puts }
    {
        base.owners.release(&mut self.seat, object.slot());
        self.hand.give(&supply.cache, object);
    }
    /// Exchanges an object whose slot the seat holds, or nothing, for what is on the shelf of this number. The slot of what is given is the
    /// shelf's before it is there, and that of what comes off is claimed with this mark after that. None if nothing was there, or if what
    /// was there is a stray, which goes back to the cache.
    ///
    /// If the hand has no room for one more object, also after those that it has were sent home, the shelf isn't touched, what is given
    /// goes back, and the answer is `None`.
    pub fn swap(
        &mut self,
        supply: &Supply<K>,
        base: &Base,
        shelf: u8,
        given: Option<Obj<K, Held>>,
        mark: Mark,
    ) -> Option<Obj<K, Held>>
        requires of { IsOf supply.now base.now.owners self.old }
        requires shelf { shelf < SHELVES }
        requires given { IfSome given (λ o. Holds o.slot self.old.seat.held) }
        ensures passed { HasPassed (option_map (λ o. o.slot) given) (option_map (λ o. o.slot) result) (mark_word mark.run mark.at)
            self.old.seat.held self.new.seat.held }
        ensures answers { Answers self.old self.new 0 0 (one_if result) }
        // What is given is put there, if there was room for what may come off.
        ensures put { (IsLaden self.old.hand → ⊥) → self.new.shelf_hand.puts ≡ self.old.shelf_hand.puts + one_if given }
    {
        if !self.can_get(supply) {
            self.give_back(supply, base, given);
            return None;
        }
        let left = slot_in(&given);
        let offered = offered(&mut self.hand, &mut self.seat, base, shelf, given);
        let parcel = supply.shelf.swap(&mut self.shelf_hand, offered)?;
        let object = parcel.open();
        let (hand, seat) = (&mut self.hand, &mut self.seat);
        match received(hand, seat, supply, base, shelf, left, object, mark) {
            Some(object) => Some(object),
            None => {
                self.strays += 1;
                None
            }
        }
    }

    /// A pass of the reaper over the cache. The answer is how many pages went back to the arena.
    pub fn reap(&mut self, supply: &Supply<K>, base: &Base, pages: &mut ArenaPass) -> u32
        requires of { IsOf supply.now base.now.owners self.old }
        requires pages { IsIdleAt base.now.arena.table pages.old }
        ensures pages { Moves pages.old pages.new 0 0 }
        ensures hand { (self.new.hand.table ≡ self.old.hand.table) × (self.new.hand.counts ≡ self.old.hand.counts) }
        ensures rest { (self.new.shelf_hand ≡ self.old.shelf_hand) × (self.new.seat ≡ self.old.seat)
            × (self.new.clashes ≡ self.old.clashes) × (self.new.strays ≡ self.old.strays) }
    {
        let (hand, arena) = (&mut self.hand, &base.arena);
        supply.cache.reap(hand, arena, pages, PAUSES)
    }

    /// Sends what the hand has home to the slabs. The answer is whether nothing stays: what another thread is in the way of does.
    pub fn flush(&mut self, supply: &Supply<K>) -> bool
        requires of { self.old.hand.table ≡ supply.now.cache.table }
        ensures none { IsTrue result → HasNone self.new.hand }
        ensures hand { (self.new.hand.table ≡ self.old.hand.table) × (self.new.hand.counts ≡ self.old.hand.counts) }
        ensures rest { (self.new.shelf_hand ≡ self.old.shelf_hand) × (self.new.seat ≡ self.old.seat)
            × (self.new.clashes ≡ self.old.clashes) × (self.new.strays ≡ self.old.strays) }
    {
        self.hand.flush(&supply.cache, PAUSES)
    }

    /// Whether there is room for an object that comes off the shelf. What the hand has is sent home to make some.
    pub fn can_get(&mut self, supply: &Supply<K>) -> bool
        requires of { self.old.hand.table ≡ supply.now.cache.table }
        ensures room { IsTrue result → IsLaden self.new.hand → ⊥ }
        ensures laden { result ≡ false → IsLaden self.old.hand }
        ensures hand { (self.new.hand.table ≡ self.old.hand.table) × (self.new.hand.counts ≡ self.old.hand.counts) }
        ensures rest { (self.new.shelf_hand ≡ self.old.shelf_hand) × (self.new.seat ≡ self.old.seat)
            × (self.new.clashes ≡ self.old.clashes) × (self.new.strays ≡ self.old.strays) }
    {
        if self.hand.can_adopt() {
            return true;
        }
        self.hand.flush(&supply.cache, PAUSES);
        self.hand.can_adopt()
    }

    // Gives an object back, if there is one.
    fn give_back(&mut self, supply: &Supply<K>, base: &Base, given: Option<Obj<K, Held>>)
        requires of { IsOf supply.now base.now.owners self.old }
        requires given { IfSome given (λ o. Holds o.slot self.old.seat.held) }
        ensures held { self.new.seat.held ≡ less (option_map (λ o. o.slot) given) self.old.seat.held }
        ensures answers { Answers self.old self.new 0 0 0 }
    {
        if let Some(object) = given {
            self.give(supply, base, object);
        }
    }
}

// The slot of an object, if there is one.
fn slot_in<K: Kind>(given: &Option<Obj<K, Held>>) -> Option<u32>
    ensures { result ≡ option_map (λ o. o.slot) given.now }
{
    match given {
        Some(object) => Some(object.slot()),
        None => None,
    }
}

// Passes the slot of an object, if there is one, to the shelf of this number, and leaves the object to whoever gets it there.
fn offered<K: Kind>(
    hand: &mut Hand<K>,
    seat: &mut OwnerSeat,
    base: &Base,
    shelf: u8,
    given: Option<Obj<K, Held>>,
) -> Option<Parcel<K>>
    requires seat { seat.old.table ≡ base.now.owners.table }
    requires shelf { shelf < SHELVES }
    requires given { IfSome given (λ o. Holds o.slot seat.old.held) }
    requires lent { hand.old.counts.lent ≡ length seat.old.held }
    ensures one { one_if result ≡ one_if given }
    ensures seat { seat.new ≡ shelved_if seat.old (option_map (λ o. o.slot) given) shelf }
    ensures hand { MatchOption given (hand.new ≡ hand.old) (λ _. Counted hand.old hand.new (passes_on hand.old.counts)) }
{
    match given {
        Some(object) => {
            base.owners.shelve(seat, object.slot(), shelf);
            hand.pass_on();
            Some(Parcel::new(base.alloc, object))
        }
        None => None,
    }
}

// Takes over an object that came off the shelf of this number, on which what was left, if anything, was in that slot. None if it is a
// stray: the table has its slot as another's than the shelf's, or what was left was in this slot too. It goes back to the cache then.
fn received<K: Kind>(
    hand: &mut Hand<K>,
    seat: &mut OwnerSeat,
    supply: &Supply<K>,
    base: &Base,
    shelf: u8,
    left: Option<u32>,
    object: Obj<K, Held>,
    mark: Mark,
) -> Option<Obj<K, Held>>
    requires hand { hand.old.table ≡ supply.now.cache.table }
    requires room { IsLaden hand.old → ⊥ }
    requires seat { seat.old.table ≡ base.now.owners.table }
    requires shelf { shelf < SHELVES }
    ensures object { IfSome result (λ o. o ≡ object) }
    ensures fetched { OnSome result (IsClaimed object.slot (mark_word mark.run mark.at) seat.old.held seat.new.held) }
    ensures apart { OnSome result (left ≢ Some object.slot) }
    ensures counts { OnSome result (hand.new.counts ≡ adopts hand.old.counts) }
    ensures stray { IfNone result ((seat.new.held ≡ seat.old.held) × (hand.new.counts ≡ gets_back (adopts hand.old.counts))) }
    ensures notes { (seat.new.notes ≡ seat.old.notes) × (length seat.new.fetches ≡ length seat.old.fetches + 1) }
    ensures tables { (seat.new.table ≡ seat.old.table) × (hand.new.table ≡ hand.old.table) }
    ensures few { hand.new.counts.adopted ≤ 2 ^ 56 }
{
    hand.adopt();
    let slot = object.slot();
    let Ok(()) = base.owners.fetch(seat, slot, shelf, mark) else {
        hand.give(&supply.cache, object);
        return None;
    };
    if left == Some(slot) {
        base.owners.release(seat, slot);
        hand.give(&supply.cache, object);
        return None;
    }
    Some(object)
}
