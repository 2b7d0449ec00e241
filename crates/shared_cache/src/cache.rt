//! Caches of objects of one kind, which the hands of many threads share.
//!
//! *The idea.* A row of places. The place with a hand's number is its home, and the last one has the slabs. All hands are made with
//! the cache, since each has a pass of the row.

ghost use Rattle.std.specs.Prelude.{◌≡◌, ◌⊎◌, ℕ, ◌+◌, ◌<◌, ◌≤◌, [], vec_len, vec_capacity, All, sum_by, IfOk};
ghost use Rattle.shared_row.specs.Views.{IsIdleAt, fresh_pass};
ghost use Rattle.shared_cache.specs.Asking.{Found, Moves, WasAsked, WasBusy};
ghost use Rattle.shared_cache.specs.Faults.{IsGiven};
ghost use Rattle.shared_cache.specs.HandView.{fresh_hand};
ghost use Rattle.shared_cache.specs.Last.{one_if};
ghost use Rattle.shared_cache.specs.PlaceView.{empty_place};
ghost use Rattle.shared_cache.specs.declared.count.TheConstants.{MAX_HANDS};

use crate::arena::{ArenaPass, SharedArena};
use crate::closing::{emptied, gathered, out_of, parted, sent_home};
use crate::count::MAX_HANDS;
use crate::hand::Hand;
use crate::place::{Place, PlacePass, Places};
use crate::rack::Rack;
use crate::reaping::{drain_all, give_all, give_pages_at};
use crate::totals::Totals;
use homing::Remains;
use shared_row::Row;
use slab_layer::{Held, Kind, Obj};
use std::alloc::{AllocError, Global};
use std::marker::Model;
use std::sync::Mutex;

/// The objects of a kind that all hands share. One that is dropped takes its objects with it.
#[derive(Drop)]
pub struct Cache<K: Kind> {
    pub(crate) row: Places<K>,
    hands: u32,
    // What `close` fills, made before, so that it takes no memory.
    into: Vec<Box<Place<K>>>,
    racks: Vec<Rack<K>>,
    // A pass may only be with one thread, so passes have to lie behind a lock in what threads share. No thread ever takes it.
    room: Mutex<PassRoom<K>>,
}

impl<K: Kind> Model for Cache<K> {
    ghost use Rattle.std.specs.Prelude.{◌≡◌, ◌⊎◌, ℕ, ◌+◌, ◌<◌, ◌≤◌, [], vec_capacity};
    ghost use Rattle.shared_cache.specs.CacheView.{CacheView};
    ghost use Rattle.shared_cache.specs.declared.count.TheConstants.{MAX_HANDS};

    ghost Value = { CacheView };

    ghost view = { λ c. record { table = c.row.table; hands = c.hands } };

    ghost invariant = { λ c. (c.row.places ≡ c.hands + 1) × (c.row.passes ≡ c.hands) × (0 < c.hands) × (c.hands ≤ MAX_HANDS)
        × (c.into.items ≡ []) × (c.hands + 1 ≤ vec_capacity c.into) × (c.racks.items ≡ []) × (c.hands ≤ vec_capacity c.racks) };
}

// Room for the passes of all hands.
#[derive(Drop)]
struct PassRoom<K: Kind> {
    passes: Vec<PlacePass<K>>,
    ghost none: { passes.items ≡ [] },
    ghost room: { MAX_HANDS ≤ vec_capacity passes },
}

// So many places with no object.
fn empty_places<K: Kind>(alloc: Global, places: usize) -> Result<Vec<Box<Place<K>>>, AllocError>
    ensures { IfOk result (λ v. (vec_len v ≡ places) × All (λ b. b.value ≡ empty_place) v.items) }
{
    let mut all = Vec::with_capacity(alloc, places)?;
    for _place in 0..places {
        all.push_reserved(Box::new(alloc, Place::new(alloc))?);
    }
    Ok(all)
}

// A hand for each pass, each with a home of its own.
fn dealt<K: Kind>(
    alloc: Global,
    row: &Places<K>,
    mut passes: Vec<PlacePass<K>>,
) -> Result<Vec<Hand<K>>, AllocError>
    requires { All (λ p. p ≡ fresh_pass row.now.table) passes.items }
    ensures { IfOk result (λ v. (vec_len v ≡ vec_len passes) × All (λ h. h ≡ fresh_hand row.now.table) v.items) }
{
    let mut all = Vec::with_capacity(alloc, passes.len())?;
    while let Some(pass) = passes.pop() {
        let hand = Hand::new(alloc, all.len(), pass)?;
        all.push_reserved(hand);
    }
    Ok(all)
}

impl<K: Kind> Cache<K> {
    /// A cache with no object and no page, and its hands.
    ///
    /// # Errors
    /// There was no memory: nothing was made.
    pub fn new(alloc: Global, hands: u32) -> Result<(Cache<K>, Vec<Hand<K>>), AllocError>
        requires { (0 < hands) × (hands ≤ MAX_HANDS) }
        ensures cache { IfOk result (λ r. r.0.hands ≡ hands) }
        ensures hands { IfOk result (λ r. (vec_len r.1 ≡ hands) × All (λ h. h ≡ fresh_hand r.0.table) r.1.items) }
    {
        let into = Vec::with_capacity(alloc, hands as usize + 1)?;
        let racks = Vec::with_capacity(alloc, hands as usize)?;
        let passes = Vec::with_capacity(alloc, MAX_HANDS as usize)?;
        let places = empty_places(alloc, hands as usize + 1)?;
        let Ok((row, all_passes)) = Row::new(alloc, places, hands) else {
            return Err(AllocError);
        };
        let all = dealt(alloc, &row, all_passes)?;
        let cache = Cache {
            row,
            hands,
            into,
            racks,
            room: Mutex::new(PassRoom { passes }),
        };
        Ok((cache, all))
    }

    /// A pass of the reaper, by a hand of this cache: the full magazines of the depots that are free go home to the slabs, and each page
    /// with nothing out goes back to the arena. The answer is the number of pages that went back. What another hand has, also after as
    /// many pauses, is left for the next pass.
    pub fn reap(
        &self,
        hand: &mut Hand<K>,
        arena: &SharedArena,
        pages: &mut ArenaPass,
        pauses: u32,
    ) -> u32
        requires hand { hand.old.table ≡ self.now.table }
        requires pages { IsIdleAt arena.now.table pages.old }
        ensures hand { (hand.new.table ≡ hand.old.table) × (hand.new.counts ≡ hand.old.counts)
            × (hand.new.layer ≡ hand.old.layer) × (hand.new.aside ≡ hand.old.aside) }
        ensures pages { Moves pages.old pages.new 0 0 }

        // Each depot was asked, or the slabs were with another hand.
        ensures depots { (k : ℕ) → k < self.now.hands → WasAsked hand.old.notes hand.new.notes k ⊎ WasBusy hand.old.notes hand.new.notes self.now.hands }

        // At last the slabs were asked, and the arena.
        ensures given { IsGiven result self.now.hands hand.old.notes hand.new.notes pages.old.notes pages.new.notes }
    {
        drain_all(&self.row, &mut hand.pass, pauses);
        give_pages_at(&self.row, &mut hand.pass, arena, pages, pauses)
    }

    /// Ends the cache with all its hands, and adds up what they did. What hands and depots have goes home first, with the last object, if
    /// there is one that no hand is to give back: it is counted among those that came back. Then each page with nothing out goes back to
    /// the arena, unless another thread has that after as many pauses.
    pub fn close(
        self,
        hands: Vec<Hand<K>>,
        last: Option<Obj<K, Held>>,
        arena: &SharedArena,
        pages: &mut ArenaPass,
        pauses: u32,
    ) -> Totals
        requires all { vec_len hands ≡ self.hands }
        requires hands { All (λ h. h.table ≡ self.table) hands.items }
        requires pages { IsIdleAt arena.now.table pages.old }
        ensures pages { Moves pages.old pages.new 0 0 }
        ensures allocs { result.allocs ≡ sum_by (λ h. h.counts.allocs) hands.items }
        ensures frees { result.frees ≡ sum_by (λ h. h.counts.frees) hands.items + one_if last }
        ensures nulls { result.nulls ≡ sum_by (λ h. h.counts.nulls) hands.items }
        ensures busy { result.busy ≡ sum_by (λ h. h.counts.busy) hands.items }
        ensures balance { result.missing + result.frees ≡ result.allocs + result.foreign }
        ensures arena { (word : ℕ) × Found pages.old.notes pages.new.notes 0 word }
    {
        let Cache {
            row,
            hands: _,
            into,
            racks,
            room,
        } = self;
        let PassRoom { passes } = room.into_inner();
        let (passes, racks, mut sums) = parted(&row, hands, passes, racks);
        let places = row.close(passes, into);
        // No more strangers can have come than slots are out, so no count below is too great for a word.
        out_of(places.as_slice());
        let (mut slabs, mut foreign, others) = gathered(places);
        emptied(racks, &mut slabs, &mut foreign);
        sums.frees += sent_home(&mut slabs, &mut foreign, last);
        give_all(&mut slabs, arena, pages, pauses);
        Totals::new(Remains::of(slabs, foreign).add(others), sums)
    }
}
