//! Where workers take objects of one kind: a cache, and a shelf on which a worker leaves one for others.
//!
//! *The idea.* A supply is opened with as many hands as there are workers, and closed over them. What its shelf holds then goes back
//! to its cache first, by one of these hands and by one of the workers' seats.

ghost use Rattle.std.specs.Prelude.{◌≡◌, ◌≤◌, All, vec_len, IfOk, OnOk};
ghost use Rattle.ebpf_owned.specs.Claims.{HasFetched};
ghost use Rattle.object_cache.specs.ShelfView.{new_hand, one_if};
ghost use Rattle.owners_table.specs.declared.owners.TheConstants.{ARENA_SLOTS};
ghost use Rattle.worker_pool.specs.Books.{AreWhole, AreFor};
ghost use Rattle.worker_pool.specs.Hands.{AreUnused, HasHand, IsNone};
ghost use Rattle.worker_pool.specs.Outcomes.{IsIdle};
ghost use Rattle.worker_pool.specs.Supplies.{IsOpened, HasMade, IsClosed, HasReturned};

use crate::hands::{FreePairs, HandPair};
use crate::ledgers::{Gets, Ins, Names, Outs, Puts};
use crate::outcome::ShelfTotals;
use ebpf_owned::unshelve;
use object_cache::{ArenaLock, Cache, Hand, Left, Shelf, Totals};
use owners_table::owners::{OwnerSeat, Owners};
use slab_layer::{Held, Kind, Obj};
use std::alloc::{AllocError, Global};
use std::sync::Wait;
use std::sync::ledger::Blank;

/// What becomes the books of a kind: of what goes out of its cache and what comes in, and of what is put on its shelf and what is
/// got from there.
#[derive(Drop)]
pub(crate) struct KindBlanks {
    pub(crate) outs: Blank,
    pub(crate) ins: Blank,
    pub(crate) puts: Blank,
    pub(crate) gets: Blank,
}

impl KindBlanks {
    /// Blanks for up to 64 hands of each.
    pub(crate) fn new() -> KindBlanks
        ensures { AreWhole result }
    {
        KindBlanks {
            outs: Blank::new(65),
            ins: Blank::new(65),
            puts: Blank::new(65),
            gets: Blank::new(65),
        }
    }
}

/// A cache and a shelf of one kind.
pub(crate) struct Supply<K: Kind, L: Names> {
    pub(crate) cache: Cache<K, Outs<K, L>, Ins<K, L>>,
    pub(crate) shelf: Shelf<K, Puts<K, L>, Gets<K, L>>,
}

/// What supplies are closed with.
#[derive(Drop)]
pub(crate) struct Closing<'a, R: Wait> {
    pub(crate) rt: &'a R,
    pub(crate) arena: &'a ArenaLock,
    pub(crate) owners: &'a Owners,
    ghost slots: { ARENA_SLOTS ≤ owners.now.slots },
}

impl<K: Kind, L: Names> Supply<K, L> {
    /// A supply with that many hands at its cache and at its shelf. The blanks become their books.
    ///
    /// # Errors
    /// There was no memory. The cache and the shelf, where they were made, were closed with the hands that they made.
    pub(crate) fn open<R: Wait>(
        rt: &R,
        alloc: Global,
        arena: &ArenaLock,
        count: usize,
        blanks: KindBlanks,
    ) -> Result<(Supply<K, L>, FreePairs<K, L>), AllocError>
        requires blanks { AreFor (L.outs K.NUMBER) (L.ins K.NUMBER) (L.puts K.NUMBER) (L.gets K.NUMBER) blanks }
        requires count { count ≤ 64 }
        ensures { IfOk result (λ r. IsOpened count r.0 r.1) }
    {
        let mut free = FreePairs::new(alloc, count)?;
        let KindBlanks {
            outs,
            ins,
            puts,
            gets,
        } = blanks;
        let Ok(cache) = Cache::new(alloc, outs, ins) else {
            free.destroy_empty();
            return Err(AllocError);
        };
        let mut supply = Supply {
            cache,
            shelf: Shelf::new(puts, gets),
        };
        let Ok(()) = supply.fill(alloc, count, &mut free) else {
            supply.abandon(rt, arena, free);
            return Err(AllocError);
        };
        Ok((supply, free))
    }

    // Makes that many hands, or as many as there is memory for.
    fn fill(
        &mut self,
        alloc: Global,
        count: usize,
        free: &mut FreePairs<K, L>,
    ) -> Result<(), AllocError>
        requires unmade { (self.old.cache.hands ≡ 0) × (self.old.shelf.hands ≡ 0) }
        requires none { IsNone count free.old }
        requires count { count ≤ 64 }
        ensures made { HasMade self.new free.new }
        ensures unused { AreUnused (vec_len free.new.hands) free.new }
        ensures all { OnOk result (vec_len free.new.hands ≡ count) }
    {
        for _hand in 0..count {
            let hand = self.cache.hand(alloc)?;
            free.push_reserved(HandPair {
                hand,
                shelf_hand: self.shelf.hand(),
            });
        }
        Ok(())
    }

    /// Closes a supply with all its hands, with which nothing was done.
    pub(crate) fn abandon<R: Wait>(self, rt: &R, arena: &ArenaLock, free: FreePairs<K, L>)
        requires made { HasMade self free }
        requires unused { All (λ h. h ≡ new_hand) free.shelf_hands.items }
    {
        let Supply { cache, shelf } = self;
        let FreePairs { hands, shelf_hands } = free;
        let _ = cache.close(rt, hands, arena);
        let Left {
            object,
            puts: _,
            gets: _,
            misses: _,
        } = shelf.close(shelf_hands);
        match object {
            Some(_) => unreachable!(),
            None => {}
        }
    }

    /// Closes a supply with all hands that it made.
    pub(crate) fn close<R: Wait>(
        self,
        closing: &Closing<'_, R>,
        free: FreePairs<K, L>,
        seat: &mut OwnerSeat,
    ) -> (ShelfTotals, Totals)
        requires all { HasMade self free }
        requires some { HasHand free }
        requires idle { IsIdle closing.now.owners.now seat.old }
        ensures closed { IsClosed free result.0 result.1 }
        ensures seat { HasFetched result.0.left seat.old seat.new }
    {
        let Supply { cache, shelf } = self;
        let FreePairs {
            mut hands,
            shelf_hands,
        } = free;
        let Left {
            object,
            puts,
            gets,
            misses,
        } = shelf.close(shelf_hands);
        let left = closing.put_back(&cache, object, &mut hands[0], seat);
        let totals = cache.close(closing.rt, hands, closing.arena);
        let shelf_totals = ShelfTotals {
            puts,
            gets,
            left,
            misses,
        };
        (shelf_totals, totals)
    }
}

impl<'a, R: Wait> Closing<'a, R> {
    // Gives what a shelf held back to the cache, and returns how many objects that is: one, or none.
    fn put_back<K: Kind, L: Names>(
        &self,
        cache: &Cache<K, Outs<K, L>, Ins<K, L>>,
        object: Option<Obj<K, Held>>,
        hand: &mut Hand<K, Outs<K, L>, Ins<K, L>>,
        seat: &mut OwnerSeat,
    ) -> u64
        requires idle { IsIdle self.now.owners.now seat.old }
        ensures left { result ≡ one_if object }
        ensures hand { HasReturned result hand.old hand.new }
        ensures seat { HasFetched result seat.old seat.new }
    {
        let Some(object) = object else {
            return 0;
        };
        unshelve(self.owners, seat, K::NUMBER, object.slot());
        hand.give(self.rt, cache, object);
        1
    }
}
