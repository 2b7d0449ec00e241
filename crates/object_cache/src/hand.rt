//! Hands: what one worker takes objects with, and gives them back.
//!
//! *The idea* (Bonwick and Adams 2001, section 3.1). Each worker has a layer of its own, from which it takes and to
//! which it gives without asking anybody. Where the layer can't serve it goes to a part of the cache's depot, and then
//! to the cache's lock.
//!
//! *The invariant.* The objects that left the inside of the cache for this hand, and those that were given back to it,
//! are as many as those that it sent in, those that it gave out, and its rounds.
//!
//! *The reason.* Each call changes as much on the one side as on the other. What left and what came in is in the
//! hand's shares of the cache's books, of which the inside knows the totals: so when a cache is closed, the counts of
//! all hands can be compared with what is out of its slabs.

ghost use Rattle.std.specs.Prelude.{◌≡◌, ◌⊎◌, ◌≤◌, ℕ, ◌+◌, ◌^◌, ◌∷◌, length, replicate, IsOk, IfOk, OnErr, MatchResult, IsPermutation};
ghost use Rattle.magazine.specs.LayerView.{rounds_of, IsEmpty, IsFull};
ghost use Rattle.object_cache.specs.HandView.{HasRound, HasRoom, IsHand, refilled};

use crate::arena_lock::ArenaLock;
use crate::cache::Cache;
use crate::count::{MOST, count, wait_for_ever};
use crate::fault::TakeFault;
use magazine::Layer;
use slab_layer::{Held, Kind, Obj};
use std::marker::Model;
use std::sync::Wait;
use std::sync::ledger::{Ledger, Share};

/// What a worker takes objects of a cache with. It must be handed to `Cache::close`. Its type says by the two ledgers
/// which cache made it, and its number is how many hands that one had made before.
pub struct Hand<K: Kind, A: Ledger, B: Ledger> {
    pub(crate) number: usize,
    pub(crate) layer: Layer<K>,
    pub(crate) outs: Share<A>,
    pub(crate) ins: Share<B>,
    pub(crate) allocs: u64,
    pub(crate) frees: u64,
    pub(crate) nulls: u64,
}

impl<K: Kind, A: Ledger, B: Ledger> Model for Hand<K, A, B> {
    ghost use Rattle.object_cache.specs.HandView.{HandView, IsHand};

    ghost Value = { HandView };

    ghost view = { λ h. record { layer = h.layer; allocs = h.allocs; frees = h.frees; nulls = h.nulls } };

    ghost invariant = { λ h. IsHand (record { layer = h.layer; allocs = h.allocs; frees = h.frees; nulls = h.nulls })
        h.outs.parts h.outs.amount h.ins.parts h.ins.amount };
}

impl<K: Kind, A: Ledger, B: Ledger> Hand<K, A, B> {
    /// Takes an object, with its image: a round of this hand; else one of a full magazine of the depot, which this hand
    /// then has; else one of the slabs, which grow by a page of the arena where none is home. It waits for the two
    /// locks, the arena's inside the cache's, and for ever past 2^56 calls. The cache is the one that made this hand.
    ///
    /// The parts of the depot are looked at one after another. While no other hand is at work, all of them are searched; else
    /// a take may be refused although the depot had a full magazine at each moment.
    ///
    /// # Errors
    /// `NoSpan` where the arena had no page for the slabs, and `NoMemory` where a page's objects found no memory: nothing was
    /// taken, which is counted.
    #[inline(always)]
    pub fn take<R: Wait>(
        &mut self,
        rt: &R,
        cache: &Cache<K, A, B>,
        arena: &ArenaLock,
    ) -> Result<Obj<K, Held>, TakeFault>
        ensures size { IfOk result (λ object. length object.bytes.value.items ≡ K.SIZE) }
        ensures image { IfOk result (λ object. object.bytes.value.items ≡ replicate K.SIZE K.FILL) }
        ensures allocs { MatchResult result (λ _. self.new.allocs ≡ self.old.allocs + 1) (λ _. self.new.allocs ≡ self.old.allocs) }
        ensures nulls { MatchResult result (λ _. self.new.nulls ≡ self.old.nulls) (λ _. self.new.nulls ≡ self.old.nulls + 1) }
        ensures frees { self.new.frees ≡ self.old.frees }

        // A round of this hand goes before all else.
        ensures round { HasRound self.old.layer → IsOk result }
        ensures taken { IfOk result (λ object. HasRound self.old.layer → IsPermutation (rounds_of self.old.layer) (object.slot ∷ rounds_of self.new.layer)) }
        ensures fault { OnErr result (IsEmpty self.old.layer × (self.new.layer ≡ self.old.layer)) }
    {
        let object = match self.layer.try_take() {
            Some(object) => object,
            None => {
                let (number, layer) = (self.number, &mut self.layer);
                if let Err(fault) = cache.supply(rt, arena, number, layer, &mut self.outs) {
                    count(rt, &mut self.nulls);
                    return Err(fault);
                }
                match self.layer.try_take() {
                    Some(object) => object,
                    None => unreachable!(),
                }
            }
        };
        if self.allocs >= MOST {
            wait_for_ever(rt);
        }
        self.allocs += 1;
        Ok(object.hold())
    }

    /// Gives an object back, with its image restored: to this hand's layer; where that has no room, an empty magazine of
    /// the depot makes some, or a new one; where there is no memory for it, the object goes home to the slabs. It waits
    /// for the cache's lock, and for ever past 2^56 calls. The cache is the one that made this hand.
    ///
    /// While other hands are at work, a new magazine may be made although the depot had an empty one at each moment.
    #[inline(always)]
    pub fn give<R: Wait>(&mut self, rt: &R, cache: &Cache<K, A, B>, object: Obj<K, Held>)
        ensures frees { self.new.frees ≡ self.old.frees + 1 }
        ensures few { self.new.frees ≤ 2 ^ 56 }
        ensures allocs { (self.new.allocs ≡ self.old.allocs) × (self.new.nulls ≡ self.old.nulls) }
        ensures given { HasRoom K.ROUNDS self.old.layer → IsPermutation (object.slot ∷ rounds_of self.old.layer) (rounds_of self.new.layer) }

        // Where there is no room, the object becomes the one round of an empty magazine, or goes home.
        ensures full { IsFull K.ROUNDS self.old.layer → (self.new.layer ≡ refilled self.old.layer object.slot) ⊎ (self.new.layer ≡ self.old.layer) }
    {
        if self.frees >= MOST {
            wait_for_ever(rt);
        }
        self.frees += 1;
        let Err(back) = self.layer.try_give(object.restore()) else {
            return;
        };
        cache.take_back(
            rt,
            self.number,
            &mut self.layer,
            &mut self.outs,
            &mut self.ins,
            back,
        );
    }

    /// What the hand has: its layer, and its shares of both books.
    pub(crate) fn end(self) -> (Layer<K>, Share<A>, Share<B>)
        ensures layer { result.0 ≡ self.layer }
        ensures shares { IsHand self result.1.parts result.1.amount result.2.parts result.2.amount }
    {
        let Hand {
            number: _,
            layer,
            outs,
            ins,
            allocs: _,
            frees: _,
            nulls: _,
        } = self;
        (layer, outs, ins)
    }

    /// Sends all rounds of this hand home to the slabs. It waits for the cache's lock. The cache is the one that made
    /// this hand.
    pub fn flush<R: Wait>(&mut self, rt: &R, cache: &Cache<K, A, B>)
        ensures empty { IsEmpty self.new.layer }
        ensures counts { (self.new.allocs ≡ self.old.allocs) × (self.new.frees ≡ self.old.frees) × (self.new.nulls ≡ self.old.nulls) }
    {
        cache.empty(rt, &mut self.layer, &mut self.ins);
    }
}
