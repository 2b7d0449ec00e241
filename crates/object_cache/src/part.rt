//! The parts of a cache's depot.
//!
//! *The idea.* Where all hands go to one depot, they wait for its lock. So the depot lies in parts, each under a lock of
//! its own. A hand goes to one part first, its home, which it shares with no other hand while these are few. It looks at
//! the others only where its home can't serve. A new magazine is made at home, and an exchange leaves as many magazines
//! where it is made. A hand that found a full one elsewhere brings an empty one home from there, so that its home has one to
//! exchange: so a worker that takes as much as it gives stays at home from then on.
//!
//! *The invariant.* A part has a share of each book, as a hand has. What the one counts is what the other counts and the
//! part's rounds.
//!
//! *The reason.* A magazine that goes from a hand to a part, or back, stays among those that left the inside of the cache.
//! So its rounds move from share to share, and neither the books nor the lock that they lie under are asked. A hand that
//! only gives has nothing to move. So 2^56 is in both shares from the start: it changes no sum, and no hand gives more.
//!
//! What a part held when it was asked can't be named once its lock is free. So a part that has nothing to give answers with
//! a refusal, which nothing else makes.

ghost use Rattle.std.specs.Prelude.{◌≡◌, ◌+◌, ◌^◌, ◌<◌, ◌≤◌, ◌↔◌, [], ◌++◌, length, false, vec_len, IsTrue, IsOk, IfSome, IfNone, OnOk, OnErr, IsPermutation};
ghost use Rattle.magazine.specs.LayerView.{rounds_of, IsEmpty, IsFull};
ghost use Rattle.object_cache.specs.CacheView.{AreHomes};
ghost use Rattle.homing.specs.Homing.{SendsHome};

use crate::activity::DepotCounts;
use crate::cache::Cache;
use crate::inner::Inner;
use magazine::{Depot, Layer, Magazine};
use slab_layer::Kind;
use std::alloc::{AllocError, Global};
use std::sync::ledger::{Ledger, Share};
use std::sync::{Mutex, Wait};

/// That a part had nothing to give when it was asked.
#[derive(Drop)]
pub struct Refusal(());

/// That n parts were asked one after another, and each had nothing to give. Only refusals add up to it.
#[derive(Drop)]
pub struct Refusals {
    count: usize,
}

impl Refusals {
    /// No part was asked.
    pub fn none() -> Refusals
        ensures { result.count ≡ 0 }
    {
        Refusals { count: 0 }
    }

    /// One more.
    pub fn add(&mut self, _refusal: Refusal)
        requires { self.old.count + 1 < 2 ^ 64 }
        ensures { self.new.count ≡ self.old.count + 1 }
    {
        self.count += 1;
    }
}

/// Full magazines and empty ones, with a share of each book.
pub struct Part<K: Kind, A: Ledger, B: Ledger> {
    alloc: Global,
    depot: Depot<K>,
    outs: Share<A>,
    ins: Share<B>,
    counts: DepotCounts,
    // It keeps what two workers write off one line of the processor's cache.
    apart: [u64; 16],
    ghost one_each: { (outs.parts ≡ 1) × (ins.parts ≡ 1) },
    ghost even: { outs.amount ≡ ins.amount + length depot.rounds },
    ghost lent: { 2 ^ 56 ≤ ins.amount },
}

impl<K: Kind, A: Ledger, B: Ledger> Part<K, A, B> {
    /// A part with no magazine. It takes no memory; the allocator serves the calls that do.
    pub fn new(alloc: Global, outs: Share<A>, ins: Share<B>) -> Part<K, A, B>
        requires one_each { (outs.parts ≡ 1) × (ins.parts ≡ 1) }
        requires lent { (outs.amount ≡ ins.amount) × (2 ^ 56 ≤ ins.amount) }
        ensures { (result.depot.rounds ≡ []) × (result.depot.empties ≡ 0) }
    {
        Part {
            alloc,
            depot: Depot::new(alloc),
            outs,
            ins,
            counts: DepotCounts::none(),
            apart: [0; 16],
        }
    }

    /// Gives a full magazine to a layer that has no round.
    pub fn refill(&mut self, layer: &mut Layer<K>, share: &mut Share<A>) -> Result<(), Refusal>
        requires empty { IsEmpty layer.old }
        requires part { 0 < share.old.parts }
        ensures parts { share.new.parts ≡ share.old.parts }
        ensures done { IsOk result ↔ (0 < length self.old.depot.rounds) }
        ensures loaded { OnOk result (length layer.new.loaded ≡ K.ROUNDS) }
        ensures previous { OnOk result (layer.new.previous ≡ []) }
        ensures amount { OnOk result (share.new.amount ≡ share.old.amount + K.ROUNDS) }
        ensures rounds { OnOk result (IsPermutation self.old.depot.rounds (layer.new.loaded ++ self.new.depot.rounds)) }
        ensures empties { OnOk result (self.new.depot.empties ≡ self.old.depot.empties + 1) }
        ensures unchanged { OnErr result ((layer.new ≡ layer.old) × (share.new.amount ≡ share.old.amount) × (self.new.depot ≡ self.old.depot)) }
    {
        let Part {
            depot,
            outs,
            counts,
            ..
        } = self;
        if !layer.refill(depot) {
            return Err(Refusal(()));
        }
        counts.exchange();
        outs.transfer(share, K::ROUNDS as u64);
        Ok(())
    }

    /// Gives an empty magazine to a layer that has no room.
    pub fn relieve(&mut self, layer: &mut Layer<K>, share: &mut Share<A>) -> Result<(), Refusal>
        requires full { IsFull K.ROUNDS layer.old }
        requires part { 0 < share.old.parts }
        requires amount { K.ROUNDS ≤ share.old.amount }
        ensures parts { share.new.parts ≡ share.old.parts }
        ensures done { IsOk result ↔ (0 < self.old.depot.empties) }
        ensures made { OnOk result (layer.new ≡ record { loaded = []; previous = layer.old.loaded }) }
        ensures amount { OnOk result (share.new.amount + K.ROUNDS ≡ share.old.amount) }
        ensures even { share.new.amount + length (rounds_of layer.old) ≡ share.old.amount + length (rounds_of layer.new) }
        ensures rounds { OnOk result (IsPermutation (layer.old.previous ++ self.old.depot.rounds) self.new.depot.rounds) }
        ensures empties { OnOk result (self.new.depot.empties + 1 ≡ self.old.depot.empties) }
        ensures unchanged { OnErr result ((layer.new ≡ layer.old) × (share.new.amount ≡ share.old.amount) × (self.new.depot ≡ self.old.depot)) }
    {
        let Part {
            depot,
            outs,
            counts,
            ..
        } = self;
        if !layer.relieve(depot) {
            return Err(Refusal(()));
        }
        counts.exchange();
        share.transfer(outs, K::ROUNDS as u64);
        Ok(())
    }

    // Makes an empty magazine. False only for want of memory.
    fn add_empty(&mut self) -> bool
        ensures added { IsTrue result → self.new.depot.empties ≡ self.old.depot.empties + 1 }
        ensures rounds { self.new.depot.rounds ≡ self.old.depot.rounds }
        ensures unchanged { result ≡ false → self.new.depot ≡ self.old.depot }
    {
        let Ok(magazine) = Magazine::new(self.alloc) else {
            return false;
        };
        match self.depot.add_empty(magazine) {
            Ok(()) => {
                self.counts.make();
                true
            }
            Err(back) => {
                back.end();
                false
            }
        }
    }

    /// Takes an empty magazine out. None only where there is none.
    pub fn drain_empty(&mut self) -> Option<Magazine<K>>
        ensures empty { IfSome result (λ magazine. magazine ≡ []) }
        ensures rounds { self.new.depot.rounds ≡ self.old.depot.rounds }
        ensures none { IfNone result (self.old.depot.empties ≡ 0) }
    {
        self.depot.drain_empty()
    }

    /// Adds an empty magazine. Where there is no memory for its place it is ended.
    pub fn keep(&mut self, magazine: Magazine<K>)
        requires { magazine ≡ [] }
        ensures { self.new.depot.rounds ≡ self.old.depot.rounds }
    {
        if let Err(back) = self.depot.add_empty(magazine) {
            back.end();
        }
    }

    /// Makes room in a layer that has none, where as many parts of the cache's depot as are homes had no empty magazine: by
    /// one that came here since, or by a new one. False only for want of memory.
    pub fn make_room(
        &mut self,
        layer: &mut Layer<K>,
        share: &mut Share<A>,
        _cache: &Cache<K, A, B>,
        _refusals: Refusals,
    ) -> bool
        requires full { IsFull K.ROUNDS layer.old }
        requires part { 0 < share.old.parts }
        requires amount { K.ROUNDS ≤ share.old.amount }
        requires refused { AreHomes _cache.now.hands _refusals.count }
        ensures parts { share.new.parts ≡ share.old.parts }
        ensures empties { (0 < self.old.depot.empties) → IsTrue result }
        ensures made { IsTrue result → layer.new ≡ record { loaded = []; previous = layer.old.loaded } }
        ensures amount { IsTrue result → share.new.amount + K.ROUNDS ≡ share.old.amount }
        ensures even { share.new.amount + length (rounds_of layer.old) ≡ share.old.amount + length (rounds_of layer.new) }
        ensures rounds { IsTrue result → IsPermutation (layer.old.previous ++ self.old.depot.rounds) self.new.depot.rounds }
        ensures unchanged { result ≡ false → (layer.new ≡ layer.old) × (share.new.amount ≡ share.old.amount) × (self.new.depot ≡ self.old.depot) }
    {
        if self.relieve(layer, share).is_ok() {
            return true;
        }
        self.add_empty() && self.relieve(layer, share).is_ok()
    }

    /// Sends the rounds of all full magazines home, and ends these.
    pub fn drain<R: Wait>(&mut self, rt: &R, inner: &mut Inner<K, A, B>)
        ensures empty { self.new.depot.rounds ≡ [] }
        ensures sent { SendsHome inner.old.slabs inner.new.slabs self.old.depot.rounds }
    {
        while let Some(magazine) = self.depot.drain_full() {
            inner.unload(rt, &mut self.ins, magazine);
        }
    }

    /// Moves all full magazines to another part, and what was counted. Where memory is refused, some of them may have moved.
    pub fn move_to(&mut self, heir: &mut Part<K, A, B>) -> Result<(), AllocError>
        ensures { OnOk result (self.new.depot.rounds ≡ []) }
    {
        while self.depot.move_full(&mut heir.depot)? {
            self.outs.transfer(&mut heir.outs, K::ROUNDS as u64);
        }
        heir.counts.add(self.counts);
        Ok(())
    }

    /// Ends a part that has no round. What is left are its shares, which count the same, and what it did.
    pub fn end(self) -> (Share<A>, Share<B>, DepotCounts)
        requires { self.depot.rounds ≡ [] }
        ensures one_each { (result.0.parts ≡ 1) × (result.1.parts ≡ 1) }
        ensures even { (result.0.amount ≡ result.1.amount) × (2 ^ 56 ≤ result.1.amount) }
    {
        let Part {
            alloc: _,
            depot,
            outs,
            ins,
            counts,
            apart: _,
        } = self;
        depot.end();
        (outs, ins, counts)
    }
}

/// The shares of all parts together, whose rounds go home, and what the parts did.
pub fn gathered<K: Kind, A: Ledger, B: Ledger, R: Wait>(
    rt: &R,
    inner: &mut Inner<K, A, B>,
    mut parts: Vec<Mutex<Part<K, A, B>>>,
) -> (Share<A>, Share<B>, DepotCounts)
    requires { 0 < vec_len parts }
    ensures parts { (result.0.parts ≡ vec_len parts) × (result.1.parts ≡ vec_len parts) }
    ensures even { result.0.amount ≡ result.1.amount }
{
    let mut first = parts.pop().unwrap().into_inner();
    first.drain(rt, inner);
    let (mut all_outs, mut all_ins, mut all_counts) = first.end();
    while let Some(part) = parts.pop() {
        let mut part = part.into_inner();
        part.drain(rt, inner);
        let (outs, ins, counts) = part.end();
        all_outs.merge(outs);
        all_ins.merge(ins);
        all_counts.add(counts);
    }
    parts.destroy_empty();
    (all_outs, all_ins, all_counts)
}
