//! Caches of objects of one kind, which many workers share.
//!
//! *The idea* (Bonwick 1994; Bonwick and Adams 2001). The inside of a cache lies under one lock, and each part of its depot
//! under another. A worker has a hand, and goes to a lock where the hand can't serve; the reaper goes there to give pages
//! back. The functions here lock, let what is there change by one of its methods, and let go.
//!
//! *The reason.* No clause names what a lock holds between two calls, so each of these functions says what it does to the
//! hand alone: to its rounds, and to its shares of the books. That is enough: what a share counts, a book counts too.

ghost use Rattle.std.specs.Prelude.{◌≡◌, ◌⊎◌, ◌+◌, ◌<◌, ◌≤◌, [], length, vec_len, sum_by, IfOk, OnOk, OnErr};
ghost use Rattle.magazine.specs.LayerView.{rounds_of, IsEmpty, IsFull};
ghost use Rattle.object_cache.specs.CacheView.{AreHomes};
ghost use Rattle.object_cache.specs.HandView.{fresh, refilled};
ghost use Rattle.object_cache.specs.declared.count.TheConstants.{MAX_HANDS, PARTS};

use crate::arena_lock::ArenaLock;
use crate::asking::{refill_anywhere, relieve_anywhere};
use crate::brief_lock::lock_briefly;
use crate::count::{MOST, PARTS};
use crate::fault::TakeFault;
use crate::hand::Hand;
use crate::inner::Inner;
use crate::part::{Part, gathered};
use crate::totals::Totals;
use magazine::Layer;
use slab_layer::{Kind, Obj, Ready};
use std::alloc::{AllocError, Global};
use std::marker::Model;
use std::sync::ledger::{Blank, Ledger, Share};
use std::sync::{Mutex, Wait};

/// The objects of a kind that all hands share. It must be closed. A part of the depot goes with each hand that is made, since
/// the hand needs its shares; one part always stays.
pub struct Cache<K: Kind, A: Ledger, B: Ledger> {
    inner: Mutex<Inner<K, A, B>>,
    parts: Vec<Mutex<Part<K, A, B>>>,
    hands: u64,
}

impl<K: Kind, A: Ledger, B: Ledger> Model for Cache<K, A, B> {
    ghost use Rattle.std.specs.Prelude.{◌≡◌, ◌+◌, ◌≤◌, vec_len};
    ghost use Rattle.object_cache.specs.CacheView.{CacheView};
    ghost use Rattle.object_cache.specs.declared.count.TheConstants.{MAX_HANDS, PARTS};

    ghost Value = { CacheView };

    ghost view = { λ c. record { hands = c.hands } };

    ghost invariant = { λ c. (c.hands ≤ MAX_HANDS) × (vec_len c.parts + c.hands ≡ PARTS) };
}

impl<K: Kind, A: Ledger, B: Ledger> Cache<K, A, B> {
    /// A cache with no object and no page, for up to `MAX_HANDS` hands. The blanks become its two books: of what leaves it for
    /// hands, and of what comes in from them.
    ///
    /// # Errors
    /// It fails only where an allocation fails; the blanks are gone then.
    pub fn new(alloc: Global, outs: Blank, ins: Blank) -> Result<Cache<K, A, B>, AllocError>
        requires names { (outs.name ≡ A.name) × (ins.name ≡ B.name) }
        requires parts { (outs.parts ≡ A.parts) × (ins.parts ≡ B.parts) }
        requires all { (A.parts ≡ PARTS) × (B.parts ≡ PARTS) }
        ensures { IfOk result (λ cache. cache.hands ≡ 0) }
    {
        let mut parts = Vec::with_capacity(alloc, PARTS as usize)?;
        let (mut outs, mut out_rest) = outs.open::<A>();
        let (mut ins, mut in_rest) = ins.open::<B>();
        for _i in 0..PARTS {
            let mut out_part = out_rest.split_off(1, 0);
            let mut in_part = in_rest.split_off(1, 0);
            outs.add(&mut out_part, MOST);
            ins.add(&mut in_part, MOST);
            parts.push_reserved(Mutex::new(Part::new(alloc, out_part, in_part)));
        }
        Ok(Cache {
            inner: Mutex::new(Inner::new(alloc, outs, ins)),
            parts,
            hands: 0,
        })
    }

    /// Makes a hand, one of `MAX_HANDS` at most.
    ///
    /// # Errors
    /// It fails only where an allocation fails, and the cache stays as it is.
    pub fn hand(&mut self, alloc: Global) -> Result<Hand<K, A, B>, AllocError>
        requires { self.old.hands < MAX_HANDS }
        ensures made { OnOk result (self.new.hands ≡ self.old.hands + 1) }
        ensures fresh { IfOk result (λ hand. hand ≡ fresh) }
        ensures unchanged { OnErr result (self.new ≡ self.old) }
    {
        let layer = Layer::new(alloc)?;
        let mut part = self.parts.pop().unwrap().into_inner();
        let mut heir = self.parts.pop().unwrap().into_inner();
        let moved = part.move_to(&mut heir);
        self.parts.push_reserved(Mutex::new(heir));
        if let Err(refused) = moved {
            self.parts.push_reserved(Mutex::new(part));
            layer.end();
            return Err(refused);
        }
        let (outs, ins, _) = part.end();
        let number = self.hands as usize;
        self.hands += 1;
        Ok(Hand {
            number,
            layer,
            outs,
            ins,
            allocs: 0,
            frees: 0,
            nulls: 0,
        })
    }

    // The parts of the depot that are the homes of hands: those from the first one on. The others never had a magazine.
    pub(crate) fn homes(&self) -> &[Mutex<Part<K, A, B>>]
        ensures { AreHomes self.now.hands (length result.now) }
    {
        let count = self.parts.len().min(self.hands as usize);
        &self.parts[..count]
    }

    // The part of the depot that a hand of this number goes to first. Where there are more hands than parts, the parts are dealt
    // to them in turn.
    fn home(&self, number: usize) -> &Mutex<Part<K, A, B>> {
        let count = self.parts.len();
        // A division takes as long as all that an exchange does under the lock, so it is made for those hands alone.
        if number < count {
            &self.parts[number]
        } else {
            &self.parts[number % count]
        }
    }

    // Gives a hand whose layer has no round at least one. It is kept apart, so that `Hand::take` stays short.
    #[inline(never)]
    pub(crate) fn supply<R: Wait>(
        &self,
        rt: &R,
        arena: &ArenaLock,
        number: usize,
        layer: &mut Layer<K>,
        outs: &mut Share<A>,
    ) -> Result<(), TakeFault>
        requires empty { IsEmpty layer.old }
        requires part { 0 < outs.old.parts }
        ensures parts { outs.new.parts ≡ outs.old.parts }
        ensures loaded { OnOk result (0 < length layer.new.loaded) }
        ensures even { OnOk result (outs.new.amount ≡ outs.old.amount + length (rounds_of layer.new)) }
        ensures fault { OnErr result ((layer.new ≡ layer.old) × (outs.new.amount ≡ outs.old.amount)) }
    {
        if lock_briefly(rt, self.home(number))
            .refill(layer, outs)
            .is_ok()
        {
            return Ok(());
        }
        self.supply_inside(rt, arena, number, layer, outs)
    }

    // The same where the hand's home has no full magazine. No other hand gets at the slabs until this one has its object. Where
    // another part has one, an empty one comes home from there.
    #[inline(never)]
    fn supply_inside<R: Wait>(
        &self,
        rt: &R,
        arena: &ArenaLock,
        number: usize,
        layer: &mut Layer<K>,
        outs: &mut Share<A>,
    ) -> Result<(), TakeFault>
        requires empty { IsEmpty layer.old }
        requires part { 0 < outs.old.parts }
        ensures parts { outs.new.parts ≡ outs.old.parts }
        ensures loaded { OnOk result (0 < length layer.new.loaded) }
        ensures even { OnOk result (outs.new.amount ≡ outs.old.amount + length (rounds_of layer.new)) }
        ensures fault { OnErr result ((layer.new ≡ layer.old) × (outs.new.amount ≡ outs.old.amount)) }
    {
        let object = {
            let mut inner = self.inner.lock(rt);
            match refill_anywhere(rt, self, layer, outs) {
                Ok(other) => {
                    self.bring_home(rt, other, number);
                    return Ok(());
                }
                Err(refusals) => inner.supply(rt, arena, outs, self, refusals)?,
            }
        };
        match layer.try_give(object.construct()) {
            Ok(()) => Ok(()),
            Err(_) => unreachable!(),
        }
    }

    // Moves an empty magazine from a part to another hand's home.
    fn bring_home<R: Wait>(&self, rt: &R, other: usize, number: usize) {
        let found = self.home(other).lock(rt).drain_empty();
        if let Some(magazine) = found {
            self.home(number).lock(rt).keep(magazine);
        }
    }

    // Takes an object back from a hand whose layer has no room. It is kept apart, so that `Hand::give` stays short.
    #[inline(never)]
    pub(crate) fn take_back<R: Wait>(
        &self,
        rt: &R,
        number: usize,
        layer: &mut Layer<K>,
        outs: &mut Share<A>,
        ins: &mut Share<B>,
        object: Obj<K, Ready>,
    )
        requires full { IsFull K.ROUNDS layer.old }
        requires parts { (0 < outs.old.parts) × (0 < ins.old.parts) }
        requires amount { K.ROUNDS ≤ outs.old.amount }
        ensures layer { (layer.new ≡ refilled layer.old object.slot) ⊎ (layer.new ≡ layer.old) }
        ensures parts { (outs.new.parts ≡ outs.old.parts) × (ins.new.parts ≡ ins.old.parts) }
        ensures even { outs.new.amount + ins.old.amount + length (rounds_of layer.old) + 1 ≡ outs.old.amount + ins.new.amount + length (rounds_of layer.new) }
        ensures lent { ins.old.amount ≤ ins.new.amount }
    {
        self.make_room(rt, number, layer, outs);
        if let Err(back) = layer.try_give(object) {
            self.inner.lock(rt).retire(rt, ins, back);
        }
    }

    // Makes room in a layer that has none: by an empty magazine of the hand's home, or else of any part, or else by a new
    // one. It makes none only for want of memory.
    fn make_room<R: Wait>(&self, rt: &R, number: usize, layer: &mut Layer<K>, outs: &mut Share<A>)
        requires full { IsFull K.ROUNDS layer.old }
        requires part { 0 < outs.old.parts }
        requires amount { K.ROUNDS ≤ outs.old.amount }
        ensures layer { (layer.new ≡ record { loaded = []; previous = layer.old.loaded }) ⊎ (layer.new ≡ layer.old) }
        ensures parts { outs.new.parts ≡ outs.old.parts }
        ensures even { outs.new.amount + length (rounds_of layer.old) ≡ outs.old.amount + length (rounds_of layer.new) }
    {
        let home = self.home(number);
        if lock_briefly(rt, home).relieve(layer, outs).is_ok() {
            return;
        }
        if let Err(refusals) = relieve_anywhere(rt, self, layer, outs) {
            home.lock(rt).make_room(layer, outs, self, refusals);
        }
    }

    // Sends the rounds of a hand's layer home.
    pub(crate) fn empty<R: Wait>(&self, rt: &R, layer: &mut Layer<K>, ins: &mut Share<B>)
        requires { 0 < ins.old.parts }
        ensures parts { ins.new.parts ≡ ins.old.parts }
        ensures empty { IsEmpty layer.new }
        ensures amount { ins.new.amount ≡ ins.old.amount + length (rounds_of layer.old) }
    {
        self.inner.lock(rt).empty(rt, layer, ins);
    }

    /// A pass of the reaper: the full magazines of the depot are emptied into the slabs, and each page with nothing out
    /// goes back to the arena. The answer is the number of pages that went back.
    pub fn reap_pass<R: Wait>(&self, rt: &R, arena: &ArenaLock) -> u32 {
        let mut inner = self.inner.lock(rt);
        for part in self.homes() {
            part.lock(rt).drain(rt, &mut *inner);
        }
        inner.give_pages(rt, arena)
    }

    /// How many slots are out of the slabs now, in hands, magazines or with clients. It is for tests: another worker may
    /// change it at once.
    pub fn out<R: Wait>(&self, rt: &R) -> u32 {
        self.inner.lock(rt).out()
    }

    /// Ends the cache with all hands that it made, and adds up what they did. Rounds and magazines go home first, and
    /// each page with nothing out goes back to the arena.
    pub fn close<R: Wait>(self, rt: &R, mut hands: Vec<Hand<K, A, B>>, arena: &ArenaLock) -> Totals
        requires all { vec_len hands ≡ self.hands }
        requires parts { (A.parts ≡ PARTS) × (B.parts ≡ PARTS) }
        ensures allocs { result.allocs ≡ sum_by (λ h. h.allocs) hands.items }
        ensures frees { result.frees ≡ sum_by (λ h. h.frees) hands.items }
        ensures nulls { result.nulls ≡ sum_by (λ h. h.nulls) hands.items }
        ensures balance { result.missing + result.frees ≡ result.allocs + result.foreign }
    {
        let Cache {
            inner,
            parts,
            hands: _,
        } = self;
        let mut inner = inner.into_inner();
        let (mut all_outs, mut all_ins, depot) = gathered(rt, &mut inner, parts);
        let pages = inner.pages();
        let mut allocs = 0;
        let mut frees = 0;
        let mut nulls = 0;
        while let Some(hand) = hands.pop() {
            allocs += hand.allocs;
            frees += hand.frees;
            nulls += hand.nulls;
            let (mut layer, outs, mut ins) = hand.end();
            inner.empty(rt, &mut layer, &mut ins);
            layer.end();
            all_outs.merge(outs);
            all_ins.merge(ins);
        }
        hands.destroy_empty();
        inner.give_pages(rt, arena);
        Totals::new(
            inner.end(all_outs, all_ins),
            allocs,
            frees,
            nulls,
            depot,
            pages,
        )
    }
}
