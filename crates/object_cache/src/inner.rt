//! The inside of a cache, which all its hands share under one lock.
//!
//! *The idea* (Bonwick 1994). Below the hands and the depot lie the slabs. Where no magazine serves, a hand gets one object
//! of the slabs, which grow by a page where none is home. Rounds come home where a hand is flushed, where the reaper
//! empties a magazine, and where there is no memory for one.
//!
//! *The invariant.* Two books count the objects that left for hands and those that came in. The slots that are out of the
//! slabs, and the objects that came in, are as many as the objects that left, and those that came home as strangers.
//!
//! *The reason.* What a hand or a part of the depot keeps can't be seen from here, and what is here can't be seen from
//! there. But each step moves as much in a book as in a share of it, so the sums agree when all shares are together again.
//! Each change is a method that does the whole of it, so the equation holds whenever the lock is free.

ghost use Rattle.std.specs.Prelude.{◌≡◌, ℕ, ◌+◌, ◌/◌, ◌^◌, ◌<◌, ◌≤◌, ◌↔◌, ◌⊎◌, [], ◌∷◌, ◌++◌, length, false, None};
ghost use Rattle.std.specs.Prelude.{Contains, IsTrue, IsSome, IsOk, IfOk, OnOk, OnErr, IfSome, IfNone, MatchOption, IsPermutation};
ghost use Rattle.vmem_arena.specs.Spans.{AreFree};
ghost use Rattle.slab_layer.specs.declared.kind.TheConstants.{PAGE_BYTES, SLOTS_OF_A_PAGE};
ghost use Rattle.slab_layer.specs.Slots.{IsHome, IsOut, Has, Moves, TakesOut, out_count, place_of};
ghost use Rattle.slab_layer.specs.declared.place.Place.TheVariants.{Out};
ghost use Rattle.magazine.specs.LayerView.{rounds_of, IsEmpty};
ghost use Rattle.object_cache.specs.CacheView.{AreHomes};
ghost use Rattle.slab_layer.specs.Growth.{GrowsBy, KeepsOut};
ghost use Rattle.homing.specs.Homing.{SendsHome};

use crate::activity::PageCounts;
use crate::arena_lock::ArenaLock;
use crate::cache::Cache;
use crate::count::wait_past_most;
use crate::fault::TakeFault;
use crate::part::Refusals;
use homing::{Remains, give_pages, go_home, unload};
use magazine::{Layer, Magazine};
use slab_layer::{GrowFault, Home, Kind, Obj, Ready, Slabs};
use std::alloc::Global;
use std::sync::Wait;
use std::sync::ledger::{Book, Ledger, Share};
use vmem_arena::Arena;

/// Slabs and books.
pub struct Inner<K: Kind, A: Ledger, B: Ledger> {
    slabs: Slabs<K>,
    outs: Book<A>,
    ins: Book<B>,
    foreign: u64,
    pages: PageCounts,
    ghost even: { out_count slabs + ins.total ≡ outs.total + foreign },
    ghost few: { foreign ≤ 2 ^ 56 },
}

impl<K: Kind, A: Ledger, B: Ledger> Inner<K, A, B> {
    /// No object. It takes no memory; the allocator serves the calls that do.
    pub fn new(alloc: Global, outs: Book<A>, ins: Book<B>) -> Inner<K, A, B>
        requires { outs.total ≡ ins.total }
        ensures { (result.slabs ≡ []) × (result.foreign ≡ 0) }
    {
        Inner {
            slabs: Slabs::new(alloc),
            outs,
            ins,
            foreign: 0,
            pages: PageCounts::none(),
        }
    }

    /// How many slots are out.
    pub fn out(&self) -> u32
        ensures { result ≡ out_count self.now.slabs }
    {
        self.slabs.out()
    }

    // Takes an object off the slabs.
    fn take_home(&mut self, share: &mut Share<A>) -> Option<Obj<K, Home>>
        requires { 0 < share.old.parts }
        ensures parts { share.new.parts ≡ share.old.parts }
        ensures amount { MatchOption result (share.new.amount ≡ share.old.amount) (λ _. share.new.amount ≡ share.old.amount + 1) }
        ensures was_home { IfSome result (λ object. IsHome self.old.slabs object.slot) }
        ensures moved { IfSome result (λ object. Moves self.old.slabs self.new.slabs object.slot Out) }
        ensures none { IfNone result ((slot : ℕ) → IsHome self.old.slabs slot → ⊥) }
        ensures unchanged { IfNone result (self.new.slabs ≡ self.old.slabs) }
        ensures foreign { self.new.foreign ≡ self.old.foreign }
    {
        let Inner { slabs, outs, .. } = self;
        let object = slabs.take()?;
        outs.add(share, 1);
        Some(object)
    }

    // Adds a page of the arena to the slabs.
    fn grow(&mut self, arena: &mut Arena) -> Result<(), TakeFault>
        ensures pages { arena.new.pages ≡ arena.old.pages }
        ensures grown { OnOk result (GrowsBy self.old.slabs self.new.slabs arena.old arena.new (PAGE_BYTES / K.SIZE)) }
        ensures home { OnOk result ((slot : ℕ) × IsHome self.new.slabs slot) }
        ensures no_page { result ≡ Err TakeFault.NoSpan →
            ((page : ℕ) → AreFree arena.old page 1 → Has self.old.slabs page → ⊥) → (page : ℕ) → AreFree arena.old page 1 → ⊥ }
        ensures unchanged { OnErr result ((self.new.slabs ≡ self.old.slabs) × KeepsOut arena.old arena.new) }
        ensures foreign { self.new.foreign ≡ self.old.foreign }
    {
        match self.slabs.grow_from(arena) {
            Ok(()) => {
                self.pages.take();
                Ok(())
            }
            Err(GrowFault::NoPage) => Err(TakeFault::NoSpan),
            Err(GrowFault::NoMemory) => Err(TakeFault::NoMemory),
        }
    }

    /// Takes an object off the slabs, where as many parts of the cache's depot as are homes had no full magazine. These grow
    /// by a page where none is home; no other hand gets in between, since the arena's lock is taken inside the cache's.
    pub fn supply<R: Wait>(
        &mut self,
        rt: &R,
        arena: &ArenaLock,
        share: &mut Share<A>,
        _cache: &Cache<K, A, B>,
        _refusals: Refusals,
    ) -> Result<Obj<K, Home>, TakeFault>
        requires part { 0 < share.old.parts }
        requires refused { AreHomes _cache.now.hands _refusals.count }
        ensures parts { share.new.parts ≡ share.old.parts }
        ensures amount { OnOk result (share.new.amount ≡ share.old.amount + 1) }

        // An object that is home goes before a page more.
        ensures home { (slot : ℕ) → IsHome self.old.slabs slot → IsOk result }
        ensures kept { (slot : ℕ) → IsHome self.old.slabs slot → (x : ℕ) → place_of self.old.slabs x ≡ None → place_of self.new.slabs x ≡ None }
        ensures out { IfOk result (λ object. TakesOut self.old.slabs self.new.slabs object.slot) }
        ensures fault { OnErr result ((share.new.amount ≡ share.old.amount) × (self.new.slabs ≡ self.old.slabs)) }
    {
        if let Some(object) = self.take_home(share) {
            return Ok(object);
        }
        self.grow(&mut *arena.arena.lock(rt))?;
        match self.take_home(share) {
            Some(object) => Ok(object),
            None => unreachable!(),
        }
    }

    /// Sends an object home.
    pub fn retire<R: Wait>(&mut self, rt: &R, share: &mut Share<B>, object: Obj<K, Ready>)
        requires { 0 < share.old.parts }
        ensures parts { share.new.parts ≡ share.old.parts }
        ensures amount { share.new.amount ≡ share.old.amount + 1 }
        ensures sent { SendsHome self.old.slabs self.new.slabs (object.slot ∷ []) }
        ensures stranger { (IsOut self.old.slabs object.slot → ⊥) → self.new.foreign ≡ self.old.foreign + 1 }
    {
        let Inner {
            slabs,
            ins,
            foreign,
            ..
        } = self;
        go_home(slabs, foreign, object);
        wait_past_most(rt, *foreign);
        ins.add(share, 1);
    }

    /// Sends the rounds of a full magazine home, and ends it.
    pub fn unload<R: Wait>(&mut self, rt: &R, share: &mut Share<B>, magazine: Magazine<K>)
        requires full { length magazine ≡ K.ROUNDS }
        requires part { 0 < share.old.parts }
        ensures parts { share.new.parts ≡ share.old.parts }
        ensures amount { share.new.amount ≡ share.old.amount + K.ROUNDS }
        ensures sent { SendsHome self.old.slabs self.new.slabs magazine }
    {
        let Inner {
            slabs,
            ins,
            foreign,
            ..
        } = self;
        unload(slabs, foreign, magazine);
        wait_past_most(rt, *foreign);
        ins.add(share, K::ROUNDS as u64);
    }

    /// Sends all rounds of a layer home.
    pub fn empty<R: Wait>(&mut self, rt: &R, layer: &mut Layer<K>, share: &mut Share<B>)
        requires { 0 < share.old.parts }
        ensures parts { share.new.parts ≡ share.old.parts }
        ensures empty { IsEmpty layer.new }
        ensures amount { share.new.amount ≡ share.old.amount + length (rounds_of layer.old) }
        ensures sent { SendsHome self.old.slabs self.new.slabs (rounds_of layer.old) }
    {
        while let Some(object) = layer.try_take() {
            self.retire(rt, share, object);
        }
    }

    /// Which pages the slabs had.
    pub fn pages(&self) -> PageCounts {
        self.pages
    }

    /// Gives each page with nothing out back to the arena; the answer is how many it took.
    pub fn give_pages<R: Wait>(&mut self, rt: &R, arena: &ArenaLock) -> u32
        ensures out { (slot : ℕ) → IsOut self.new.slabs slot ↔ IsOut self.old.slabs slot }
        ensures busy { (page : ℕ) → Has self.new.slabs page → (slot : ℕ) × (slot / SLOTS_OF_A_PAGE ≡ page) × IsOut self.new.slabs slot }
    {
        let pages = give_pages(&mut self.slabs, &mut *arena.arena.lock(rt));
        self.pages.reap(pages);
        pages
    }

    /// Ends the inside, with all shares of both books: so no hand and no part of the depot has one any more.
    pub fn end(self, mut all_outs: Share<A>, mut all_ins: Share<B>) -> Remains
        requires whole { (all_outs.parts ≡ A.parts) × (all_ins.parts ≡ B.parts) }
        ensures missing { result.missing ≡ out_count self.slabs }
        ensures foreign { result.foreign ≡ self.foreign }
        ensures even { result.missing + all_ins.amount ≡ all_outs.amount + result.foreign }
    {
        let Inner {
            slabs,
            mut outs,
            mut ins,
            foreign,
            pages: _,
        } = self;
        outs.audit(&mut all_outs);
        ins.audit(&mut all_ins);
        Remains::of(slabs, foreign)
    }
}
