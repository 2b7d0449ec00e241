//! What lies in a place: a depot, and slabs.
//!
//! *The idea.* A hand that has a place for a moment does there what its layer can't do alone: it exchanges a magazine, or it gets an
//! object of the slabs. All places are alike. The hands use the depots of their homes, and the slabs of the last place, so the other
//! depot and the other slabs stay empty.
//!
//! *The invariant.* The strangers that came home are few enough that a whole hand, or a magazine, may still come.
//!
//! *The reason.* Each method says exactly what moves. So the weight of a place follows, though no clause names what lies in a place
//! between two calls.

ghost use Rattle.std.specs.Prelude.{◌≡◌, ℕ, ◌+◌, ◌/◌, ◌<◌, ◌≤◌, ◌^◌, ◌⊎◌, ◌↔◌, [], ◌∷◌, ◌++◌, length, map};
ghost use Rattle.std.specs.Prelude.{vec_len, vec_capacity, IsTrue, false, IfSome, IfNone, OnSome, OnOk, OnErr, IsPermutation};
ghost use Rattle.magazine.specs.LayerView.{rounds_of, IsEmpty, IsFull};
ghost use Rattle.slab_layer.specs.declared.kind.TheConstants.{PAGE_BYTES, SLOTS_OF_A_PAGE};
ghost use Rattle.slab_layer.specs.declared.place.Place.TheVariants.{Out};
ghost use Rattle.slab_layer.specs.Slots.{Has, IsHome, IsOut, Moves, out_count, place_of};
ghost use Rattle.slab_layer.specs.Growth.{GrowsBy, KeepsOut};
ghost use Rattle.slab_layer.specs.declared.growth.GrowFault.TheVariants.{NoMemory, NoPage};
ghost use Rattle.vmem_arena.specs.Spans.{AreFree};
ghost use Rattle.homing.specs.Homing.{SendsHome};
ghost use Rattle.shared_cache.specs.PlaceView.{empty_place};
ghost use Rattle.shared_cache.specs.declared.count.TheConstants.{MOST};

use crate::count::MOST;
use homing::{go_home, unload};
use magazine::{Depot, Layer, Magazine};
use shared_row::{Pass, Row, Scale};
use slab_layer::{GrowFault, Home, Kind, Obj, Ready, Slabs};
use std::alloc::Global;
use std::marker::Model;
use vmem_arena::Arena;

/// A depot and slabs. One that is dropped takes its objects with it.
pub struct Place<K: Kind> {
    // These keep what two threads write off one pair of lines of the processor's cache.
    before: [u64; 16],
    alloc: Global,
    depot: Depot<K>,
    pub slabs: Slabs<K>,
    foreign: u64,
    after: [u64; 16],
}

impl<K: Kind> Model for Place<K> {
    ghost use Rattle.std.specs.Prelude.{◌≤◌, ◌^◌};
    ghost use Rattle.shared_cache.specs.PlaceView.{PlaceView};

    ghost Value = { PlaceView };

    ghost view = { λ p. record { depot = p.depot; slabs = p.slabs; foreign = p.foreign } };

    ghost invariant = { λ p. p.foreign ≤ 2 ^ 57 };
}

/// What a place weighs: the slots that are out, on the left; strangers and the rounds of its depot, on the right.
pub struct Books;

impl<K: Kind> Scale<Box<Place<K>>> for Books {
    ghost use Rattle.shared_cache.specs.PlaceView.{ins, outs};

    ghost left = { λ b. outs b.value };

    ghost right = { λ b. ins b.value };
}

/// The places of a cache.
pub type Places<K> = Row<Box<Place<K>>, Books>;

/// What a hand takes them with.
pub type PlacePass<K> = Pass<Box<Place<K>>, Books>;

impl<K: Kind> Place<K> {
    /// No object. It takes no memory; the allocator serves the calls that do.
    pub fn new(alloc: Global) -> Place<K>
        ensures { result ≡ empty_place }
    {
        Place {
            before: [0; 16],
            alloc,
            depot: Depot::new(alloc),
            slabs: Slabs::new(alloc),
            foreign: 0,
            after: [0; 16],
        }
    }

    /// How many slots are out.
    pub fn out(&self) -> u32
        ensures { result ≡ out_count self.now.slabs }
    {
        self.slabs.out()
    }

    /// Its depot and its slabs, and how many strangers came home.
    pub fn end(self) -> (Depot<K>, Slabs<K>, u64)
        ensures { (result.0 ≡ self.depot) × (result.1 ≡ self.slabs) × (result.2 ≡ self.foreign) }
    {
        let Place {
            before: _,
            alloc: _,
            depot,
            slabs,
            foreign,
            after: _,
        } = self;
        (depot, slabs, foreign)
    }

    /// Gives a full magazine to a layer that has no round. True exactly where there is one.
    pub fn refill(&mut self, layer: &mut Layer<K>) -> bool
        requires { IsEmpty layer.old }
        ensures done { IsTrue result ↔ (0 < length self.old.depot.rounds) }
        ensures loaded { IsTrue result → (length layer.new.loaded ≡ K.ROUNDS) × (layer.new.previous ≡ []) }
        ensures rounds { IsTrue result → IsPermutation self.old.depot.rounds (layer.new.loaded ++ self.new.depot.rounds) }
        ensures counted { length self.new.depot.rounds + length (rounds_of layer.new) ≡ length self.old.depot.rounds + length (rounds_of layer.old) }
        ensures same { result ≡ false → (self.new ≡ self.old) × (layer.new ≡ layer.old) }
        ensures rest { (self.new.slabs ≡ self.old.slabs) × (self.new.foreign ≡ self.old.foreign) }
    {
        if !layer.refill(&mut self.depot) {
            return false;
        }
        true
    }

    /// Gives an empty magazine to a layer that has no room, or a new one where there is none. False only for want of memory.
    pub fn relieve(&mut self, layer: &mut Layer<K>) -> bool
        requires { IsFull K.ROUNDS layer.old }
        ensures done { 0 < self.old.depot.empties → IsTrue result }
        ensures made { IsTrue result → layer.new ≡ record { loaded = []; previous = layer.old.loaded } }
        ensures rounds { IsTrue result → IsPermutation (layer.old.previous ++ self.old.depot.rounds) self.new.depot.rounds }
        ensures counted { length self.new.depot.rounds + length (rounds_of layer.new) ≡ length self.old.depot.rounds + length (rounds_of layer.old) }
        ensures same { result ≡ false → (self.new ≡ self.old) × (layer.new ≡ layer.old) }
        ensures rest { (self.new.slabs ≡ self.old.slabs) × (self.new.foreign ≡ self.old.foreign) }
    {
        if layer.relieve(&mut self.depot) {
            return true;
        }
        self.add_empty() && layer.relieve(&mut self.depot)
    }

    // One empty magazine more. False only for want of memory.
    fn add_empty(&mut self) -> bool
        ensures added { IsTrue result → self.new.depot.empties ≡ self.old.depot.empties + 1 }
        ensures same { result ≡ false → self.new ≡ self.old }
        ensures rest { (self.new.depot.rounds ≡ self.old.depot.rounds) × (self.new.slabs ≡ self.old.slabs) × (self.new.foreign ≡ self.old.foreign) }
    {
        let Ok(magazine) = Magazine::new(self.alloc) else {
            return false;
        };
        match self.depot.add_empty(magazine) {
            Ok(()) => true,
            Err(back) => {
                back.end();
                false
            }
        }
    }

    /// Takes an object off the slabs. None only where none is home.
    pub fn take_home(&mut self) -> Option<Obj<K, Home>>
        ensures was_home { IfSome result (λ object. IsHome self.old.slabs object.slot) }
        ensures moved { IfSome result (λ object. Moves self.old.slabs self.new.slabs object.slot Out) }
        ensures counted { OnSome result (out_count self.new.slabs ≡ out_count self.old.slabs + 1) }
        ensures none { IfNone result ((slot : ℕ) → IsHome self.old.slabs slot → ⊥) }
        ensures unchanged { IfNone result (self.new ≡ self.old) }
        ensures rest { (self.new.depot ≡ self.old.depot) × (self.new.foreign ≡ self.old.foreign) }
    {
        self.slabs.take()
    }

    /// Adds a page of the arena to the slabs.
    ///
    /// # Errors
    /// [`GrowFault`] says why there is no page more.
    pub fn grow(&mut self, arena: &mut Arena) -> Result<(), GrowFault>
        ensures pages { arena.new.pages ≡ arena.old.pages }
        ensures grown { OnOk result (GrowsBy self.old.slabs self.new.slabs arena.old arena.new (PAGE_BYTES / K.SIZE)) }
        ensures home { OnOk result ((slot : ℕ) × IsHome self.new.slabs slot) }
        ensures counted { OnOk result (out_count self.new.slabs ≡ out_count self.old.slabs) }
        ensures no_page { result ≡ Err NoPage →
            ((page : ℕ) → AreFree arena.old page 1 → Has self.old.slabs page → ⊥) → (page : ℕ) → AreFree arena.old page 1 → ⊥ }
        ensures memory { result ≡ Err NoMemory → (page : ℕ) × AreFree arena.old page 1 }
        ensures unchanged { OnErr result ((self.new ≡ self.old) × KeepsOut arena.old arena.new) }
        ensures rest { (self.new.depot ≡ self.old.depot) × (self.new.foreign ≡ self.old.foreign) }
    {
        self.slabs.grow_from(arena)
    }

    /// Sends the rounds of a layer home to the slabs. False where some stay, since 2^56 strangers have come.
    pub fn empty_layer(&mut self, layer: &mut Layer<K>) -> bool
        ensures counted { out_count self.new.slabs + self.old.foreign + length (rounds_of layer.old) ≡
            out_count self.old.slabs + self.new.foreign + length (rounds_of layer.new) }
        ensures all { IsTrue result → IsEmpty layer.new × SendsHome self.old.slabs self.new.slabs (rounds_of layer.old) }
        ensures left { result ≡ false → MOST ≤ self.new.foreign }
        ensures rest { self.new.depot ≡ self.old.depot }
    {
        let Place { slabs, foreign, .. } = self;
        while *foreign < MOST {
            let Some(object) = layer.try_take() else {
                return true;
            };
            go_home(slabs, foreign, object);
        }
        false
    }

    /// Sends objects home to the slabs, the last one first. False where some stay, since 2^56 strangers have come.
    pub fn empty_aside(&mut self, aside: &mut Vec<Obj<K, Ready>>) -> bool
        ensures counted { out_count self.new.slabs + self.old.foreign + vec_len aside.old ≡
            out_count self.old.slabs + self.new.foreign + vec_len aside.new }
        ensures room { (vec_capacity aside.new ≡ vec_capacity aside.old) × (vec_len aside.new ≤ vec_len aside.old) }
        ensures all { IsTrue result → (aside.new.items ≡ []) × SendsHome self.old.slabs self.new.slabs (map (λ o. o.slot) aside.old.items) }
        ensures left { result ≡ false → MOST ≤ self.new.foreign }
        ensures rest { self.new.depot ≡ self.old.depot }
    {
        let Place { slabs, foreign, .. } = self;
        while *foreign < MOST {
            let Some(object) = aside.pop() else {
                return true;
            };
            go_home(slabs, foreign, object);
        }
        false
    }

    /// Sends the full magazines of another place home to the slabs here. False where some stay, since 2^56 strangers have come.
    pub fn drain(&mut self, from: &mut Place<K>) -> bool
        ensures counted { out_count self.new.slabs + self.old.foreign + length from.old.depot.rounds ≡
            out_count self.old.slabs + self.new.foreign + length from.new.depot.rounds }
        ensures all { IsTrue result → (from.new.depot.rounds ≡ []) × SendsHome self.old.slabs self.new.slabs from.old.depot.rounds }
        ensures left { result ≡ false → MOST ≤ self.new.foreign }
        ensures rest { (self.new.depot ≡ self.old.depot) × (from.new.slabs ≡ from.old.slabs) × (from.new.foreign ≡ from.old.foreign) }
    {
        let Place { slabs, foreign, .. } = self;
        while *foreign < MOST {
            let Some(magazine) = from.depot.drain_full() else {
                return true;
            };
            unload(slabs, foreign, magazine);
        }
        false
    }
}

// Ends an object that no slabs get back.
pub(crate) fn destroy<K: Kind>(alloc: Global, object: Obj<K, Ready>) {
    let mut none = Slabs::new(alloc);
    none.give(object.retire());
    none.end();
}

// Ends a full magazine with its rounds.
fn destroy_rounds<K: Kind>(alloc: Global, mut magazine: Magazine<K>) {
    while let Some(object) = magazine.pop() {
        destroy(alloc, object);
    }
    magazine.end();
}

impl<K: Kind> Drop for Place<K> {
    fn drop(self) {
        let Place {
            before: _,
            alloc,
            mut depot,
            slabs,
            foreign: _,
            after: _,
        } = self;
        while let Some(magazine) = depot.drain_full() {
            destroy_rounds(alloc, magazine);
        }
        depot.end();
        slabs.end();
    }
}
