//! What a hand has: the rounds of its layer, and what lies aside.
//!
//! *The order.* To take: a round of the layer; else what lies aside; else a full magazine of a depot that is free, from the hand's home
//! on; else an object of the slabs. To give: into the layer; else a magazine of a depot that is free, or a new one, makes room; else
//! aside.
//!
//! *The reason.* What the pass gained is what there is more here. The layer serves without asking anybody, so what is here begins where
//! it can't.

ghost use Rattle.std.specs.Prelude.{◌≡◌, ◌⊎◌, ◌+◌, ◌-◌, ◌<◌, ◌≤◌, ◌^◌, [], ◌∷◌, ◌++◌, length, vec_len, vec_capacity};
ghost use Rattle.std.specs.Prelude.{IsTrue, IsOk, IfOk, IfErr, OnErr, MatchResult};
ghost use Rattle.magazine.specs.LayerView.{IsEmpty, IsFull};
ghost use Rattle.slab_layer.specs.Slots.{out_count};
ghost use Rattle.shared_row.specs.Views.{IsIdleAt};
ghost use Rattle.shared_cache.specs.Asking.{AllAsked, Found, FoundBusy, FoundFree, Moves};
ghost use Rattle.shared_cache.specs.Faults.{InSlabs};
ghost use Rattle.shared_cache.specs.HandView.{objects, refilled};

use crate::arena::{ArenaPass, SharedArena};
use crate::count::MOST_LENT;
use crate::depots::{refill_anywhere, relieve_anywhere};
use crate::fault::TakeFault;
use crate::place::{PlacePass, Places, destroy};
use crate::soon::take_soon;
use crate::supply::supply_at;
use homing::go_home;
use magazine::Layer;
use slab_layer::{Kind, Obj, Ready, Slabs};
use std::alloc::{AllocError, Global};

/// The objects of a hand. One that is dropped takes its objects with it.
pub struct Rack<K: Kind> {
    alloc: Global,
    home: usize,
    pub layer: Layer<K>,
    pub aside: Vec<Obj<K, Ready>>,
}

impl<K: Kind> Drop for Rack<K> {
    fn drop(self) {
        let Rack {
            alloc,
            home: _,
            mut layer,
            mut aside,
        } = self;
        while let Some(object) = layer.try_take() {
            destroy(alloc, object);
        }
        layer.end();
        while let Some(object) = aside.pop() {
            destroy(alloc, object);
        }
        aside.destroy_empty();
    }
}

impl<K: Kind> Rack<K> {
    /// No object, and room aside for as many as a hand lends.
    pub fn new(alloc: Global, home: usize) -> Result<Rack<K>, AllocError>
        ensures empty { IfOk result (λ r. IsEmpty r.layer × (r.aside.items ≡ [])) }
        ensures room { IfOk result (λ r. MOST_LENT ≤ vec_capacity r.aside) }
    {
        let layer = Layer::new(alloc)?;
        match Vec::with_capacity(alloc, MOST_LENT as usize) {
            Ok(aside) => Ok(Rack {
                alloc,
                home,
                layer,
                aside,
            }),
            Err(failed) => {
                layer.end();
                Err(failed)
            }
        }
    }

    // The first depot that is asked.
    fn first(&self, row: &Places<K>) -> usize
        requires { 1 < row.now.places }
        ensures { result + 1 < row.now.places }
    {
        if self.home < row.places() - 1 {
            self.home
        } else {
            0
        }
    }

    /// Finds an object where the layer has none.
    #[inline(never)]
    pub fn find(
        &mut self,
        row: &Places<K>,
        pass: &mut PlacePass<K>,
        arena: &SharedArena,
        pages: &mut ArenaPass,
        pauses: u32,
    ) -> Result<Obj<K, Ready>, TakeFault>
        requires empty { IsEmpty self.old.layer }
        requires places { 1 < row.now.places }
        requires pass { IsIdleAt row.now.table pass.old }
        requires pages { IsIdleAt arena.now.table pages.old }
        ensures pages { Moves pages.old pages.new 0 0 }
        ensures moves { MatchResult result
            (λ _. Moves pass.old pass.new (objects self.new.layer self.new.aside.items + 1) (objects self.old.layer self.old.aside.items))
            (λ _. Moves pass.old pass.new (objects self.new.layer self.new.aside.items) (objects self.old.layer self.old.aside.items)) }
        ensures aside { IfOk result (λ object. 0 < vec_len self.old.aside →
            (self.old.aside.items ≡ self.new.aside.items ++ object ∷ []) × (self.new.layer ≡ self.old.layer) × (pass.new ≡ pass.old)) }
        ensures some { 0 < vec_len self.old.aside → IsOk result }
        ensures order { IfOk result (λ _. vec_len self.old.aside ≡ 0 → FoundFree pass.old.notes pass.new.notes (row.now.places - 1)
            ⊎ AllAsked pass.old.notes pass.new.notes (row.now.places - 1)) }
        ensures none { self.old.aside.items ≡ [] → self.new.aside.items ≡ [] }
        ensures capacity { vec_capacity self.new.aside ≡ vec_capacity self.old.aside }
        ensures unchanged { OnErr result ((self.new.layer ≡ self.old.layer) × (self.new.aside.items ≡ self.old.aside.items)) }
        ensures depots { OnErr result (AllAsked pass.old.notes pass.new.notes (row.now.places - 1)) }
        ensures why { IfErr result (λ fault.
            InSlabs fault (row.now.places - 1) pass.old.notes pass.new.notes pages.old.notes pages.new.notes) }
    {
        if let Some(object) = self.aside.pop() {
            return Ok(object);
        }
        let first = self.first(row);
        if !refill_anywhere(row, pass, &mut self.layer, first) {
            return supply_at(row, pass, arena, pages, pauses);
        }
        match self.layer.try_take() {
            Some(object) => Ok(object),
            None => unreachable!(),
        }
    }

    /// Puts an object away where the layer has no room.
    #[inline(never)]
    pub fn keep(&mut self, row: &Places<K>, pass: &mut PlacePass<K>, object: Obj<K, Ready>)
        requires full { IsFull K.ROUNDS self.old.layer }
        requires room { vec_len self.old.aside < vec_capacity self.old.aside }
        requires places { 1 < row.now.places }
        requires pass { IsIdleAt row.now.table pass.old }
        ensures moves { Moves pass.old pass.new (objects self.new.layer self.new.aside.items) (objects self.old.layer self.old.aside.items + 1) }
        ensures kept { ((self.new.layer ≡ refilled self.old.layer object.slot) × (self.new.aside ≡ self.old.aside))
            ⊎ ((self.new.layer ≡ self.old.layer) × (self.new.aside.items ≡ self.old.aside.items ++ object ∷ [])
            × AllAsked pass.old.notes pass.new.notes (row.now.places - 1)) }
        ensures capacity { vec_capacity self.new.aside ≡ vec_capacity self.old.aside }
    {
        let first = self.first(row);
        if !relieve_anywhere(row, pass, &mut self.layer, first) {
            self.aside.push_reserved(object);
            return;
        }
        match self.layer.try_give(object) {
            Ok(()) => {}
            Err(_) => unreachable!(),
        }
    }

    /// Sends all objects home to the slabs in the last place of a row. False where some stay: another hand has that place, or too many
    /// strangers came.
    pub fn send_home(&mut self, row: &Places<K>, pass: &mut PlacePass<K>, pauses: u32) -> bool
        requires some { 0 < row.now.places }
        requires pass { IsIdleAt row.now.table pass.old }
        ensures moves { Moves pass.old pass.new (objects self.new.layer self.new.aside.items) (objects self.old.layer self.old.aside.items) }
        ensures all { IsTrue result → IsEmpty self.new.layer × (self.new.aside.items ≡ []) }
        ensures room { (vec_capacity self.new.aside ≡ vec_capacity self.old.aside) × (vec_len self.new.aside ≤ vec_len self.old.aside) }
        ensures why { (FoundBusy pass.old.notes pass.new.notes (row.now.places - 1) × (self.new.layer ≡ self.old.layer)
            × (self.new.aside.items ≡ self.old.aside.items))
            ⊎ Found pass.old.notes pass.new.notes (row.now.places - 1) 0 }
    {
        let slabs = row.places() - 1;
        let Some(mut held) = take_soon(row, pass, slabs, pauses) else {
            return false;
        };
        let is_layer_empty = held.empty_layer(&mut self.layer);
        let is_aside_empty = held.empty_aside(&mut self.aside);
        row.put(pass, slabs, held);
        is_layer_empty && is_aside_empty
    }

    /// Sends all objects home to slabs that no row has any more, and ends.
    pub fn end(self, slabs: &mut Slabs<K>, foreign: &mut u64)
        requires room { foreign.old + objects self.layer self.aside.items < 2 ^ 64 }
        ensures counted { out_count slabs.new + foreign.old + objects self.layer self.aside.items ≡ out_count slabs.old + foreign.new }
        ensures few { foreign.new ≤ foreign.old + objects self.layer self.aside.items }
    {
        let Rack {
            alloc: _,
            home: _,
            mut layer,
            mut aside,
        } = self;
        while let Some(object) = layer.try_take() {
            go_home(slabs, foreign, object);
        }
        layer.end();
        while let Some(object) = aside.pop() {
            go_home(slabs, foreign, object);
        }
        aside.destroy_empty();
    }
}
