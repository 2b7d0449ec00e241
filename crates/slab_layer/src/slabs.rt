//! The slabs of a kind.
//!
//! *The idea* (Bonwick 1994, section 3.2). A cache's objects live in slabs, a page each. The back end of the
//! cache gives out objects one at a time, asks for a page when it has none, and gives pages back when they are
//! whole. Bonwick keeps the slabs in a list, the full ones before the partial ones, and looks at the head. Here
//! a table has the slab of each page number, since an arena has `MAX_PAGES` at most, and a stack has the numbers of the
//! pages with an object at home.
//!
//! *The invariant.* The stack has exactly the pages with an object at home, each once. The count of objects
//! that are out is the sum over the slabs.
//!
//! *The reason.* To take an object is to look at the top of the stack, and to give one back is to divide its
//! slot by the slots of a page: both are a few steps, however many objects and pages there are. A page comes
//! onto the stack with its first object and leaves it with its last, so `take` answers None only where no slab
//! has an object. A slab changes nothing for an object whose slot isn't out of it. An object has the number of
//! its slot alone and doesn't know its slabs: one of other slabs of the kind, whose slot is out here, is taken
//! in the place of the one that is. So each object goes back where it came from; the caches above keep to that.
//!
//! The table is made with the first page. All memory of a page is got before anything changes.

ghost use Rattle.std.specs.Prelude.{◌≡◌, ◌≢◌, ℕ, ◌≤◌, ◌<◌, ◌+◌, ◌*◌, ◌/◌, ◌↔◌, ⊤, [], false, length, IsTrue, IfSome, IfNone, IfErr, OnOk, OnErr, OnSome};
ghost use Rattle.slab_layer.specs.Slots.{IsHome, IsOut, Has, Moves, AddsPage, RemovesPage, out_count};
ghost use Rattle.slab_layer.specs.declared.kind.TheConstants.{PAGE_BYTES, SLOTS_OF_A_PAGE};
ghost use Rattle.slab_layer.specs.declared.place.Place.TheVariants.{Home as HomePlace, Out};
ghost use Rattle.vmem_arena.specs.Spans.{pages_of};

use crate::kind::{Kind, SLOTS_OF_A_PAGE};
use crate::object::{Home, Obj};
use crate::room::Room;
use crate::slab::Slab;
use crate::slab_tables::{fill_table, idle_at, reserve_tables, take_number};
use std::alloc::Global;
use std::marker::Model;
use std::mem;
use vmem_arena::Span;

/// The slabs of a kind: a finite map from slots to home or out. It must be ended by `end`.
pub struct Slabs<K: Kind> {
    alloc: Global,
    slabs: Vec<Slab<K>>,
    partial: Vec<u32>,
    out: u32,
}

impl<K: Kind> Model for Slabs<K> {
    ghost use Rattle.std.specs.Prelude.{List, ◌≤◌, vec_len, vec_capacity};
    ghost use Rattle.slab_layer.specs.declared.place.Place.{Place};
    ghost use Rattle.slab_layer.specs.SlabTable.{pages_in, IsSlabTable};

    ghost Value = { List (List Place) };

    ghost view = { λ a. pages_in a.slabs.items };

    ghost invariant = { λ a. (IsSlabTable a.slabs.items a.partial.items a.out) × (vec_len a.slabs ≤ vec_capacity a.partial) };
}

impl<K: Kind> Slabs<K> {
    /// No slabs. It takes no memory; the allocator serves `grow`.
    pub fn new(alloc: Global) -> Slabs<K>
        ensures { result ≡ [] }
    {
        Slabs {
            alloc,
            slabs: Vec::new(alloc),
            partial: Vec::new(alloc),
            out: 0,
        }
    }

    /// Whether these slabs have this page's slots.
    pub fn has(&self, page: u32) -> bool
        ensures { IsTrue result ↔ Has self.now page }
    {
        let at = page as usize;
        at < self.slabs.len() && self.slabs[at].is_had()
    }

    /// How many objects are out.
    pub fn out(&self) -> u32
        ensures { result ≡ out_count self.now }
    {
        self.out
    }

    /// Takes an object that is home, the last that came back to its slab. None only where no slot is home.
    pub fn take(&mut self) -> Option<Obj<K, Home>>
        ensures was_home { IfSome result (λ object. IsHome self.old object.slot) }
        ensures moved { IfSome result (λ object. Moves self.old self.new object.slot Out) }
        ensures counted { OnSome result (out_count self.new ≡ out_count self.old + 1) }
        ensures none { IfNone result ((slot : ℕ) → IsHome self.old slot → ⊥) }
        ensures unchanged { IfNone result (self.new ≡ self.old) }
    {
        let Some(&page) = self.partial.last() else {
            return None;
        };
        let at = page as usize;
        let object = self.slabs[at].take();
        if !self.slabs[at].has_home() {
            self.partial.pop();
        }
        self.out += 1;
        Some(object)
    }

    /// Takes an object back. It answers false exactly where the object's slot isn't out of these slabs; then
    /// nothing changed, and the object is gone with its bytes.
    pub fn give(&mut self, object: Obj<K, Home>) -> bool
        ensures known { IsTrue result ↔ IsOut self.old object.slot }
        ensures moved { IsTrue result → Moves self.old self.new object.slot HomePlace }
        ensures counted { IsTrue result → out_count self.new + 1 ≡ out_count self.old }
        ensures unchanged { result ≡ false → self.new ≡ self.old }
    {
        let slot = object.slot();
        let at = (slot / SLOTS_OF_A_PAGE) as usize;
        let index = (slot % SLOTS_OF_A_PAGE) as usize;
        if at >= self.slabs.len() || !self.slabs[at].is_out(index) {
            object.destroy();
            return false;
        }
        let is_first = !self.slabs[at].has_home();
        self.slabs[at].give(object);
        if is_first {
            self.partial.push_reserved(at as u32);
        }
        self.out -= 1;
        true
    }

    /// Adds the page's objects, all home. The page must not be had yet. Where memory is refused the span comes
    /// back, and nothing changed.
    pub fn grow(&mut self, span: Span) -> Result<(), Span>
        requires one_page { (pages_of span).len ≡ 1 }
        requires not_had { Has self.old (pages_of span).first → ⊥ }
        ensures added { OnOk result (AddsPage self.old self.new (pages_of span).first (PAGE_BYTES / K.SIZE)) }
        ensures counted { OnOk result (out_count self.new ≡ out_count self.old) }
        ensures returned { IfErr result (λ back. pages_of back ≡ pages_of span) }
        ensures unchanged { OnErr result (self.new ≡ self.old) }
    {
        let Ok(()) = reserve_tables(&mut self.slabs, &mut self.partial) else {
            return Err(span);
        };
        let Ok(room) = Room::new(self.alloc) else {
            return Err(span);
        };
        fill_table(&mut self.slabs, self.alloc);
        let page = span.first();
        let at = page as usize;
        let vacant = mem::replace(&mut self.slabs[at], Slab::new(room, span));
        let _ = vacant.end();
        self.partial.push_reserved(page);
        Ok(())
    }

    /// Gives up the lowest page that has nothing out, with its objects. None only where there is none.
    pub fn reap(&mut self) -> Option<Span>
        ensures one_page { IfSome result (λ span. (pages_of span).len ≡ 1) }
        ensures had { IfSome result (λ span. Has self.old (pages_of span).first) }
        ensures idle { IfSome result (λ span. (slot : ℕ) → slot / SLOTS_OF_A_PAGE ≡ (pages_of span).first → IsOut self.old slot → ⊥) }
        ensures lowest { IfSome result (λ span. (page : ℕ) → page < (pages_of span).first →
            Has self.old page → (slot : ℕ) × (slot / SLOTS_OF_A_PAGE ≡ page) × IsOut self.old slot) }
        ensures removed { IfSome result (λ span. RemovesPage self.old self.new (pages_of span).first) }
        ensures counted { out_count self.new ≡ out_count self.old }
        ensures none { IfNone result ((page : ℕ) → Has self.old page → (slot : ℕ) × (slot / SLOTS_OF_A_PAGE ≡ page) × IsOut self.old slot) }
        ensures unchanged { IfNone result (self.new ≡ self.old) }
    {
        let Some(at) = idle_at(&self.slabs) else {
            return None;
        };
        let page = at as u32;
        let slab = mem::replace(&mut self.slabs[at], Slab::vacant(self.alloc, page));
        take_number(&mut self.partial, page);
        slab.end()
    }

    /// Ends the slabs, with the objects that are home. The pages of slabs that weren't reaped stay out.
    pub fn end(self) {
        let Slabs {
            alloc: _,
            mut slabs,
            partial: _,
            out: _,
        } = self;
        while let Some(slab) = slabs.pop() {
            let _ = slab.end();
        }
        slabs.destroy_empty();
    }
}
