//! A slab: the objects of one page.
//!
//! *The idea* (Bonwick 1994, section 3.2). A slab has objects of one size, as many as fit a page, with a list of
//! those that are free and a count of those that aren't. To take an object is to take it off the list, to give it
//! back is to put it on, and a slab whose objects are all on it can go back to the system whole. The objects
//! at home are in a stack here, and beside it a table says of each index whether its object is home or out.
//! Their bytes lie in memory of their own: the page bounds how many objects there are, and gives them their slots.
//!
//! *The invariant.* The stack has exactly the slots that the table calls home, each once.
//!
//! *The reason.* The stack makes `take` and `give` one step each, however many objects there are. The table
//! tells an object that is out from one that never was, which a stack alone can't: so a slab takes back only
//! what it gave. And since the stack is as high as the table has homes, a slab is idle where the two are
//! equally long: no count has to be kept beside them.
//!
//! A slab with no span is vacant: it keeps the place of a page that isn't had.

ghost use Rattle.std.specs.Prelude.{◌≡◌, ◌≤◌, ◌<◌, ◌+◌, ◌*◌, ◌/◌, ◌%◌, ◌↔◌, [], Some, true, if◌then◌else◌};
ghost use Rattle.std.specs.Prelude.{map, replicate, length, vec_len, vec_capacity, slice_get, slice_set, is_some, IsTrue, IsSome, IfSome};
ghost use Rattle.std.specs.Option.{ForSome};
ghost use Rattle.slab_layer.specs.Stacks.{HasSame, selected};
ghost use Rattle.slab_layer.specs.Slots.{is_home, has_home, outs_in};
ghost use Rattle.slab_layer.specs.declared.kind.TheConstants.{PAGE_BYTES, SLOTS_OF_A_PAGE};
ghost use Rattle.slab_layer.specs.declared.place.Place.TheVariants.{Home as HomePlace, Out};
ghost use Rattle.vmem_arena.specs.Spans.{pages_of};
ghost use Rattle.vmem_arena.specs.declared.arena.TheConstants.{MAX_PAGES};

use crate::kind::{Kind, SLOTS_OF_A_PAGE, objects_of_a_page};
use crate::object::{Home, Obj};
use crate::place::Place;
use crate::room::Room;
use std::alloc::Global;
use vmem_arena::Span;

/// The objects of one page, or the place that is kept for them.
pub struct Slab<K: Kind> {
    page: u32,
    span: Option<Span>,
    home: Vec<Obj<K, Home>>,
    places: Vec<Place>,
    ghost low: { page < MAX_PAGES },
    ghost whole: { length places.items ≡ (if is_some span then PAGE_BYTES / K.SIZE else 0) },
    ghost own: { ForSome span (λ s. ((pages_of s).first ≡ page) × ((pages_of s).len ≡ 1)) },
    ghost room: { length places.items ≤ vec_capacity home },
    ghost stacked: { HasSame (map (λ o. o.slot) home.items) (selected is_home (page * SLOTS_OF_A_PAGE) places.items) },
}

impl<K: Kind> Slab<K> {
    /// The place of a page that isn't had.
    pub fn vacant(alloc: Global, page: u32) -> Slab<K>
        requires { page < MAX_PAGES }
        ensures page { result.page ≡ page }
        ensures places { result.places.items ≡ [] }
    {
        Slab {
            page,
            span: None,
            home: Vec::new(alloc),
            places: Vec::new(alloc),
        }
    }

    /// All objects of the span's page, home.
    pub fn new(room: Room<K>, span: Span) -> Slab<K>
        requires { (pages_of span).len ≡ 1 }
        ensures page { result.page ≡ (pages_of span).first }
        ensures places { result.places.items ≡ replicate (PAGE_BYTES / K.SIZE) HomePlace }
    {
        let page = span.first();
        let Room {
            mut bytes,
            mut places,
            mut home,
        } = room;
        for index in 0..objects_of_a_page::<K>() {
            let Some(own) = bytes.pop() else {
                unreachable!();
            };
            home.push_reserved(Obj::new(page * SLOTS_OF_A_PAGE + index as u32, own));
            places.push_reserved(Place::Home);
        }
        Slab {
            page,
            span: Some(span),
            home,
            places,
        }
    }

    /// The slab has its page.
    pub fn is_had(&self) -> bool
        ensures { IsTrue result ↔ (0 < length self.now.places.items) }
    {
        !self.places.is_empty()
    }

    /// The object of this index is out.
    pub fn is_out(&self, index: usize) -> bool
        ensures { IsTrue result ↔ (slice_get self.now.places.items index ≡ Some Out) }
    {
        matches!(self.places.get(index), Some(Place::Out))
    }

    /// Some object is home.
    pub fn has_home(&self) -> bool
        ensures { result ≡ has_home self.now.places.items }
    {
        !self.home.is_empty()
    }

    /// The slab has its page, and all objects are home.
    pub fn is_idle(&self) -> bool
        ensures { IsTrue result ↔ ((0 < length self.now.places.items) × (outs_in self.now.places.items ≡ 0)) }
    {
        !self.places.is_empty() && self.home.len() == self.places.len()
    }

    /// Takes the object that came home last.
    pub fn take(&mut self) -> Obj<K, Home>
        requires { has_home self.old.places.items ≡ true }
        ensures page { self.new.page ≡ self.old.page }
        ensures slot { result.slot / SLOTS_OF_A_PAGE ≡ self.old.page }
        ensures was_home { slice_get self.old.places.items (result.slot % SLOTS_OF_A_PAGE) ≡ Some HomePlace }
        ensures out { self.new.places.items ≡ slice_set self.old.places.items (result.slot % SLOTS_OF_A_PAGE) Out }
    {
        let Some(object) = self.home.pop() else {
            unreachable!();
        };
        let index = (object.slot() % SLOTS_OF_A_PAGE) as usize;
        self.places[index] = Place::Out;
        object
    }

    /// Takes an object back that is out of this slab.
    pub fn give(&mut self, object: Obj<K, Home>)
        requires slot { object.slot / SLOTS_OF_A_PAGE ≡ self.old.page }
        requires was_out { slice_get self.old.places.items (object.slot % SLOTS_OF_A_PAGE) ≡ Some Out }
        ensures page { self.new.page ≡ self.old.page }
        ensures home { self.new.places.items ≡ slice_set self.old.places.items (object.slot % SLOTS_OF_A_PAGE) HomePlace }
    {
        let index = (object.slot() % SLOTS_OF_A_PAGE) as usize;
        self.home.push_reserved(object);
        self.places[index] = Place::Home;
    }

    /// Ends the slab with the objects that are home, and gives its page up.
    pub fn end(self) -> Option<Span>
        ensures had { 0 < length self.places.items → IsSome result }
        ensures page { IfSome result (λ s. ((pages_of s).first ≡ self.page) × ((pages_of s).len ≡ 1)) }
    {
        let Slab {
            page: _,
            span,
            mut home,
            places: _,
        } = self;
        while let Some(object) = home.pop() {
            object.destroy();
        }
        home.destroy_empty();
        span
    }
}
