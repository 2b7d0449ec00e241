//! A shelf for each kind.

ghost use Rattle.std.specs.Prelude.{◌≡◌, ◌<◌, ℕ, length, None, option_map, IfSome};
ghost use Rattle.ebpf_machine.specs.Kinds.{known_kinds};
ghost use Rattle.ebpf_shelves.specs.Shelves.{FitsOn, IsExchanged, IsOff, bare, on_shelf, slot_on};

use crate::object::Object;
use ebpf_state::kinds::KINDS;
use std::marker::Model;
use std::mem;

/// A shelf for each kind, by its number: on each is an object of the kind, or none. No two are in one slot.
#[derive(Drop)]
pub struct Shelves {
    rooms: [Option<Object>; KINDS],
}

impl Model for Shelves {
    ghost use Rattle.std.specs.Prelude.{List, Option};
    ghost use Rattle.ebpf_shelves.specs.declared.object.Object.{Object};
    ghost use Rattle.ebpf_shelves.specs.Shelves.{AreShelves};

    ghost Value = { List (Option Object) };

    ghost view = { λ s. s.rooms };

    ghost invariant = { λ s. AreShelves s.rooms };
}

impl Shelves {
    /// Shelves with nothing on them.
    pub fn empty() -> Shelves
        ensures { result ≡ bare }
    {
        Shelves {
            rooms: [None, None, None],
        }
    }

    /// Takes what is on a shelf, and puts there what is given.
    pub fn exchange(&mut self, shelf: u8, given: Option<Object>) -> Option<Object>
        requires shelf { shelf < length known_kinds }
        requires fits { IfSome given (FitsOn shelf) }
        requires apart { IfSome given (λ g. IsOff self.old g.slot) }
        ensures { IsExchanged shelf given result self.old self.new }
    {
        mem::replace(&mut self.rooms[shelf as usize], given)
    }

    /// The slot of what is on a shelf; none where nothing is, or there is no such shelf.
    pub fn slot_on(&self, shelf: u8) -> Option<u32>
        ensures { result ≡ slot_on self.now shelf }
    {
        match self.rooms.get(shelf as usize)? {
            Some(object) => Some(object.slot),
            None => None,
        }
    }

    /// The bytes of what is on a shelf; none where nothing is, or there is no such shelf.
    pub fn bytes_on(&self, shelf: u8) -> Option<&[u8]>
        ensures { option_map (λ b. b.now) result ≡ option_map (λ o. o.bytes.items) (on_shelf self.now shelf) }
    {
        match self.rooms.get(shelf as usize)? {
            Some(object) => Some(&object.bytes),
            None => None,
        }
    }
}
