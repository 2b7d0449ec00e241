//! The objects of one kind.
//!
//! *The idea* (Bonwick 1994, section 3). A machine serves one run at a time, so it needs no magazines and no locks: an object comes
//! from the slabs and goes back to them. The slabs get their pages from the machine's arena.
//!
//! *The invariant.* What is on the shelf is out of the slabs.
//!
//! *The reason.* So no call of `new` is granted the slot of what is on the shelf, and it is there, with its bytes, for whatever
//! run takes it from there.

ghost use Rattle.std.specs.Prelude.{◌≡◌, ◌/◌, ◌≤◌, ℕ, false, length, replicate, None, Option, option_map, is_some, IsTrue, IfSome, IfNone};
ghost use Rattle.slab_layer.specs.Slots.{IsHome, IsOut, out_count};
ghost use Rattle.ebpf_host.specs.Shelving.{IsFetched, IsPut};
ghost use Rattle.ebpf_host.specs.Stock.{IsHeld, Takes, Gives, Exchanges, held_count, shelved_at};

use crate::copying::copy;
use slab_layer::{Held, Home, Kind, Obj, Slabs};
use std::alloc::Global;
use std::marker::Model;
use std::mem;
use vmem_arena::Arena;

/// How often runs took an object of a kind, gave one back and found none, and how often they put one on its shelf and got one from
/// there; all of them modulo 2^64. No clause says what they are.
#[derive(Clone, Copy)]
pub struct Counts {
    pub allocs: u64,
    pub frees: u64,
    pub nulls: u64,
    pub puts: u64,
    pub gets: u64,
}

/// The slabs of a kind, and a shelf that has room for one object. It must be ended.
pub struct Stock<K: Kind> {
    slabs: Slabs<K>,
    shelf: Option<Obj<K, Held>>,
    counts: Counts,
}

impl<K: Kind> Model for Stock<K> {
    ghost use Rattle.std.specs.Prelude.{option_map, IfSome};
    ghost use Rattle.slab_layer.specs.Slots.{IsOut};
    ghost use Rattle.ebpf_host.specs.Stock.{StockView, shelved_at};

    ghost Value = { StockView };

    ghost view = { λ s. record { pages = s.slabs; shelf = option_map (λ o. shelved_at o.slot o.bytes.value.items) s.shelf } };

    ghost invariant = { λ s. IfSome s.shelf (λ o. IsOut s.slabs o.slot) };
}

impl<K: Kind> Stock<K> {
    /// No slabs, and nothing on the shelf. It takes no memory.
    pub(crate) fn new(alloc: Global) -> Stock<K>
        ensures { result.shelf ≡ None }
    {
        Stock {
            slabs: Slabs::new(alloc),
            shelf: None,
            counts: Counts {
                allocs: 0,
                frees: 0,
                nulls: 0,
                puts: 0,
                gets: 0,
            },
        }
    }

    /// What runs did here so far.
    pub(crate) fn counts(&self) -> Counts {
        self.counts
    }

    /// Whether an object is on the shelf.
    pub(crate) fn is_shelved(&self) -> bool
        ensures { result ≡ is_some self.now.shelf }
    {
        self.shelf.is_some()
    }

    // An object that is home, after a page more where none is.
    fn take_home(&mut self, arena: &mut Arena) -> Option<Obj<K, Home>>
        ensures taken { IfSome result (λ o. Takes self.old self.new o.slot) }
        ensures none { IfNone result (self.new ≡ self.old) }
        ensures pages { arena.new.pages ≡ arena.old.pages }
    {
        if let Some(object) = self.slabs.take() {
            return Some(object);
        }
        let Ok(()) = self.slabs.grow_from(arena) else {
            return None;
        };
        match self.slabs.take() {
            Some(object) => Some(object),
            None => unreachable!(),
        }
    }

    /// Takes an object with its kind's image, after a page more where none is home. None where the arena has no page, or
    /// memory for its objects ran out; then nothing changed here.
    pub(crate) fn take(&mut self, arena: &mut Arena) -> Option<Obj<K, Held>>
        ensures image { IfSome result (λ o. o.bytes.value.items ≡ replicate K.SIZE K.FILL) }
        ensures taken { IfSome result (λ o. Takes self.old self.new o.slot) }
        ensures none { IfNone result (self.new ≡ self.old) }
        ensures pages { arena.new.pages ≡ arena.old.pages }
    {
        match self.take_home(arena) {
            Some(object) => {
                self.counts.allocs = self.counts.allocs.wrapping_add(1);
                Some(object.construct().hold())
            }
            None => {
                self.counts.nulls = self.counts.nulls.wrapping_add(1);
                None
            }
        }
    }

    /// Takes an object back.
    pub(crate) fn give(&mut self, object: Obj<K, Held>)
        requires { IsHeld self.old object.slot }
        ensures { Gives self.old self.new object.slot }
    {
        self.counts.frees = self.counts.frees.wrapping_add(1);
        self.slabs.give(object.restore().retire());
    }

    /// Exchanges what is given, if anything, for what is on the shelf.
    pub(crate) fn swap(&mut self, given: Option<Obj<K, Held>>) -> Option<Obj<K, Held>>
        requires { IfSome given (λ o. IsHeld self.old o.slot) }
        ensures { Exchanges self.old self.new (option_map (λ o. shelved_at o.slot o.bytes.value.items) given)
            (option_map (λ o. shelved_at o.slot o.bytes.value.items) result) }
    {
        self.counts.puts = self.counts.puts.wrapping_add(u64::from(given.is_some()));
        self.counts.gets = self
            .counts
            .gets
            .wrapping_add(u64::from(self.shelf.is_some()));
        mem::replace(&mut self.shelf, given)
    }

    /// Leaves an object with these bytes at its start on the shelf, and says whether another was there, which goes back. None where there is
    /// no object to be had; then nothing changed here.
    pub(crate) fn put(&mut self, arena: &mut Arena, bytes: &[u8]) -> Option<bool>
        requires { length bytes.now ≤ K.SIZE }
        ensures put { IfSome result (IsPut (replicate K.SIZE K.FILL) bytes.now self.old.shelf self.new.shelf) }
        ensures held { held_count self.new ≡ held_count self.old }
        ensures none { IfNone result (self.new ≡ self.old) }
        ensures pages { arena.new.pages ≡ arena.old.pages }
    {
        let mut object = self.take(arena)?;
        object.write(0, bytes);
        match self.swap(Some(object)) {
            Some(before) => {
                self.give(before);
                Some(true)
            }
            None => Some(false),
        }
    }

    /// Takes what is on the shelf off it, copies its bytes as far as there is room, and gives it back; says whether there was something.
    pub(crate) fn fetch(&mut self, room: &mut [u8]) -> bool
        ensures taken { IsFetched result self.old.shelf self.new.shelf room.old room.new }
        ensures held { held_count self.new ≡ held_count self.old }
    {
        match self.swap(None) {
            Some(object) => {
                copy(object.bytes(), room);
                self.give(object);
                true
            }
            None => false,
        }
    }

    /// Gives the lowest page that has nothing out back to the arena. False where there is no such page; then nothing changed.
    pub(crate) fn reap(&mut self, arena: &mut Arena) -> bool
        ensures shelf { self.new.shelf ≡ self.old.shelf }
        ensures pages { arena.new.pages ≡ arena.old.pages }
    {
        match self.slabs.reap() {
            Some(span) => {
                arena.give(span);
                true
            }
            None => false,
        }
    }

    /// Ends the stock, with all its objects. Its pages stay out.
    pub(crate) fn end(self) {
        let Stock {
            mut slabs,
            shelf,
            counts: _,
        } = self;
        if let Some(object) = shelf {
            slabs.give(object.restore().retire());
        }
        slabs.end();
    }
}
