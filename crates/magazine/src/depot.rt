//! The depot: the magazines that no layer has.
//!
//! *The idea* (Bonwick and Adams 2001, section 3.1). The workers of a cache share one depot. It keeps full
//! magazines and empty ones, each in a stack of its own, and exchanges one for one.
//!
//! *The invariant.* Each magazine of the one stack is full, each of the other is empty, and either stack has
//! room for all magazines that are here.
//!
//! *The reason.* An exchange takes a magazine off one stack and puts one on the other, so there are as many as
//! before, and there is room for them: only `add_empty` takes memory. Since each magazine is full or empty,
//! what a depot has is given by the rounds of the full ones and the number of the empty ones.

ghost use Rattle.std.specs.Prelude.{◌≡◌, ℕ, ◌+◌, ◌<◌, ◌↔◌, [], ◌++◌, length, true, false, IsTrue, IfSome, IfNone, OnOk, OnErr, IfErr, IsPermutation};

use crate::magazine::Magazine;
use slab_layer::Kind;
use std::alloc::{AllocError, Global};
use std::marker::Model;
use std::mem;

// How many places of a stack stay unused, beside those that all magazines need: 72 bytes. So no two stacks have magazines on one line
// of the processor's cache, which two workers would write.
const APART: usize = 3;

/// Full magazines and empty ones. It must be ended by `end`, when no full one is left.
pub struct Depot<K: Kind> {
    full: Vec<Magazine<K>>,
    empty: Vec<Magazine<K>>,
}

impl<K: Kind> Model for Depot<K> {
    ghost use Rattle.std.specs.Prelude.{vec_len, vec_capacity};
    ghost use Rattle.std.specs.List.{concat};
    ghost use Rattle.magazine.specs.DepotView.{DepotView, IsDepot};

    ghost Value = { DepotView };

    ghost view = { λ d. record { rounds = concat d.full.items; empties = vec_len d.empty } };

    ghost invariant = { λ d. IsDepot K.ROUNDS d.full.items d.empty.items (vec_capacity d.full) (vec_capacity d.empty) };
}

impl<K: Kind> Depot<K> {
    /// No magazines. It takes no memory; the allocator serves `add_empty`.
    pub fn new(alloc: Global) -> Depot<K>
        ensures rounds { result.rounds ≡ [] }
        ensures empties { result.empties ≡ 0 }
    {
        Depot {
            full: Vec::new(alloc),
            empty: Vec::new(alloc),
        }
    }

    /// Adds an empty magazine, with room for it in both stacks. Where memory is refused the magazine comes
    /// back, and nothing changed.
    pub fn add_empty(&mut self, magazine: Magazine<K>) -> Result<(), Magazine<K>>
        requires { magazine ≡ [] }
        ensures rounds { self.new.rounds ≡ self.old.rounds }
        ensures added { OnOk result (self.new.empties ≡ self.old.empties + 1) }
        ensures returned { IfErr result (λ back. back ≡ magazine) }
        ensures unchanged { OnErr result (self.new ≡ self.old) }
    {
        let fulls = self.full.len();
        let empties = self.empty.len();
        if self.full.reserve(empties + 1 + APART).is_err()
            || self.empty.reserve(fulls + 1 + APART).is_err()
        {
            return Err(magazine);
        }
        self.empty.push_reserved(magazine);
        Ok(())
    }

    /// Gives a full magazine for an empty one, in its place. True exactly where there is a full one; else
    /// nothing changed.
    pub(crate) fn exchange_for_full(&mut self, magazine: &mut Magazine<K>) -> bool
        requires { magazine.old ≡ [] }
        ensures done { IsTrue result ↔ (0 < length self.old.rounds) }
        ensures full { IsTrue result → length magazine.new ≡ K.ROUNDS }
        ensures rounds { IsTrue result → IsPermutation self.old.rounds (magazine.new ++ self.new.rounds) }
        ensures empties { IsTrue result → self.new.empties ≡ self.old.empties + 1 }
        ensures unchanged { result ≡ false → (magazine.new ≡ magazine.old) × (self.new ≡ self.old) }
    {
        let Some(full) = self.full.pop() else {
            return false;
        };
        let empty = mem::replace(magazine, full);
        self.empty.push_reserved(empty);
        true
    }

    /// Gives an empty magazine for a full one, in its place. True exactly where there is an empty one; else
    /// nothing changed.
    pub(crate) fn exchange_for_empty(&mut self, magazine: &mut Magazine<K>) -> bool
        requires { length magazine.old ≡ K.ROUNDS }
        ensures done { IsTrue result ↔ (0 < self.old.empties) }
        ensures empty { IsTrue result → magazine.new ≡ [] }
        ensures rounds { IsTrue result → IsPermutation (magazine.old ++ self.old.rounds) self.new.rounds }
        ensures empties { IsTrue result → self.new.empties + 1 ≡ self.old.empties }
        ensures unchanged { result ≡ false → (magazine.new ≡ magazine.old) × (self.new ≡ self.old) }
    {
        let Some(empty) = self.empty.pop() else {
            return false;
        };
        let full = mem::replace(magazine, empty);
        self.full.push_reserved(full);
        true
    }

    /// Takes a full magazine out, with its rounds. None only where there is none.
    pub fn drain_full(&mut self) -> Option<Magazine<K>>
        ensures full { IfSome result (λ magazine. length magazine ≡ K.ROUNDS) }
        ensures rounds { IfSome result (λ magazine. IsPermutation self.old.rounds (magazine ++ self.new.rounds)) }
        ensures empties { self.new.empties ≡ self.old.empties }
        ensures none { IfNone result (self.old.rounds ≡ []) }
        ensures unchanged { IfNone result (self.new ≡ self.old) }
    {
        self.full.pop()
    }

    /// Takes an empty magazine out. None only where there is none.
    pub fn drain_empty(&mut self) -> Option<Magazine<K>>
        ensures empty { IfSome result (λ magazine. (magazine ≡ []) × (self.new.empties + 1 ≡ self.old.empties)) }
        ensures rounds { self.new.rounds ≡ self.old.rounds }
        ensures none { IfNone result (self.old.empties ≡ 0) }
        ensures unchanged { IfNone result (self.new ≡ self.old) }
    {
        self.empty.pop()
    }

    /// Moves a full magazine to another depot, with room for it in both stacks of that one. False where there is none.
    /// Where memory is refused nothing changed.
    pub fn move_full(&mut self, to: &mut Depot<K>) -> Result<bool, AllocError>
        ensures none { result ≡ Ok false → self.old.rounds ≡ [] }
        ensures moved { result ≡ Ok true → length self.old.rounds ≡ length self.new.rounds + K.ROUNDS }
        ensures came { result ≡ Ok true → length to.new.rounds ≡ length to.old.rounds + K.ROUNDS }
        ensures rounds { IsPermutation (self.old.rounds ++ to.old.rounds) (self.new.rounds ++ to.new.rounds) }
        ensures empties { (self.new.empties ≡ self.old.empties) × (to.new.empties ≡ to.old.empties) }
        ensures unchanged { (result ≡ Ok true → ⊥) → (self.new ≡ self.old) × (to.new ≡ to.old) }
    {
        let fulls = to.full.len();
        let empties = to.empty.len();
        to.full.reserve(empties + 1 + APART)?;
        to.empty.reserve(fulls + 1 + APART)?;
        let Some(magazine) = self.full.pop() else {
            return Ok(false);
        };
        to.full.push_reserved(magazine);
        Ok(true)
    }

    /// Ends a depot with no full magazine, and the empty ones with it.
    pub fn end(self)
        requires { self.rounds ≡ [] }
    {
        let Depot { full, mut empty } = self;
        full.destroy_empty();
        while let Some(magazine) = empty.pop() {
            magazine.end();
        }
        empty.destroy_empty();
    }
}
