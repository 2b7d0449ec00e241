//! A magazine: a stack of ready objects.
//!
//! *The idea* (Bonwick and Adams 2001, section 3.1). A magazine is a fixed number of places for objects, filled
//! from the bottom: its objects are its rounds.
//!
//! *The invariant.* There are at most as many rounds as the kind says, and room for as many.
//!
//! *The reason.* Since the room was made with the magazine, a push is a move and can't fail. The last round in
//! is the first out, since its bytes are the likeliest to be in the processor's cache.

ghost use Rattle.std.specs.Prelude.{◌≡◌, ◌<◌, ◌≤◌, ◌↔◌, [], ◌∷◌, ◌++◌, length, IsTrue, IfOk, IfSome, IfNone};

use slab_layer::{Kind, Obj, Ready};
use std::alloc::{AllocError, Global};
use std::marker::Model;

// How many rounds could be put after those of a magazine, and never are: 32 bytes. An allocator keeps 16 more before the next block, and
// blocks begin at multiples of 16. So no two magazines have rounds on one line of the processor's cache, of 64 bytes, which two workers
// would write.
const APART: usize = 2;

/// At most `K::ROUNDS` ready objects. It must be ended by `end`, when it is empty.
pub struct Magazine<K: Kind> {
    rounds: Vec<Obj<K, Ready>>,
}

impl<K: Kind> Model for Magazine<K> {
    ghost use Rattle.std.specs.Prelude.{List, ℕ, map, ◌≤◌, vec_len, vec_capacity};

    ghost Value = { List ℕ };

    ghost view = { λ m. map (λ o. o.slot) m.rounds.items };

    ghost invariant = { λ m. (vec_len m.rounds ≤ K.ROUNDS) × (K.ROUNDS ≤ vec_capacity m.rounds) };
}

impl<K: Kind> Magazine<K> {
    /// A magazine with no round, and with all the memory that it will use.
    pub fn new(alloc: Global) -> Result<Magazine<K>, AllocError>
        ensures empty { IfOk result (λ magazine. magazine ≡ []) }
    {
        Ok(Magazine {
            rounds: Vec::with_capacity(alloc, K::ROUNDS + APART)?,
        })
    }

    /// There is no round.
    pub(crate) fn is_empty(&self) -> bool
        ensures { IsTrue result ↔ (self.now ≡ []) }
    {
        self.rounds.is_empty()
    }

    /// There are as many rounds as the kind says; there are never more.
    pub(crate) fn is_full(&self) -> bool
        ensures full { IsTrue result ↔ (length self.now ≡ K.ROUNDS) }
        ensures most { length self.now ≤ K.ROUNDS }
    {
        self.rounds.len() == K::ROUNDS
    }

    /// Puts a round on top.
    pub(crate) fn push(&mut self, object: Obj<K, Ready>)
        requires { length self.old < K.ROUNDS }
        ensures { self.new ≡ self.old ++ object.slot ∷ [] }
    {
        self.rounds.push_reserved(object);
    }

    /// Takes the top round off. None exactly where there is none.
    pub fn pop(&mut self) -> Option<Obj<K, Ready>>
        ensures taken { IfSome result (λ object. self.old ≡ self.new ++ object.slot ∷ []) }
        ensures none { IfNone result (self.old ≡ []) }
        ensures unchanged { IfNone result (self.new ≡ self.old) }
    {
        self.rounds.pop()
    }

    /// Ends a magazine that has no round.
    pub fn end(self)
        requires { self ≡ [] }
    {
        let Magazine { rounds } = self;
        rounds.destroy_empty();
    }
}
