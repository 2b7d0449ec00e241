//! A layer: the two magazines of one worker.
//!
//! *The idea* (Bonwick and Adams 2001, section 3.1). A worker takes from the loaded magazine and gives to it.
//! Where that one can't serve and the previous one can, the two are exchanged. Where neither can, the depot
//! takes the previous one for one that can, which becomes the loaded one.
//!
//! *The invariant.* The previous magazine is full or empty.
//!
//! *The reason.* A layer belongs to one worker, so `try_take` and `try_give` ask nobody: each is a test of a
//! bound and the move of one object. What the two calls answer where they can't serve is what the depot's
//! exchange needs: no round is here, or both magazines are full. Where no round is here the two magazines are
//! alike, so the loaded one goes to the depot, and nothing else has to move.

ghost use Rattle.std.specs.Prelude.{◌≡◌, ℕ, ◌+◌, ◌<◌, ◌↔◌, ◌⊎◌, [], ◌∷◌, ◌++◌, length, false};
ghost use Rattle.std.specs.Prelude.{IsTrue, IsSome, IsOk, IfSome, IfNone, OnOk, IfOk, IfErr, OnErr, IsPermutation};
ghost use Rattle.magazine.specs.LayerView.{rounds_of, IsEmpty, IsFull, exchanged, with_round};

use crate::depot::Depot;
use crate::magazine::Magazine;
use slab_layer::{Kind, Obj, Ready};
use std::alloc::{AllocError, Global};
use std::marker::Model;
use std::mem;

/// The loaded magazine of a worker and the previous one. It must be ended by `end`, when it is empty.
pub struct Layer<K: Kind> {
    loaded: Magazine<K>,
    previous: Magazine<K>,
}

impl<K: Kind> Model for Layer<K> {
    ghost use Rattle.std.specs.Prelude.{◌≡◌, ◌⊎◌, [], length};
    ghost use Rattle.magazine.specs.LayerView.{LayerView};

    ghost Value = { LayerView };

    ghost view = { λ l. record { loaded = l.loaded; previous = l.previous } };

    ghost invariant = { λ l. (l.previous ≡ []) ⊎ (length l.previous ≡ K.ROUNDS) };
}

impl<K: Kind> Layer<K> {
    /// Two magazines with no round. Where the memory of one is refused, neither is kept.
    pub fn new(alloc: Global) -> Result<Layer<K>, AllocError>
        ensures empty { IfOk result (λ layer. IsEmpty layer) }
    {
        let loaded = Magazine::new(alloc)?;
        match Magazine::new(alloc) {
            Ok(previous) => Ok(Layer { loaded, previous }),
            Err(refused) => {
                loaded.end();
                Err(refused)
            }
        }
    }

    /// Exchanges the two magazines.
    fn exchange(&mut self)
        requires { (self.old.loaded ≡ []) ⊎ (length self.old.loaded ≡ K.ROUNDS) }
        ensures { self.new ≡ exchanged self.old }
    {
        let Layer { loaded, previous } = self;
        mem::swap(loaded, previous);
    }

    /// Takes a round, off the loaded magazine; where that is empty, the two are exchanged first. Some exactly
    /// where loaded or previous holds a round.
    #[inline]
    pub fn try_take(&mut self) -> Option<Obj<K, Ready>>
        ensures some { IsSome result ↔ ((0 < length self.old.loaded) ⊎ (0 < length self.old.previous)) }
        ensures taken { IfSome result (λ object. IsPermutation (rounds_of self.old) (object.slot ∷ rounds_of self.new)) }

        // Which magazine it comes from.
        ensures loaded { IfSome result (λ object. 0 < length self.old.loaded → self.old ≡ with_round self.new object.slot) }
        ensures exchanged { IfSome result (λ object. self.old.loaded ≡ [] → exchanged self.old ≡ with_round self.new object.slot) }

        // The condition of `refill` and of `end`.
        ensures none { IfNone result (IsEmpty self.old) }
        ensures unchanged { IfNone result (self.new ≡ self.old) }
    {
        if self.loaded.is_empty() {
            if self.previous.is_empty() {
                return None;
            }
            self.exchange();
        }
        self.loaded.pop()
    }

    /// Takes the object in as a round, onto the loaded magazine; where that is full and the previous one is
    /// empty, the two are exchanged first. Ok exactly where loaded isn't full or previous is empty; else the
    /// object comes back as it was.
    #[inline]
    pub fn try_give(&mut self, object: Obj<K, Ready>) -> Result<(), Obj<K, Ready>>
        ensures ok { IsOk result ↔ ((length self.old.loaded < K.ROUNDS) ⊎ (self.old.previous ≡ [])) }
        ensures given { OnOk result (IsPermutation (object.slot ∷ rounds_of self.old) (rounds_of self.new)) }

        // Which magazine it goes into.
        ensures loaded { length self.old.loaded < K.ROUNDS → self.new ≡ with_round self.old object.slot }
        ensures exchanged { OnOk result (length self.old.loaded ≡ K.ROUNDS → self.new ≡ with_round (exchanged self.old) object.slot) }

        // The condition of `relieve`.
        ensures full { OnErr result (IsFull K.ROUNDS self.old) }
        ensures returned { IfErr result (λ back. back ≡ object) }
        ensures unchanged { OnErr result (self.new ≡ self.old) }
    {
        if self.loaded.is_full() {
            if !self.previous.is_empty() {
                return Err(object);
            }
            self.exchange();
        }
        self.loaded.push(object);
        Ok(())
    }

    /// Where no round is here: an empty magazine goes to the depot, and a full one of the depot becomes the loaded
    /// one. True exactly where the depot has a full one; else nothing changed.
    pub fn refill(&mut self, depot: &mut Depot<K>) -> bool
        requires { IsEmpty self.old }
        ensures done { IsTrue result ↔ (0 < length depot.old.rounds) }
        ensures loaded { IsTrue result → length self.new.loaded ≡ K.ROUNDS }
        ensures previous { IsTrue result → self.new.previous ≡ self.old.loaded }
        ensures rounds { IsTrue result → IsPermutation depot.old.rounds (self.new.loaded ++ depot.new.rounds) }
        ensures empties { IsTrue result → depot.new.empties ≡ depot.old.empties + 1 }
        ensures unchanged { result ≡ false → (self.new ≡ self.old) × (depot.new ≡ depot.old) }
    {
        depot.exchange_for_full(&mut self.loaded)
    }

    /// Where both magazines are full: the previous one goes to the depot, the loaded one becomes the previous
    /// one, and an empty one of the depot becomes the loaded one. True exactly where the depot has an empty
    /// one; else nothing changed.
    pub fn relieve(&mut self, depot: &mut Depot<K>) -> bool
        requires { IsFull K.ROUNDS self.old }
        ensures done { IsTrue result ↔ (0 < depot.old.empties) }
        ensures loaded { IsTrue result → self.new.loaded ≡ [] }
        ensures previous { IsTrue result → self.new.previous ≡ self.old.loaded }
        ensures rounds { IsTrue result → IsPermutation (self.old.previous ++ depot.old.rounds) depot.new.rounds }
        ensures empties { IsTrue result → depot.new.empties + 1 ≡ depot.old.empties }
        ensures unchanged { result ≡ false → (self.new ≡ self.old) × (depot.new ≡ depot.old) }
    {
        if !depot.exchange_for_empty(&mut self.previous) {
            return false;
        }
        self.exchange();
        true
    }

    /// Ends a layer that has no round.
    pub fn end(self)
        requires { IsEmpty self }
    {
        let Layer { loaded, previous } = self;
        loaded.end();
        previous.end();
    }
}
