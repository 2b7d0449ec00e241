//! Which ledgers the books of the caches and the shelves are.
//!
//! *The reason.* The type of a hand says by its ledgers which cache or shelf made it. There are four for each kind, and their names are
//! known only where the books are opened. So each is a type made of its kind and of one parameter that has all the names.

ghost use Rattle.std.specs.Prelude.{ℕ};

use slab_layer::Kind;
use std::marker::{Brand, PhantomData};
use std::sync::ledger::Ledger;

/// The names of all books, by the numbers of their kinds.
pub trait Names {
    /// Of what goes out of a cache.
    ghost outs: { ℕ → ℕ };

    /// Of what comes into it.
    ghost ins: { ℕ → ℕ };

    /// Of what is put on a shelf.
    ghost puts: { ℕ → ℕ };

    /// Of what is got from there.
    ghost gets: { ℕ → ℕ };
}

impl Names for Brand {
    ghost outs = { λ kind. 0 };

    ghost ins = { λ kind. 0 };

    ghost puts = { λ kind. 0 };

    ghost gets = { λ kind. 0 };
}

/// The ledger of what goes out of the cache of a kind.
pub struct Outs<K: Kind, L: Names> {
    of: PhantomData<(K, L)>,
}

impl<K: Kind, L: Names> Ledger for Outs<K, L> {
    ghost name = { L.outs K.NUMBER };

    ghost parts = { 65 };
}

/// The ledger of what comes into the cache of a kind.
pub struct Ins<K: Kind, L: Names> {
    of: PhantomData<(K, L)>,
}

impl<K: Kind, L: Names> Ledger for Ins<K, L> {
    ghost name = { L.ins K.NUMBER };

    ghost parts = { 65 };
}

/// The ledger of what is put on the shelf of a kind.
pub struct Puts<K: Kind, L: Names> {
    of: PhantomData<(K, L)>,
}

impl<K: Kind, L: Names> Ledger for Puts<K, L> {
    ghost name = { L.puts K.NUMBER };

    ghost parts = { 65 };
}

/// The ledger of what is got from the shelf of a kind.
pub struct Gets<K: Kind, L: Names> {
    of: PhantomData<(K, L)>,
}

impl<K: Kind, L: Names> Ledger for Gets<K, L> {
    ghost name = { L.gets K.NUMBER };

    ghost parts = { 65 };
}
