//! The rule of a row: what a seat knows, what always holds, and what each step shows.

use atomic_table::{Play, TableRule};
use std::marker::PhantomData;

/// What a value must be like, by what its row was told. Nothing is computed: it is a ghost member.
pub trait Fitting<T, K> {
    ghost fits: { K → T → Type 0 };
}

/// What a seat knows: what its row was told, a place, whether it took the value of the place, whether it has it still (1, else 0), and whether it found
/// that the value is lent. No value of it is made.
pub struct Entry<K> {
    pub key: K,
    pub place: u64,
    pub took: bool,
    pub out: u64,
    pub met: bool,
}

/// The rule of rows with values of this type, as a type for the table.
pub struct Lending<T, K, F> {
    of: PhantomData<(T, K, F)>,
}

impl<T, K, F: Fitting<T, K>> TableRule<Option<T>, Entry<K>, K> for Lending<T, K, F> {
    ghost use Rattle.lending_row.specs.Lending.{IsLending, first_entry};

    ghost holds = { IsLending F.fits };

    ghost first = { first_entry };
}

/// A swap for 1 that makes a new seat, which takes the value if it is there.
pub struct Taking<T, K, F> {
    of: PhantomData<(T, K, F)>,
}

impl<T, K, F: Fitting<T, K>> Play<Option<T>, Entry<K>> for Taking<T, K, F> {
    ghost use Rattle.lending_row.specs.Lending.{took};

    ghost then = { took F.fits };
}

/// A store of 0, which gives the value back.
pub struct Putting<T, K> {
    of: PhantomData<(T, K)>,
}

impl<T, K> Play<Option<T>, Entry<K>> for Putting<T, K> {
    ghost use Rattle.lending_row.specs.Lending.{put};

    ghost then = { put };
}
