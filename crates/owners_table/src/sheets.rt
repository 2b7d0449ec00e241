//! Joining seats and parting them again: what each did stays on a sheet of its own.

use atomic_table::{Join, Split};
use std::collections::LinkedList;

/// A seat with many sheets gives the first to a new seat, and takes in the sheets of another after its own.
pub struct Sheets;

impl<T> Split<LinkedList<T>> for Sheets {
    ghost use Rattle.std.specs.Prelude.{take, drop};

    ghost left = { drop 1 };

    ghost right = { take 1 };
}

impl<T> Join<LinkedList<T>> for Sheets {
    ghost use Rattle.std.specs.Prelude.{[], ◌++◌};

    ghost both = { λ v w. v ++ w };

    ghost spent = { [] };
}
