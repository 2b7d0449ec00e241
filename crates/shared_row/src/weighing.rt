//! The rule of a row: what a pass counts, what always holds, and what each step shows.

ghost use Rattle.std.specs.Prelude.{ℕ};

use atomic_table::{Join, Play, Split, TableRule};
use std::collections::LinkedList;
use std::marker::PhantomData;

/// What a value weighs on each side. Nothing is computed: these are ghost members.
pub trait Scale<T> {
    ghost left: { T → ℕ };

    ghost right: { T → ℕ };
}

/// How many places a row has, and how many passes were made.
#[derive(Clone, Copy)]
pub struct Size {
    pub places: u64,
    pub passes: u64,
}

/// What a pass counts: how many of the passes that were made it is, what it weighs on each side, the places whose values it has, the last one
/// first, and for each place that it tried to take from the word that it found. No value of it is made.
pub struct Sheet {
    pub parts: u64,
    pub left: u64,
    pub right: u64,
    pub held: LinkedList<u64>,
    pub notes: LinkedList<(u64, u64)>,
}

/// The rule of rows with values of this type on this scale, as a type for the table.
pub struct Even<T, P> {
    of: PhantomData<(T, P)>,
}

impl<T, P: Scale<T>> TableRule<Option<T>, Sheet, Size> for Even<T, P> {
    ghost use Rattle.shared_row.specs.Weighing.{IsEven, first_sheet};

    ghost holds = { λ z. IsEven P.left P.right z.places z.passes };

    ghost first = { λ z. first_sheet z.passes };
}

/// A compare-exchange from 0 to 1, which takes the value.
pub struct Taking<T, P> {
    of: PhantomData<(T, P)>,
}

impl<T, P: Scale<T>> Play<Option<T>, Sheet> for Taking<T, P> {
    ghost use Rattle.shared_row.specs.Weighing.{took};

    ghost then = { took P.left P.right };
}

/// A store of 0, which gives the value back.
pub struct Putting<T, P> {
    of: PhantomData<(T, P)>,
}

impl<T, P: Scale<T>> Play<Option<T>, Sheet> for Putting<T, P> {
    ghost use Rattle.shared_row.specs.Weighing.{put};

    ghost then = { put P.left P.right };
}

/// A pass is dealt from those with which nothing was done, and two passes are made one.
pub struct Sheets;

impl Split<Sheet> for Sheets {
    ghost use Rattle.shared_row.specs.Weighing.{one_less, first_sheet};

    ghost left = { one_less };

    ghost right = { λ v. first_sheet 1 };
}

impl Join<Sheet> for Sheets {
    ghost use Rattle.shared_row.specs.Weighing.{added, first_sheet};

    ghost both = { added };

    ghost spent = { first_sheet 0 };
}
