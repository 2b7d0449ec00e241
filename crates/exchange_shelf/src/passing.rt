//! The rule of a shelf: what a hand knows, what always holds, and what each step shows.

use atomic_table::{Join, Play, Split, TableRule};
use std::collections::LinkedList;
use std::marker::PhantomData;

/// How many slots there are, and how many hands were made.
#[derive(Clone, Copy)]
pub struct Size {
    pub slots: u64,
    pub hands: u64,
}

/// What a hand knows: how many of the hands that were made it is, how many exchanges it made, how often it put a value on the shelf and got one, the
/// slots that it has, and those that it is still to take. No value of it is made.
pub struct Sheet {
    pub parts: u64,
    pub swaps: u64,
    pub puts: u64,
    pub gets: u64,
    pub held: LinkedList<u64>,
    pub due: LinkedList<u64>,
}

/// The rule of shelves for values of this type, as a type for the table.
pub struct Passing<T> {
    of: PhantomData<T>,
}

impl<T> TableRule<Option<T>, Sheet, Size> for Passing<T> {
    ghost use Rattle.exchange_shelf.specs.Passing.{IsShelf, first_sheet};

    ghost holds = { λ z. IsShelf z.slots z.hands };

    ghost first = { λ z. first_sheet z.hands 0 };
}

/// An exchange of the word for the number of a hand's slot.
pub struct Exchanging<T> {
    of: PhantomData<T>,
}

impl<T> Play<Option<T>, Sheet> for Exchanging<T> {
    ghost use Rattle.exchange_shelf.specs.Passing.{exchanged};

    ghost then = { exchanged };
}

/// A load, with which a hand takes the slot that it is to take.
pub struct Drawing<T> {
    of: PhantomData<T>,
}

impl<T> Play<Option<T>, Sheet> for Drawing<T> {
    ghost use Rattle.exchange_shelf.specs.Passing.{drew};

    ghost then = { drew };
}

/// A load, with which a hand gives its slot back.
pub struct Returning<T> {
    of: PhantomData<T>,
}

impl<T> Play<Option<T>, Sheet> for Returning<T> {
    ghost use Rattle.exchange_shelf.specs.Passing.{returned};

    ghost then = { returned };
}

/// A hand is dealt from those with which nothing was done, with the first slot, and two hands are made one.
pub struct Hands;

impl Split<Sheet> for Hands {
    ghost use Rattle.exchange_shelf.specs.Passing.{one_less, first_of};

    ghost left = { one_less };

    ghost right = { first_of };
}

impl Join<Sheet> for Hands {
    ghost use Rattle.exchange_shelf.specs.Passing.{added, blank};

    ghost both = { added };

    ghost spent = { blank };
}
