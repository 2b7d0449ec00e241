//! What a thread exchanges values over a shelf with.

ghost use Rattle.std.specs.Prelude.{◌≡◌, ◌+◌, ◌%◌, ◌^◌, IfNone, IfSome};
ghost use Rattle.exchange_shelf.specs.Views.{one_if};

use crate::passing::Sheet;
use atomic_table::Seat;
use std::marker::Model;

/// What a thread exchanges values over a shelf with. Each exchange writes it, so two threads' hands are best kept on cache lines apart. A hand that
/// is dropped takes its slot with it.
///
/// Contracts see its shelf, how many of the hands that were made it is, how many exchanges it made, and how often it put a value on the shelf and
/// got one.
#[derive(Drop)]
pub struct ShelfHand<T> {
    pub(crate) seat: Seat<Option<T>, Sheet>,
    // The slot that it has, which is empty between two exchanges.
    pub(crate) mine: usize,
    pub(crate) puts: u64,
    pub(crate) gets: u64,
}

impl<T> Model for ShelfHand<T> {
    ghost use Rattle.exchange_shelf.specs.Views.{HandView, hand_view, IsHand};

    ghost Value = { HandView };

    ghost view = { λ h. hand_view h.seat };

    ghost invariant = { λ h. IsHand h.seat h.mine h.puts h.gets };
}

/// One more if there is a value. After 2^64 - 1 comes 0.
pub(crate) fn counted<T>(count: u64, value: &Option<T>) -> u64
    ensures { result ≡ (count + one_if value.now) % 2 ^ 64 }
{
    count.wrapping_add(u64::from(value.is_some()))
}
