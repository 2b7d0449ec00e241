//! What a thread gets that takes a value, finds it lent, or puts it back.

use crate::lending::Entry;
use atomic_table::Seat;
use std::marker::Model;

/// The right to bring a value back to its place, from any thread. If one is dropped, its place stays empty for ever.
///
/// Contracts see its row, its place, and the number of its seat, which no two loans of a row share.
#[derive(Drop)]
pub struct Loan<T, K> {
    pub(crate) seat: Seat<Option<T>, Entry<K>>,
    pub(crate) place: usize,
}

impl<T, K> Model for Loan<T, K> {
    ghost use Rattle.lending_row.specs.Views.{SeatView, IsLoan};

    ghost Value = { SeatView };

    ghost view = { λ l. record { table = l.seat.table_id; place = l.place; seat = l.seat.id } };

    ghost invariant = { λ l. IsLoan l.seat l.place };
}

/// The value of a place is lent. It has no bytes, and nothing is done with it.
///
/// Contracts see the row and the place, and the number of its seat. By the rule of the row there is none for a place whose value no call took.
#[derive(Drop)]
pub struct Lent<T, K> {
    pub(crate) seat: Seat<Option<T>, Entry<K>>,
}

impl<T, K> Model for Lent<T, K> {
    ghost use Rattle.std.specs.Prelude.{◌≡◌, true};
    ghost use Rattle.lending_row.specs.Views.{SeatView};

    ghost Value = { SeatView };

    ghost view = { λ l. record { table = l.seat.table_id; place = l.seat.me.0.place; seat = l.seat.id } };

    ghost invariant = { λ l. l.seat.me.0.met ≡ true };
}

/// A value was put back. It has no bytes, and nothing is done with it.
///
/// Contracts see the row and the place, and the number of the seat that the loan had. By the rule of the row a seat that took a value has it until
/// it marks the place with 0.
#[derive(Drop)]
pub struct Returned<T, K> {
    pub(crate) seat: Seat<Option<T>, Entry<K>>,
}

impl<T, K> Model for Returned<T, K> {
    ghost use Rattle.std.specs.Prelude.{◌≡◌, true};
    ghost use Rattle.lending_row.specs.Views.{SeatView};

    ghost Value = { SeatView };

    ghost view = { λ l. record { table = l.seat.table_id; place = l.seat.me.0.place; seat = l.seat.id } };

    ghost invariant = { λ l. (l.seat.me.0.took ≡ true) × (l.seat.me.0.out ≡ 0) };
}
