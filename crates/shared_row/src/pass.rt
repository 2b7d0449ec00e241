//! What a thread takes values with.

use crate::weighing::{Scale, Sheet};
use atomic_table::Seat;
use std::marker::{Model, PhantomData};

/// What a thread takes the values of a row with. It has no bytes. If one is dropped, the places whose values it has stay empty, and the row can no
/// longer be closed.
///
/// Contracts see its row, how many of the passes that were made it is, what it weighs on each side, the places whose values it has, the last one
/// first, and its notes: each place that it tried, with the word that it found there.
#[derive(Drop)]
pub struct Pass<T, P: Scale<T>> {
    pub(crate) seat: Seat<Option<T>, Sheet>,
    pub(crate) of: PhantomData<P>,
}

impl<T, P: Scale<T>> Model for Pass<T, P> {
    ghost use Rattle.std.specs.Prelude.{◌≡◌, ◌<◌};
    ghost use Rattle.shared_row.specs.Views.{PassView, pass_view, all_none};

    ghost Value = { PassView };

    ghost view = { λ p. pass_view p.seat };

    ghost invariant = { λ p. (0 < p.seat.me.0.parts) × (p.seat.me.1 ≡ all_none p.seat.me.0.held) };
}
