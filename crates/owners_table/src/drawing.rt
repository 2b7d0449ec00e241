//! The rule of the tickets: what a seat knows, what always holds, and what each step tells.

use atomic_table::{Play, TableRule};
use std::collections::LinkedList;

/// The limit, and how many seats were made.
#[derive(Clone, Copy)]
pub struct Bounds {
    pub limit: u64,
    pub seats: u64,
}

/// What was done with one seat: the numbers that it drew, and whether one of them was not below the limit. No value of
/// it is made.
pub struct TicketSheet {
    pub limit: u64,
    pub drawn: LinkedList<u64>,
    pub passed: bool,
}

/// The rule of the tickets, as a type for the table.
pub struct Drawing;

impl TableRule<(), LinkedList<TicketSheet>, Bounds> for Drawing {
    ghost use Rattle.std.specs.Prelude.{replicate};
    ghost use Rattle.owners_table.specs.Drawing.{Drawn, blank};

    ghost holds = { λ z. Drawn z.limit z.seats };

    ghost first = { λ z. replicate z.seats (blank z.limit) };
}

/// A fetch-add of 1.
pub struct Draw;

impl Play<(), LinkedList<TicketSheet>> for Draw {
    ghost use Rattle.owners_table.specs.Drawing.{drew};

    ghost then = { drew };
}
