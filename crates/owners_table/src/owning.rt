//! The rule of the owners' table: what a seat knows, what always holds, and what each step tells.

use atomic_table::{Play, TableRule};
use std::collections::LinkedList;

/// How many slots the table has, and how many seats were made.
#[derive(Clone, Copy)]
pub struct Size {
    pub slots: u64,
    pub seats: u64,
}

/// What was done with one seat: the slots that it holds, each with its word, how many claims and fetches it made, the word
/// that each claim found, the word that each fetch found, and the slots that it shelved, each with the shelf's word. No
/// value of it is made.
pub struct OwnerSheet {
    pub held: LinkedList<(u64, u64)>,
    pub tries: u64,
    pub notes: LinkedList<(u64, u64)>,
    pub fetches: LinkedList<(u64, u64)>,
    pub shelved: LinkedList<(u64, u64)>,
    pub got: LinkedList<(u64, u64)>,
}

/// The rule of the owners, as a type for the table.
pub struct Owning;

impl TableRule<(), LinkedList<OwnerSheet>, Size> for Owning {
    ghost use Rattle.std.specs.Prelude.{replicate};
    ghost use Rattle.owners_table.specs.Owning.{Owned, blank};

    ghost holds = { λ z. Owned z.slots z.seats };

    ghost first = { λ z. replicate z.seats blank };
}

/// A compare-exchange from 0 to the word of a mark.
pub struct Claim;

impl Play<(), LinkedList<OwnerSheet>> for Claim {
    ghost use Rattle.owners_table.specs.Owning.{claimed};

    ghost then = { claimed };
}

/// An exchange to 0.
pub struct Release;

impl Play<(), LinkedList<OwnerSheet>> for Release {
    ghost use Rattle.owners_table.specs.Owning.{released};

    ghost then = { released };
}

/// An exchange to the word of a shelf.
pub struct Shelve;

impl Play<(), LinkedList<OwnerSheet>> for Shelve {
    ghost use Rattle.owners_table.specs.Owning.{was_shelved};

    ghost then = { was_shelved };
}

/// A compare-exchange from the word of a shelf to that of a mark.
pub struct Fetch;

impl Play<(), LinkedList<OwnerSheet>> for Fetch {
    ghost use Rattle.owners_table.specs.Owning.{fetched};

    ghost then = { fetched };
}

/// A load.
pub struct Look;

impl Play<(), LinkedList<OwnerSheet>> for Look {
    ghost use Rattle.owners_table.specs.Owning.{looked};

    ghost then = { looked };
}
