//! The arena that the caches of all kinds share.
//!
//! *The idea.* A row with one place, in which the arena lies. It weighs nothing, so its passes count nothing. A hand takes it for a
//! moment where the slabs that it has taken need a page, and the reaper to give pages back.

ghost use Rattle.std.specs.Prelude.{◌≡◌, ◌<◌, sum_by, vec_len, All, IfOk};
ghost use Rattle.shared_row.specs.Views.{IsIdleAt, fresh_pass};

use shared_row::{Pass, Row, Scale};
use std::alloc::{AllocError, Global};
use std::marker::Model;
use vmem_arena::Arena;

/// The arena as it lies in its place.
#[derive(Drop)]
pub struct ArenaPlace {
    // These keep what two threads write off one pair of lines of the processor's cache.
    before: [u64; 16],
    pub(crate) arena: Arena,
    after: [u64; 16],
}

/// An arena weighs nothing.
pub struct Weightless;

impl Scale<Box<ArenaPlace>> for Weightless {
    ghost left = { λ b. 0 };

    ghost right = { λ b. 0 };
}

/// What a thread takes the arena with. It has no bytes, and it is for the hands of all kinds that the thread has.
pub type ArenaPass = Pass<Box<ArenaPlace>, Weightless>;

/// An arena that threads share.
#[derive(Drop)]
pub struct SharedArena {
    pub(crate) row: Row<Box<ArenaPlace>, Weightless>,
    into: Vec<Box<ArenaPlace>>,
}

impl Model for SharedArena {
    ghost use Rattle.std.specs.Prelude.{◌≡◌, ◌≤◌, [], vec_capacity};
    ghost use Rattle.shared_row.specs.Views.{RowView};

    ghost Value = { RowView };

    ghost view = { λ a. a.row };

    ghost invariant = { λ a. (a.row.places ≡ 1) × (a.into.items ≡ []) × (1 ≤ vec_capacity a.into) };
}

impl SharedArena {
    /// Shares the arena among as many passes.
    ///
    /// # Errors
    /// There was no memory, and the arena is gone.
    pub fn new(
        alloc: Global,
        arena: Arena,
        passes: u32,
    ) -> Result<(SharedArena, Vec<ArenaPass>), AllocError>
        requires some { 0 < passes }
        ensures row { IfOk result (λ r. r.0.passes ≡ passes) }
        ensures passes { IfOk result (λ r. (vec_len r.1 ≡ passes) × All (λ p. p ≡ fresh_pass r.0.table) r.1.items) }
    {
        let into = Vec::with_capacity(alloc, 1)?;
        let mut values = Vec::with_capacity(alloc, 1)?;
        let place = ArenaPlace {
            before: [0; 16],
            arena,
            after: [0; 16],
        };
        values.push_reserved(Box::new(alloc, place)?);
        match Row::new(alloc, values, passes) {
            Ok((row, all)) => Ok((SharedArena { row, into }, all)),
            Err(_) => Err(AllocError),
        }
    }

    /// Ends the sharing with all passes that were made, and gives the arena.
    pub fn close(self, passes: Vec<ArenaPass>) -> Arena
        requires some { 0 < vec_len passes }
        requires passes { All (IsIdleAt self.table) passes.items }
        requires whole { sum_by (λ p. p.parts) passes.items ≡ self.passes }
    {
        let SharedArena { row, into } = self;
        let mut values = row.close(passes, into);
        match values.pop() {
            Some(place) => Box::into_inner(place).arena,
            None => unreachable!(),
        }
    }
}
