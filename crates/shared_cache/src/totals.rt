//! What all hands of a cache did.

ghost use Rattle.std.specs.Prelude.{◌≡◌};

use crate::sums::Sums;
use homing::Remains;

/// The sums over all hands of a cache that was closed, and what became of its objects. It always holds that
/// `missing + frees == allocs + foreign`.
#[derive(Clone, Copy)]
pub struct Totals {
    /// How often a hand was given an object.
    pub allocs: u64,
    /// How often a hand gave one back.
    pub frees: u64,
    /// How often a hand was refused one for want of a page or of memory, or because it had lent all that it may.
    pub nulls: u64,
    /// How often a hand was refused one because another was at the slabs or at the arena.
    pub busy: u64,
    /// How many slots were still out of the slabs, when no hand and no magazine had an object any more.
    pub missing: u64,
    /// How many objects came home whose slot wasn't out of these slabs.
    pub foreign: u64,
    // Only the end of the slabs makes it, so no other numbers are reported.
    remains: Remains,
    ghost told: { (missing ≡ remains.missing) × (foreign ≡ remains.foreign) },
}

impl Totals {
    /// The totals of a cache whose slabs were ended, and whose hands did this.
    pub(crate) fn new(remains: Remains, sums: Sums) -> Totals
        ensures hands { (result.allocs ≡ sums.allocs) × (result.frees ≡ sums.frees) × (result.nulls ≡ sums.nulls) × (result.busy ≡ sums.busy) }
        ensures remains { result.remains ≡ remains }
    {
        Totals {
            allocs: sums.allocs,
            frees: sums.frees,
            nulls: sums.nulls,
            busy: sums.busy,
            missing: remains.missing(),
            foreign: remains.foreign(),
            remains,
        }
    }
}
