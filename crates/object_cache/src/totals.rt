//! What all hands of a cache did.

ghost use Rattle.std.specs.Prelude.{◌≡◌};

use crate::activity::{DepotCounts, PageCounts};
use homing::Remains;

/// The sums over all hands of a cache that was closed, and what became of its objects. It always holds that
/// `missing + frees == allocs + foreign`.
#[derive(Clone, Copy)]
pub struct Totals {
    /// How often a hand was given an object.
    pub allocs: u64,
    /// How often a hand gave one back.
    pub frees: u64,
    /// How often a hand was refused one.
    pub nulls: u64,
    /// How many slots were still out of the slabs, when no hand and no magazine had an object any more.
    pub missing: u64,
    /// How many objects came home whose slot wasn't out of these slabs.
    pub foreign: u64,
    /// What the depot did.
    pub depot: DepotCounts,
    /// Which pages the slabs had.
    pub pages: PageCounts,
    // Only the end of the cache's inside makes it, so no other numbers are reported.
    remains: Remains,
    ghost told: { (missing ≡ remains.missing) × (foreign ≡ remains.foreign) },
}

impl Totals {
    /// The totals of a cache whose inside was ended, and whose hands did this often what each number counts.
    pub(crate) fn new(
        remains: Remains,
        allocs: u64,
        frees: u64,
        nulls: u64,
        depot: DepotCounts,
        pages: PageCounts,
    ) -> Totals
        ensures hands { (result.allocs ≡ allocs) × (result.frees ≡ frees) × (result.nulls ≡ nulls) }
        ensures counts { (result.depot ≡ depot) × (result.pages ≡ pages) }
        ensures remains { result.remains ≡ remains }
    {
        Totals {
            allocs,
            frees,
            nulls,
            missing: remains.missing(),
            foreign: remains.foreign(),
            depot,
            pages,
            remains,
        }
    }
}
