//! What C is given of what became of what workers shared.

ghost use Rattle.std.specs.Prelude.{◌≡◌, List};
ghost use Rattle.shared_store.specs.Closing.{AreTotals};
ghost use Rattle.shared_store.specs.Tools.{ToolsView};
ghost use Rattle.ebpf_host_c.specs.Totals.{AreTold, told};

use shared_store::{KindTotals, SharedTotals};

/// What all workers did to the objects of one kind, and what became of these.
#[derive(Clone, Copy)]
#[repr(C)]
pub struct OfKind {
    /// How often a worker was given an object.
    pub allocs: u64,
    /// How often one came back, counting the one that was on the shelf at the end.
    pub frees: u64,
    /// How often a worker was refused one for want of a page or of memory.
    pub nulls: u64,
    /// How often a worker was refused one because another was at the slabs or at the arena.
    pub busy: u64,
    /// How many had not come back when all was closed.
    pub missing: u64,
    /// How many came back that had not been given.
    pub foreign: u64,
    /// How often an object was put on the shelf.
    pub puts: u64,
    /// How often one was got from it.
    pub gets: u64,
    /// How many were on it at the end: none or one.
    pub left: u64,
}

/// The totals of each kind.
#[derive(Clone, Copy)]
#[repr(C)]
pub struct Totals {
    /// Those of cells.
    pub cells: OfKind,
    /// Those of records.
    pub records: OfKind,
    /// Those of blocks.
    pub blocks: OfKind,
    /// How many objects went back to their cache since their slot had an owner.
    pub clashes: u64,
    /// How many objects that came off a shelf went back since their slot was another run's.
    pub strays: u64,
}

// Tells the totals of one kind.
fn told(totals: KindTotals) -> OfKind
    ensures { result ≡ told totals }
{
    OfKind {
        allocs: totals.allocs,
        frees: totals.frees,
        nulls: totals.nulls,
        busy: totals.busy,
        missing: totals.missing,
        foreign: totals.foreign,
        puts: totals.puts,
        gets: totals.gets,
        left: totals.left,
    }
}

/// Tells the totals of all kinds.
pub(crate) fn all_told(totals: SharedTotals) -> Totals
    ensures told { (all : List ToolsView) → AreTotals all totals → AreTold result }
{
    let [cells, records, blocks] = totals.kinds;
    Totals {
        cells: told(cells),
        records: told(records),
        blocks: told(blocks),
        clashes: totals.clashes,
        strays: totals.strays,
    }
}
