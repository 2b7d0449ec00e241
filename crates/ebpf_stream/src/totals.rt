//! What the runs of a machine did to its caches and shelves.

ghost use Rattle.std.specs.Prelude.{◌≡◌};
ghost use Rattle.std.specs.Int.{from_bool};
ghost use Rattle.ebpf_host.specs.Stocks.{shelf_bytes};
ghost use Rattle.ebpf_stream.specs.Totals.{TellAllLeft};

use ebpf_host::machine::Machine;
use ebpf_host::stock::Counts;
use worker_pool::ShelfTotals;

/// What they did to the cache and the shelf of a kind.
#[derive(Clone, Copy)]
pub struct KindTotals {
    pub allocs: u64,
    pub frees: u64,
    pub nulls: u64,
    pub shelf: ShelfTotals,
}

/// What they did to those of each kind.
#[derive(Clone, Copy)]
pub struct MachineTotals {
    pub cells: KindTotals,
    pub records: KindTotals,
    pub blocks: KindTotals,
}

/// What the runs of a machine did, when what is on its shelves has gone back to the caches too.
pub(crate) fn totals_of(machine: &Machine) -> MachineTotals
    ensures { TellAllLeft (λ shelf. shelf_bytes machine.now shelf) result }
{
    let [cells, records, blocks] = machine.counts();
    let [cell, record, block] = machine.shelved();
    MachineTotals {
        cells: kind_totals(cells, cell),
        records: kind_totals(records, record),
        blocks: kind_totals(blocks, block),
    }
}

// What they did to a kind, where an object of it is on the shelf or none is.
fn kind_totals(counts: Counts, is_shelved: bool) -> KindTotals
    ensures { result.shelf.left ≡ from_bool is_shelved }
{
    let left = u64::from(is_shelved);
    KindTotals {
        allocs: counts.allocs,
        frees: counts.frees.wrapping_add(left),
        nulls: counts.nulls,
        shelf: ShelfTotals {
            puts: counts.puts,
            gets: counts.gets,
            left,
            // Nobody else takes what lies there.
            misses: 0,
        },
    }
}
