//! What the caches and the shelves of a machine did, as it is written.

ghost use Rattle.std.specs.Prelude.{◌≡◌, ◌++◌, string_bytes, OnOk};
ghost use Rattle.ebpf_stream.specs.Totals.{caches_in, counts_in, totals_in};

use crate::totals::{KindTotals, MachineTotals};
use ebpf_command::format::Format;
use ebpf_report::totals_text::{CacheCounts, name_of, write_cache, write_shelves};
use std::alloc::AllocError;

/// Writes totals after a text. It fails only where an allocation fails.
pub(crate) fn write_totals(
    text: &mut String,
    format: Format,
    totals: &MachineTotals,
) -> Result<(), AllocError>
    ensures { OnOk result (string_bytes text.new ≡ string_bytes text.old ++ totals_in format totals.now) }
{
    write_caches(text, format, totals)?;
    let shelves = [
        totals.cells.shelf,
        totals.records.shelf,
        totals.blocks.shelf,
    ];
    write_shelves(text, format, &shelves)
}

// Writes what the cache of each kind did.
fn write_caches(text: &mut String, format: Format, totals: &MachineTotals) -> Result<(), AllocError>
    ensures { OnOk result (string_bytes text.new ≡ string_bytes text.old ++ caches_in format totals.now) }
{
    write_cache(text, format, name_of(0), counts_in(&totals.cells))?;
    write_cache(text, format, name_of(1), counts_in(&totals.records))?;
    write_cache(text, format, name_of(2), counts_in(&totals.blocks))
}

// What is written of a cache: no object is missing from it.
fn counts_in(totals: &KindTotals) -> CacheCounts
    ensures { result ≡ counts_in totals.now }
{
    CacheCounts {
        allocs: totals.allocs,
        frees: totals.frees,
        nulls: totals.nulls,
        missing: 0,
    }
}
