//! What caches and shelves did, in lines.

ghost use Rattle.std.specs.Prelude.{◌≡◌, ◌<◌, ◌++◌, length, string_bytes, OnOk};
ghost use Rattle.ebpf_state.specs.Kinds.{kind_names};
ghost use Rattle.ebpf_report.specs.TotalsLines.{cache_line, caches_from, kind_name, shelf_line, shelves_from, totals_lines};

use ebpf_command::format::Format;
use ebpf_command::members::{Member, write_line};
use ebpf_state::kinds::{KINDS, kinds};
use object_cache::Totals;
use std::alloc::AllocError;
use worker_pool::ShelfTotals;

/// How often a cache gave an object, took one back and had none to give, and how many objects are missing.
#[derive(Clone, Copy)]
pub struct CacheCounts {
    pub allocs: u64,
    pub frees: u64,
    pub nulls: u64,
    pub missing: u64,
}

/// Writes the cache of each kind after a text, and then each shelf that was used. It fails only where an allocation fails.
pub(crate) fn write_totals(
    text: &mut String,
    format: Format,
    totals: &[Totals; KINDS],
    shelves: &[ShelfTotals; KINDS],
) -> Result<(), AllocError>
    ensures { OnOk result (string_bytes text.new ≡ string_bytes text.old ++ totals_lines format totals.now shelves.now) }
{
    write_caches(text, format, totals)?;
    write_shelves(text, format, shelves)
}

// Writes what the cache of each kind did.
fn write_caches(
    text: &mut String,
    format: Format,
    totals: &[Totals; KINDS],
) -> Result<(), AllocError>
    ensures { OnOk result (string_bytes text.new ≡ string_bytes text.old ++ caches_from format 0 totals.now) }
{
    for kind in 0..totals.len() {
        let Totals {
            allocs,
            frees,
            nulls,
            missing,
            ..
        } = totals[kind];
        let counts = CacheCounts {
            allocs,
            frees,
            nulls,
            missing,
        };
        write_cache(text, format, name_of(kind), counts)?;
    }
    Ok(())
}

/// Writes what the cache of the kind of a name did after a text. It fails only where an allocation fails.
pub fn write_cache(
    text: &mut String,
    format: Format,
    name: &str,
    counts: CacheCounts,
) -> Result<(), AllocError>
    ensures { OnOk result (string_bytes text.new ≡ string_bytes text.old ++ cache_line format name.now counts) }
{
    let members = [
        Member::Word("cache", name),
        Member::Number("allocs", u128::from(counts.allocs)),
        Member::Number("frees", u128::from(counts.frees)),
        Member::Number("nulls", u128::from(counts.nulls)),
        Member::Number("missing", u128::from(counts.missing)),
    ];
    write_line(text, format, &members)
}

/// The name of the kind of a number.
pub fn name_of(kind: usize) -> &'static str
    requires { kind < length kind_names }
    ensures { result.now ≡ kind_name kind }
{
    kinds()[kind].name
}

/// Writes what the shelf of each kind did, if it was used, after a text. It fails only where an allocation fails.
pub fn write_shelves(
    text: &mut String,
    format: Format,
    shelves: &[ShelfTotals; KINDS],
) -> Result<(), AllocError>
    ensures { OnOk result (string_bytes text.new ≡ string_bytes text.old ++ shelves_from format 0 shelves.now) }
{
    for shelf in 0..shelves.len() {
        write_shelf(text, format, shelf, shelves[shelf])?;
    }
    Ok(())
}

// Writes what a shelf did, if an object was put there.
fn write_shelf(
    text: &mut String,
    format: Format,
    shelf: usize,
    totals: ShelfTotals,
) -> Result<(), AllocError>
    ensures { OnOk result (string_bytes text.new ≡ string_bytes text.old ++ shelf_line format shelf totals) }
{
    if totals.puts == 0 {
        return Ok(());
    }
    let members = [
        Member::Number("shelf", shelf as u128),
        Member::Number("puts", u128::from(totals.puts)),
        Member::Number("gets", u128::from(totals.gets)),
        Member::Number("left", u128::from(totals.left)),
    ];
    write_line(text, format, &members)
}
