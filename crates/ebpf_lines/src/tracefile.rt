//! The lines of C of a program as a tracefile of lcov.

ghost use Rattle.std.specs.Prelude.{◌≡◌, ◌+◌, ◌-◌, ◌++◌, not, get_or, length, string_bytes, IfOk, OnOk};
ghost use Rattle.std.specs.Option.{option_copied};
ghost use Rattle.ebpf_explain.specs.StackWords.{texts_below};
ghost use Rattle.ebpf_object_file.specs.Data.{any_below};
ghost use Rattle.ebpf_lines.specs.LineCounts.{file_begun, held};
ghost use Rattle.ebpf_lines.specs.Traced.{AreTotals, WithLine, WithWays, trace_by, trace_of};
ghost use Rattle.ebpf_lines.specs.Tracefile.{branch_if, file_records, file_section, has_number, hit_in, is_branch, is_branch_at, line_record, lines_in};
ghost use Rattle.ebpf_lines.specs.Tracefile.{most_of, positive, records_in, sum_below, trace_sections, ways_at, ways_hit_at, ways_hit_in, ways_in};

use crate::line_counts::{file_begun, held_at, is_at, most_executed, next_line};
use crate::source::Source;
use crate::trace_rows::{
    positive, write_branch, write_branch_totals, write_count_row, write_file_row,
    write_function_if, write_line_totals,
};
use ebpf_insn::insn::Insn;
use ebpf_insn::program::Program;
use ebpf_object_file::functions::Name;
use ebpf_object_file::lines::{Line, Lines};
use std::alloc::AllocError;

// A program that has lines, and how often jobs executed each slot and left it for another than the next one.
#[derive(Clone, Copy)]
struct Traced<'a> {
    function: Name<'a>,
    lines: Lines<'a>,
    holding: &'a [Option<Line>],
    executed: &'a [u64],
    taken: &'a [u64],
    program: &'a Program,
}

// How many lines a file has and how many ways of branches, and to how many of each jobs came.
#[derive(Drop)]
struct Totals {
    lines: u64,
    lines_hit: u64,
    ways: u64,
    ways_hit: u64,
}

/// Writes after a text the sections of a tracefile of lcov: one for each file that lines of the program are of. It fails only if an allocation
/// fails, or a total would not fit 64 bits.
pub fn write_trace(
    text: &mut String,
    source: &Source<'_>,
    executed: &[u64],
    taken: &[u64],
    program: &Program,
) -> Result<(), AllocError>
    ensures { OnOk result (string_bytes text.new ≡ string_bytes text.old
        ++ trace_sections (trace_by source.now (λ k. get_or executed.now k 0) (λ k. get_or taken.now k 0) program.now)) }
{
    let traced = Traced {
        function: source.function,
        lines: source.lines,
        holding: &source.holding,
        executed,
        taken,
        program,
    };
    write_sections(text, traced)
}

// Writes the section of each file.
fn write_sections(text: &mut String, traced: Traced<'_>) -> Result<(), AllocError>
    ensures { OnOk result (string_bytes text.new ≡ string_bytes text.old ++ trace_sections (trace_of traced.entry)) }
{
    for slot in 0..traced.holding.len() {
        write_section(text, traced, slot, file_begun(traced.holding, slot))?;
    }
    Ok(())
}

// Writes the section of the file that a line begins.
fn write_section(
    text: &mut String,
    traced: Traced<'_>,
    slot: usize,
    begun: Option<Line>,
) -> Result<(), AllocError>
    ensures { OnOk result (string_bytes text.new ≡ string_bytes text.old ++ file_section (trace_of traced.entry) slot begun) }
{
    let Some(line) = begun else {
        return Ok(());
    };
    write_file_row(text, traced.lines, line)?;
    let here = is_first(traced.holding, slot);
    let calls = count_at(traced.executed, 0);
    write_function_if(text, here, traced.function, line.line, calls)?;
    write_records(text, traced, line.file)
}

// Whether no slot below this one has a line.
fn is_first(holding: &[Option<Line>], slots: usize) -> bool
    ensures { result ≡ not (any_below (λ k. has_number (held holding.now k)) slots) }
{
    for slot in 0..slots {
        if has_number(held_at(holding, slot)) {
            return false;
        }
    }
    true
}

fn has_number(line: Option<Line>) -> bool
    ensures { result ≡ has_number line }
{
    match line {
        Some(line) => line.line != 0,
        None => false,
    }
}

// The count of a slot; a slot without one was never executed.
fn count_at(counts: &[u64], slot: usize) -> u64
    ensures { result ≡ get_or counts.now slot 0 }
{
    if slot < counts.len() { counts[slot] } else { 0 }
}

// Writes the records of a file.
fn write_records(text: &mut String, traced: Traced<'_>, file: u32) -> Result<(), AllocError>
    ensures { OnOk result (string_bytes text.new ≡ string_bytes text.old ++ file_records (trace_of traced.entry) file) }
{
    let totals = write_lines(text, traced, file)?;
    write_branch_totals(text, totals.ways, totals.ways_hit)?;
    write_line_totals(text, totals.lines, totals.lines_hit)
}

// Writes the records of the lines of a file, by their numbers, and gives the totals.
fn write_lines(text: &mut String, traced: Traced<'_>, file: u32) -> Result<Totals, AllocError>
    ensures text { OnOk result (string_bytes text.new ≡ string_bytes text.old ++ texts_below 4294967296 (records_in (trace_of traced.entry) file)) }
    ensures totals { IfOk result (AreTotals (sum_below 4294967296 (lines_in (trace_of traced.entry) file))
        (sum_below 4294967296 (hit_in (trace_of traced.entry) file)) (sum_below 4294967296 (ways_in (trace_of traced.entry) file))
        (sum_below 4294967296 (ways_hit_in (trace_of traced.entry) file))) }
{
    let mut totals = Totals {
        lines: 0,
        lines_hit: 0,
        ways: 0,
        ways_hit: 0,
    };
    let mut above = 0;
    while let Some(line) = next_line(traced.holding, file, above) {
        above = line.line;
        write_line(text, traced, file, above, &mut totals)?;
    }
    Ok(totals)
}

// Writes the records of a line, and counts it.
fn write_line(
    text: &mut String,
    traced: Traced<'_>,
    file: u32,
    number: u32,
    totals: &mut Totals,
) -> Result<(), AllocError>
    ensures text { OnOk result (string_bytes text.new ≡ string_bytes text.old ++ line_record (trace_of traced.entry) file number) }
    ensures totals { OnOk result (WithLine (positive (most_of (trace_of traced.entry) file number))
        (sum_below (length traced.entry.holding.now) (ways_at (trace_of traced.entry) file number))
        (sum_below (length traced.entry.holding.now) (ways_hit_at (trace_of traced.entry) file number)) totals.old totals.new) }
{
    let most = most_executed(traced.executed, traced.holding, file, number);
    write_branches(text, traced, file, number, most, totals)?;
    write_count_row(text, number, most)?;
    totals.lines = sum(totals.lines, 1)?;
    totals.lines_hit = sum(totals.lines_hit, positive(most))?;
    Ok(())
}

// A sum that fits 64 bits.
fn sum(one: u64, other: u64) -> Result<u64, AllocError>
    ensures { IfOk result (λ n. n ≡ one + other) }
{
    match one.checked_add(other) {
        Some(sum) => Ok(sum),
        None => Err(AllocError),
    }
}

// Writes the branches of a line, and counts their ways.
fn write_branches(
    text: &mut String,
    traced: Traced<'_>,
    file: u32,
    number: u32,
    most: u64,
    totals: &mut Totals,
) -> Result<(), AllocError>
    ensures text { OnOk result (string_bytes text.new ≡ string_bytes text.old
        ++ texts_below (length traced.entry.holding.now) (branch_if (trace_of traced.entry) file number most)) }
    ensures totals { OnOk result (WithWays (sum_below (length traced.entry.holding.now) (ways_at (trace_of traced.entry) file number))
        (sum_below (length traced.entry.holding.now) (ways_hit_at (trace_of traced.entry) file number)) totals.old totals.new) }
{
    for slot in 0..traced.holding.len() {
        write_branch_at(text, traced, file, number, most, slot, totals)?;
    }
    Ok(())
}

// Writes the ways of a slot, if it is a branch of this line, and counts them.
fn write_branch_at(
    text: &mut String,
    traced: Traced<'_>,
    file: u32,
    number: u32,
    most: u64,
    slot: usize,
    totals: &mut Totals,
) -> Result<(), AllocError>
    ensures text { OnOk result (string_bytes text.new ≡ string_bytes text.old ++ branch_if (trace_of traced.entry) file number most slot) }
    ensures totals { OnOk result (WithWays (ways_at (trace_of traced.entry) file number slot) (ways_hit_at (trace_of traced.entry) file number slot)
        totals.old totals.new) }
{
    if !is_branch_at(traced, file, number, slot) {
        return Ok(());
    }
    let taken = count_at(traced.taken, slot);
    let passed = count_at(traced.executed, slot).saturating_sub(taken);
    write_branch(text, number, slot, most, taken, passed)?;
    totals.ways = sum(totals.ways, 2)?;
    totals.ways_hit = sum(totals.ways_hit, positive(taken) + positive(passed))?;
    Ok(())
}

fn is_branch_at(traced: Traced<'_>, file: u32, number: u32, slot: usize) -> bool
    ensures { result ≡ is_branch_at (trace_of traced.entry) file number slot }
{
    is_branch(traced.program.at(slot)) && is_at(file, number, held_at(traced.holding, slot))
}

fn is_branch(insn: Option<&Insn>) -> bool
    ensures { result ≡ is_branch (option_copied insn.entry) }
{
    matches!(insn, Some(Insn::Branch { .. }))
}
