//! What is shown beside what is known before each slot: the lines of C of a function, and the slots that are copied.

ghost use Rattle.std.specs.Prelude.{◌≡◌, ◌<◌, ◌++◌, IfOk, OnOk, length, string_bytes};
ghost use Rattle.ebpf_explain.specs.StackWords.{texts_below};
ghost use Rattle.ebpf_verify.specs.Traced.{subject_of};
ghost use Rattle.ebpf_show.specs.KnownObjects.{known_in, slot_in};
ghost use Rattle.ebpf_show.specs.Sourced.{heading_of, is_beside, listed_lines, place_row, row_of, with_line};

use crate::copies::{Copies, write_copy_at};
use crate::explain_json::{write_objects, write_slot_objects};
use ebpf_command::answer::Answer;
use ebpf_command::format::Format;
use ebpf_explain::slots::{write_slot, write_slots};
use ebpf_input::source_line::{held_at, held_before, write_heading, write_place_in};
use ebpf_object_file::holding_line::HoldingLine;
use ebpf_object_file::lines::{Line, Lines};
use ebpf_verify::trace::Trace;
use std::alloc::{AllocError, Global};

/// The lines of C of a function, and the one that holds at each of its slots.
#[derive(Clone, Copy)]
pub(crate) struct Sourced<'a> {
    pub lines: Lines<'a>,
    pub holding: &'a [Option<Line>],
    /// Whether each is written before its instructions.
    pub listed: bool,
}

/// What is shown beside what is known before each slot of a program.
#[derive(Clone, Copy)]
pub(crate) struct Beside<'a> {
    /// The lines of C, if they are known.
    pub source: Option<Sourced<'a>>,
    /// Of each slot the slot of the program that it copies, if the program was made of another one.
    pub copies: Option<Copies<'a>>,
}

// Writes what is known before a slot.
fn write_slot_in(
    alloc: Global,
    format: Format,
    text: &mut String,
    trace: &Trace,
    slot: usize,
) -> Result<(), AllocError>
    requires inside { slot < length trace.now.entries.items }
    ensures { OnOk result (string_bytes text.new ≡ string_bytes text.old
        ++ slot_in format trace.now.flowed.now trace.now.entries.items trace.now.kinds.now slot) }
{
    match format {
        Format::Text => write_slot(alloc, text, trace, slot),
        Format::Json => write_slot_objects(alloc, text, trace, slot),
    }
}

// Writes what is known before each slot.
fn write_known_in(
    alloc: Global,
    format: Format,
    text: &mut String,
    trace: &Trace,
) -> Result<(), AllocError>
    ensures { OnOk result (string_bytes text.new ≡ string_bytes text.old ++ known_in format (subject_of trace.now) trace.now.entries.items) }
{
    match format {
        Format::Text => write_slots(alloc, text, trace),
        Format::Json => write_objects(alloc, text, trace),
    }
}

// Writes the line of C before a slot, where the lines are to be listed.
fn write_heading_of(
    format: Format,
    text: &mut String,
    source: Option<Sourced<'_>>,
    slot: usize,
) -> Result<(), AllocError>
    ensures { OnOk result (string_bytes text.new ≡ string_bytes text.old ++ heading_of format source.entry slot) }
{
    match source {
        Some(sourced) if sourced.listed => {
            let before = held_before(sourced.holding, slot);
            let now = held_at(sourced.holding, slot);
            write_heading(format, text, sourced.lines, before, now)
        }
        _ => Ok(()),
    }
}

// Writes what is known before a slot, and before that what is beside it.
fn write_row(
    alloc: Global,
    format: Format,
    text: &mut String,
    trace: &Trace,
    beside: Beside<'_>,
    slot: usize,
) -> Result<(), AllocError>
    requires inside { slot < length trace.now.entries.items }
    ensures { OnOk result (string_bytes text.new ≡ string_bytes text.old
        ++ row_of format beside.entry (subject_of trace.now) trace.now.entries.items slot) }
{
    write_heading_of(format, text, beside.source, slot)?;
    write_copy_at(format, text, trace.flowed.program(), beside.copies, slot)?;
    write_slot_in(alloc, format, text, trace, slot)
}

// Writes what is known before each slot, with what is beside it.
fn write_rows(
    alloc: Global,
    format: Format,
    text: &mut String,
    trace: &Trace,
    beside: Beside<'_>,
) -> Result<(), AllocError>
    ensures { OnOk result (string_bytes text.new ≡ string_bytes text.old
        ++ texts_below (length trace.now.entries.items) (row_of format beside.entry (subject_of trace.now) trace.now.entries.items)) }
{
    for slot in 0..trace.entries.len() {
        write_row(alloc, format, text, trace, beside, slot)?;
    }
    Ok(())
}

// Whether anything is beside what is known.
fn is_beside(beside: Beside<'_>) -> bool
    ensures { result ≡ is_beside beside.entry }
{
    match beside.source {
        Some(sourced) => sourced.listed || beside.copies.is_some(),
        None => beside.copies.is_some(),
    }
}

/// Writes what is known before each slot, with the lines of C where they are to be listed, and the slots that are copied where some are. It fails
/// only where an allocation fails.
pub(crate) fn write_listed(
    alloc: Global,
    format: Format,
    text: &mut String,
    trace: &Trace,
    beside: Beside<'_>,
) -> Result<(), AllocError>
    ensures { OnOk result (string_bytes text.new ≡ string_bytes text.old ++ listed_lines format beside.entry (subject_of trace.now) trace.now.entries.items) }
{
    if is_beside(beside) {
        write_rows(alloc, format, text, trace, beside)
    } else {
        write_known_in(alloc, format, text, trace)
    }
}

/// Writes a line with its column, where there is one. It fails only where an allocation fails.
pub(crate) fn write_place(
    format: Format,
    text: &mut String,
    lines: Lines<'_>,
    line: Option<Line>,
) -> Result<(), AllocError>
    ensures { OnOk result (string_bytes text.new ≡ string_bytes text.old ++ place_row format lines.entry line) }
{
    match line {
        None => Ok(()),
        Some(line) => write_place_in(format, text, HoldingLine { lines, line }),
    }
}

/// An answer that refuses a slot, with the line of C that holds there under it.
pub(crate) fn with_line(
    format: Format,
    answer: Answer,
    source: Option<Sourced<'_>>,
    slot: u16,
) -> Result<Answer, AllocError>
    ensures { IfOk result (λ r. r ≡ with_line format source.entry slot answer) }
{
    let Some(sourced) = source else {
        return Ok(answer);
    };
    let mut answer = answer;
    let line = held_at(sourced.holding, slot as usize);
    write_place(format, &mut answer.text, sourced.lines, line)?;
    Ok(answer)
}
