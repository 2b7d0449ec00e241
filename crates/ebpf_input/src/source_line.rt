//! The line of C that holds at a slot of a function, and how it is written.

ghost use Rattle.std.specs.Prelude.{◌≡◌, ◌++◌, IfOk, OnOk, None, length, slice_index_or, string_bytes};
ghost use Rattle.ebpf_object_file.specs.Shown.{AreHolding};
ghost use Rattle.ebpf_input.specs.Formats.{column_member, place_in, source_row_in};
ghost use Rattle.ebpf_input.specs.SourceLine.{heading, held_before};

use crate::json_text::{write_source_head, write_source_tail};
use ebpf_command::format::Format;
use ebpf_object_file::holding_line::HoldingLine;
use ebpf_object_file::lines::{Line, Lines};
use std::alloc::{AllocError, Global};

/// The line that holds at each of that many slots of a function that begins at a byte of its section. It fails only where an allocation fails.
pub fn held_lines(
    alloc: Global,
    lines: Lines<'_>,
    from: u64,
    slots: usize,
) -> Result<Vec<Option<Line>>, AllocError>
    ensures whole { IfOk result (λ holding. length holding.items ≡ slots) }
    ensures held { IfOk result (λ holding. AreHolding lines.entry from holding.items) }
{
    let mut holding: Vec<Option<Line>> = vec![in alloc; None; slots]?;
    lines.at_slots(from, &mut holding);
    Ok(holding)
}

/// The line that holds at a slot.
pub fn held_at(holding: &[Option<Line>], slot: usize) -> Option<Line>
    ensures { result ≡ slice_index_or holding.now slot None }
{
    if slot < holding.len() {
        holding[slot]
    } else {
        None
    }
}

/// The line that holds at the slot before a slot.
pub fn held_before(holding: &[Option<Line>], slot: usize) -> Option<Line>
    ensures { result ≡ held_before holding.now slot }
{
    if slot == 0 {
        None
    } else {
        held_at(holding, slot - 1)
    }
}

/// Writes a line of C, where one holds and the line before it is another. It fails only where an allocation fails.
pub fn write_heading(
    format: Format,
    text: &mut String,
    lines: Lines<'_>,
    before: Option<Line>,
    now: Option<Line>,
) -> Result<(), AllocError>
    ensures { OnOk result (string_bytes text.new ≡ string_bytes text.old ++ heading format lines.entry before now) }
{
    match (before, now) {
        (_, None) => Ok(()),
        (Some(last), Some(next)) if last.is_one_line(next) => Ok(()),
        (_, Some(next)) => write_source_row(format, text, lines, next),
    }
}

// Writes a line of C.
fn write_source_row(
    format: Format,
    text: &mut String,
    lines: Lines<'_>,
    line: Line,
) -> Result<(), AllocError>
    ensures { OnOk result (string_bytes text.new ≡ string_bytes text.old ++ source_row_in format lines.entry line) }
{
    match format {
        Format::Text => {
            let source = lines.source(line);
            write!(text, "; {source}\n")
        }
        Format::Json => {
            write_source_head(text, lines, line)?;
            write_source_tail(text, lines, line)?;
            Ok(())
        }
    }
}

// Writes a column, as a member after others.
fn write_column(text: &mut String, column: u32) -> Result<(), AllocError>
    ensures { OnOk result (string_bytes text.new ≡ string_bytes text.old ++ column_member column) }
{
    write!(text, ",\"column\":{column}")
}

/// Writes a line with its column. It fails only where an allocation fails.
pub fn write_place_in(
    format: Format,
    text: &mut String,
    holding: HoldingLine<'_>,
) -> Result<(), AllocError>
    ensures { OnOk result (string_bytes text.new ≡ string_bytes text.old ++ place_in format holding.entry.lines holding.entry.line) }
{
    match format {
        Format::Text => write!(text, "{holding}"),
        Format::Json => {
            let HoldingLine { lines, line } = holding;
            write_source_head(text, lines, line)?;
            write_column(text, line.column)?;
            write_source_tail(text, lines, line)?;
            Ok(())
        }
    }
}
