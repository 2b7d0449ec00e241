//! The lines of C of a program, as they are written.

ghost use Rattle.std.specs.Prelude.{◌≡◌, ◌++◌, length, string_bytes, get_or, OnOk};
ghost use Rattle.ebpf_explain.specs.StackWords.{texts_below};
ghost use Rattle.ebpf_lines.specs.LineCounts.{file_begun};
ghost use Rattle.ebpf_lines.specs.SourceText.{file_if, numbered, source_lines};

use crate::line_counts::{file_begun, most_executed, next_line};
use crate::line_text::{write_file_head, write_line_in, write_program_head};
use crate::source::Source;
use ebpf_command::format::Format;
use ebpf_object_file::lines::{Line, Lines};
use std::alloc::AllocError;

// A program of a name: its lines, and how often jobs executed each slot.
#[derive(Clone, Copy)]
struct Counted<'a> {
    name: &'a str,
    lines: Lines<'a>,
    holding: &'a [Option<Line>],
    executed: &'a [u64],
}

/// Writes after a text the lines of C of the program of a name, with the count of its most executed instruction at each. It fails only if an
/// allocation fails.
pub fn write_source(
    text: &mut String,
    format: Format,
    name: &str,
    source: &Source<'_>,
    executed: &[u64],
) -> Result<(), AllocError>
    ensures { OnOk result (string_bytes text.new ≡ string_bytes text.old
        ++ source_lines format name.now source.now.lines source.now.holding.items (λ k. get_or executed.now k 0)) }
{
    write_program_head(text, format, name)?;
    let counted = Counted {
        name,
        lines: source.lines,
        holding: &source.holding,
        executed,
    };
    write_files(text, format, counted)
}

// Writes the files of a program.
fn write_files(text: &mut String, format: Format, counted: Counted<'_>) -> Result<(), AllocError>
    ensures { OnOk result (string_bytes text.new ≡ string_bytes text.old ++ texts_below (length counted.entry.holding.now) (λ slot.
        file_if format counted.entry.name.now counted.entry.lines counted.entry.holding.now (λ k. get_or counted.entry.executed.now k 0)
        (file_begun counted.entry.holding.now slot))) }
{
    for slot in 0..counted.holding.len() {
        write_file(text, format, counted, file_begun(counted.holding, slot))?;
    }
    Ok(())
}

// Writes the lines of the file that a line begins.
fn write_file(
    text: &mut String,
    format: Format,
    counted: Counted<'_>,
    begun: Option<Line>,
) -> Result<(), AllocError>
    ensures { OnOk result (string_bytes text.new ≡ string_bytes text.old
        ++ file_if format counted.entry.name.now counted.entry.lines counted.entry.holding.now (λ k. get_or counted.entry.executed.now k 0) begun) }
{
    let Some(line) = begun else {
        return Ok(());
    };
    write_file_head(text, format, counted.lines, line)?;
    write_numbered(text, format, counted, line.file)
}

// Writes the lines of a file, by their numbers.
fn write_numbered(
    text: &mut String,
    format: Format,
    counted: Counted<'_>,
    file: u32,
) -> Result<(), AllocError>
    ensures { OnOk result (string_bytes text.new ≡ string_bytes text.old ++ texts_below 4294967296
        (numbered format counted.entry.name.now counted.entry.lines counted.entry.holding.now (λ k. get_or counted.entry.executed.now k 0) file)) }
{
    let Counted {
        name,
        lines,
        holding,
        executed,
    } = counted;
    let mut above = 0;
    while let Some(line) = next_line(holding, file, above) {
        above = line.line;
        let count = most_executed(executed, holding, file, above);
        write_line_in(text, format, name, lines, count, line)?;
    }
    Ok(())
}
