//! A line of C with its count, as it is written.

ghost use Rattle.std.specs.Prelude.{◌≡◌, ◌<◌, ◌++◌, map, string_bytes, OnOk};
ghost use Rattle.ebpf_object_file.specs.Shown.{visible_byte};
ghost use Rattle.ebpf_lines.specs.SourceText.{count_column, count_members, file_head, file_members, file_row, line_in, line_object, line_row};
ghost use Rattle.ebpf_lines.specs.SourceText.{name_member, number_column, program_head, source_member};

use ebpf_command::format::Format;
use ebpf_command::json::write_quoted;
use ebpf_object_file::lines::{Line, Lines};
use std::alloc::AllocError;

/// Writes a line of the program of a name. It fails only if an allocation fails.
pub(crate) fn write_line_in(
    text: &mut String,
    format: Format,
    name: &str,
    lines: Lines<'_>,
    count: u64,
    line: Line,
) -> Result<(), AllocError>
    ensures { OnOk result (string_bytes text.new ≡ string_bytes text.old ++ line_in format name.now lines.entry count line) }
{
    match format {
        Format::Text => write_row(text, lines, count, line),
        Format::Json => write_object(text, name, lines, count, line),
    }
}

// Writes the row of a line.
fn write_row(text: &mut String, lines: Lines<'_>, count: u64, line: Line) -> Result<(), AllocError>
    ensures { OnOk result (string_bytes text.new ≡ string_bytes text.old ++ line_row lines.entry count line) }
{
    write_count(text, count)?;
    write_number(text, line.line)?;
    write_visible(text, lines.source(line).text)?;
    text.push_str("\n")
}

// Writes a count at the right of nine places, or that no job came there.
fn write_count(text: &mut String, count: u64) -> Result<(), AllocError>
    ensures { OnOk result (string_bytes text.new ≡ string_bytes text.old ++ count_column count) }
{
    if count == 0 {
        return text.push_str("    #####");
    }
    write!(text, "{count:>9}")
}

// Writes a number at the right of five places, between two colons.
fn write_number(text: &mut String, number: u32) -> Result<(), AllocError>
    ensures { OnOk result (string_bytes text.new ≡ string_bytes text.old ++ number_column number) }
{
    write!(text, ":{number:>5}:")
}

/// Writes bytes of a file, with a `?` for each that is no visible character of ASCII and no blank.
pub(crate) fn write_visible(text: &mut String, bytes: &[u8]) -> Result<(), AllocError>
    ensures { OnOk result (string_bytes text.new ≡ string_bytes text.old ++ map visible_byte bytes.now) }
{
    for byte in bytes {
        text.push(visible_byte(*byte) as char)?;
    }
    Ok(())
}

fn visible_byte(byte: u8) -> u8
    ensures shown { result ≡ visible_byte byte }
    ensures ascii { result < 128 }
{
    if byte.is_ascii_graphic() || byte == b' ' {
        byte
    } else {
        b'?'
    }
}

// Writes the object of a line.
fn write_object(
    text: &mut String,
    name: &str,
    lines: Lines<'_>,
    count: u64,
    line: Line,
) -> Result<(), AllocError>
    ensures { OnOk result (string_bytes text.new ≡ string_bytes text.old ++ line_object name.now lines.entry count line) }
{
    write_file_members(text, name, lines, line)?;
    write_count_members(text, line.line, count)?;
    write_source_member(text, lines, line)
}

// Writes the members of an object that say where a line is.
fn write_file_members(
    text: &mut String,
    name: &str,
    lines: Lines<'_>,
    line: Line,
) -> Result<(), AllocError>
    ensures { OnOk result (string_bytes text.new ≡ string_bytes text.old ++ file_members name.now lines.entry line) }
{
    write_name_member(text, name)?;
    write_quoted(text, lines.source(line).file)?;
    Ok(())
}

// Writes the name of the program, and that of the member after it.
fn write_name_member(text: &mut String, name: &str) -> Result<(), AllocError>
    ensures { OnOk result (string_bytes text.new ≡ string_bytes text.old ++ name_member name.now) }
{
    write!(text, "{{\"covered\":\"{name}\",\"file\":")
}

// Writes its number and its count.
fn write_count_members(text: &mut String, number: u32, count: u64) -> Result<(), AllocError>
    ensures { OnOk result (string_bytes text.new ≡ string_bytes text.old ++ count_members number count) }
{
    write!(text, ",\"line\":{number},\"executed\":{count}")
}

// Writes its text, and ends the object.
fn write_source_member(text: &mut String, lines: Lines<'_>, line: Line) -> Result<(), AllocError>
    ensures { OnOk result (string_bytes text.new ≡ string_bytes text.old ++ source_member lines.entry line) }
{
    text.push_str(",\"source\":")?;
    write_quoted(text, lines.source(line).text)?;
    text.push_str("}\n")
}

/// Writes what is before the lines of the file of a line: its name. Objects have it themselves.
pub(crate) fn write_file_head(
    text: &mut String,
    format: Format,
    lines: Lines<'_>,
    line: Line,
) -> Result<(), AllocError>
    ensures { OnOk result (string_bytes text.new ≡ string_bytes text.old ++ file_head format lines.entry line.file) }
{
    match format {
        Format::Text => write_file_row(text, lines, line),
        Format::Json => Ok(()),
    }
}

// Writes the row of the name of a line's file.
fn write_file_row(text: &mut String, lines: Lines<'_>, line: Line) -> Result<(), AllocError>
    ensures { OnOk result (string_bytes text.new ≡ string_bytes text.old ++ file_row lines.entry line.file) }
{
    text.push_str("        -:    0:Source:")?;
    write_visible(text, lines.source(line).file)?;
    text.push_str("\n")
}

/// Writes what is before the lines of a program: its name. Objects have it themselves.
pub(crate) fn write_program_head(
    text: &mut String,
    format: Format,
    name: &str,
) -> Result<(), AllocError>
    ensures { OnOk result (string_bytes text.new ≡ string_bytes text.old ++ program_head format name.now) }
{
    match format {
        Format::Text => write!(text, "        -:    0:Program:{name}\n"),
        Format::Json => Ok(()),
    }
}
