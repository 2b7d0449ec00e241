//! The records of a tracefile of lcov, as they are written.

ghost use Rattle.std.specs.Prelude.{◌≡◌, ◌++◌, codes, string_bytes, OnOk};
ghost use Rattle.ebpf_lines.specs.Tracefile.{branch_totals, count_row, file_row, function_if, function_rows, line_totals, positive};
ghost use Rattle.ebpf_lines.specs.Tracefile.{way_head, way_row, way_words};

use crate::line_text::write_visible;
use ebpf_object_file::functions::Name;
use ebpf_object_file::lines::{Line, Lines};
use std::alloc::AllocError;

/// Writes what is before the records of the file of a line: its name.
pub(crate) fn write_file_row(
    text: &mut String,
    lines: Lines<'_>,
    line: Line,
) -> Result<(), AllocError>
    ensures { OnOk result (string_bytes text.new ≡ string_bytes text.old ++ file_row lines.entry line.file) }
{
    text.push_str("TN:\nSF:")?;
    write_visible(text, lines.source(line).file)?;
    text.push_str("\n")
}

/// Writes the records of a function, if it is of this file.
pub(crate) fn write_function_if(
    text: &mut String,
    here: bool,
    name: Name<'_>,
    number: u32,
    calls: u64,
) -> Result<(), AllocError>
    ensures { OnOk result (string_bytes text.new ≡ string_bytes text.old ++ function_if here name.entry.bytes.now number calls) }
{
    if here {
        write_function(text, name, number, calls)
    } else {
        Ok(())
    }
}

// Writes the records of a function.
fn write_function(
    text: &mut String,
    name: Name<'_>,
    number: u32,
    calls: u64,
) -> Result<(), AllocError>
    ensures { OnOk result (string_bytes text.new ≡ string_bytes text.old ++ function_rows name.entry.bytes.now number calls) }
{
    let hit = positive(calls);
    write!(
        text,
        "FN:{number},{name}\nFNDA:{calls},{name}\nFNF:1\nFNH:{hit}\n"
    )
}

/// 1 of what is not 0.
pub(crate) fn positive(number: u64) -> u64
    ensures { result ≡ positive number }
{
    if number == 0 { 0 } else { 1 }
}

/// Writes the records of the two ways of a branch: how often it was taken, and how often not. There are no numbers if no job came to the line.
pub(crate) fn write_branch(
    text: &mut String,
    number: u32,
    slot: usize,
    most: u64,
    taken: u64,
    passed: u64,
) -> Result<(), AllocError>
    ensures { OnOk result (string_bytes text.new ≡ string_bytes text.old
        ++ (way_row number slot (codes ",0,") most taken ++ way_row number slot (codes ",1,") most passed)) }
{
    write_way(text, number, slot, ",0,", most, taken)?;
    write_way(text, number, slot, ",1,", most, passed)?;
    Ok(())
}

// Writes the record of a way of a branch.
fn write_way(
    text: &mut String,
    number: u32,
    slot: usize,
    which: &str,
    most: u64,
    way: u64,
) -> Result<(), AllocError>
    ensures { OnOk result (string_bytes text.new ≡ string_bytes text.old ++ way_row number slot which.now most way) }
{
    write_way_head(text, number, slot, which)?;
    write_way_count(text, most, way)?;
    text.push_str("\n")
}

fn write_way_head(
    text: &mut String,
    number: u32,
    slot: usize,
    which: &str,
) -> Result<(), AllocError>
    ensures { OnOk result (string_bytes text.new ≡ string_bytes text.old ++ way_head number slot which.now) }
{
    write!(text, "BRDA:{number},{slot}{which}")
}

fn write_way_count(text: &mut String, most: u64, way: u64) -> Result<(), AllocError>
    ensures { OnOk result (string_bytes text.new ≡ string_bytes text.old ++ way_words most way) }
{
    if most == 0 {
        return text.push_str("-");
    }
    write!(text, "{way}")
}

/// Writes how often jobs came to a line.
pub(crate) fn write_count_row(text: &mut String, number: u32, count: u64) -> Result<(), AllocError>
    ensures { OnOk result (string_bytes text.new ≡ string_bytes text.old ++ count_row number count) }
{
    write!(text, "DA:{number},{count}\n")
}

/// Writes how many ways of branches a file has, and how many of them jobs took; nothing of a file without branches.
pub(crate) fn write_branch_totals(text: &mut String, ways: u64, hit: u64) -> Result<(), AllocError>
    ensures { OnOk result (string_bytes text.new ≡ string_bytes text.old ++ branch_totals ways hit) }
{
    if ways == 0 {
        return Ok(());
    }
    write!(text, "BRF:{ways}\nBRH:{hit}\n")
}

/// Writes how many lines a file has, and to how many of them jobs came; and ends the section.
pub(crate) fn write_line_totals(text: &mut String, found: u64, hit: u64) -> Result<(), AllocError>
    ensures { OnOk result (string_bytes text.new ≡ string_bytes text.old ++ line_totals found hit) }
{
    write!(text, "LF:{found}\nLH:{hit}\nend_of_record\n")
}
