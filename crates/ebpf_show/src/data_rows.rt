//! Which bytes of a linked program's context are which data, a row for each of its sections.
//!
//! What is known of a pointer to the data is an offset into the context, whose end the data is. These rows say where such an offset is.

ghost use Rattle.std.specs.Prelude.{◌≡◌, ◌<◌, ◌≤◌, ◌+◌, ◌-◌, ◌^◌, ◌++◌, All, IfOk, OnOk, length, string_bytes};
ghost use Rattle.ebpf_object_file.specs.DataNames.{AreNames};
ghost use Rattle.ebpf_object_file.specs.Section.{sections_in};
ghost use Rattle.ebpf_input.specs.DataRequest.{CanNameData};
ghost use Rattle.ebpf_show.specs.DataRows.{AreDataRows, data_begin, data_in, data_line, data_object, end_words, part_row, part_rows};

use ebpf_command::format::Format;
use ebpf_command::json::write_quoted;
use ebpf_input::data_request::DataRequest;
use ebpf_object_file::data_names::DataNames;
use ebpf_object_file::data_parts::Part;
use std::alloc::{AllocError, Global};

// Where the data of a linked program begins in its context, which ends with it.
fn data_begin(linked: &DataRequest<'_>) -> u64
    ensures value { result ≡ data_begin linked.now }
    ensures small { result < 2 ^ 32 }
{
    (linked.request.decl.context as u64).saturating_sub(linked.data.len() as u64)
}

// Writes the last byte, if it isn't the first one too.
fn write_end(text: &mut String, first: u64, last: u64) -> Result<(), AllocError>
    ensures { OnOk result (string_bytes text.new ≡ string_bytes text.old ++ end_words first last) }
{
    if first == last {
        return Ok(());
    }
    write!(text, "..+{last}")
}

// Writes a row as a line.
fn write_line(text: &mut String, name: &str, first: u64, last: u64) -> Result<(), AllocError>
    ensures { OnOk result (string_bytes text.new ≡ string_bytes text.old ++ data_line name.now first last) }
{
    write!(text, "context+{first}")?;
    write_end(text, first, last)?;
    write!(text, " {name}\n")
}

// Writes a row as an object.
fn write_object(text: &mut String, name: &[u8], first: u64, last: u64) -> Result<(), AllocError>
    ensures { OnOk result (string_bytes text.new ≡ string_bytes text.old ++ data_object name.now first last) }
{
    text.push_str("{\"data\":")?;
    write_quoted(text, name)?;
    write!(text, ",\"from\":{first},\"to\":{last}}}\n")
}

// Writes a row.
fn write_data(
    format: Format,
    text: &mut String,
    name: &str,
    first: u64,
    last: u64,
) -> Result<(), AllocError>
    ensures { OnOk result (string_bytes text.new ≡ string_bytes text.old ++ data_in format name.now first last) }
{
    match format {
        Format::Text => write_line(text, name, first, last),
        Format::Json => write_object(text, name.as_bytes(), first, last),
    }
}

// Writes the row of a part, if it has bytes.
#[tactic(auto, unfolding(crate::specs::DataRows::part_row))]
fn write_part(
    alloc: Global,
    format: Format,
    text: &mut String,
    names: &DataNames<'_>,
    begin: u64,
    part: Part,
) -> Result<(), AllocError>
    requires names { AreNames names.now }
    requires section { part.section < sections_in names.now.functions.file.now }
    requires near { part.from + part.size ≤ 2 ^ 62 }
    requires begin { begin < 2 ^ 32 }
    ensures { OnOk result (string_bytes text.new ≡ string_bytes text.old ++ part_row format names.now.functions begin part) }
{
    if part.size == 0 {
        return Ok(());
    }
    let name = names.name(part);
    let name = format!(in alloc; "{name}")?;
    let first = begin + part.from;
    write_data(format, text, &name, first, first + (part.size - 1))
}

// The rows of parts.
fn rows_of(
    alloc: Global,
    format: Format,
    names: &DataNames<'_>,
    begin: u64,
    parts: &[Part],
) -> Result<String, AllocError>
    requires names { AreNames names.now }
    requires sections { All (λ p. p.section < sections_in names.now.functions.file.now) parts.now }
    requires near { All (λ p. p.from + p.size ≤ 2 ^ 62) parts.now }
    requires begin { begin < 2 ^ 32 }
    ensures { IfOk result (λ text. string_bytes text ≡ part_rows format names.now.functions begin parts.now) }
{
    let mut text = String::new(alloc);
    for part in parts {
        write_part(alloc, format, &mut text, names, begin, *part)?;
    }
    Ok(text)
}

/// The rows of a function that was linked with the data that it reads, in a format. It fails only where an allocation fails.
pub(crate) fn data_rows(
    alloc: Global,
    format: Format,
    file: &[u8],
    linked: &DataRequest<'_>,
) -> Result<String, AllocError>
    requires { CanNameData file.now linked.now.function }
    ensures { IfOk result (λ text. AreDataRows format linked.now (string_bytes text)) }
{
    let laid = linked.function.data(alloc, file)?;
    let names = linked.function.names(alloc)?;
    rows_of(alloc, format, &names, data_begin(linked), &laid.parts)
}
