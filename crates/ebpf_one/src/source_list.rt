//! What `list` writes with the lines of C: the instructions of a function of an object file, with the lines of C between.

ghost use Rattle.std.specs.Prelude.{◌≡◌, ◌≤◌, ◌<◌, ◌++◌, None, IfOk, OnOk, length, slice_index_or, string_bytes};
ghost use Rattle.ebpf_insn.specs.Decoding.{decode_fault};
ghost use Rattle.ebpf_insn.specs.Program.{insn_at};
ghost use Rattle.ebpf_text.specs.Listing.{line_at};
ghost use Rattle.ebpf_one.specs.Formats.{insn_in};
ghost use Rattle.ebpf_one.specs.SourceText.{slot_text, sourced_below, IsSourced, SourcesDecoded, SourcesFunction, RespondsSource};

use crate::data_list::list_with_data;
use crate::json_text::write_object_at;
use crate::list::list_input;
use ebpf_command::answer::Answer;
use ebpf_command::codes::RefusalCode;
use ebpf_command::done::Done;
use ebpf_command::format::Format;
use ebpf_command::input::MAX_INPUT;
use ebpf_input::form::Form;
use ebpf_input::in_format::answer_refused;
use ebpf_input::object::answer_file_fault;
use ebpf_input::source_line::{held_at, held_before, held_lines, write_heading};
use ebpf_insn::decode::decode;
use ebpf_insn::fault::DecodeFault;
use ebpf_insn::program::Program;
use ebpf_object_file::function::{Function, wanted_function};
use ebpf_object_file::lines::{Line, Lines};
use ebpf_object_file::source::lines_of;
use ebpf_text::line::line;
use std::alloc::{AllocError, Global};

/// Writes the line of the instruction at a slot, if one begins there. It fails only where an allocation fails.
pub(crate) fn write_insn_in(
    alloc: Global,
    format: Format,
    text: &mut String,
    program: &Program,
    slot: usize,
) -> Result<(), AllocError>
    ensures { OnOk result (string_bytes text.new ≡ string_bytes text.old ++ insn_in format slot (insn_at program.now slot)) }
{
    match format {
        Format::Text => write_slot(alloc, text, program, slot),
        Format::Json => write_object_at(text, program, slot),
    }
}

// The same as text.
fn write_slot(
    alloc: Global,
    text: &mut String,
    program: &Program,
    slot: usize,
) -> Result<(), AllocError>
    ensures { OnOk result (string_bytes text.new ≡ string_bytes text.old ++ line_at slot (insn_at program.now slot)) }
{
    match program.at(slot) {
        Some(insn) => {
            let row = line(alloc, slot, insn)?;
            text.push_str(&row)
        }
        None => Ok(()),
    }
}

// The lines of a program's instructions, with the line of C before those of which it holds.
fn sourced(
    alloc: Global,
    format: Format,
    program: &Program,
    lines: Lines<'_>,
    holding: &[Option<Line>],
) -> Result<String, AllocError>
    ensures { IfOk result (λ text. string_bytes text ≡ sourced_below format lines.entry holding.now program.now (length program.now)) }
{
    let mut text = String::new(alloc);
    for slot in 0..program.slots() {
        let before = held_before(holding, slot);
        write_heading(format, &mut text, lines, before, held_at(holding, slot))?;
        write_insn_in(alloc, format, &mut text, program, slot)?;
    }
    Ok(text)
}

// The response to a program of a function that begins at a byte of its section.
fn source_program(
    alloc: Global,
    format: Format,
    program: &Program,
    lines: Lines<'_>,
    from: u64,
) -> Result<Answer, AllocError>
    ensures { IfOk result (IsSourced format lines.entry from program.now) }
{
    let holding = held_lines(alloc, lines, from, program.slots())?;
    Ok(Answer {
        text: sourced(alloc, format, program, lines, &holding)?,
        done: Done::Clean,
    })
}

// The response to the bytes of a function with lines.
fn source_bytes(
    alloc: Global,
    format: Format,
    bytes: &[u8],
    lines: Lines<'_>,
    from: u64,
) -> Result<Answer, AllocError>
    ensures { IfOk result (SourcesDecoded format (decode_fault bytes.now) bytes.now lines.entry from) }
{
    match decode(alloc, bytes) {
        Ok(program) => source_program(alloc, format, &program, lines, from),
        Err(DecodeFault::Bad { slot, code }) => {
            answer_refused(alloc, format, RefusalCode::Decode(code).name(), slot)
        }
        Err(DecodeFault::NoMemory) => Err(AllocError),
    }
}

// The response to a function of a file.
fn source_function(
    alloc: Global,
    format: Format,
    file: &[u8],
    function: Function<'_>,
) -> Result<Answer, AllocError>
    ensures { IfOk result (SourcesFunction format file.now function.entry) }
{
    match lines_of(file, function.place.section) {
        Ok(None) => list_input(alloc, format, Form::Raw, function.code),
        Ok(Some(lines)) => {
            source_bytes(alloc, format, function.code, lines, function.place.from)
        }
        Err(fault) => answer_file_fault(alloc, format, fault),
    }
}

/// The response to a file, with the lines of C. It fails only where an allocation fails.
pub(crate) fn source_input(
    alloc: Global,
    format: Format,
    file: &[u8],
    name: &str,
) -> Result<Answer, AllocError>
    ensures { IfOk result (RespondsSource format name.now file.now) }
{
    if file.len() > MAX_INPUT {
        return list_input(alloc, format, Form::Raw, file);
    }
    match wanted_function(file, name.as_bytes()) {
        Ok(function) => source_function(alloc, format, file, function),
        Err(_) => list_with_data(alloc, format, file, name, true),
    }
}
