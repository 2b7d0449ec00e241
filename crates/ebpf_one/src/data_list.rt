//! What `list` writes of a function that reads data of its file: its slots, with the data whose addresses they load.

ghost use Rattle.std.specs.Prelude.{◌≡◌, ◌<◌, ◌++◌, IfOk, IfSome, OnOk, None, length, slice_index_or, string_bytes};
ghost use Rattle.ebpf_insn.specs.Decoding.{decode_fault};
ghost use Rattle.ebpf_insn.specs.Program.{insn_at};
ghost use Rattle.ebpf_text.specs.Operands.{offset_text};
ghost use Rattle.ebpf_explain.specs.StackWords.{texts_below};
ghost use Rattle.ebpf_object_file.specs.declared.object_fault.ObjectFault.{ObjectFault};
ghost use Rattle.ebpf_object_file.specs.DataFunction.{HasUses};
ghost use Rattle.ebpf_object_file.specs.File.{IsOpen};
ghost use Rattle.ebpf_object_file.specs.Section.{sections_in};
ghost use Rattle.ebpf_one.specs.DataListText.{ListsDataDecoded, ListsDataFunction, ListsDataLined, ListsDataSourced, ListsWithData};
ghost use Rattle.ebpf_one.specs.DataListText.{address_in, address_object, address_text, heading_in, row_of, section_text, use_text, used_in};

use crate::headed::Headed;
use crate::source_list::write_insn_in;
use ebpf_command::answer::Answer;
use ebpf_command::codes::RefusalCode;
use ebpf_command::done::Done;
use ebpf_command::format::Format;
use ebpf_command::json::write_quoted;
use ebpf_input::in_format::answer_refused;
use ebpf_input::object::{answer_file_fault, answer_object_fault};
use ebpf_input::source_line::{held_at, held_before, held_lines, write_heading};
use ebpf_insn::decode::decode;
use ebpf_insn::fault::DecodeFault;
use ebpf_insn::insn::Insn;
use ebpf_insn::program::Program;
use ebpf_insn::register::Reg;
use ebpf_object_file::data_function::{DataFault, DataFunction, function_with_data};
use ebpf_object_file::data_parts::Part;
use ebpf_object_file::data_use::DataUse;
use ebpf_object_file::lines::{Line, Lines};
use ebpf_object_file::source::lines_of;
use std::alloc::{AllocError, Global};

// What is written beside each slot of a function: the data of its file, and the lines of C.
#[derive(Clone, Copy)]
pub(crate) struct Beside<'a> {
    pub(crate) file: &'a [u8],
    pub(crate) uses: &'a [Option<DataUse>],
    pub(crate) headed: Option<Headed<'a>>,
}

// Writes an offset: a reader sees its sign, also where it is zero.
fn write_offset(text: &mut String, offset: i32) -> Result<(), AllocError>
    ensures { OnOk result (string_bytes text.new ≡ string_bytes text.old ++ offset_text offset) }
{
    if offset < 0 {
        write!(text, "{offset}")
    } else {
        write!(text, "+{offset}")
    }
}

// Writes the name of a section.
#[tactic(auto, unfolding(crate::specs::DataListText::section_text))]
fn write_section(text: &mut String, file: &[u8], section: u16) -> Result<(), AllocError>
    requires file { IsOpen file.now }
    requires section { section < sections_in file.now }
    ensures { OnOk result (string_bytes text.new ≡ string_bytes text.old ++ section_text file.now section) }
{
    let part = Part {
        section,
        from: 0,
        size: 0,
    };
    let name = part.name(file);
    write!(text, "{name}")
}

// Writes which data is meant: its section, and the offset there.
#[tactic(auto, unfolding(crate::specs::DataListText::use_text))]
fn write_use(text: &mut String, file: &[u8], used: DataUse) -> Result<(), AllocError>
    requires file { IsOpen file.now }
    requires section { used.section < sections_in file.now }
    ensures { OnOk result (string_bytes text.new ≡ string_bytes text.old ++ use_text file.now used) }
{
    write_section(text, file, used.section)?;
    write_offset(text, used.offset)
}

// Writes the instruction that loads the address of data.
fn write_address(text: &mut String, file: &[u8], dst: Reg, used: DataUse) -> Result<(), AllocError>
    requires file { IsOpen file.now }
    requires section { used.section < sections_in file.now }
    ensures { OnOk result (string_bytes text.new ≡ string_bytes text.old ++ address_text file.now dst used) }
{
    write!(text, "lddw r{}, ", dst.number())?;
    write_use(text, file, used)
}

// Writes the object of the instruction that loads the address of data.
fn write_address_object(text: &mut String, slot: usize, address: &[u8]) -> Result<(), AllocError>
    ensures { OnOk result (string_bytes text.new ≡ string_bytes text.old ++ address_object slot address.now) }
{
    write!(text, "{{\"slot\":{slot},\"instruction\":")?;
    write_quoted(text, address)?;
    text.push_str("}\n")?;
    Ok(())
}

// Writes the line of the instruction that loads the address of data.
fn write_address_in(
    format: Format,
    text: &mut String,
    slot: usize,
    address: &str,
) -> Result<(), AllocError>
    ensures { OnOk result (string_bytes text.new ≡ string_bytes text.old ++ address_in format slot address.now) }
{
    match format {
        Format::Text => write!(text, "{slot}: {address}\n"),
        Format::Json => write_address_object(text, slot, address.as_bytes()),
    }
}

// The data whose address a slot loads.
fn use_at(uses: &[Option<DataUse>], slot: usize) -> Option<DataUse>
    ensures { result ≡ slice_index_or uses.now slot None }
{
    if slot < uses.len() { uses[slot] } else { None }
}

// Writes the line of the instruction at a slot, if one begins there.
fn write_used(
    alloc: Global,
    format: Format,
    text: &mut String,
    program: &Program,
    beside: Beside<'_>,
    slot: usize,
) -> Result<(), AllocError>
    requires { HasUses beside.file.now beside.uses.now }
    ensures { OnOk result (string_bytes text.new ≡ string_bytes text.old
        ++ used_in format beside.entry.file.now slot (insn_at program.now slot) (slice_index_or beside.entry.uses.now slot None)) }
{
    match (program.at(slot), use_at(beside.uses, slot)) {
        (Some(&Insn::Wide { dst, .. }), Some(used)) => {
            let mut address = String::new(alloc);
            write_address(&mut address, beside.file, dst, used)?;
            write_address_in(format, text, slot, &address)
        }
        _ => write_insn_in(alloc, format, text, program, slot),
    }
}

// Writes the line of C before a slot, if the lines are known.
fn write_heading_of(
    format: Format,
    text: &mut String,
    headed: Option<Headed<'_>>,
    slot: usize,
) -> Result<(), AllocError>
    ensures { OnOk result (string_bytes text.new ≡ string_bytes text.old ++ heading_in format headed.entry slot) }
{
    match headed {
        Some(headed) => {
            let before = held_before(headed.holding, slot);
            write_heading(
                format,
                text,
                headed.lines,
                before,
                held_at(headed.holding, slot),
            )
        }
        None => Ok(()),
    }
}

// Writes what is written of a slot.
fn write_row(
    alloc: Global,
    format: Format,
    text: &mut String,
    program: &Program,
    beside: Beside<'_>,
    slot: usize,
) -> Result<(), AllocError>
    requires { HasUses beside.file.now beside.uses.now }
    ensures { OnOk result (string_bytes text.new ≡ string_bytes text.old ++ row_of format beside.entry program.now slot) }
{
    write_heading_of(format, text, beside.headed, slot)?;
    write_used(alloc, format, text, program, beside, slot)
}

// What is written of each slot of a program.
fn rows(
    alloc: Global,
    format: Format,
    program: &Program,
    beside: Beside<'_>,
) -> Result<String, AllocError>
    requires { HasUses beside.file.now beside.uses.now }
    ensures { IfOk result (λ text. string_bytes text ≡ texts_below (length program.now) (row_of format beside.entry program.now)) }
{
    let mut text = String::new(alloc);
    for slot in 0..program.slots() {
        write_row(alloc, format, &mut text, program, beside, slot)?;
    }
    Ok(text)
}

// The response to the slots of a function, with what is beside them.
fn list_code(
    alloc: Global,
    format: Format,
    code: &[u8],
    beside: Beside<'_>,
) -> Result<Answer, AllocError>
    requires { HasUses beside.file.now beside.uses.now }
    ensures { IfOk result (ListsDataDecoded format beside.entry (decode_fault code.now) code.now) }
{
    match decode(alloc, code) {
        Ok(program) => Ok(Answer {
            text: rows(alloc, format, &program, beside)?,
            done: Done::Clean,
        }),
        Err(DecodeFault::Bad { slot, code }) => {
            answer_refused(alloc, format, RefusalCode::Decode(code).name(), slot)
        }
        Err(DecodeFault::NoMemory) => Err(AllocError),
    }
}

// The response to a function without lines of C.
fn list_bare<'a>(
    alloc: Global,
    format: Format,
    file: &'a [u8],
    function: &'a DataFunction<'_>,
) -> Result<Answer, AllocError>
    requires { HasUses file.now function.now.uses.items }
    ensures { IfOk result (ListsDataLined format file.now function.now None) }
{
    let beside = Beside {
        file,
        uses: &function.uses,
        headed: None,
    };
    list_code(alloc, format, function.function.code, beside)
}

// The response to a function with lines of C.
fn list_lined<'a>(
    alloc: Global,
    format: Format,
    file: &'a [u8],
    function: &'a DataFunction<'_>,
    lines: Lines<'a>,
) -> Result<Answer, AllocError>
    requires { HasUses file.now function.now.uses.items }
    ensures { IfOk result (ListsDataSourced format file.now function.now lines.entry) }
{
    let code = function.function.code;
    let holding = held_lines(alloc, lines, function.function.place.from, code.len() / 8)?;
    let headed = Headed {
        lines,
        holding: &holding,
    };
    let beside = Beside {
        file,
        uses: &function.uses,
        headed: Some(headed),
    };
    list_code(alloc, format, code, beside)
}

// The response to a function, with the lines of C if they are asked for.
fn list_function<'a>(
    alloc: Global,
    format: Format,
    file: &'a [u8],
    function: &'a DataFunction<'_>,
    lines: bool,
) -> Result<Answer, AllocError>
    requires { HasUses file.now function.now.uses.items }
    ensures { IfOk result (ListsDataFunction format lines file.now function.now) }
{
    if !lines {
        return list_bare(alloc, format, file, function);
    }
    match lines_of(file, function.function.place.section) {
        Ok(None) => list_bare(alloc, format, file, function),
        Ok(Some(lines)) => list_lined(alloc, format, file, function, lines),
        Err(fault) => answer_file_fault(alloc, format, fault),
    }
}

/// The response to a function that is no program by itself: its slots, where it reads only data of its file. It fails only where an
/// allocation fails.
pub(crate) fn list_with_data(
    alloc: Global,
    format: Format,
    file: &[u8],
    name: &str,
    lines: bool,
) -> Result<Answer, AllocError>
    ensures { IfOk result (λ response. (e : ObjectFault) → ListsWithData format lines name.now file.now e response) }
{
    match function_with_data(alloc, file, name.as_bytes()) {
        Ok(function) => list_function(alloc, format, file, &function, lines),
        Err(DataFault::Object(fault)) => answer_object_fault(alloc, format, file, fault),
        Err(DataFault::NoMemory) => Err(AllocError),
    }
}
