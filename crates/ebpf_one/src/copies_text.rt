//! A program as hex, with the slots that it copies, and with its data.

ghost use Rattle.std.specs.Prelude.{◌≡◌, ◌++◌, IfOk, OnOk, map, string_bytes};
ghost use Rattle.std.specs.List.{flat_map};
ghost use Rattle.ebpf_input.specs.DataRequest.{own_slot};
ghost use Rattle.ebpf_one.specs.CopiesText.{SaysCopies, SaysLinked, copies_in, data_member, later_slot, linked_in, slot_list, slot_or_null};

use ebpf_command::answer::Answer;
use ebpf_command::done::Done;
use ebpf_command::format::Format;
use ebpf_input::data_request::own_slot;
use ebpf_insn::encode::encode;
use ebpf_insn::program::Program;
use std::alloc::{AllocError, Global};

/// The answer with a program as hex, on one line, and with the slots that it copies where the format has room for that. It fails only where
/// an allocation fails.
pub(crate) fn answer_copies(
    alloc: Global,
    format: Format,
    program: &Program,
    of: &[Option<u16>],
) -> Result<Answer, AllocError>
    ensures { IfOk result (SaysCopies format program.now of.now) }
{
    let bytes = encode(alloc, program)?;
    let text = copies_text(alloc, format, &bytes, of)?;
    Ok(Answer {
        text,
        done: Done::Clean,
    })
}

/// The answer with a linked program as hex, on one line, and the data after its context on another; and with the slots of the function that it
/// copies where the format has room for that. It fails only where an allocation fails.
pub(crate) fn answer_linked(
    alloc: Global,
    format: Format,
    program: &Program,
    of: &[Option<u16>],
    after: &[u8],
) -> Result<Answer, AllocError>
    ensures { IfOk result (SaysLinked format program.now of.now after.now) }
{
    let bytes = encode(alloc, program)?;
    let own = own_slots(alloc, of)?;
    let text = linked_text(alloc, format, &bytes, &own, after)?;
    Ok(Answer {
        text,
        done: Done::Clean,
    })
}

// The slots of the function that slots of its linked program have.
fn own_slots(alloc: Global, of: &[Option<u16>]) -> Result<Vec<Option<u16>>, AllocError>
    ensures { IfOk result (λ own. own.items ≡ map own_slot of.now) }
{
    let mut own = Vec::new(alloc);
    for slot in of {
        own.push(own_slot(*slot))?;
    }
    Ok(own)
}

// Bytes as hex, on one line, and those of the data on another; in JSON with the slots that they copy.
fn linked_text(
    alloc: Global,
    format: Format,
    bytes: &[u8],
    of: &[Option<u16>],
    after: &[u8],
) -> Result<String, AllocError>
    ensures { IfOk result (λ text. string_bytes text ≡ linked_in format bytes.now of.now after.now) }
{
    let digits = hex::encode(alloc, bytes)?;
    match format {
        Format::Text => {
            let others = hex::encode(alloc, after)?;
            format!(in alloc; "{digits}\n{others}\n")
        }
        Format::Json => {
            let mut text = format!(in alloc; "{{\"hex\":\"{digits}\",\"of\":[")?;
            write_slots(&mut text, of)?;
            write_data(alloc, &mut text, after)?;
            Ok(text)
        }
    }
}

// Writes the member of the data, which is the last one.
fn write_data(alloc: Global, text: &mut String, bytes: &[u8]) -> Result<(), AllocError>
    ensures { OnOk result (string_bytes text.new ≡ string_bytes text.old ++ data_member bytes.now) }
{
    let digits = hex::encode(alloc, bytes)?;
    write!(text, "],\"data\":\"{digits}\"}}\n")
}

// Bytes as hex, on one line; in JSON with the slots that they copy.
fn copies_text(
    alloc: Global,
    format: Format,
    bytes: &[u8],
    of: &[Option<u16>],
) -> Result<String, AllocError>
    ensures { IfOk result (λ text. string_bytes text ≡ copies_in format bytes.now of.now) }
{
    let mut digits = hex::encode(alloc, bytes)?;
    match format {
        Format::Text => {
            digits.push_str("\n")?;
            Ok(digits)
        }
        Format::Json => {
            let mut text = format!(in alloc; "{{\"hex\":\"{digits}\",\"of\":[")?;
            write_slots(&mut text, of)?;
            text.push_str("]}\n")?;
            Ok(text)
        }
    }
}

// Slots, or null where there is none, with a comma between two.
fn write_slots(text: &mut String, slots: &[Option<u16>]) -> Result<(), AllocError>
    ensures { OnOk result (string_bytes text.new ≡ string_bytes text.old ++ slot_list slots.now) }
{
    let Some((first, later)) = slots.split_first() else {
        return Ok(());
    };
    write_slot(text, *first)?;
    write_later_slots(text, later)
}

// Slots, a comma before each.
fn write_later_slots(text: &mut String, slots: &[Option<u16>]) -> Result<(), AllocError>
    ensures { OnOk result (string_bytes text.new ≡ string_bytes text.old ++ flat_map later_slot slots.now) }
{
    for slot in slots {
        write_later_slot(text, *slot)?;
    }
    Ok(())
}

// A comma, and a slot or null.
fn write_later_slot(text: &mut String, slot: Option<u16>) -> Result<(), AllocError>
    ensures { OnOk result (string_bytes text.new ≡ string_bytes text.old ++ later_slot slot) }
{
    text.push_str(",")?;
    write_slot(text, slot)
}

// A slot, or null.
fn write_slot(text: &mut String, slot: Option<u16>) -> Result<(), AllocError>
    ensures { OnOk result (string_bytes text.new ≡ string_bytes text.old ++ slot_or_null slot) }
{
    match slot {
        Some(slot) => write!(text, "{slot}"),
        None => text.push_str("null"),
    }
}
