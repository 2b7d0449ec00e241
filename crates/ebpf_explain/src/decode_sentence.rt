//! Why bytes are no program, in a sentence.

ghost use Rattle.std.specs.Prelude.{◌≡◌, ◌++◌, string_bytes, OnOk};
ghost use Rattle.ebpf_explain.specs.DecodeSentences.{count_words, decode_sentence, decode_words};

use crate::hex::{write_byte, write_eight};
use ebpf_insn::fault::DecodeCode;
use std::alloc::AllocError;

/// Writes after a text why a slot of these bytes is refused, as a line: what is wrong with it, and the bytes where it
/// shows. Bytes that aren't there count as zeros.
///
/// # Errors
/// It fails only where an allocation fails, and some of the line may be written then.
pub fn write_decode_sentence(
    text: &mut String,
    bytes: &[u8],
    slot: usize,
    code: DecodeCode,
) -> Result<(), AllocError>
    ensures { OnOk result (string_bytes text.new ≡ string_bytes text.old ++ decode_sentence bytes.now slot code) }
{
    text.push_str("  ")?;
    write_words(text, bytes, slot, code)?;
    text.push_str("\n")
}

// What is wrong with the bytes, or with a slot.
fn write_words(
    text: &mut String,
    bytes: &[u8],
    slot: usize,
    code: DecodeCode,
) -> Result<(), AllocError>
    ensures { OnOk result (string_bytes text.new ≡ string_bytes text.old ++ decode_words bytes.now slot code) }
{
    match code {
        DecodeCode::WrongLength => write_count(text, bytes.len()),
        DecodeCode::UnknownOpcode => {
            write!(text, "slot {slot} has the opcode 0x")?;
            write_byte(text, bytes, slot, 0)?;
            text.push_str(", which no instruction has")
        }
        DecodeCode::UnknownRegister => {
            write!(text, "slot {slot} names a register above 10: 0x")?;
            write_byte(text, bytes, slot, 1)
        }
        DecodeCode::UnusedFieldSet => {
            write!(
                text,
                "slot {slot} sets a field that its instruction does not use: "
            )?;
            write_eight(text, bytes, slot, 0)
        }
        DecodeCode::MissingSecondSlot => write!(
            text,
            "slot {slot} is a wide load without its second slot"
        ),
        DecodeCode::BadSecondSlot => {
            write!(
                text,
                "slot {slot} is a wide load whose second slot has more than the upper half of a number: "
            )?;
            write_eight(text, bytes, slot, 8)
        }
        DecodeCode::UndefinedField => {
            write!(
                text,
                "slot {slot} has an offset or an immediate that its operation does not allow: "
            )?;
            write_eight(text, bytes, slot, 0)
        }
        DecodeCode::UnsupportedForm => {
            write!(text, "slot {slot} is a form that is not supported: ")?;
            write_eight(text, bytes, slot, 0)?;
            text.push_str(" (an atomic operation, a function call, or a load of a map's address)")
        }
        DecodeCode::ProgramTooLong => text.push_str("the program has more than 4096 slots"),
    }
}

// How many bytes there are, and how many a program has.
fn write_count(text: &mut String, count: usize) -> Result<(), AllocError>
    ensures { OnOk result (string_bytes text.new ≡ string_bytes text.old ++ count_words count) }
{
    if count == 1 {
        write!(
            text,
            "there is {count} byte: a program is one or more whole slots of 8 bytes"
        )
    } else {
        write!(
            text,
            "there are {count} bytes: a program is one or more whole slots of 8 bytes"
        )
    }
}
