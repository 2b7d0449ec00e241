//! The words of values, places and changes, each written after a text. Writing fails only where an allocation fails.

ghost use Rattle.std.specs.Prelude.{◌≡◌, ◌++◌, string_bytes, OnOk};
ghost use Rattle.ebpf_text.specs.Operands.{offset_text, register_text};
ghost use Rattle.ebpf_steps.specs.Words.{base_text, change_in, emitted_in, opening, place_text, set_in, json_value, value_text, where_text};

use crate::change::Change;
use ebpf_command::format::Format;
use ebpf_insn::register::Reg;
use ebpf_machine::value::{Base, Value};
use std::alloc::AllocError;

/// Writes what an instruction changed, after the instruction.
pub(crate) fn write_change(
    text: &mut String,
    format: Format,
    change: Change,
) -> Result<(), AllocError>
    ensures { OnOk result (string_bytes text.new ≡ string_bytes text.old ++ change_in format change) }
{
    match change {
        Change::Nothing => Ok(()),
        Change::Register { register, value } => {
            write_opening(text, format)?;
            write_register(text, register)?;
            write_set(text, format, value)
        }
        Change::Memory {
            base,
            offset,
            value,
        } => {
            write_opening(text, format)?;
            write_place(text, base, offset)?;
            write_set(text, format, value)
        }
        Change::Output { number, answer } => {
            write_emitted(text, format, number)?;
            write_register(text, Reg::R0)?;
            write_set(text, format, answer)
        }
    }
}

// What comes before the place that was changed.
fn write_opening(text: &mut String, format: Format) -> Result<(), AllocError>
    ensures { OnOk result (string_bytes text.new ≡ string_bytes text.old ++ opening format) }
{
    match format {
        Format::Text => text.push_str("  ; "),
        Format::Json => text.push_str(",\"changed\":\""),
    }
}

// The same, after a number that was added to the output.
fn write_emitted(text: &mut String, format: Format, number: u64) -> Result<(), AllocError>
    ensures { OnOk result (string_bytes text.new ≡ string_bytes text.old ++ emitted_in format number) }
{
    match format {
        Format::Text => write!(text, "  ; emit {number}, "),
        Format::Json => write!(text, ",\"emit\":{number},\"changed\":\""),
    }
}

// A register.
fn write_register(text: &mut String, register: Reg) -> Result<(), AllocError>
    ensures { OnOk result (string_bytes text.new ≡ string_bytes text.old ++ register_text register) }
{
    write!(text, "r{}", register.number())
}

// A place in memory.
fn write_place(text: &mut String, base: Base<u16>, offset: i128) -> Result<(), AllocError>
    ensures { OnOk result (string_bytes text.new ≡ string_bytes text.old ++ place_text base offset) }
{
    text.push_str("[")?;
    write_where(text, base)?;
    write_offset(text, offset)?;
    text.push_str("]")
}

// What a place is counted from.
fn write_where(text: &mut String, base: Base<u16>) -> Result<(), AllocError>
    ensures { OnOk result (string_bytes text.new ≡ string_bytes text.old ++ where_text base) }
{
    match base {
        Base::Stack => text.push_str("r10"),
        Base::Context | Base::Object(_) => write_base(text, base),
    }
}

// What a pointer points to.
fn write_base(text: &mut String, base: Base<u16>) -> Result<(), AllocError>
    ensures { OnOk result (string_bytes text.new ≡ string_bytes text.old ++ base_text base) }
{
    match base {
        Base::Stack => text.push_str("stack"),
        Base::Context => text.push_str("context"),
        Base::Object(call) => write!(text, "object of {call}"),
    }
}

// An offset, with its sign.
fn write_offset(text: &mut String, offset: i128) -> Result<(), AllocError>
    ensures { OnOk result (string_bytes text.new ≡ string_bytes text.old ++ offset_text offset) }
{
    if offset < 0 {
        write!(text, "{offset}")
    } else {
        write!(text, "+{offset}")
    }
}

// The value that a place got.
fn write_set(text: &mut String, format: Format, value: Value<u16>) -> Result<(), AllocError>
    ensures { OnOk result (string_bytes text.new ≡ string_bytes text.old ++ set_in format value) }
{
    match format {
        Format::Text => {
            text.push_str(" = ")?;
            write_value(text, value)
        }
        Format::Json => {
            text.push_str("\",\"value\":")?;
            write_json_value(text, value)
        }
    }
}

// A value, as JSON: a number, or a string of what a pointer points to.
fn write_json_value(text: &mut String, value: Value<u16>) -> Result<(), AllocError>
    ensures { OnOk result (string_bytes text.new ≡ string_bytes text.old ++ json_value value) }
{
    match value {
        Value::Number(_) => write_value(text, value),
        Value::Pointer { .. } => {
            text.push_str("\"")?;
            write_value(text, value)?;
            text.push_str("\"")
        }
    }
}

// A value.
fn write_value(text: &mut String, value: Value<u16>) -> Result<(), AllocError>
    ensures { OnOk result (string_bytes text.new ≡ string_bytes text.old ++ value_text value) }
{
    match value {
        Value::Number(number) => write!(text, "{number}"),
        Value::Pointer { base, offset } => {
            write_base(text, base)?;
            write_offset(text, offset as i128)
        }
    }
}
