//! What the commands write as JSON Lines: strings, faults and refusals.

ghost use Rattle.std.specs.Prelude.{◌≡◌, ◌++◌, IfOk, OnOk, string_bytes};
ghost use Rattle.std.specs.List.{flat_map};
ghost use Rattle.ebpf_command.specs.Json.{by_number, escaped_byte, quoted, later_number, number_list, sentence_of, why_member, fault_object, refused_object};

use crate::done::FaultCode;
use std::alloc::{AllocError, Global};

/// Writes bytes after a text as a string: a visible character of ASCII and a space as they are, after a backslash where it is a
/// quote or a backslash, and any other byte as the character of its number. It fails only where an allocation fails.
pub fn write_quoted(text: &mut String, bytes: &[u8]) -> Result<(), AllocError>
    ensures { OnOk result (string_bytes text.new ≡ string_bytes text.old ++ quoted bytes.now) }
{
    text.push_str("\"")?;
    write_escaped(text, bytes)?;
    text.push_str("\"")?;
    Ok(())
}

// Writes the characters of a string.
fn write_escaped(text: &mut String, bytes: &[u8]) -> Result<(), AllocError>
    ensures { OnOk result (string_bytes text.new ≡ string_bytes text.old ++ flat_map escaped_byte bytes.now) }
{
    for byte in bytes {
        write_character(text, *byte)?;
    }
    Ok(())
}

// Writes a character of a string.
fn write_character(text: &mut String, byte: u8) -> Result<(), AllocError>
    ensures { OnOk result (string_bytes text.new ≡ string_bytes text.old ++ escaped_byte byte) }
{
    if byte == b'"' {
        text.push_str("\\\"")
    } else if byte == b'\\' {
        text.push_str("\\\\")
    } else if byte == b' ' {
        text.push_str(" ")
    } else if byte.is_ascii_graphic() {
        text.push(byte as char)
    } else {
        write_by_number(text, byte)
    }
}

// Writes the character of a number.
fn write_by_number(text: &mut String, byte: u8) -> Result<(), AllocError>
    ensures { OnOk result (string_bytes text.new ≡ string_bytes text.old ++ by_number byte) }
{
    write!(text, "\\u00{byte:02x}")
}

/// Writes numbers after a text, with a comma between two. It fails only where an allocation fails.
pub fn write_numbers(text: &mut String, numbers: &[u64]) -> Result<(), AllocError>
    ensures { OnOk result (string_bytes text.new ≡ string_bytes text.old ++ number_list numbers.now) }
{
    let Some((first, later)) = numbers.split_first() else {
        return Ok(());
    };
    let number = *first;
    write!(text, "{number}")?;
    write_later_numbers(text, later)
}

// Writes numbers, a comma before each.
fn write_later_numbers(text: &mut String, numbers: &[u64]) -> Result<(), AllocError>
    ensures { OnOk result (string_bytes text.new ≡ string_bytes text.old ++ flat_map later_number numbers.now) }
{
    for number in numbers {
        let number = *number;
        write!(text, ",{number}")?;
    }
    Ok(())
}

/// The sentence of a line: the line without the two blanks before it and the newline after it.
pub fn sentence_of(line: &[u8]) -> &[u8]
    ensures { result.now ≡ sentence_of line.now }
{
    match line {
        [_, _, sentence @ .., _] => sentence,
        _ => &[],
    }
}

/// Writes a member after others: `why`, by the line that says so, or nothing where there is no line. It fails only where an
/// allocation fails.
pub fn write_why(text: &mut String, line: &str) -> Result<(), AllocError>
    ensures { OnOk result (string_bytes text.new ≡ string_bytes text.old ++ why_member line.now) }
{
    if line.is_empty() {
        return Ok(());
    }
    text.push_str(",\"why\":")?;
    write_quoted(text, sentence_of(line.as_bytes()))?;
    Ok(())
}

/// The object of a fault, as [`crate::text::fault_line`] counts lines, and why, where a line says so. It fails only where an
/// allocation fails.
pub fn fault_object(
    alloc: Global,
    code: FaultCode,
    line: usize,
    why: &str,
) -> Result<String, AllocError>
    ensures { IfOk result (λ text. string_bytes text ≡ fault_object code line why.now) }
{
    let name = code.name();
    let mut text = format!(in alloc; "{{\"fault\":\"{name}\",\"line\":{line}")?;
    write_why(&mut text, why)?;
    text.push_str("}\n")?;
    Ok(text)
}

/// The object of a program that is refused at a slot, and why, where a line says so. It fails only where an allocation fails.
pub fn refused_object(alloc: Global, code: &str, slot: u16, why: &str) -> Result<String, AllocError>
    ensures { IfOk result (λ text. string_bytes text ≡ refused_object code.now slot why.now) }
{
    let mut text = format!(in alloc; "{{\"refused\":\"{code}\",\"slot\":{slot}")?;
    write_why(&mut text, why)?;
    text.push_str("}\n")?;
    Ok(text)
}
