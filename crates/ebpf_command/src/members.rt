//! Lines of members, each a name and a value: in text one after another, in JSON an object.

ghost use Rattle.std.specs.Prelude.{◌≡◌, ◌++◌, OnOk, map, string_bytes};
ghost use Rattle.std.specs.List.{flat_map};
ghost use Rattle.ebpf_command.specs.Members.{in_json, in_text, later_in_json, later_in_text, line_in, said};

use crate::format::Format;
use std::alloc::AllocError;

/// A name and what is said of it: a word, of characters that a string of JSON has as they are, or a number.
#[derive(Clone, Copy)]
pub enum Member<'a> {
    Word(&'a str, &'a str),
    Number(&'a str, u128),
}

/// Writes a line of members after a text; of none, nothing. It fails only where an allocation fails.
pub fn write_line(
    text: &mut String,
    format: Format,
    members: &[Member<'_>],
) -> Result<(), AllocError>
    ensures { OnOk result (string_bytes text.new ≡ string_bytes text.old ++ line_in format (map said members.now)) }
{
    let Some((first, later)) = members.split_first() else {
        return Ok(());
    };
    match format {
        Format::Text => {
            write_in_text(text, first)?;
            write_later_in_text(text, later)?;
            text.push_str("\n")
        }
        Format::Json => {
            text.push_str("{")?;
            write_in_json(text, first)?;
            write_later_in_json(text, later)?;
            text.push_str("}\n")
        }
    }
}

// Writes members, a space before each.
fn write_later_in_text(text: &mut String, members: &[Member<'_>]) -> Result<(), AllocError>
    ensures { OnOk result (string_bytes text.new ≡ string_bytes text.old ++ flat_map (λ m. later_in_text (said m)) members.now) }
{
    for member in members {
        text.push_str(" ")?;
        write_in_text(text, member)?;
    }
    Ok(())
}

// Writes a member's name, a space and its value.
fn write_in_text(text: &mut String, member: &Member<'_>) -> Result<(), AllocError>
    ensures { OnOk result (string_bytes text.new ≡ string_bytes text.old ++ in_text (said member.now)) }
{
    match *member {
        Member::Word(name, word) => write!(text, "{name} {word}"),
        Member::Number(name, number) => write!(text, "{name} {number}"),
    }
}

// Writes members, a comma before each.
fn write_later_in_json(text: &mut String, members: &[Member<'_>]) -> Result<(), AllocError>
    ensures { OnOk result (string_bytes text.new ≡ string_bytes text.old ++ flat_map (λ m. later_in_json (said m)) members.now) }
{
    for member in members {
        text.push_str(",")?;
        write_in_json(text, member)?;
    }
    Ok(())
}

// Writes a member of an object.
fn write_in_json(text: &mut String, member: &Member<'_>) -> Result<(), AllocError>
    ensures { OnOk result (string_bytes text.new ≡ string_bytes text.old ++ in_json (said member.now)) }
{
    match *member {
        Member::Word(name, word) => write!(text, "\"{name}\":\"{word}\""),
        Member::Number(name, number) => write!(text, "\"{name}\":{number}"),
    }
}
