//! An instruction, what is known and a line of C, in objects of JSON.

ghost use Rattle.std.specs.Prelude.{◌≡◌, ◌++◌, OnOk, drop, string_bytes};
ghost use Rattle.ebpf_input.specs.Formats.{instruction_object, source_head, source_tail};

use ebpf_command::json::write_quoted;
use ebpf_insn::insn::Insn;
use ebpf_object_file::lines::{Line, Lines};
use ebpf_text::line::write_insn;
use std::alloc::AllocError;

/// Writes the object of an instruction after a text.
pub fn write_instruction(text: &mut String, slot: usize, insn: &Insn) -> Result<(), AllocError>
    ensures { OnOk result (string_bytes text.new ≡ string_bytes text.old ++ instruction_object slot insn.now) }
{
    write!(text, "{{\"slot\":{slot},\"instruction\":\"")?;
    write_insn(text, insn)?;
    text.push_str("\"}\n")?;
    Ok(())
}

/// The words of what is known, without the two blanks before the first.
pub fn words_of(known: &[u8]) -> &[u8]
    ensures { result.now ≡ drop 2 known.now }
{
    match known {
        [_, _, words @ ..] => words,
        _ => &[],
    }
}

/// Writes the file and the number of a line of C after a text, as the first members of its object.
pub(crate) fn write_source_head(
    text: &mut String,
    lines: Lines<'_>,
    line: Line,
) -> Result<(), AllocError>
    ensures { OnOk result (string_bytes text.new ≡ string_bytes text.old ++ source_head lines.entry line) }
{
    let source = lines.source(line);
    let number = source.line;
    text.push_str("{\"file\":")?;
    write_quoted(text, source.file)?;
    write!(text, ",\"line\":{number}")?;
    Ok(())
}

/// Writes the text of a line of C after a text, as the last member of its object.
pub(crate) fn write_source_tail(
    text: &mut String,
    lines: Lines<'_>,
    line: Line,
) -> Result<(), AllocError>
    ensures { OnOk result (string_bytes text.new ≡ string_bytes text.old ++ source_tail lines.entry line) }
{
    let source = lines.source(line);
    text.push_str(",\"source\":")?;
    write_quoted(text, source.text)?;
    text.push_str("}\n")?;
    Ok(())
}
