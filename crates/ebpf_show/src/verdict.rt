//! The verdict on a program in a format, after a text.

ghost use Rattle.std.specs.Prelude.{◌≡◌, ◌++◌, OnOk, string_bytes};
ghost use Rattle.ebpf_input.specs.Formats.{accepted_in, refused_why_in};

use ebpf_command::format::Format;
use ebpf_input::in_format::answer_refused_why;
use std::alloc::{AllocError, Global};

/// Writes that a program of n instructions is accepted, after a text.
pub(crate) fn write_accepted(
    format: Format,
    text: &mut String,
    len: usize,
) -> Result<(), AllocError>
    ensures { OnOk result (string_bytes text.new ≡ string_bytes text.old ++ accepted_in format len) }
{
    match format {
        Format::Text => write!(text, "accepted {len}\n"),
        Format::Json => write!(text, "{{\"accepted\":{len}}}\n"),
    }
}

/// Writes that a program is refused at a slot after a text, with the line that says why.
pub(crate) fn write_refused(
    alloc: Global,
    format: Format,
    text: &mut String,
    code: &str,
    slot: u16,
    why: &str,
) -> Result<(), AllocError>
    ensures { OnOk result (string_bytes text.new ≡ string_bytes text.old ++ refused_why_in format code.now slot why.now) }
{
    let refused = answer_refused_why(alloc, format, code, slot, why)?;
    text.push_str(&refused.text)?;
    Ok(())
}
