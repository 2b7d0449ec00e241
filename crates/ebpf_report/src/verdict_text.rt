//! The verdict on a program, as it is written.

ghost use Rattle.std.specs.Prelude.{◌≡◌, ◌++◌, codes, string_bytes, OnOk};
ghost use Rattle.ebpf_command.specs.Json.{why_member};
ghost use Rattle.ebpf_report.specs.Verdicts.{judged_line, accepted_object, refused_members, judged_object, verdict_in};

use ebpf_command::codes::RefusalCode;
use ebpf_command::format::Format;
use ebpf_command::json::write_why;
use ebpf_command::judge::Judged;
use std::alloc::AllocError;

/// Writes after a text the verdict on the program of this name, and why it is refused, by a line or no line. It fails only where an
/// allocation fails.
pub(crate) fn write_verdict(
    text: &mut String,
    format: Format,
    name: &str,
    judged: &Judged,
    why: &str,
) -> Result<(), AllocError>
    ensures { OnOk result (string_bytes text.new ≡ string_bytes text.old ++ verdict_in format name.now judged.now why.now) }
{
    match format {
        Format::Text => {
            write_line(text, name, judged)?;
            text.push_str(why)
        }
        Format::Json => write_object(text, name, judged, why),
    }
}

// Writes the line of a verdict.
fn write_line(text: &mut String, name: &str, judged: &Judged) -> Result<(), AllocError>
    ensures { OnOk result (string_bytes text.new ≡ string_bytes text.old ++ judged_line name.now judged.now) }
{
    match judged {
        Judged::Accepted(verified) => {
            let len = verified.len();
            write!(text, "{name} accepted {len}\n")
        }
        Judged::Refused { code, slot } => {
            let code = code.name();
            write!(text, "{name} refused {code} {slot}\n")
        }
    }
}

// Writes the object of a verdict, and why the program is refused.
fn write_object(text: &mut String, name: &str, judged: &Judged, why: &str) -> Result<(), AllocError>
    ensures { OnOk result (string_bytes text.new ≡ string_bytes text.old ++ judged_object name.now judged.now why.now) }
{
    match judged {
        Judged::Accepted(verified) => write_accepted_object(text, name, verified.len()),
        Judged::Refused { code, slot } => write_refused_object(text, name, *code, *slot, why),
    }
}

// Writes the object of a program of this many instructions that is accepted.
fn write_accepted_object(text: &mut String, name: &str, len: usize) -> Result<(), AllocError>
    ensures { OnOk result (string_bytes text.new ≡ string_bytes text.old ++ accepted_object name.now len) }
{
    write!(text, "{{\"program\":\"{name}\",\"accepted\":{len}}}\n")
}

// Writes the object of a program that is refused at a slot, and why.
fn write_refused_object(
    text: &mut String,
    name: &str,
    code: RefusalCode,
    slot: u16,
    why: &str,
) -> Result<(), AllocError>
    ensures { OnOk result (string_bytes text.new ≡ string_bytes text.old ++ (refused_members name.now code slot ++ (why_member why.now ++ codes "}\n"))) }
{
    let code = code.name();
    write!(
        text,
        "{{\"program\":\"{name}\",\"refused\":\"{code}\",\"slot\":{slot}"
    )?;
    write_why(text, why)?;
    text.push_str("}\n")?;
    Ok(())
}
