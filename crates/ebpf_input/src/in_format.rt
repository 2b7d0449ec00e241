//! Refusals and faults in a format.

ghost use Rattle.std.specs.Prelude.{◌≡◌, IfOk, string_bytes};
ghost use Rattle.ebpf_command.specs.Response.{refused_response};
ghost use Rattle.ebpf_input.specs.Formats.{refused_in, refused_why_in, fault_why_in};
ghost use Rattle.ebpf_input.specs.Lines.{refused_line};

use ebpf_command::answer::Answer;
use ebpf_command::done::{Done, FaultCode};
use ebpf_command::format::Format;
use ebpf_command::json::{fault_object, refused_object};
use ebpf_command::text::fault_line;
use std::alloc::{AllocError, Global};

/// The answer to a program that is refused at a slot, without why.
pub fn answer_refused(
    alloc: Global,
    format: Format,
    code: &str,
    slot: u16,
) -> Result<Answer, AllocError>
    ensures { IfOk result (λ answer. answer ≡ refused_response (refused_in format code.now slot)) }
{
    let text = match format {
        Format::Text => refused_line(alloc, code, slot)?,
        Format::Json => refused_object(alloc, code, slot, "")?,
    };
    Ok(Answer {
        text,
        done: Done::Refused,
    })
}

/// The answer to a program that is refused at a slot, with the line that says why.
pub fn answer_refused_why(
    alloc: Global,
    format: Format,
    code: &str,
    slot: u16,
    why: &str,
) -> Result<Answer, AllocError>
    ensures { IfOk result (λ answer. answer ≡ refused_response (refused_why_in format code.now slot why.now)) }
{
    let text = match format {
        Format::Text => {
            let mut text = refused_line(alloc, code, slot)?;
            text.push_str(why)?;
            text
        }
        Format::Json => refused_object(alloc, code, slot, why)?,
    };
    Ok(Answer {
        text,
        done: Done::Refused,
    })
}

/// The answer to a fault, with the line that says why.
pub(crate) fn answer_fault_why(
    alloc: Global,
    format: Format,
    code: FaultCode,
    why: &str,
) -> Result<Answer, AllocError>
    ensures { IfOk result (λ answer. answer ≡ refused_response (fault_why_in format code 0 why.now)) }
{
    let text = match format {
        Format::Text => {
            let mut text = fault_line(alloc, code, 0)?;
            text.push_str(why)?;
            text
        }
        Format::Json => fault_object(alloc, code, 0, why)?,
    };
    Ok(Answer {
        text,
        done: Done::Refused,
    })
}

// The line of a program that is refused at a slot.
fn refused_line(alloc: Global, code: &str, slot: u16) -> Result<String, AllocError>
    ensures { IfOk result (λ text. string_bytes text ≡ refused_line code.now slot) }
{
    format!(in alloc; "refused {code} {slot}\n")
}
