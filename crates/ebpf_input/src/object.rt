//! The slots of a function of an object file, or why there are none.

ghost use Rattle.std.specs.Prelude.{◌≡◌, ◌++◌, ℕ, List, IfOk, IfErr, OnOk, string_bytes};
ghost use Rattle.ebpf_object_file.specs.declared.object_fault.ObjectFault.TheVariants as ObjectFault;
ghost use Rattle.ebpf_command.specs.Response.{refused_response};
ghost use Rattle.ebpf_input.specs.ObjectText.{IsTaken, IsTakenFault, IsUnder, RespondsFault, fault_lines, object_fault_lines};

use crate::source_line::write_place_in;
use ebpf_command::answer::Answer;
use ebpf_command::done::Done;
use ebpf_command::format::Format;
use ebpf_command::input::MAX_INPUT;
use ebpf_command::json::write_why;
use ebpf_object_file::fault::FileFault;
use ebpf_object_file::function::wanted_function;
use ebpf_object_file::holding_line::holding_line;
use ebpf_object_file::object_fault::ObjectFault;
use std::alloc::{AllocError, Global};

/// The slots of the function that is asked for, as bytes. A file with more bytes than an input may have is given back as it is, since
/// that is what is said of it then.
///
/// # Errors
/// Why the file has no such function, or why that is no program by itself.
pub fn taken<'a>(name: &str, file: &'a [u8]) -> Result<&'a [u8], ObjectFault<'a>>
    ensures found { IfOk result (λ bytes. IsTaken name.now file.now bytes.now) }
    ensures refused { IfErr result (λ e. IsTakenFault name.now file.now e) }
{
    if file.len() > MAX_INPUT {
        return Ok(file);
    }
    match wanted_function(file, name.as_bytes()) {
        Ok(function) => Ok(function.code),
        Err(fault) => Err(fault),
    }
}

/// The answer where there are none: the line of the fault, its sentence and, of a slot that needs another part of the file, the line of C
/// that holds there. It fails only where an allocation fails.
pub fn answer_object_fault(
    alloc: Global,
    format: Format,
    file: &[u8],
    fault: ObjectFault<'_>,
) -> Result<Answer, AllocError>
    ensures { IfOk result (RespondsFault format file.now fault.entry) }
{
    let mut text = object_fault_text(alloc, format, fault)?;
    write_under(format, &mut text, file, fault)?;
    Ok(Answer {
        text,
        done: Done::Refused,
    })
}

/// The answer to a file of which a part can't be read: the line of the fault, and its sentence. It fails only where an allocation fails.
pub fn answer_file_fault(
    alloc: Global,
    format: Format,
    fault: FileFault,
) -> Result<Answer, AllocError>
    ensures { IfOk result (λ answer. answer ≡ refused_response (object_fault_lines format (ObjectFault.File fault))) }
{
    Ok(Answer {
        text: object_fault_text(alloc, format, ObjectFault::File(fault))?,
        done: Done::Refused,
    })
}

// The line of C under the sentence of a slot, where the file has lines that can be read.
fn write_under(
    format: Format,
    text: &mut String,
    file: &[u8],
    fault: ObjectFault<'_>,
) -> Result<(), AllocError>
    ensures { OnOk result ((under : List ℕ) × IsUnder format file.now fault.entry under × (string_bytes text.new ≡ string_bytes text.old ++ under)) }
{
    let ObjectFault::Outside(outside) = fault else {
        return Ok(());
    };
    match holding_line(file, outside.place, outside.at) {
        Some(holding) => write_place_in(format, text, holding),
        None => Ok(()),
    }
}

// The line of the fault, and its sentence.
fn object_fault_text(
    alloc: Global,
    format: Format,
    fault: ObjectFault<'_>,
) -> Result<String, AllocError>
    ensures { IfOk result (λ text. string_bytes text ≡ object_fault_lines format fault.entry) }
{
    let why = format!(in alloc; "  {fault}\n")?;
    fault_text(alloc, format, fault.code(), &why)
}

/// The line of a fault by its code, and under it the line that says why. It fails only where an allocation fails.
pub(crate) fn fault_text(
    alloc: Global,
    format: Format,
    code: &str,
    why: &str,
) -> Result<String, AllocError>
    ensures { IfOk result (λ text. string_bytes text ≡ fault_lines format code.now why.now) }
{
    match format {
        Format::Text => format!(in alloc; "fault {code} line 0\n{why}"),
        Format::Json => {
            let mut text = format!(in alloc; "{{\"fault\":\"{code}\",\"line\":0")?;
            write_why(&mut text, why)?;
            text.push_str("}\n")?;
            Ok(text)
        }
    }
}
