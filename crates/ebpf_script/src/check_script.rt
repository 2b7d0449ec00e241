//! The command `check`: the verdicts on programs, and why each that is refused is, where that is asked for.

ghost use Rattle.std.specs.Prelude.{◌≡◌, string_bytes, IfOk};
ghost use Rattle.ebpf_command.specs.Response.{refused_response};
ghost use Rattle.ebpf_command.specs.Writing.{Performs};
ghost use Rattle.ebpf_reader.specs.ReadScripts.{parsed_script};
ghost use Rattle.ebpf_script.specs.CheckText.{RespondsCheck, ChecksScript, fault_in_format, fault_response};

use crate::script_fault::write_script_fault;
use ebpf_command::answer::{Answer, respond};
use ebpf_command::done::{Done, EngineFault};
use ebpf_command::format::Format;
use ebpf_command::json::fault_object;
use ebpf_command::text::fault_line;
use ebpf_reader::read_script::read_script;
use ebpf_reader::script::{Dialect, Script, ScriptFault, ScriptStop};
use ebpf_report::verdicts::explained_verdicts_on;
use std::alloc::{AllocError, Global};
use std::io::{Read, Write};

/// Reads a script of jobs, judges its programs, and writes the verdict on each; with `explains`, also why a program is refused, and of a
/// text that is no script why it is none. No job is done.
///
/// # Errors
/// `Input` where a read failed and `NoMemory` where an allocation failed: nothing was written then. `Output` where a write
/// failed or took nothing.
pub fn check_script<R: Read, W: Write>(
    alloc: Global,
    reader: &mut R,
    writer: &mut W,
    format: Format,
    explains: bool,
) -> Result<Done, EngineFault>
    ensures { Performs (RespondsCheck explains format) (R.remaining reader.old) (R.remaining reader.new) (W.contents writer.old) (W.contents writer.new)
        writer.old writer.new result }
{
    respond(
        alloc,
        reader,
        writer,
        |input| answer_text(alloc, format, explains, input),
    )
}

// The response to a text.
fn answer_text(
    alloc: Global,
    format: Format,
    explains: bool,
    text: &[u8],
) -> Result<Answer, AllocError>
    ensures { IfOk result (RespondsCheck explains format text.now) }
{
    match read_script(alloc, Dialect::Jobs, text) {
        Ok(script) => answer_script(alloc, format, explains, &script),
        Err(ScriptStop::Fault(fault)) => answer_unread(alloc, format, explains, text, fault),
        Err(ScriptStop::NoMemory) => Err(AllocError),
    }
}

// The answer to a text that is no script.
fn answer_unread(
    alloc: Global,
    format: Format,
    explains: bool,
    text: &[u8],
    fault: ScriptFault,
) -> Result<Answer, AllocError>
    ensures { IfOk result (λ answer. answer ≡ fault_response explains format fault.line fault.code text.now) }
{
    let mut why = String::new(alloc);
    if explains {
        write_script_fault(&mut why, text, fault)?;
    }
    Ok(Answer {
        text: fault_in_format(alloc, format, fault, why.as_str())?,
        done: Done::Refused,
    })
}

// A fault, and its sentence if it has one.
fn fault_in_format(
    alloc: Global,
    format: Format,
    fault: ScriptFault,
    why: &str,
) -> Result<String, AllocError>
    ensures { IfOk result (λ text. string_bytes text ≡ fault_in_format format fault.code fault.line why.now) }
{
    match format {
        Format::Text => {
            let mut text = fault_line(alloc, fault.code, fault.line)?;
            text.push_str(why)?;
            Ok(text)
        }
        Format::Json => fault_object(alloc, fault.code, fault.line, why),
    }
}

// The response to a script.
fn answer_script(
    alloc: Global,
    format: Format,
    explains: bool,
    script: &Script,
) -> Result<Answer, AllocError>
    ensures { IfOk result (ChecksScript explains format (parsed_script script.now)) }
{
    let verdicts = explained_verdicts_on(alloc, format, &script.programs, explains)?;
    Ok(verdicts.into_answer())
}
