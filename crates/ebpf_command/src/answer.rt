//! What a command answers, and how each command is answered.

ghost use Rattle.std.specs.Prelude.{◌≡◌, IfOk};
ghost use Rattle.ebpf_command.specs.Json.{fault_in};
ghost use Rattle.ebpf_command.specs.Lines.{fault_line};
ghost use Rattle.ebpf_command.specs.Response.{refused_response};
ghost use Rattle.ebpf_command.specs.Writing.{AnsweredBy, IsWritten, Performs};

use crate::done::{Done, EngineFault, FaultCode};
use crate::format::Format;
use crate::input::read_input;
use crate::json::fault_object;
use crate::output::write_text;
use crate::text::fault_line;
use std::alloc::{AllocError, Global};
use std::io::{Read, Write};
use std::marker::Model;

/// A whole text, and how the command that writes it ends. Contracts see the text as its bytes.
#[derive(Drop)]
pub struct Answer {
    pub text: String,
    pub done: Done,
}

impl Model for Answer {
    ghost use Rattle.std.specs.Prelude.{string_bytes};
    ghost use Rattle.ebpf_command.specs.Response.{Response};

    ghost Value = { Response };

    ghost view = { λ a. record { text = string_bytes a.text; done = a.done } };
}

/// The answer to a fault: its line alone. It fails only where an allocation fails.
pub fn answer_fault(alloc: Global, code: FaultCode, line: usize) -> Result<Answer, AllocError>
    ensures { IfOk result (λ answer. answer ≡ refused_response (fault_line code line)) }
{
    answer_fault_in(alloc, Format::Text, code, line)
}

/// The same in a format. It fails only where an allocation fails.
pub fn answer_fault_in(
    alloc: Global,
    format: Format,
    code: FaultCode,
    line: usize,
) -> Result<Answer, AllocError>
    ensures { IfOk result (λ answer. answer ≡ refused_response (fault_in format code line)) }
{
    let text = match format {
        Format::Text => fault_line(alloc, code, line)?,
        Format::Json => fault_object(alloc, code, line, "")?,
    };
    Ok(Answer {
        text,
        done: Done::Refused,
    })
}

/// Reads the whole input, has it answered, writes the answer's text, flushes the writer, and says how the command ends. Of
/// an input that is too long the first 1,048,577 bytes are read and answered.
///
/// # Errors
/// `Input` where a read failed and `NoMemory` where an allocation failed: nothing was written then. `Output` where a write
/// failed or took nothing.
pub fn respond<R: Read, W: Write, F: FnOnce(&[u8]) -> Result<Answer, AllocError> + Drop>(
    alloc: Global,
    reader: &mut R,
    writer: &mut W,
    answer: F,
) -> Result<Done, EngineFault>
    requires { F.IsAlwaysCallable answer }
    ensures { Performs (AnsweredBy F.FnOnce answer) (R.remaining reader.old) (R.remaining reader.new) (W.contents writer.old) (W.contents writer.new)
        writer.old writer.new result }
{
    let input = read_input(alloc, reader)?;
    let answer = answer(&input)?;
    write_answer(writer, answer)
}

/// Writes the text of an answer, flushes the writer, and says how the command ends.
///
/// # Errors
/// `Output` where a write failed or took nothing: what was written is a beginning of the text.
pub fn write_answer<W: Write>(writer: &mut W, answer: Answer) -> Result<Done, EngineFault>
    ensures { IsWritten answer (W.contents writer.old) (W.contents writer.new) result }
{
    write_text(writer, answer.text.as_bytes())?;
    Ok(answer.done)
}
