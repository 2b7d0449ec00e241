//! The command `explain`: what is known before each instruction of one program, and the verdict that rests on it.

ghost use Rattle.std.specs.Prelude.{◌≡◌, IfOk, false, true};
ghost use Rattle.ebpf_verify.specs.Traced.{subject_of};
ghost use Rattle.ebpf_command.specs.Writing.{Performs};
ghost use Rattle.ebpf_input.specs.declared.form.Form.TheVariants.{Raw};
ghost use Rattle.ebpf_input.specs.ObjectText.{WritesInputPlain};
ghost use Rattle.ebpf_show.specs.ExplainObject.{ExplainsInput, ExplainsWithData};
ghost use Rattle.ebpf_show.specs.ExplainText.{explained_by};
ghost use Rattle.ebpf_show.specs.Shown.{ExplainsTo};

use crate::explain_object::{Detail, explain_file};
use crate::shown::{Shown, show_input};
use crate::sourced::{Beside, with_line, write_listed};
use crate::verdict::{write_accepted, write_refused};
use ebpf_command::answer::{Answer, write_answer};
use ebpf_command::codes::RefusalCode;
use ebpf_command::done::{Done, EngineFault};
use ebpf_command::format::Format;
use ebpf_command::input::read_input;
use ebpf_explain::reason::write_reason;
use ebpf_input::ask::{Ask, Input};
use ebpf_verify::trace::Trace;
use std::alloc::{AllocError, Global};
use std::io::{Read, Write};

/// Reads a program and writes in a format what is known before each of its instructions, up to the one that is refused, and then the verdict.
/// The program isn't run. Under the reason of a refusal is the line of C that holds at the slot, `FILE:LINE:COLUMN: TEXT`, of an object
/// file that has lines which can be read. With `lines`, each line is before its instructions, as `list` writes it, and lines
/// that can't be read are a fault. A function that reads data of its file is linked with it first: before each instruction of that program
/// is the function's slot that it copies, as [`explain_unrolled`] writes it.
///
/// # Errors
/// `Input` where a read failed and `NoMemory` where an allocation failed: nothing was written then. `Output` where a write
/// failed or took nothing.
pub fn explain<R: Read, W: Write>(
    alloc: Global,
    reader: &mut R,
    writer: &mut W,
    ask: &Ask<'_>,
    lines: bool,
) -> Result<Done, EngineFault>
    ensures done { Performs (ExplainsInput ask.now (record { lines = lines; unroll = false })) (R.remaining reader.old) (R.remaining reader.new) (W.contents writer.old) (W.contents writer.new) writer.old writer.new result }
    // Of a file without lines, it is what is written of the function's slots.
    ensures plain { WritesInputPlain (ExplainsWithData ask.now (record { lines = lines; unroll = false })) (ExplainsTo ask.now.format false Raw ask.now.context.now ask.now.held) ask.now.input
        (R.remaining reader.old) (W.contents writer.old) (W.contents writer.new) result }
{
    let detail = Detail {
        lines,
        unroll: false,
    };
    respond(alloc, reader, writer, ask, detail)
}

/// Reads a program, makes each of its jumps lead forward as `unroll` does, and writes of the program that comes of it what [`explain`] does. Before each
/// instruction is the slot that it copies, and at which visit of that slot, or that it was added. Or it writes why there is no such program.
///
/// # Errors
/// `Input` where a read failed and `NoMemory` where an allocation failed: nothing was written then. `Output` where a write
/// failed or took nothing.
pub fn explain_unrolled<R: Read, W: Write>(
    alloc: Global,
    reader: &mut R,
    writer: &mut W,
    ask: &Ask<'_>,
    lines: bool,
) -> Result<Done, EngineFault>
    ensures { Performs (ExplainsInput ask.now (record { lines = lines; unroll = true })) (R.remaining reader.old) (R.remaining reader.new) (W.contents writer.old) (W.contents writer.new) writer.old writer.new result }
{
    let detail = Detail {
        lines,
        unroll: true,
    };
    respond(alloc, reader, writer, ask, detail)
}

// Reads the input, answers it, and writes the answer.
fn respond<R: Read, W: Write>(
    alloc: Global,
    reader: &mut R,
    writer: &mut W,
    ask: &Ask<'_>,
    detail: Detail,
) -> Result<Done, EngineFault>
    ensures { Performs (ExplainsInput ask.now detail) (R.remaining reader.old) (R.remaining reader.new)
        (W.contents writer.old) (W.contents writer.new) writer.old writer.new result }
{
    let input = read_input(alloc, reader)?;
    let answer = explain_asked(alloc, ask, &input, detail)?;
    write_answer(writer, answer)
}

// The response to an input, by what it is.
fn explain_asked(
    alloc: Global,
    ask: &Ask<'_>,
    input: &[u8],
    detail: Detail,
) -> Result<Answer, AllocError>
    ensures { IfOk result (ExplainsInput ask.now detail input.now) }
{
    match ask.input {
        Input::Program(form) => {
            let beside = Beside {
                source: None,
                copies: None,
            };
            let shown = Shown::States {
                format: ask.format,
                beside,
            };
            show_input(alloc, shown, detail.unroll, ask, form, input)
        }
        Input::Object(name) => explain_file(alloc, ask, input, name, detail),
    }
}

/// The answer with what is known before each instruction that a trace looked at, and the verdict.
pub(crate) fn answer_states(
    alloc: Global,
    format: Format,
    trace: &Trace,
    beside: Beside<'_>,
) -> Result<Answer, AllocError>
    ensures { IfOk result (λ answer. answer ≡ explained_by format beside.entry trace.now.refusal (subject_of trace.now) trace.now.entries.items) }
{
    let mut text = String::new(alloc);
    write_listed(alloc, format, &mut text, trace, beside)?;
    let Some((slot, code)) = trace.refusal else {
        let len = trace.flowed.program().len();
        write_accepted(format, &mut text, len)?;
        return Ok(Answer {
            text,
            done: Done::Clean,
        });
    };
    let mut why = String::new(alloc);
    write_reason(alloc, &mut why, trace, slot as usize, code)?;
    write_refused(
        alloc,
        format,
        &mut text,
        RefusalCode::Verify(code).name(),
        slot,
        &why,
    )?;
    let answer = Answer {
        text,
        done: Done::Refused,
    };
    with_line(format, answer, beside.source, slot)
}
