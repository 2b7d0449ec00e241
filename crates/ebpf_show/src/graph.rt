//! The command `graph`: the flow of one program as a graph, with the slot that is refused.

ghost use Rattle.std.specs.Prelude.{◌≡◌, IfOk, false, true};
ghost use Rattle.ebpf_verify.specs.Traced.{subject_of};
ghost use Rattle.ebpf_object_file.specs.declared.object_fault.ObjectFault.{ObjectFault};
ghost use Rattle.ebpf_command.specs.Writing.{Performs};
ghost use Rattle.ebpf_show.specs.GraphText.{graphed_by};
ghost use Rattle.ebpf_show.specs.GraphInput.{GraphsInput, GraphsWithData};

use crate::shown::{Shown, show_input, show_request};
use ebpf_command::answer::{Answer, write_answer};
use ebpf_command::done::{Done, EngineFault};
use ebpf_command::input::read_input;
use ebpf_graph::graph::write_graph;
use ebpf_input::ask::{Ask, Input};
use ebpf_input::data_request::requested_with_data;
use ebpf_input::form::Form;
use ebpf_input::no_request::answer_no_request;
use ebpf_input::object::taken;
use ebpf_verify::trace::Trace;
use std::alloc::{AllocError, Global};
use std::io::{Read, Write};

/// Reads a program and writes the graph of its flow as a text, with the slot that the verifier refuses. Of bytes that are no program, or
/// whose flow is refused, it writes what [`crate::explain::explain`] does. With `states` each block begins with what is known before it. A
/// function that reads data of its file is linked with it first.
///
/// # Errors
/// `Input` where a read failed and `NoMemory` where an allocation failed: nothing was written then. `Output` where a write
/// failed or took nothing.
pub fn graph<R: Read, W: Write>(
    alloc: Global,
    reader: &mut R,
    writer: &mut W,
    ask: &Ask<'_>,
    states: bool,
) -> Result<Done, EngineFault>
    ensures { Performs (GraphsInput ask.now false states)
        (R.remaining reader.old) (R.remaining reader.new) (W.contents writer.old) (W.contents writer.new) writer.old writer.new result }
{
    respond(alloc, reader, writer, ask, states, false)
}

/// Reads a program, makes each of its jumps lead forward as `unroll` does, and writes of the program that comes of it what [`graph`] does; or why there
/// is no such program.
///
/// # Errors
/// `Input` where a read failed and `NoMemory` where an allocation failed: nothing was written then. `Output` where a write
/// failed or took nothing.
pub fn graph_unrolled<R: Read, W: Write>(
    alloc: Global,
    reader: &mut R,
    writer: &mut W,
    ask: &Ask<'_>,
    states: bool,
) -> Result<Done, EngineFault>
    ensures { Performs (GraphsInput ask.now true states)
        (R.remaining reader.old) (R.remaining reader.new) (W.contents writer.old) (W.contents writer.new) writer.old writer.new result }
{
    respond(alloc, reader, writer, ask, states, true)
}

// Reads the input, answers it, and writes the answer.
fn respond<R: Read, W: Write>(
    alloc: Global,
    reader: &mut R,
    writer: &mut W,
    ask: &Ask<'_>,
    states: bool,
    unroll: bool,
) -> Result<Done, EngineFault>
    ensures { Performs (GraphsInput ask.now unroll states)
        (R.remaining reader.old) (R.remaining reader.new) (W.contents writer.old) (W.contents writer.new) writer.old writer.new result }
{
    let input = read_input(alloc, reader)?;
    let answer = graph_asked(alloc, ask, &input, states, unroll)?;
    write_answer(writer, answer)
}

// The response to an input, by what it is.
fn graph_asked(
    alloc: Global,
    ask: &Ask<'_>,
    input: &[u8],
    states: bool,
    unroll: bool,
) -> Result<Answer, AllocError>
    ensures { IfOk result (GraphsInput ask.now unroll states input.now) }
{
    let shown = Shown::Graph { states };
    match ask.input {
        Input::Program(form) => show_input(alloc, shown, unroll, ask, form, input),
        Input::Object(name) => match taken(name, input) {
            Ok(bytes) => show_input(alloc, shown, unroll, ask, Form::Raw, bytes),
            Err(_) => graph_with_data(alloc, ask, name, input, states, unroll),
        },
    }
}

// The response to a function that is no program by itself: it is linked with the data that it reads.
fn graph_with_data(
    alloc: Global,
    ask: &Ask<'_>,
    name: &str,
    file: &[u8],
    states: bool,
    unroll: bool,
) -> Result<Answer, AllocError>
    ensures { IfOk result (λ response. (e : ObjectFault) → GraphsWithData ask.now unroll states name.now file.now e response) }
{
    match requested_with_data(alloc, ask, name, file) {
        Ok(linked) => show_request(alloc, Shown::Graph { states }, unroll, linked.request),
        Err(fault) => answer_no_request(alloc, ask, file, fault),
    }
}

/// The answer with the graph of a program that a trace looked at, with the slot that is refused.
pub(crate) fn answer_graph(alloc: Global, trace: &Trace, states: bool) -> Result<Answer, AllocError>
    ensures { IfOk result (λ answer. answer ≡ graphed_by states trace.now.refusal (subject_of trace.now) trace.now.entries.items) }
{
    let mut text = String::new(alloc);
    let Some((slot, _)) = trace.refusal else {
        write_graph(alloc, &mut text, trace, None, states)?;
        return Ok(Answer {
            text,
            done: Done::Clean,
        });
    };
    write_graph(alloc, &mut text, trace, Some(slot), states)?;
    Ok(Answer {
        text,
        done: Done::Refused,
    })
}
