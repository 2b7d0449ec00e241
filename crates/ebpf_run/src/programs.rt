//! The commands over one program that are done by one of two functions: `one` and `list` over hex, in plain text and without steps, by
//! those of [`crate::plain`]; `explain` and `graph` by whether loops are unrolled first.

use crate::command::{ExplainOptions, GraphOptions, ListOptions, OneOptions};
use crate::plain::{list, one};
use ebpf_command::done::{Done, EngineFault};
use ebpf_command::format::Format;
use ebpf_input::ask::Input;
use ebpf_input::form::Form;
use ebpf_one::list::list as list_program;
use ebpf_one::one::one as run_program;
use ebpf_one::unroll::one_unrolled;
use ebpf_show::explain::{explain, explain_unrolled};
use ebpf_show::graph::{graph, graph_unrolled};
use std::alloc::Global;
use std::io::{Read, Write};

/// Does `one`.
pub fn perform_one<R: Read, W: Write>(
    alloc: Global,
    reader: &mut R,
    writer: &mut W,
    options: OneOptions<'_>,
) -> Result<Done, EngineFault> {
    let OneOptions { ask, how, unroll } = options;
    if unroll {
        return one_unrolled(alloc, reader, writer, &ask, how);
    }
    match (ask.input, ask.format, how.trace) {
        (Input::Program(Form::Hex), Format::Text, None) => {
            one(alloc, reader, writer, ask.context, ask.held, how.nulls)
        }
        _ => run_program(alloc, reader, writer, &ask, how),
    }
}

/// Does `list`.
pub fn perform_list<R: Read, W: Write>(
    alloc: Global,
    reader: &mut R,
    writer: &mut W,
    options: ListOptions<'_>,
) -> Result<Done, EngineFault> {
    let ListOptions {
        input,
        lines,
        format,
    } = options;
    match (input, format) {
        (Input::Program(Form::Hex), Format::Text) => list(alloc, reader, writer),
        _ => list_program(alloc, reader, writer, format, &input, lines),
    }
}

/// Does `explain`.
pub fn perform_explain<R: Read, W: Write>(
    alloc: Global,
    reader: &mut R,
    writer: &mut W,
    options: ExplainOptions<'_>,
) -> Result<Done, EngineFault> {
    let ExplainOptions { ask, lines, unroll } = options;
    if unroll {
        explain_unrolled(alloc, reader, writer, &ask, lines)
    } else {
        explain(alloc, reader, writer, &ask, lines)
    }
}

/// Does `graph`.
pub fn perform_graph<R: Read, W: Write>(
    alloc: Global,
    reader: &mut R,
    writer: &mut W,
    options: GraphOptions<'_>,
) -> Result<Done, EngineFault> {
    let GraphOptions {
        ask,
        states,
        unroll,
    } = options;
    if unroll {
        graph_unrolled(alloc, reader, writer, &ask, states)
    } else {
        graph(alloc, reader, writer, &ask, states)
    }
}
