//! What `explain` and `graph` show of the bytes that are asked for, and of what is no such program, why.

ghost use Rattle.std.specs.Prelude.{◌≡◌, IfOk, length};
ghost use Rattle.ebpf_state.specs.Kinds.{AreKinds};
ghost use Rattle.ebpf_show.specs.Shown.{ShowsBy, ShowsTo, ShowsBytes, ShowsWith, copies_of, format_of, source_of, shown_of};

use crate::copies::Copies;
use crate::explain::answer_states;
use crate::graph::answer_graph;
use crate::made::show_forward;
use crate::sourced::{Beside, Sourced, with_line};
use ebpf_command::answer::Answer;
use ebpf_command::done::Stop;
use ebpf_command::format::Format;
use ebpf_flow::flowed::Flowed;
use ebpf_flow::followed::{Followed, follow};
use ebpf_input::ask::Ask;
use ebpf_input::form::Form;
use ebpf_input::input_faults::{answer_misled, answer_undecoded, answer_unused};
use ebpf_input::request::{Request, requested};
use ebpf_state::kinds::{KindRow, kinds};
use ebpf_verify::decl::Decl;
use ebpf_verify::trace::Trace;
use std::alloc::{AllocError, Global};

/// What is shown of a program.
#[derive(Clone, Copy)]
pub(crate) enum Shown<'a> {
    /// What is known before each of its instructions, with what is beside it, and then the verdict.
    States { format: Format, beside: Beside<'a> },
    /// The graph of its flow. With states, each block begins with what is known before it.
    Graph { states: bool },
}

/// The format of what is shown.
pub(crate) fn format_of(shown: Shown<'_>) -> Format
    ensures { result ≡ format_of shown.entry }
{
    match shown {
        Shown::States { format, .. } => format,
        Shown::Graph { .. } => Format::Text,
    }
}

/// The lines of C that are known.
pub(crate) fn source_of<'a>(shown: Shown<'a>) -> Option<Sourced<'a>>
    ensures { result ≡ source_of shown.entry }
{
    match shown {
        Shown::States { beside, .. } => beside.source,
        Shown::Graph { .. } => None,
    }
}

/// The slots of another program that are copied, if any.
pub(crate) fn copies_of<'a>(shown: Shown<'a>) -> Option<Copies<'a>>
    ensures { result ≡ copies_of shown.entry }
{
    match shown {
        Shown::States { beside, .. } => beside.copies,
        Shown::Graph { .. } => None,
    }
}

/// The response to an input in a form, with the options that are asked for. It fails only where an allocation fails.
pub(crate) fn show_input(
    alloc: Global,
    shown: Shown<'_>,
    unroll: bool,
    ask: &Ask<'_>,
    form: Form,
    input: &[u8],
) -> Result<Answer, AllocError>
    ensures { IfOk result (ShowsTo unroll shown.entry form ask.now.context.now ask.now.held input.now) }
{
    match requested(alloc, form, input, ask.context, ask.held) {
        Ok(request) => show_request(alloc, shown, unroll, request),
        Err(Stop::Fault(code)) => answer_unused(alloc, format_of(shown), ask, form, input, code),
        Err(Stop::NoMemory) => Err(AllocError),
    }
}

/// The response to the bytes of a request: of their program as it is, or of one of which every jump leads forward. It fails only where an
/// allocation fails.
pub(crate) fn show_request(
    alloc: Global,
    shown: Shown<'_>,
    unroll: bool,
    request: Request,
) -> Result<Answer, AllocError>
    requires { request.decl.context ≡ length request.context.items }
    ensures { IfOk result (ShowsBytes unroll shown.entry (record { bytes = request.bytes.items; context = request.context.items; held = request.decl.held })) }
{
    show_by(alloc, shown, unroll, &request.bytes, request.decl, &kinds())
}

// The response to bytes, with what is declared and the kinds.
fn show_by(
    alloc: Global,
    shown: Shown<'_>,
    unroll: bool,
    bytes: &[u8],
    decl: Decl,
    kinds: &[KindRow],
) -> Result<Answer, AllocError>
    requires { AreKinds kinds.now }
    ensures { IfOk result (ShowsBy unroll shown.entry bytes.now decl kinds.now) }
{
    if unroll {
        show_forward(alloc, shown, bytes, decl, kinds)
    } else {
        show_bytes(alloc, shown, bytes, decl, kinds)
    }
}

/// What is shown of bytes as they are.
pub(crate) fn show_bytes(
    alloc: Global,
    shown: Shown<'_>,
    bytes: &[u8],
    decl: Decl,
    kinds: &[KindRow],
) -> Result<Answer, AllocError>
    requires { AreKinds kinds.now }
    ensures { IfOk result (ShowsWith shown.entry bytes.now decl kinds.now) }
{
    let format = format_of(shown);
    let source = source_of(shown);
    match follow(alloc, bytes)? {
        Followed::Undecoded { slot, code } => {
            let answer = answer_undecoded(alloc, format, bytes, slot, code)?;
            with_line(format, answer, source, slot)
        }
        Followed::Misled {
            program,
            slot,
            code,
        } => {
            let answer = answer_misled(alloc, format, &program, slot, code)?;
            with_line(format, answer, source, slot)
        }
        Followed::Flowed(flowed) => show_flowed(alloc, shown, &flowed, decl, kinds),
    }
}

// What is shown of a program whose flow has no fault.
fn show_flowed(
    alloc: Global,
    shown: Shown<'_>,
    flowed: &Flowed,
    decl: Decl,
    kinds: &[KindRow],
) -> Result<Answer, AllocError>
    requires { AreKinds kinds.now }
    ensures { IfOk result (λ answer. answer ≡ shown_of shown.entry (record { program = flowed.now; decl = decl; rows = kinds.now })) }
{
    let trace = Trace::of(alloc, flowed, decl, kinds)?;
    match shown {
        Shown::States { format, beside } => answer_states(alloc, format, &trace, beside),
        Shown::Graph { states } => answer_graph(alloc, &trace, states),
    }
}
