//! What `explain` and `graph` show of a program of which every jump is to lead forward first.

ghost use Rattle.std.specs.Prelude.{◌≡◌, IfOk};
ghost use Rattle.ebpf_insn.specs.Decoding.{decode_fault};
ghost use Rattle.ebpf_state.specs.Kinds.{AreKinds};
ghost use Rattle.ebpf_show.specs.Shown.{AreCopiedLines, HasBeside, IsCopiedShown, IsHeldSource, ShowsDecoded, ShowsForward, ShowsMade, copies_of, first_slots, under};

use crate::copies::{Copies, copied_items};
use crate::shown::{Shown, copies_of, format_of, show_bytes, source_of};
use crate::sourced::{Beside, Sourced, with_line};
use ebpf_command::answer::Answer;
use ebpf_forward::forward::{Forward, lead_forward};
use ebpf_forward::why_not::why_not;
use ebpf_input::input_faults::answer_undecoded;
use ebpf_input::why_not::answer_why_not;
use ebpf_insn::decode::decode;
use ebpf_insn::encode::encode;
use ebpf_insn::fault::DecodeFault;
use ebpf_insn::program::Program;
use ebpf_object_file::lines::Line;
use ebpf_state::kinds::KindRow;
use ebpf_verify::decl::Decl;
use std::alloc::{AllocError, Global};

/// What is shown of bytes, of whose program every jump is to lead forward first. It fails only where an allocation fails.
pub(crate) fn show_forward(
    alloc: Global,
    shown: Shown<'_>,
    bytes: &[u8],
    decl: Decl,
    kinds: &[KindRow],
) -> Result<Answer, AllocError>
    requires { AreKinds kinds.now }
    ensures { IfOk result (ShowsDecoded (decode_fault bytes.now) shown.entry bytes.now decl kinds.now) }
{
    match decode(alloc, bytes) {
        Ok(program) => show_program(alloc, shown, &program, decl, kinds),
        Err(DecodeFault::Bad { slot, code }) => {
            let format = format_of(shown);
            let answer = answer_undecoded(alloc, format, bytes, slot, code)?;
            with_line(format, answer, source_of(shown), slot)
        }
        Err(DecodeFault::NoMemory) => Err(AllocError),
    }
}

// What is shown of a program, of which every jump is to lead forward first.
fn show_program(
    alloc: Global,
    shown: Shown<'_>,
    program: &Program,
    decl: Decl,
    kinds: &[KindRow],
) -> Result<Answer, AllocError>
    requires { AreKinds kinds.now }
    ensures { IfOk result (ShowsForward shown.entry program.now decl kinds.now) }
{
    match lead_forward(alloc, program, decl, kinds) {
        Ok(made) => show_made(alloc, shown, &made, decl, kinds),
        Err(fault) => {
            let why = why_not(alloc, program, decl, kinds, fault)?;
            let answer = answer_why_not(alloc, format_of(shown), &why)?;
            with_line_of(shown, answer, why.slot())
        }
    }
}

// What is shown of the program that was made.
fn show_made(
    alloc: Global,
    shown: Shown<'_>,
    made: &Forward,
    decl: Decl,
    kinds: &[KindRow],
) -> Result<Answer, AllocError>
    requires { AreKinds kinds.now }
    ensures { IfOk result (ShowsMade shown.entry decl kinds.now made.now) }
{
    let bytes = encode(alloc, made.program())?;
    let lines = lines_of(alloc, shown, made.of())?;
    let of = first_slots(alloc, shown, made.of())?;
    show_bytes(alloc, copied(shown, &of, &lines), &bytes, decl, kinds)
}

// Of each slot of a program that copies slots of what is shown, the slot that is named beside it: where what is shown copies slots too, that
// which the copied one copies.
fn first_slots(
    alloc: Global,
    shown: Shown<'_>,
    of: &[Option<u16>],
) -> Result<Vec<Option<u16>>, AllocError>
    ensures { IfOk result (λ first. first.items ≡ first_slots (copies_of shown.entry) of.now) }
{
    match copies_of(shown) {
        Some(copies) => copied_items(alloc, of, copies.of),
        None => of.to_vec(alloc),
    }
}

/// The line of C that holds at each slot of a program that copies slots. It fails only where an allocation fails.
pub(crate) fn lines_of(
    alloc: Global,
    shown: Shown<'_>,
    of: &[Option<u16>],
) -> Result<Vec<Option<Line>>, AllocError>
    ensures { IfOk result (λ lines. AreCopiedLines of.now shown.entry lines.items) }
{
    match source_of(shown) {
        Some(source) => copied_items(alloc, of, source.holding),
        None => Ok(Vec::new(alloc)),
    }
}

/// The same of a program that copies slots, with the slots that it copies and the lines of C that hold at its own.
pub(crate) fn copied<'a>(
    shown: Shown<'a>,
    of: &'a [Option<u16>],
    holding: &'a [Option<Line>],
) -> Shown<'a>
    ensures { HasBeside of.now holding.now shown.entry result }
{
    match shown {
        Shown::States { format, beside } => Shown::States {
            format,
            beside: Beside {
                source: copied_source(beside.source, holding),
                copies: Some(Copies { of }),
            },
        },
        Shown::Graph { states } => Shown::Graph { states },
    }
}

// The lines of C, with those that hold at other slots.
fn copied_source<'a>(
    source: Option<Sourced<'a>>,
    holding: &'a [Option<Line>],
) -> Option<Sourced<'a>>
    ensures { IsHeldSource holding.now source.entry result }
{
    match source {
        Some(source) => Some(Sourced {
            lines: source.lines,
            holding,
            listed: source.listed,
        }),
        None => None,
    }
}

// An answer, with the line of C under it of the slot of which it speaks, if that is one.
fn with_line_of(shown: Shown<'_>, answer: Answer, slot: Option<u16>) -> Result<Answer, AllocError>
    ensures { IfOk result (λ r. r ≡ under shown.entry slot answer) }
{
    match slot {
        Some(slot) => with_line(format_of(shown), answer, source_of(shown), slot),
        None => Ok(answer),
    }
}
