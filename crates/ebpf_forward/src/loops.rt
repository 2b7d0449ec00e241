//! Loops that are not unrolled.

ghost use Rattle.std.specs.Prelude.{◌≡◌, ◌++◌, IfOk, OnOk, map, string_bytes};
ghost use Rattle.ebpf_state.specs.Kinds.{AreKinds};
ghost use Rattle.ebpf_forward.specs.ExitText.{exit_in};
ghost use Rattle.ebpf_forward.specs.WhyNot.{IsClosing, IsLong, IsUnconfirmed, turns_line};

use crate::exit_text::exit_text;
use crate::fault::BackEdge;
use crate::why_not::{StuckLoop, Turns};
use ebpf_insn::program::Program;
use ebpf_state::kinds::KindRow;
use ebpf_unroll::long_loop::{LongLoop, LoopExit, long_loop};
use ebpf_verify::decl::Decl;
use std::alloc::{AllocError, Global};

/// The loop of a program whose turns come to no end in the slots that it may have. It fails only where an allocation fails.
pub(crate) fn stuck(
    alloc: Global,
    program: &Program,
    decl: Decl,
    kinds: &[KindRow],
) -> Result<StuckLoop, AllocError>
    requires { AreKinds kinds.now }
    ensures { IfOk result (IsLong program.now) }
{
    let found = long_loop(alloc, program, decl, kinds)?;
    let mut why = String::new(alloc);
    write_turns(&mut why, &found)?;
    let exits = exits_of(alloc, program, &found.exits)?;
    Ok(StuckLoop {
        edge: BackEdge {
            from: found.last,
            to: found.head,
        },
        why,
        turns: Some(Turns {
            count: found.turns,
            exits,
        }),
    })
}

// The line of how often the walk went round a loop.
fn write_turns(text: &mut String, found: &LongLoop) -> Result<(), AllocError>
    ensures { OnOk result (string_bytes text.new ≡ string_bytes text.old ++ turns_line found.now) }
{
    let last = found.last;
    let head = found.head;
    let turns = found.turns;
    write!(
        text,
        "  slot {last} goes back to slot {head}: after {turns} turns the program would have more than 4096 slots\n"
    )
}

// What each branch compares that leads out of a loop.
fn exits_of(alloc: Global, program: &Program, exits: &[LoopExit]) -> Result<Vec<String>, AllocError>
    ensures { IfOk result (λ texts. map string_bytes texts.items ≡ map (exit_in program.now) exits.now) }
{
    let mut texts = Vec::new(alloc);
    for exit in exits {
        texts.push(exit_text(alloc, program, *exit)?)?;
    }
    Ok(texts)
}

/// A loop whose turns were written, but not accepted. It fails only where an allocation fails.
pub(crate) fn unconfirmed(alloc: Global, edge: BackEdge) -> Result<StuckLoop, AllocError>
    ensures { IfOk result (IsUnconfirmed edge) }
{
    let BackEdge { from, to } = edge;
    let why = format!(in alloc;
        "  slot {from} goes back to slot {to}: the program of all turns is not accepted\n"
    )?;
    Ok(StuckLoop {
        edge,
        why,
        turns: None,
    })
}

/// A loop that keeps a program from being laid out. It fails only where an allocation fails.
pub(crate) fn closing(alloc: Global, edge: BackEdge) -> Result<StuckLoop, AllocError>
    ensures { IfOk result (IsClosing edge) }
{
    let BackEdge { from, to } = edge;
    let why = format!(in alloc;
        "  slot {from} leads to slot {to}, from which a path leads back to it: unroll the loop, as ebpf_run unroll does\n"
    )?;
    Ok(StuckLoop {
        edge,
        why,
        turns: None,
    })
}
