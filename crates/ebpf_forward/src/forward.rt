//! A program of which every jump leads forward, made of one whose jumps may lead back.

ghost use Rattle.std.specs.Prelude.{◌≡◌, IfOk, IfErr};
ghost use Rattle.ebpf_state.specs.Kinds.{AreKinds};
ghost use Rattle.ebpf_layout.specs.Refusal.{IsLoop};
ghost use Rattle.ebpf_forward.specs.Forward.{IsForward, IsForwardFault, IsLoopFault, copies_of, program_of};

use crate::fault::{BackEdge, ForwardFault, RefusedVisit};
use ebpf_insn::program::Program;
use ebpf_layout::fault::LayoutFault;
use ebpf_layout::layout::{Laid, lay_out};
use ebpf_state::kinds::KindRow;
use ebpf_unroll::fault::UnrollFault;
use ebpf_unroll::unroll::{Unrolled, unroll};
use ebpf_verify::decl::Decl;
use std::alloc::Global;

/// A program of which every jump leads forward.
#[derive(Drop)]
pub enum Forward {
    /// The program has no loops, and is laid out: it is as it was if its flow has no fault.
    LaidOut(Laid),
    /// The program has loops, which are unrolled; what came of it was accepted.
    Unrolled(Unrolled),
}

impl Forward {
    /// The program itself.
    pub fn program(&self) -> &Program
        ensures { result.now ≡ program_of self.now }
    {
        match self {
            Forward::LaidOut(laid) => &laid.program,
            Forward::Unrolled(unrolled) => unrolled.verified.program(),
        }
    }

    /// Of each of its slots the slot of the old program that it copies; none of what was added, and of a second half.
    pub fn of(&self) -> &[Option<u16>]
        ensures { result.now ≡ copies_of self.now }
    {
        match self {
            Forward::LaidOut(laid) => &laid.of,
            Forward::Unrolled(unrolled) => &unrolled.of,
        }
    }
}

/// Makes every jump of a program lead forward, for this declaration and these kinds of object: lays it out, or unrolls its loops if it has any.
///
/// # Errors
/// By its cause, of which the layout's come first: see [`ForwardFault`].
pub fn lead_forward(
    alloc: Global,
    program: &Program,
    decl: Decl,
    kinds: &[KindRow],
) -> Result<Forward, ForwardFault>
    requires { AreKinds kinds.now }
    ensures forward { IfOk result (IsForward program.now decl kinds.now) }
    ensures refused { IfErr result (IsForwardFault program.now decl kinds.now) }
{
    match lay_out(alloc, program) {
        Ok(laid) => Ok(Forward::LaidOut(laid)),
        Err(LayoutFault::Loop { from, to }) => {
            unroll_loops(alloc, program, decl, kinds, BackEdge { from, to })
        }
        Err(LayoutFault::Flow { slot, code }) => Err(ForwardFault::Flow { slot, code }),
        Err(LayoutFault::Slots) => Err(ForwardFault::Slots),
        Err(LayoutFault::NoMemory) => Err(ForwardFault::NoMemory),
    }
}

// Unrolls the loops of a program, of which an edge closes one.
fn unroll_loops(
    alloc: Global,
    program: &Program,
    decl: Decl,
    kinds: &[KindRow],
    edge: BackEdge,
) -> Result<Forward, ForwardFault>
    requires kinds { AreKinds kinds.now }
    requires closes { IsLoop program.now edge.from edge.to }
    ensures forward { IfOk result (IsForward program.now decl kinds.now) }
    ensures refused { IfErr result (IsForwardFault program.now decl kinds.now) }
{
    match unroll(alloc, program, decl, kinds) {
        Ok(unrolled) => Ok(Forward::Unrolled(unrolled)),
        Err(fault) => Err(fault_of(fault, edge)),
    }
}

// The fault of a program with loops, of which an edge closes one.
fn fault_of(fault: UnrollFault, edge: BackEdge) -> ForwardFault
    ensures { IsLoopFault fault edge result }
{
    match fault {
        UnrollFault::Flow { slot, code } => ForwardFault::Flow { slot, code },
        UnrollFault::Refused { slot, code, visit } => {
            ForwardFault::Refused(RefusedVisit { slot, code, visit })
        }
        UnrollFault::Long { .. } => ForwardFault::Long(edge),
        UnrollFault::Unconfirmed => ForwardFault::Unconfirmed(edge),
        UnrollFault::NoMemory => ForwardFault::NoMemory,
    }
}
