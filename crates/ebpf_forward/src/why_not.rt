//! Why every jump of a program can't be made to lead forward, in words.

ghost use Rattle.std.specs.Prelude.{◌≡◌, IfOk};
ghost use Rattle.ebpf_state.specs.Kinds.{AreKinds};
ghost use Rattle.ebpf_forward.specs.WhyNot.{SaysWhyNot, SaysWhyNotLaid, slot_of};

use crate::fault::{BackEdge, ForwardFault};
use crate::loops::{closing, stuck, unconfirmed};
use crate::refused::{misled, refused_at_visit, too_long};
use ebpf_command::codes::RefusalCode;
use ebpf_insn::program::Program;
use ebpf_layout::fault::LayoutFault;
use ebpf_state::kinds::KindRow;
use ebpf_verify::decl::Decl;
use std::alloc::{AllocError, Global};

/// What a program is refused for.
#[derive(Drop)]
pub enum WhyNot {
    /// For a slot.
    Slot(RefusedSlot),
    /// For a loop.
    Loop(StuckLoop),
}

/// A slot that is refused.
#[derive(Drop)]
pub struct RefusedSlot {
    pub code: RefusalCode,
    pub slot: u16,
    /// The line that says why, indented by two blanks; empty where nothing more is known.
    pub why: String,
    /// At which visit of the slot that is, where its loops were walked round.
    pub visit: Option<KnownVisit>,
}

/// A visit of a slot, and what is known before it.
#[derive(Drop)]
pub struct KnownVisit {
    /// Counted from 1.
    pub visit: usize,
    /// The words of what is known, with two blanks before each.
    pub known: String,
}

/// A loop that is not unrolled.
#[derive(Drop)]
pub struct StuckLoop {
    /// The edge that closes it.
    pub edge: BackEdge,
    /// The line that says why, indented by two blanks.
    pub why: String,
    /// How it was walked round, if it was.
    pub turns: Option<Turns>,
}

/// How a loop was walked round.
#[derive(Drop)]
pub struct Turns {
    pub count: usize,
    /// Of each branch that leads out of the loop what it compares, first and last.
    pub exits: Vec<String>,
}

/// Why [`crate::forward::lead_forward`] made no program.
///
/// # Errors
/// It fails only where an allocation fails, or failed there.
pub fn why_not(
    alloc: Global,
    program: &Program,
    decl: Decl,
    kinds: &[KindRow],
    fault: ForwardFault,
) -> Result<WhyNot, AllocError>
    requires { AreKinds kinds.now }
    ensures { IfOk result (SaysWhyNot program.now decl kinds.now fault) }
{
    match fault {
        ForwardFault::Flow { slot, code } => Ok(WhyNot::Slot(misled(alloc, program, slot, code)?)),
        ForwardFault::Slots => Ok(WhyNot::Slot(too_long(alloc)?)),
        ForwardFault::Refused(at) => {
            Ok(WhyNot::Slot(refused_at_visit(alloc, program, decl, kinds, at)?))
        }
        ForwardFault::Long(_) => Ok(WhyNot::Loop(stuck(alloc, program, decl, kinds)?)),
        ForwardFault::Unconfirmed(edge) => Ok(WhyNot::Loop(unconfirmed(alloc, edge)?)),
        ForwardFault::NoMemory => Err(AllocError),
    }
}

/// Why a program is not laid out.
///
/// # Errors
/// It fails only where an allocation fails, or failed there.
pub fn why_not_laid(
    alloc: Global,
    program: &Program,
    fault: LayoutFault,
) -> Result<WhyNot, AllocError>
    ensures { IfOk result (SaysWhyNotLaid program.now fault) }
{
    match fault {
        LayoutFault::Flow { slot, code } => Ok(WhyNot::Slot(misled(alloc, program, slot, code)?)),
        LayoutFault::Loop { from, to } => {
            Ok(WhyNot::Loop(closing(alloc, BackEdge { from, to })?))
        }
        LayoutFault::Slots => Ok(WhyNot::Slot(too_long(alloc)?)),
        LayoutFault::NoMemory => Err(AllocError),
    }
}

impl WhyNot {
    /// The slot of which it speaks, if that is one of the program.
    pub fn slot(&self) -> Option<u16>
        ensures { result ≡ slot_of self.now }
    {
        match self {
            WhyNot::Slot(refused) => match refused.code {
                RefusalCode::Decode(_) => None,
                RefusalCode::Flow(_) | RefusalCode::Verify(_) => Some(refused.slot),
            },
            WhyNot::Loop(stuck) => Some(stuck.edge.from),
        }
    }
}
