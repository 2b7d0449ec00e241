//! Slots for which a program is refused.

ghost use Rattle.std.specs.Prelude.{◌≡◌, Some, IfOk};
ghost use Rattle.ebpf_insn.specs.Program.{insn_at};
ghost use Rattle.ebpf_state.specs.Kinds.{AreKinds};
ghost use Rattle.ebpf_forward.specs.WhyNot.{IsMisled, IsRefusedKnown, IsRefusedVisit, IsTooLong};

use crate::fault::RefusedVisit;
use crate::why_not::{KnownVisit, RefusedSlot};
use ebpf_command::codes::RefusalCode;
use ebpf_explain::known::write_known;
use ebpf_explain::reason::write_misled;
use ebpf_explain::verify_sentence::write_verify_sentence;
use ebpf_flow::fault::FlowCode;
use ebpf_insn::fault::DecodeCode;
use ebpf_insn::insn::Insn;
use ebpf_insn::program::Program;
use ebpf_state::kinds::KindRow;
use ebpf_state::state::State;
use ebpf_unroll::known::{Known, known_at_end};
use ebpf_verify::decl::Decl;
use ebpf_verify::fault::VerifyCode;
use std::alloc::{AllocError, Global};

/// A slot of which an edge leads to no instruction. It fails only where an allocation fails.
pub(crate) fn misled(
    alloc: Global,
    program: &Program,
    slot: u16,
    code: FlowCode,
) -> Result<RefusedSlot, AllocError>
    ensures { IfOk result (IsMisled program.now slot code) }
{
    let mut why = String::new(alloc);
    write_misled(alloc, &mut why, program, slot as usize, code)?;
    Ok(RefusedSlot {
        code: RefusalCode::Flow(code),
        slot,
        why,
        visit: None,
    })
}

/// The first slot for which there is no room. It fails only where an allocation fails.
pub(crate) fn too_long(alloc: Global) -> Result<RefusedSlot, AllocError>
    ensures { IfOk result IsTooLong }
{
    let mut why = String::new(alloc);
    why.push_str("  with the jumps that have to be added the program has more than 4096 slots\n")?;
    Ok(RefusedSlot {
        code: RefusalCode::Decode(DecodeCode::ProgramTooLong),
        slot: 4096,
        why,
        visit: None,
    })
}

/// A slot of which the rule refuses what is known at some visit. It fails only where an allocation fails.
pub(crate) fn refused_at_visit(
    alloc: Global,
    program: &Program,
    decl: Decl,
    kinds: &[KindRow],
    at: RefusedVisit,
) -> Result<RefusedSlot, AllocError>
    requires { AreKinds kinds.now }
    ensures { IfOk result (IsRefusedVisit program.now decl kinds.now at) }
{
    let known = known_at_end(alloc, program, decl, kinds)?;
    match (program.at(at.slot as usize), known) {
        (Some(insn), Some(known)) => refused_known(alloc, insn, decl, kinds, at, &known),
        _ => Ok(RefusedSlot {
            code: RefusalCode::Verify(at.code),
            slot: at.slot,
            why: String::new(alloc),
            visit: None,
        }),
    }
}

// The same where this is known.
fn refused_known(
    alloc: Global,
    insn: &Insn,
    decl: Decl,
    kinds: &[KindRow],
    at: RefusedVisit,
    known: &Known,
) -> Result<RefusedSlot, AllocError>
    ensures { IfOk result (IsRefusedKnown insn.now decl kinds.now at) }
{
    let RefusedVisit { slot, code, visit } = at;
    let mut why = String::new(alloc);
    let judged = judged_by(known, code);
    write_verify_sentence(&mut why, slot as usize, insn, judged, code, decl, kinds)?;
    let mut words = String::new(alloc);
    write_known(&mut words, &known.by_slots, kinds)?;
    Ok(RefusedSlot {
        code: RefusalCode::Verify(code),
        slot,
        why,
        visit: Some(KnownVisit {
            visit,
            known: words,
        }),
    })
}

// The state that the sentence of a refusal speaks of. How many objects are held is known by the visits of their calls.
fn judged_by(known: &Known, code: VerifyCode) -> &State {
    match code {
        VerifyCode::TooManyHeld => &known.by_visits,
        _ => &known.by_slots,
    }
}
