//! What is known where the walk can't go on, for a sentence.

ghost use Rattle.std.specs.Prelude.{◌≤◌, IfOk, IfSome, length};
ghost use Rattle.ebpf_insn.specs.declared.program.TheConstants.{MAX_SLOTS};
ghost use Rattle.ebpf_verify.specs.Verdict.{AreRows};
ghost use Rattle.ebpf_unroll.specs.Refusal.{IsKnownRefused};

use crate::fault::UnrollFault;
use crate::walk::{Looping, Visit, Walk, back_edges, go_through, sent_by};
use ebpf_insn::insn::Size;
use ebpf_insn::program::{MAX_SLOTS, Program};
use ebpf_insn::register::Reg;
use ebpf_state::kinds::KindRow;
use ebpf_state::stack::StoreFault;
use ebpf_state::state::State;
use ebpf_state::value::Abs;
use ebpf_state::word::Word;
use ebpf_verify::decl::Decl;
use ebpf_verify::fault::{VerifyCode, VerifyFault};
use std::alloc::{AllocError, Global};

// All registers.
const REGISTERS: [Reg; 11] = [
    Reg::R0,
    Reg::R1,
    Reg::R2,
    Reg::R3,
    Reg::R4,
    Reg::R5,
    Reg::R6,
    Reg::R7,
    Reg::R8,
    Reg::R9,
    Reg::R10,
];

// How many words the stack has.
const WORDS: usize = 64;

/// What is known at a visit of a slot whose rule refuses it.
#[derive(Drop)]
pub struct Known {
    pub slot: u16,
    pub code: VerifyCode,
    /// As the walk knows it: each object is named by the visit in which its call was made.
    pub by_visits: State,
    /// The same, with each object named by the slot of its call. Of two that came from one slot, in two turns of a loop, one is here.
    pub by_slots: State,
}

/// What is known at the visit that the walk over a program can't make, since the rule of its slot refuses it; nothing where there is none.
///
/// # Errors
/// It fails only where an allocation fails.
pub fn known_at_end(
    alloc: Global,
    program: &Program,
    decl: Decl,
    kinds: &[KindRow],
) -> Result<Option<Known>, AllocError>
    requires { AreRows kinds.now }
    ensures { IfOk result (λ found. IfSome found (IsKnownRefused program.now decl kinds.now)) }
{
    let back = back_edges(alloc, program)?;
    let looping = Looping {
        program,
        back: &back,
        decl,
        kinds,
    };
    let visits = walked(alloc, looping, MAX_SLOTS)?.visits;
    let mut walk = walked(alloc, looping, visits.len())?;
    match walk.queue.take(&back) {
        Some((slot, pending)) => refused_at(alloc, looping, slot, pending.state, &visits),
        None => Ok(None),
    }
}

// What is known, if the rule of a slot refuses it.
fn refused_at(
    alloc: Global,
    looping: Looping<'_>,
    slot: usize,
    state: State,
    visits: &[Visit],
) -> Result<Option<Known>, AllocError>
    requires few { length looping.kinds.now ≤ 8 }
    ensures { IfOk result (λ found. IfSome found (IsKnownRefused looping.entry.program.now looping.entry.decl looping.entry.kinds.now)) }
{
    if slot >= looping.program.slots() {
        return Ok(None);
    }
    let Some(insn) = looping.program.at(slot) else {
        return Ok(None);
    };
    let tried = state.copy()?;
    match sent_by(alloc, insn, looping.decl, looping.kinds, slot, tried) {
        Ok(_) => Ok(None),
        Err(VerifyFault::Refused { slot: _, code }) => {
            let by_slots = named_by_slots(&state, visits)?;
            Ok(Some(Known {
                slot: slot as u16,
                code,
                by_visits: state,
                by_slots,
            }))
        }
        Err(VerifyFault::NoMemory) => Err(AllocError),
    }
}

// The walk after that many visits, or after all that it makes.
fn walked(alloc: Global, looping: Looping<'_>, most: usize) -> Result<Walk, AllocError>
    requires few { length looping.kinds.now ≤ 8 }
{
    let mut walk = Walk::new(alloc, looping.program)?;
    match go_through(alloc, &mut walk, looping, most.min(MAX_SLOTS)) {
        Err(UnrollFault::NoMemory) => Err(AllocError),
        _ => Ok(walk),
    }
}

// A state in which each call has its slot for a name, where the walk names it by its visit.
fn named_by_slots(known: &State, visits: &[Visit]) -> Result<State, AllocError> {
    let mut named = known.copy()?;
    for reference in known.references() {
        named.forget(reference.call);
    }
    name_references(&mut named, known, visits)?;
    for register in &REGISTERS {
        named.set(*register, named_value(known.reg(*register), visits));
    }
    name_words(&mut named, known, visits)?;
    Ok(named)
}

// Holds the references of another state by the slots of their calls.
fn name_references(named: &mut State, known: &State, visits: &[Visit]) -> Result<(), AllocError> {
    for reference in known.references() {
        let call = slot_of(reference.call, visits);
        if named.kind(call).is_none() {
            named.hold(call, reference.kind)?;
            if reference.tested {
                named.settle(call, false);
            }
        }
    }
    Ok(())
}

// Spills what another state has spilled, by the slots of the calls.
fn name_words(named: &mut State, known: &State, visits: &[Visit]) -> Result<(), AllocError> {
    for number in 0..WORDS {
        if let Word::Spill(value) = known.word(number) {
            let offset = number as i64 * 8 - 512;
            if let Err(StoreFault::NoMemory) = named.store(
                Size::D,
                offset,
                named_value(value, visits),
            ) {
                return Err(AllocError);
            }
        }
    }
    Ok(())
}

// A value whose call has its slot for a name.
fn named_value(value: Abs, visits: &[Visit]) -> Abs {
    match value {
        Abs::Ob(call, low, high) => Abs::Ob(slot_of(call, visits), low, high),
        Abs::May(call) => Abs::May(slot_of(call, visits)),
        other => other,
    }
}

// The slot of the visit that a call is named by.
fn slot_of(call: u16, visits: &[Visit]) -> u16 {
    match visits.get(call as usize) {
        Some(visit) => u16::try_from(visit.slot).unwrap_or(call),
        None => call,
    }
}
