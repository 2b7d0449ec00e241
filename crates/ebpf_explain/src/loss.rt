//! Where the values of a register were lost that is read where it is not set, in words. Writing fails only where an allocation fails.
//!
//! *The idea.* A register that each path sets has no value where they meet, if the values don't fit. It may be read much later, so the
//! slots through which it came are followed back to where the paths met.

ghost use Rattle.std.specs.Prelude.{◌≡◌, ◌<◌, ◌++◌, length, string_bytes, IfOk, OnOk, MatchOption};
ghost use Rattle.ebpf_verify.specs.Comers.{comers};
ghost use Rattle.ebpf_verify.specs.Traced.{subject_of};
ghost use Rattle.ebpf_explain.specs.Loss.{came, back, lost_in, loss_head, loss_sentence, loss_words, losing, trail_at, unset_read};
ghost use Rattle.ebpf_explain.specs.declared.lost.Place.TheVariants.{Register};

use crate::lost::{Place, first_without, is_lost, write_apart};
use crate::reads::{first_unset, registers_read};
use ebpf_insn::insn::Insn;
use ebpf_insn::program::Program;
use ebpf_insn::register::Reg;
use ebpf_verify::comers::{Comer, comers_to};
use ebpf_verify::entry::EntryState;
use ebpf_verify::fault::VerifyCode;
use ebpf_verify::trace::Trace;
use std::alloc::{AllocError, Global};

/// A register, and the slot before which its values were lost.
#[derive(Clone, Copy)]
pub(crate) struct Loss {
    pub register: Reg,
    pub at: usize,
}

/// Where a register that has no value before a slot has lost it.
#[derive(Clone, Copy)]
pub(crate) enum Trail {
    /// Here: each path that comes has a value of it.
    Here,
    /// The path from this slot has none.
    From(u16),
    /// It never had a value, or a call unset it.
    Nowhere,
}

// The register that is read unset, if that is what a slot is refused for, and where its values were lost.
pub(crate) fn loss_of(
    alloc: Global,
    trace: &Trace,
    slot: usize,
    code: VerifyCode,
) -> Result<Option<Loss>, AllocError>
    ensures lost { IfOk result (λ o. o ≡ losing trace.now.flowed.now trace.now.entries.items slot code) }
    ensures inside { IfOk result (λ o. MatchOption o Unit (λ loss. loss.at < length trace.now.entries.items)) }
{
    let Some(register) = unset_read(trace, slot, code) else {
        return Ok(None);
    };
    match lost_in(alloc, trace, register, slot)? {
        None => Ok(None),
        Some(at) => Ok(Some(Loss { register, at })),
    }
}

// The register that is read unset.
fn unset_read(trace: &Trace, slot: usize, code: VerifyCode) -> Option<Reg>
    ensures { result ≡ unset_read trace.now.flowed.now trace.now.entries.items slot code }
{
    match (
        trace.flowed.program().at(slot),
        trace.entries.get(slot),
        code,
    ) {
        (Some(insn), Some(EntryState::Known(state)), VerifyCode::UnsetRegister) => {
            first_unset(state, registers_read(insn))
        }
        _ => None,
    }
}

// The slot before which a register lost its values: a slot, or one that it came from.
fn lost_in(
    alloc: Global,
    trace: &Trace,
    register: Reg,
    slot: usize,
) -> Result<Option<usize>, AllocError>
    ensures lost { IfOk result (λ o. o ≡ lost_in trace.now.flowed.now trace.now.entries.items register slot) }
    ensures inside { IfOk result (λ o. MatchOption o Unit (λ at. at < length trace.now.entries.items)) }
{
    let mut at = slot;
    for _step in 0..trace.entries.len() {
        match trail_at(alloc, trace, register, at)? {
            Trail::Here => return Ok(Some(at)),
            Trail::From(from) => at = from as usize,
            Trail::Nowhere => return Ok(None),
        }
    }
    Ok(None)
}

// Where a register that has no value before a slot has lost it, by what comes to the slot.
fn trail_at(alloc: Global, trace: &Trace, register: Reg, slot: usize) -> Result<Trail, AllocError>
    ensures trail { IfOk result (λ t. t ≡ trail_at trace.now.flowed.now trace.now.entries.items register slot) }
    ensures inside { IfOk result (λ t. t ≡ Trail.Here → slot < length trace.now.entries.items) }
{
    let Some(EntryState::Known(state)) = trace.entries.get(slot) else {
        return Ok(Trail::Nowhere);
    };
    let comers = comers_to(alloc, trace, slot)?;
    if comers.len() == 0 {
        return Ok(Trail::Nowhere);
    }
    let place = Place::Register(register);
    if is_lost(place, &comers, state) {
        return Ok(Trail::Here);
    }
    Ok(back(trace.flowed.program(), &comers, place))
}

// The first that comes and knows nothing of a place.
fn back(program: &Program, comers: &[Comer], place: Place) -> Trail
    ensures { result ≡ back program.now comers.now place }
{
    match first_without(place, comers) {
        None => Trail::Nowhere,
        Some(number) => match comers.get(number) {
            None => Trail::Nowhere,
            Some(comer) => came(program, comer.from),
        },
    }
}

// It comes from a slot, but a call there is what unset it.
fn came(program: &Program, from: u16) -> Trail
    ensures { result ≡ came program.now from }
{
    match program.at(from as usize) {
        Some(Insn::Call { .. }) => Trail::Nowhere,
        _ => Trail::From(from),
    }
}

/// Writes after a text that a slot reads a register whose values were lost, with two of them, and how that is mended, as a line.
pub(crate) fn write_loss(
    alloc: Global,
    text: &mut String,
    trace: &Trace,
    slot: usize,
    loss: Loss,
) -> Result<(), AllocError>
    requires inside { loss.at < length trace.now.entries.items }
    ensures { OnOk result (string_bytes text.new ≡ string_bytes text.old ++ loss_sentence slot loss (comers trace.now.flowed.now loss.at)) }
{
    let comers = comers_to(alloc, trace, loss.at)?;
    write!(text, "  slot {slot} ")?;
    write_loss_words(text, loss, &comers)?;
    text.push_str("\n")
}

// The words of that line.
fn write_loss_words(text: &mut String, loss: Loss, comers: &[Comer]) -> Result<(), AllocError>
    ensures { OnOk result (string_bytes text.new ≡ string_bytes text.old ++ loss_words loss comers.now) }
{
    write_loss_head(text, loss)?;
    write_apart(text, Place::Register(loss.register), comers)?;
    text.push_str(": set it to the same kind on each path")
}

// The register, and where its values were lost.
fn write_loss_head(text: &mut String, loss: Loss) -> Result<(), AllocError>
    ensures { OnOk result (string_bytes text.new ≡ string_bytes text.old ++ loss_head loss) }
{
    let Loss { register, at } = loss;
    write!(
        text,
        "reads r{}, which paths that meet at slot {at} set to values that do not fit,",
        register.number()
    )
}
