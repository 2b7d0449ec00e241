//! The edges that leave an instruction.

ghost use Rattle.std.specs.Prelude.{◌≡◌, ◌≤◌, ◌<◌, ◌+◌, ℕ, ℤ, pos, negsuc, ◌+ℤ◌, ◌≤ℤ◌, Option, Some, None, length};
ghost use Rattle.std.specs.Prelude.{IfOk, IfErr, IfSome, MatchResult, MatchOption, OnOk, false, true};
ghost use Rattle.ebpf_insn.specs.declared.program.TheConstants.{MAX_SLOTS};
ghost use Rattle.ebpf_insn.specs.Program.{insn_at, slots_in};
ghost use Rattle.ebpf_insn.specs.Encoding.{IsWellFormed};
ghost use Rattle.ebpf_flow.specs.Edges.{falls, displacement_of, fall_of, jump_of, target_of, edges_of, is_reached};
ghost use Rattle.ebpf_flow.specs.Flow.{jump_fault, fall_fault, insn_fault, LeadsForward};

use crate::fault::FlowCode;
use ebpf_insn::insn::Insn;
use ebpf_insn::program::Program;

/// Where an instruction leads: the slot after it, the target of its jump, both, or for an exit neither.
#[derive(Clone, Copy)]
pub struct Edges {
    /// The slot after the instruction, unless it is a jump without condition or an exit.
    pub fall: Option<u16>,
    /// The slot that a jump or a branch leads to.
    pub jump: Option<u16>,
}

// The edges that leave the instruction at a slot, or the first code that refuses it.
#[inline(always)]
pub(crate) fn edges_from(
    program: &Program,
    slot: usize,
    insn: Insn,
    reaches: bool,
) -> Result<Edges, FlowCode>
    requires inside { slot < length program.now }
    requires here { insn_at program.now slot ≡ Some insn }
    requires reached { reaches ≡ is_reached program.now slot }
    ensures fine { OnOk result (insn_fault program.now slot (Some insn) ≡ None) }
    ensures edges { IfOk result (λ e. e ≡ edges_of (Some insn) slot) }
    ensures fall { IfOk result (λ e. LeadsForward program.now slot e.fall) }
    ensures jump { IfOk result (λ e. LeadsForward program.now slot e.jump) }
    ensures refused { IfErr result (λ code. insn_fault program.now slot (Some insn) ≡ Some code) }
{
    // Arithmetic, which most instructions are, takes one slot and goes on to the next.
    if let Insn::Alu { .. } = insn {
        let fall = fall_from(program, slot, insn, reaches)?;
        return Ok(Edges { fall, jump: None });
    }
    let Some(displacement) = displacement_of(insn) else {
        let fall = fall_from(program, slot, insn, reaches)?;
        return Ok(Edges { fall, jump: None });
    };
    let jump = Some(target_from(program, slot, displacement)?);
    let fall = fall_from(program, slot, insn, reaches)?;
    Ok(Edges { fall, jump })
}

/// How many slots past the next one an instruction may jump, forward or back; none where it doesn't jump (RFC 9669, section 4.3).
#[inline(always)]
pub fn displacement_of(insn: Insn) -> Option<i64>
    ensures value { result ≡ displacement_of insn }
    ensures low { IfSome result (λ z. negsuc 2147483647 ≤ℤ z) }
    ensures high { IfSome result (λ z. z ≤ℤ pos 2147483647) }
{
    match insn {
        Insn::Jump { offset } => Some(offset as i64),
        Insn::JumpFar { offset } => Some(offset as i64),
        Insn::Branch { offset, .. } => Some(offset as i64),
        _ => None,
    }
}

/// The slot that a jump by n slots leads to, whether something is there or not; none below slot 0.
#[inline(always)]
pub fn target_of(slot: usize, displacement: i64) -> Option<usize>
    requires few { slot < MAX_SLOTS }
    requires low { negsuc 2147483647 ≤ℤ displacement }
    requires high { displacement ≤ℤ pos 2147483647 }
    ensures { result ≡ target_of (Some displacement) slot }
{
    let to = slot as i64 + 1 + displacement;
    if to < 0 { None } else { Some(to as usize) }
}

/// The slot that the jump of an instruction leads to, whether something is there or not; none below slot 0.
pub fn jump_of(insn: Insn, slot: usize) -> Option<usize>
    requires { slot < MAX_SLOTS }
    ensures { result ≡ jump_of insn slot }
{
    match displacement_of(insn) {
        Some(displacement) => target_of(slot, displacement),
        None => None,
    }
}

/// The slot that an instruction goes on to, whether something is there or not.
pub fn fall_of(insn: Insn, slot: usize) -> Option<usize>
    requires { slot < MAX_SLOTS }
    ensures { result ≡ fall_of insn slot }
{
    if falls(insn) {
        Some(slot + insn.slots())
    } else {
        None
    }
}

// The target of a jump by n slots, or the first code that refuses it.
#[inline(always)]
fn target_from(program: &Program, slot: usize, displacement: i64) -> Result<u16, FlowCode>
    requires inside { slot < length program.now }
    requires low { negsuc 2147483647 ≤ℤ displacement }
    requires high { displacement ≤ℤ pos 2147483647 }
    ensures fine { OnOk result (jump_fault program.now slot (Some displacement) (target_of (Some displacement) slot) ≡ None) }
    ensures edge { IfOk result (λ to. target_of (Some displacement) slot ≡ Some to) }
    ensures forward { IfOk result (λ to. LeadsForward program.now slot (Some to)) }
    ensures refused { IfErr result (λ code. jump_fault program.now slot (Some displacement) (target_of (Some displacement) slot) ≡ Some code) }
{
    let slots = program.slots();
    let Some(to) = target_of(slot, displacement) else {
        return Err(FlowCode::JumpOutside);
    };
    if to >= slots {
        return Err(FlowCode::JumpOutside);
    }
    if program.at(to).is_none() {
        return Err(FlowCode::JumpIntoWide);
    }
    if to <= slot {
        return Err(FlowCode::JumpBackward);
    }
    Ok(to as u16)
}

// The slot after the instruction, or the first code that refuses going on.
#[inline(always)]
fn fall_from(
    program: &Program,
    slot: usize,
    insn: Insn,
    reaches: bool,
) -> Result<Option<u16>, FlowCode>
    requires inside { slot < length program.now }
    requires here { insn_at program.now slot ≡ Some insn }
    requires reached { reaches ≡ is_reached program.now slot }
    ensures fine { OnOk result (fall_fault program.now slot insn ≡ None) }
    ensures edge { IfOk result (λ e. e ≡ fall_of insn slot) }
    ensures forward { IfOk result (LeadsForward program.now slot) }
    ensures refused { IfErr result (λ code. fall_fault program.now slot insn ≡ Some code) }
{
    let slots = program.slots();
    let falls = falls(insn);
    let next = slot + insn.slots();
    if falls && next >= slots {
        return Err(FlowCode::FallsOffEnd);
    }
    if !reaches {
        return Err(FlowCode::Unreachable);
    }
    if falls {
        Ok(Some(next as u16))
    } else {
        Ok(None)
    }
}

/// The instruction goes on to the slot after it, or may: all do but a jump without condition and an exit.
#[inline(always)]
pub fn falls(insn: Insn) -> bool
    ensures { result ≡ falls insn }
{
    match insn {
        Insn::Jump { .. } | Insn::JumpFar { .. } | Insn::Exit => false,
        _ => true,
    }
}
