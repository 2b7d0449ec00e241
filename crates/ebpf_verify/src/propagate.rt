//! What is known after an instruction, sent along its edges.

ghost use Rattle.std.specs.Prelude.{◌≡◌, ◌<◌, ◌≤◌, true, if◌then◌else◌, IfSome, IfErr, OnOk, IsSome, Some, None, length};
ghost use Rattle.ebpf_insn.specs.declared.program.TheConstants.{MAX_SLOTS};
ghost use Rattle.ebpf_insn.specs.declared.register.Reg.{Reg};
ghost use Rattle.ebpf_range.specs.Refinements.{refinement};
ghost use Rattle.ebpf_state.specs.References.{settled};
ghost use Rattle.ebpf_state.specs.States.{register_of, with_register};
ghost use Rattle.ebpf_verify.specs.Branches.{operand, with_operands, is_null_where, after_branch};
ghost use Rattle.ebpf_verify.specs.Operations.{alu_refusal, result_of};
ghost use Rattle.ebpf_verify.specs.Rules.{Acts, exit_refusal, refusal_of_branch, refusal, after_operation, after_fall, after_jump};
ghost use Rattle.ebpf_verify.specs.Verdict.{IsSlotFault};
ghost use Rattle.ebpf_verify.specs.Entry.{with_sent, ChangesEach, Sends, SendsBoth};

use crate::branches::{Branch, compared, is_null_where, null_test, operand, set_operands};
use crate::calls::call;
use crate::decl::Decl;
use crate::entry::EntryState;
use crate::fault::{VerifyFault, refused_at};
use crate::memory::{Store, store_value};
use crate::rules::{compute, exit_refusal, operation};
use ebpf_flow::edges::Edges;
use ebpf_insn::insn::{AluOp, Cond, Insn, Source, Width};
use ebpf_insn::register::Reg;
use ebpf_range::branches::refine;
use ebpf_range::range::Range;
use ebpf_state::kinds::KindRow;
use ebpf_state::state::State;
use std::alloc::AllocError;

/// Asks the rule of an instruction. It refuses what is known before the instruction, or sends what is known after it along
/// its edges, where each joins what came to its entry before.
///
/// The edges and the slot are whatever the caller says, not those of a program. `edges` has the numbers of the entries that the
/// instruction leads to, and `slot` names the object that a call is granted, and what a fault refuses. So a walk may come to an
/// instruction more than once, with another number each time.
///
/// # Errors
/// `Refused` with that slot and the first code that refuses what is known; `NoMemory` where an allocation fails. What the entries
/// are then isn't said.
pub fn pass_on(
    decl: Decl,
    kinds: &[KindRow],
    insn: &Insn,
    slot: usize,
    mut state: State,
    edges: Edges,
    entries: &mut Vec<EntryState>,
) -> Result<(), VerifyFault>
    requires inside { slot < MAX_SLOTS }
    requires few { length kinds.now ≤ 8 }
    requires fall { IfSome edges.fall (λ to. to < length entries.old.items) }
    requires jump { IfSome edges.jump (λ to. to < length entries.old.items) }
    ensures len { length entries.new.items ≡ length entries.old.items }
    ensures fine { OnOk result (refusal decl kinds.now insn.now state ≡ None) }
    ensures sent { OnOk result (ChangesEach entries.old.items entries.new.items (λ t. with_sent (Some insn.now) edges slot t (EntryState.Known state))) }
    ensures refused { IfErr result (IsSlotFault slot (refusal decl kinds.now insn.now state)) }
{
    match *insn {
        Insn::Jump { .. } | Insn::JumpFar { .. } => send(entries, edges.jump, state),
        Insn::Branch {
            width,
            cond,
            left,
            right,
            ..
        } => {
            let branch = Branch::new(width, cond, left, right);
            branch_on(branch, slot, state, edges, entries)?;
        }
        Insn::Exit => exit_at(slot, &state)?,
        _ => {
            act(decl, kinds, insn, slot, &mut state)?;
            send(entries, edges.fall, state);
        }
    }
    Ok(())
}

/// Says in the state what is known after arithmetic with a second operand, or says why that is refused.
#[inline(always)]
pub(crate) fn compute_at(
    width: Width,
    op: AluOp,
    dst: Reg,
    src: &Source,
    slot: usize,
    state: &mut State,
) -> Result<(), VerifyFault>
    requires { slot < MAX_SLOTS }
    ensures fine { OnOk result (alu_refusal width op (register_of state.old dst) (operand state.old width src.now) dst ≡ None) }
    ensures known { OnOk result (state.new ≡ with_register state.old dst (result_of width op (register_of state.old dst) (operand state.old width src.now))) }
    ensures refused { IfErr result (IsSlotFault slot (alu_refusal width op (register_of state.old dst) (operand state.old width src.now) dst)) }
{
    match compute(width, op, dst, src, state) {
        Ok(()) => Ok(()),
        Err(code) => Err(refused_at(slot, code)),
    }
}

// Says in the state what is known after an instruction that goes to the slot after it alone, or says why that is refused.
fn act(
    decl: Decl,
    kinds: &[KindRow],
    insn: &Insn,
    slot: usize,
    state: &mut State,
) -> Result<(), VerifyFault>
    requires inside { slot < MAX_SLOTS }
    requires few { length kinds.now ≤ 8 }
    requires acts { Acts insn.now }
    ensures fine { OnOk result (refusal decl kinds.now insn.now state.old ≡ None) }
    ensures known { OnOk result (after_fall slot insn.now state.old ≡ Some state.new) }
    ensures straight { OnOk result (after_jump insn.now state.old ≡ None) }
    ensures refused { IfErr result (IsSlotFault slot (refusal decl kinds.now insn.now state.old)) }
{
    match *insn {
        Insn::Store {
            size,
            base,
            offset,
            src,
        } => store_value(kinds, Store::new(size, base, offset, src), slot, state),
        Insn::Call { number } => call(decl, kinds, number, slot, state),
        _ => operate(decl, kinds, insn, slot, state),
    }
}

// Nothing goes on from an exit.
fn exit_at(slot: usize, state: &State) -> Result<(), VerifyFault>
    requires { slot < MAX_SLOTS }
    ensures fine { OnOk result (exit_refusal (register_of state.now Reg.R0) (length state.now.held) ≡ None) }
    ensures refused { IfErr result (IsSlotFault slot (exit_refusal (register_of state.now Reg.R0) (length state.now.held))) }
{
    match exit_refusal(state.reg(Reg::R0), state.held()) {
        Some(code) => Err(refused_at(slot, code)),
        None => Ok(()),
    }
}

// Says in the state what is known after an arithmetic instruction or a load, or says why that is refused.
fn operate(
    decl: Decl,
    kinds: &[KindRow],
    insn: &Insn,
    slot: usize,
    state: &mut State,
) -> Result<(), VerifyFault>
    requires inside { slot < MAX_SLOTS }
    requires writes { IsSome (after_operation insn.now state.old) }
    ensures fine { OnOk result (refusal decl kinds.now insn.now state.old ≡ None) }
    ensures known { OnOk result (after_operation insn.now state.old ≡ Some state.new) }
    ensures refused { IfErr result (IsSlotFault slot (refusal decl kinds.now insn.now state.old)) }
{
    if let Insn::Alu {
        width,
        op,
        dst,
        src,
    } = insn
    {
        return compute_at(*width, *op, *dst, src, slot, state);
    }
    match operation(decl, kinds, insn, state) {
        Ok((dst, value)) => {
            state.set(dst, value);
            Ok(())
        }
        Err(code) => Err(refused_at(slot, code)),
    }
}

// Sends what is known along both edges of a branch.
fn branch_on(
    branch: Branch,
    slot: usize,
    state: State,
    edges: Edges,
    entries: &mut Vec<EntryState>,
) -> Result<(), VerifyFault>
    requires inside { slot < MAX_SLOTS }
    requires fall { IfSome edges.fall (λ to. to < length entries.old.items) }
    requires jump { IfSome edges.jump (λ to. to < length entries.old.items) }
    ensures len { length entries.new.items ≡ length entries.old.items }
    ensures fine { OnOk result (refusal_of_branch branch.cond branch.width branch.left branch.right state ≡ None) }
    ensures sent { OnOk result (SendsBoth entries.old.items entries.new.items edges
        (λ taken. after_branch branch.cond branch.width branch.left branch.right taken state)) }
    ensures refused { IfErr result (IsSlotFault slot (refusal_of_branch branch.cond branch.width branch.left branch.right state)) }
{
    let left = state.reg(branch.left);
    if let Some(call) = null_test(branch.width, branch.cond, left, branch.right) {
        settle_on(call, branch.cond, state, edges, entries)?;
        return Ok(());
    }
    let right = operand(&state, branch.width, branch.right);
    match compared(left, right) {
        Ok((a, b)) => {
            refine_on(branch, a, b, state, edges, entries)?;
            Ok(())
        }
        Err(code) => Err(refused_at(slot, code)),
    }
}

// Sends along each edge of a null test whether the answer of the call is null there. It is kept apart from what most slots do.
#[inline(never)]
fn settle_on(
    call: u16,
    cond: Cond,
    mut state: State,
    edges: Edges,
    entries: &mut Vec<EntryState>,
) -> Result<(), AllocError>
    requires fall { IfSome edges.fall (λ to. to < length entries.old.items) }
    requires jump { IfSome edges.jump (λ to. to < length entries.old.items) }
    ensures len { length entries.new.items ≡ length entries.old.items }
    ensures sent { OnOk result (SendsBoth entries.old.items entries.new.items edges (λ taken. Some (settled call (is_null_where cond taken) state))) }
{
    let mut taken = state.copy()?;
    taken.settle(call, is_null_where(cond, true));
    send(entries, edges.jump, taken);
    state.settle(call, is_null_where(cond, false));
    send(entries, edges.fall, state);
    Ok(())
}

// Sends along each edge of a comparison of two numbers what is known of both there.
fn refine_on(
    branch: Branch,
    a: Range,
    b: Range,
    mut state: State,
    edges: Edges,
    entries: &mut Vec<EntryState>,
) -> Result<(), AllocError>
    requires fall { IfSome edges.fall (λ to. to < length entries.old.items) }
    requires jump { IfSome edges.jump (λ to. to < length entries.old.items) }
    ensures len { length entries.new.items ≡ length entries.old.items }
    ensures sent { OnOk result (SendsBoth entries.old.items entries.new.items edges
        (λ taken. with_operands branch.left branch.right (refinement branch.cond branch.width a b taken) state)) }
{
    let taken = refine(branch.cond, branch.width, a, b, true);
    let passed = refine(branch.cond, branch.width, a, b, false);
    match (taken, passed) {
        (Some(taken), Some(passed)) => send_both(branch, taken, passed, state, edges, entries)?,
        (Some(known), None) => {
            set_operands(&mut state, branch.left, branch.right, known);
            send(entries, edges.jump, state);
        }
        (None, Some(known)) => {
            set_operands(&mut state, branch.left, branch.right, known);
            send(entries, edges.fall, state);
        }
        (None, None) => {}
    }
    Ok(())
}

// Sends a state along both edges of a comparison. What goes first is copied where nothing came to its slot before, and what goes
// last never is; so the edge to a slot that was reached goes first.
fn send_both(
    branch: Branch,
    taken: (Range, Range),
    passed: (Range, Range),
    mut state: State,
    edges: Edges,
    entries: &mut Vec<EntryState>,
) -> Result<(), AllocError>
    requires fall { IfSome edges.fall (λ to. to < length entries.old.items) }
    requires jump { IfSome edges.jump (λ to. to < length entries.old.items) }
    ensures len { length entries.new.items ≡ length entries.old.items }
    ensures sent { OnOk result (SendsBoth entries.old.items entries.new.items edges
        (λ way. with_operands branch.left branch.right (Some (if way then taken else passed)) state)) }
{
    if fall_goes_first(edges, entries) {
        set_operands(&mut state, branch.left, branch.right, passed);
        add(entries, edges.fall, &state)?;
        set_operands(&mut state, branch.left, branch.right, taken);
        send(entries, edges.jump, state);
    } else {
        set_operands(&mut state, branch.left, branch.right, taken);
        add(entries, edges.jump, &state)?;
        set_operands(&mut state, branch.left, branch.right, passed);
        send(entries, edges.fall, state);
    }
    Ok(())
}

// Whether something came to the slot after a branch before, and that is not its target.
fn fall_goes_first(edges: Edges, entries: &[EntryState]) -> bool
    requires { IfSome edges.fall (λ to. to < length entries.now) }
    ensures { result ≡ true → IfSome edges.fall (λ to. IfSome edges.jump (λ target. (to ≡ target) → ⊥)) }
{
    match (edges.fall, edges.jump) {
        (Some(fall), Some(jump)) => fall != jump && entries[fall as usize].is_reached(),
        _ => false,
    }
}

/// Sends a state along an edge. Where nothing came to its target that is two stores, so it is in each caller.
#[inline(always)]
pub(crate) fn send(entries: &mut Vec<EntryState>, edge: Option<u16>, state: State)
    requires { IfSome edge (λ to. to < length entries.old.items) }
    ensures len { length entries.new.items ≡ length entries.old.items }
    ensures sent { Sends entries.old.items entries.new.items edge (Some state) }
{
    if let Some(to) = edge {
        entries[to as usize].take(state);
    }
}

// Sends what a state says along an edge, and keeps the state.
#[inline(always)]
fn add(entries: &mut Vec<EntryState>, edge: Option<u16>, state: &State) -> Result<(), AllocError>
    requires { IfSome edge (λ to. to < length entries.old.items) }
    ensures len { length entries.new.items ≡ length entries.old.items }
    ensures sent { OnOk result (Sends entries.old.items entries.new.items edge (Some state.now)) }
{
    if let Some(to) = edge {
        entries[to as usize].add(state)?;
    }
    Ok(())
}
