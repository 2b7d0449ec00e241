//! The walk over a program that gives the verdict.
//!
//! *The idea.* It is an abstract interpretation. For each slot there is an entry state: what is known of the registers, the
//! stack and the held references of every run that comes there. The slots are visited once, in ascending order. A visit asks
//! the rule of the instruction whether what is known refuses it, and sends what is known afterwards along its edges, where
//! it is joined with what came there before.
//!
//! *The invariant.* After the slots below `m` were visited, the entry state of each slot from `m` on is the join of what the
//! slots below `m` send there (specs/Entry, `arrived`), and none of them is refused.
//!
//! *The reason.* All edges lead forward, since the flow was checked. So when a slot is visited, all that will ever come there
//! has come: one visit a slot is enough, there is nothing to iterate to, and the verdict takes time linear in the slots. A
//! state goes on as it is; it is copied only where a branch sends it to two slots and nothing has come to either before.

ghost use Rattle.std.specs.Prelude.{◌≡◌, ◌≤◌, ◌<◌, ℕ, IfErr, IfOk, IfSome, OnOk, None, Some, Option, length, All};
ghost use Rattle.ebpf_insn.specs.declared.insn.Insn.{Insn};
ghost use Rattle.ebpf_insn.specs.declared.program.TheConstants.{MAX_SLOTS};
ghost use Rattle.ebpf_insn.specs.Program.{insn_at};
ghost use Rattle.ebpf_flow.specs.Edges.{edges_at, leads_to};
ghost use Rattle.ebpf_flow.specs.Flow.{LeadsForward};
ghost use Rattle.ebpf_state.specs.States.{first_state};
ghost use Rattle.ebpf_verify.specs.declared.fault.VerifyCode.{VerifyCode};
ghost use Rattle.ebpf_verify.specs.declared.fault.VerifyFault.TheVariants.{NoMemory};
ghost use Rattle.ebpf_insn.specs.Faults.{lowest};
ghost use Rattle.ebpf_verify.specs.Entry.{first_entry, entry_in, after_visit, with_sent, ChangesEach};
ghost use Rattle.ebpf_verify.specs.Rules.{refusal};
ghost use Rattle.ebpf_verify.specs.Verdict.{refusal_in, verdict, IsVerifyFault, AreRows, IsSlotFault};

use crate::call_count::calls_in;
use crate::decl::Decl;
use crate::entry::EntryState;
use crate::fault::{VerifyCode, VerifyFault, refused_at};
use crate::propagate::{compute_at, pass_on, send};
use crate::verified::Verified;
use ebpf_flow::flowed::Flowed;
use ebpf_insn::insn::Insn;
use ebpf_operation::translate::operations_of;
use ebpf_state::kinds::KindRow;
use ebpf_state::state::State;
use std::alloc::{AllocError, Global};
use std::mem;

/// The verdict on a program whose flow was checked.
///
/// # Errors
/// `Refused` with the lowest slot that is refused and the first code that applies there; `NoMemory` where an
/// allocation failed. The program is gone then.
pub fn verify(
    alloc: Global,
    flowed: Flowed,
    decl: Decl,
    kinds: &[KindRow],
) -> Result<Verified, VerifyFault>
    requires { AreRows kinds.now }
    ensures accepted { IfOk result (λ v. v ≡ record { program = flowed; decl = decl; rows = kinds.now }) }
    ensures fine { OnOk result (verdict (record { program = flowed; decl = decl; rows = kinds.now }) ≡ None) }
    ensures refused { IfErr result (IsVerifyFault (record { program = flowed; decl = decl; rows = kinds.now })) }
{
    walk(alloc, &flowed, decl, kinds)?;
    Ok(accept(alloc, flowed, decl, kinds)?)
}

// Visits each slot of a program, up to one that is refused.
pub(crate) fn walk(
    alloc: Global,
    flowed: &Flowed,
    decl: Decl,
    kinds: &[KindRow],
) -> Result<(), VerifyFault>
    requires { AreRows kinds.now }
    ensures fine { OnOk result (verdict (record { program = flowed.now; decl = decl; rows = kinds.now }) ≡ None) }
    ensures refused { IfErr result (IsVerifyFault (record { program = flowed.now; decl = decl; rows = kinds.now })) }
{
    let slots = flowed.program().slots();
    let mut entries = first_entries(alloc, slots)?;
    for slot in 0..slots {
        visit(flowed, decl, kinds, slot, &mut entries)?;
    }
    Ok(())
}

// What a program of which no slot is refused is made into.
pub(crate) fn accept(
    alloc: Global,
    flowed: Flowed,
    decl: Decl,
    kinds: &[KindRow],
) -> Result<Verified, AllocError>
    requires rows { AreRows kinds.now }
    requires fine { verdict (record { program = flowed; decl = decl; rows = kinds.now }) ≡ None }
    ensures { IfOk result (λ v. v ≡ record { program = flowed; decl = decl; rows = kinds.now }) }
{
    let kept = Vec::from_slice(alloc, kinds)?;
    let operations = operations_of(alloc, &flowed)?;
    let (calls, swaps) = calls_in(flowed.program());
    Ok(Verified {
        flowed,
        decl,
        rows: kept,
        calls,
        swaps,
        operations,
    })
}

/// What is known before each slot at first: the first state comes to slot 0, and nothing to the others.
pub(crate) fn first_entries(alloc: Global, slots: usize) -> Result<Vec<EntryState>, AllocError>
    ensures len { IfOk result (λ v. length v.items ≡ slots) }
    ensures first { IfOk result (λ v. (k : ℕ) → k < slots → entry_in v.items k ≡ first_entry k) }
{
    let mut entries = Vec::with_capacity(alloc, slots)?;
    for slot in 0..slots {
        let entry = if slot == 0 {
            EntryState::Known(State::start(alloc)?)
        } else {
            EntryState::Unreached
        };
        entries.push_reserved(entry);
    }
    Ok(entries)
}

/// Takes what came to a slot, and sends it on, or says why it is refused.
#[inline(always)]
pub(crate) fn visit(
    flowed: &Flowed,
    decl: Decl,
    kinds: &[KindRow],
    slot: usize,
    entries: &mut Vec<EntryState>,
) -> Result<(), VerifyFault>
    requires inside { slot < length flowed.now }
    requires few { length kinds.now ≤ 8 }
    requires len { length entries.old.items ≡ length flowed.now }
    ensures len { length entries.new.items ≡ length entries.old.items }
    ensures fine { OnOk result (refusal_in decl kinds.now (insn_at flowed.now slot) (entry_in entries.old.items slot) ≡ None) }
    ensures sent { OnOk result ((t : ℕ) → slot < t → t < length flowed.now → entry_in entries.new.items t ≡ after_visit flowed.now slot entries.old.items t) }
    ensures refused { IfErr result (IsSlotFault slot (refusal_in decl kinds.now (insn_at flowed.now slot) (entry_in entries.old.items slot))) }
{
    let Some(insn) = flowed.program().at(slot) else {
        return match entries[slot] {
            EntryState::Conflict => Err(refused_at(slot, VerifyCode::PathsDiffer)),
            _ => Ok(()),
        };
    };
    match mem::replace(&mut entries[slot], EntryState::Unreached) {
        EntryState::Known(state) => pass_along(flowed, decl, kinds, insn, slot, state, entries),
        EntryState::Conflict => Err(refused_at(slot, VerifyCode::PathsDiffer)),
        EntryState::Unreached => Ok(()),
    }
}

// Sends what is known before the instruction at a slot on along its edges, or says why it is refused.
#[inline(always)]
fn pass_along(
    flowed: &Flowed,
    decl: Decl,
    kinds: &[KindRow],
    insn: &Insn,
    slot: usize,
    mut state: State,
    entries: &mut Vec<EntryState>,
) -> Result<(), VerifyFault>
    requires here { insn_at flowed.now slot ≡ Some insn.now }
    requires inside { slot < MAX_SLOTS }
    requires few { length kinds.now ≤ 8 }
    requires len { length entries.old.items ≡ length flowed.now }
    ensures len { length entries.new.items ≡ length entries.old.items }
    ensures fine { OnOk result (refusal decl kinds.now insn.now state ≡ None) }
    ensures sent { OnOk result (ChangesEach entries.old.items entries.new.items (λ t. with_sent (Some insn.now) (edges_at flowed.now slot) slot t (EntryState.Known state))) }
    ensures refused { IfErr result (IsSlotFault slot (refusal decl kinds.now insn.now state)) }
{
    match insn {
        // Arithmetic, which most instructions are, asks for no more than its state and where it goes on.
        Insn::Alu {
            width,
            op,
            dst,
            src,
        } => {
            compute_at(*width, *op, *dst, src, slot, &mut state)?;
            send(entries, flowed.successors(slot).fall, state);
            Ok(())
        }
        _ => {
            let edges = flowed.successors(slot);
            pass_on(decl, kinds, insn, slot, state, edges, entries)
        }
    }
}
