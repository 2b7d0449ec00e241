//! The edges that lead to no instruction.

ghost use Rattle.std.specs.Prelude.{◌≡◌, ◌≤◌, ◌<◌, ◌+◌, ℕ, ℤ, pos, negsuc, ◌≤ℤ◌, Option, Some, None, length, slice_get};
ghost use Rattle.std.specs.Prelude.{IfErr, IfSome, OnOk, false, true};
ghost use Rattle.ebpf_insn.specs.declared.program.TheConstants.{MAX_SLOTS};
ghost use Rattle.ebpf_insn.specs.Program.{insn_at, slots_in};
ghost use Rattle.ebpf_layout.specs.Paths.{IsReached};
ghost use Rattle.ebpf_layout.specs.EdgeFaults.{edge_fault, edge_fault_at, jump_fault, fall_fault, target_fault};
ghost use Rattle.ebpf_layout.specs.Refusal.{IsLayoutFault};
ghost use Rattle.ebpf_layout.specs.Search.{IsOrder, IsDone, mark_at};
ghost use Rattle.ebpf_flow.specs.Edges.{displacement_of, target_of};

use crate::fault::LayoutFault;
use crate::mark::Mark;
use crate::search::Order;
use ebpf_flow::edges::{displacement_of, falls, target_of};
use ebpf_flow::fault::FlowCode;
use ebpf_insn::insn::Insn;
use ebpf_insn::program::Program;

// Refuses the lowest reached slot of which an edge leads to no instruction.
pub(crate) fn check_edges(program: &Program, order: &Order) -> Result<(), LayoutFault>
    requires { IsOrder program.now order.now.marks.items order.now.slots.items }
    ensures fine { OnOk result ((slot : ℕ) → IsReached program.now slot → edge_fault_at program.now slot ≡ None) }
    ensures refused { IfErr result (IsLayoutFault program.now) }
{
    for slot in 0..program.slots() {
        if let Some(code) = reached_fault(program, order, slot) {
            return Err(LayoutFault::Flow {
                slot: slot as u16,
                code,
            });
        }
    }
    Ok(())
}

// The first code of a slot, if it is reached.
fn reached_fault(program: &Program, order: &Order, slot: usize) -> Option<FlowCode>
    requires inside { slot < length program.now }
    requires few { length program.now ≤ MAX_SLOTS }
    requires all { length order.now.marks.items ≡ length program.now }
    ensures found { IfSome result (λ code. IsDone (mark_at order.now.marks.items slot) × (edge_fault_at program.now slot ≡ Some code)) }
    ensures none { result ≡ None → IsDone (mark_at order.now.marks.items slot) → edge_fault_at program.now slot ≡ None }
{
    match order.marks[slot] {
        Mark::Done(_) => edge_fault(program, slot),
        _ => None,
    }
}

/// The first code of an edge of a slot that leads to no instruction: `JumpOutside`, `JumpIntoWide` or `FallsOffEnd`.
pub fn edge_fault(program: &Program, slot: usize) -> Option<FlowCode>
    requires { slot < MAX_SLOTS }
    ensures { result ≡ edge_fault_at program.now slot }
{
    let insn = program.at(slot)?;
    match jump_fault(program, slot, displacement_of(*insn)) {
        Some(code) => Some(code),
        None => fall_fault(program, slot, *insn),
    }
}

// The code of a jump by n slots, if it is one.
fn jump_fault(program: &Program, slot: usize, displacement: Option<i64>) -> Option<FlowCode>
    requires few { slot < MAX_SLOTS }
    requires low { IfSome displacement (λ z. negsuc 2147483647 ≤ℤ z) }
    requires high { IfSome displacement (λ z. z ≤ℤ pos 2147483647) }
    ensures { result ≡ jump_fault program.now slot displacement }
{
    match displacement {
        Some(displacement) => target_fault(program, target_of(slot, displacement)),
        None => None,
    }
}

// The code of a jump to a slot.
fn target_fault(program: &Program, target: Option<usize>) -> Option<FlowCode>
    ensures { result ≡ target_fault program.now target }
{
    let Some(to) = target else {
        return Some(FlowCode::JumpOutside);
    };
    if to >= program.slots() {
        return Some(FlowCode::JumpOutside);
    }
    match program.at(to) {
        Some(_) => None,
        None => Some(FlowCode::JumpIntoWide),
    }
}

// The code of going on past the last slot.
fn fall_fault(program: &Program, slot: usize, insn: Insn) -> Option<FlowCode>
    requires { slot < MAX_SLOTS }
    ensures { result ≡ fall_fault program.now slot insn }
{
    if falls(insn) && slot + insn.slots() >= program.slots() {
        Some(FlowCode::FallsOffEnd)
    } else {
        None
    }
}
