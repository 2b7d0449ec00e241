//! The check of a program's flow.

ghost use Rattle.std.specs.Prelude.{◌≡◌, ◌≤◌, ◌<◌, ◌+◌, ◌||◌, ◌&&◌, ◌==◌, ℕ, ℤ, pos, ◌+ℤ◌, Option, Some};
ghost use Rattle.std.specs.Prelude.{None, length, slice_index_or, IfOk, IfErr, IfSome, OnOk, false, true};
ghost use Rattle.ebpf_insn.specs.declared.program.TheConstants.{MAX_SLOTS};
ghost use Rattle.ebpf_insn.specs.Program.{insn_at, slots_in};
ghost use Rattle.ebpf_flow.specs.declared.fault.FlowCode.{FlowCode};
ghost use Rattle.ebpf_flow.specs.Edges.{falls, displacement_of, fall_of, jump_of, edges_at, edges_of, has_edge_to, leads_to, reached_by, is_reached};
ghost use Rattle.ebpf_flow.specs.Flow.{jump_fault, flow_fault, flow_fault_at, IsFlowFault, IsFlowed, LeadsForward};

use crate::edges::{Edges, edges_from};
use crate::fault::{FlowCode, FlowFault};
use crate::flowed::Flowed;
use ebpf_insn::insn::Insn;
use ebpf_insn::program::Program;
use std::alloc::{AllocError, Global};

/// Checks where a program's instructions lead.
///
/// # Errors
/// `Bad` with the lowest slot at fault and the first code that applies there; `NoMemory` where an allocation failed. The
/// program is gone then.
pub fn check(alloc: Global, program: Program) -> Result<Flowed, FlowFault>
    ensures checked { IfOk result (λ f. f ≡ program) }
    ensures fine { OnOk result (flow_fault program ≡ None) }
    ensures refused { IfErr result (IsFlowFault program) }
{
    let edges = edges_in(alloc, &program)?;
    Ok(Flowed { program, edges })
}

// The edges that leave each slot of a program, or why its flow is refused.
pub(crate) fn edges_in(alloc: Global, program: &Program) -> Result<Vec<Edges>, FlowFault>
    ensures flowed { IfOk result (λ edges. IsFlowed program.now edges.items) }
    ensures refused { IfErr result (IsFlowFault program.now) }
{
    let slots = program.slots();
    let mut reached = first_reached(alloc, slots)?;
    let mut edges = Vec::with_capacity(alloc, slots)?;
    for slot in 0..slots {
        let leaving = check_slot(program, slot, &mut reached)?;
        edges.push_reserved(leaving);
    }
    Ok(edges)
}

// A flag for each slot: only slot 0 is reached so far.
fn first_reached(alloc: Global, slots: usize) -> Result<Vec<bool>, AllocError>
    ensures len { IfOk result (λ reached. length reached.items ≡ slots) }
    ensures first { IfOk result (λ reached. (k : ℕ) → k < slots → slice_index_or reached.items k false ≡ (k == 0)) }
{
    let mut reached = vec![in alloc; false; slots]?;
    if let Some(first) = reached.first_mut() {
        *first = true;
    }
    Ok(reached)
}

// The edges that leave a slot, or the first code that refuses it. The slots that they lead to are marked as reached.
#[inline(always)]
fn check_slot(program: &Program, slot: usize, reached: &mut Vec<bool>) -> Result<Edges, FlowFault>
    requires inside { slot < length program.now }
    requires few { length program.now ≤ MAX_SLOTS }
    requires len { length reached.old.items ≡ length program.now }
    requires here { slice_index_or reached.old.items slot false ≡ is_reached program.now slot }
    ensures len { length reached.new.items ≡ length reached.old.items }
    ensures fine { OnOk result (flow_fault_at program.now slot ≡ None) }
    ensures edges { IfOk result (λ e. e ≡ edges_at program.now slot) }
    ensures forward { IfOk result (λ e. LeadsForward program.now slot e.fall × LeadsForward program.now slot e.jump) }
    ensures marked { OnOk result ((k : ℕ) → k < length program.now → slice_index_or reached.new.items k false ≡
        ((is_reached program.now slot && has_edge_to (edges_at program.now slot) k) || slice_index_or reached.old.items k false)) }
    ensures refused { IfErr result (λ e. (code : FlowCode) × (e ≡ FlowFault.Bad slot code) × (flow_fault_at program.now slot ≡ Some code)) }
{
    let Some(insn) = program.at(slot) else {
        return Ok(Edges {
            fall: None,
            jump: None,
        });
    };
    match edges_from(program, slot, *insn, reached[slot]) {
        Ok(edges) => {
            mark(reached, edges.fall);
            mark(reached, edges.jump);
            Ok(edges)
        }
        Err(code) => Err(FlowFault::Bad {
            slot: slot as u16,
            code,
        }),
    }
}

// Marks the slot that an edge leads to as reached.
#[inline(always)]
fn mark(reached: &mut Vec<bool>, edge: Option<u16>)
    requires { IfSome edge (λ to. to < length reached.old.items) }
    ensures len { length reached.new.items ≡ length reached.old.items }
    ensures marked { (k : ℕ) → slice_index_or reached.new.items k false ≡ (leads_to edge k || slice_index_or reached.old.items k false) }
{
    if let Some(to) = edge {
        reached[to as usize] = true;
    }
}
