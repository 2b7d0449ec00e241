//! The slots that begin a basic block.

ghost use Rattle.std.specs.Prelude.{◌≡◌, ◌<◌, ◌||◌, ◌&&◌, ◌==◌, ℕ, length, slice_index_or, not, is_none, IfOk, IfSome, List, Option, false};
ghost use Rattle.ebpf_insn.specs.declared.insn.Insn.{Insn};
ghost use Rattle.ebpf_flow.specs.Edges.{edges_at, has_edge_to, leads_to};
ghost use Rattle.ebpf_flow.specs.Flow.{AreForward, LeadsForward};
ghost use Rattle.ebpf_graph.specs.Blocks.{begins_at, begins_block, ends_before};

use ebpf_flow::edges::Edges;
use ebpf_flow::flowed::Flowed;
use std::alloc::{AllocError, Global};

// A block, by its first and its last slot.
#[derive(Clone, Copy)]
pub(crate) struct Block {
    pub first: usize,
    pub last: usize,
}

// A flag for each slot: whether a block begins there. It fails only where an allocation fails.
pub(crate) fn block_starts(alloc: Global, flowed: &Flowed) -> Result<Vec<bool>, AllocError>
    ensures len { IfOk result (λ begins. length begins.items ≡ length flowed.now) }
    ensures each { IfOk result (λ begins. (k : ℕ) → k < length flowed.now → slice_index_or begins.items k false ≡ begins_block flowed.now k) }
{
    let slots = flowed.program().slots();
    let mut begins = first_begins(alloc, slots)?;
    for slot in 0..slots {
        mark_edges(&mut begins, flowed.successors(slot));
    }
    Ok(begins)
}

// A flag for each slot: only slot 0 begins a block so far.
fn first_begins(alloc: Global, slots: usize) -> Result<Vec<bool>, AllocError>
    ensures len { IfOk result (λ begins. length begins.items ≡ slots) }
    ensures first { IfOk result (λ begins. (k : ℕ) → k < slots → slice_index_or begins.items k false ≡ (k == 0)) }
{
    let mut begins = vec![in alloc; false; slots]?;
    if let Some(first) = begins.first_mut() {
        *first = true;
    }
    Ok(begins)
}

// Marks where the edges of an instruction lead that jumps, or may.
fn mark_edges(begins: &mut Vec<bool>, edges: Edges)
    requires fall { IfSome edges.fall (λ to. to < length begins.old.items) }
    requires jump { IfSome edges.jump (λ to. to < length begins.old.items) }
    ensures len { length begins.new.items ≡ length begins.old.items }
    ensures marked { (k : ℕ) → slice_index_or begins.new.items k false ≡ (begins_at edges k || slice_index_or begins.old.items k false) }
{
    if edges.jump.is_some() {
        mark(begins, edges.fall);
        mark(begins, edges.jump);
    }
}

// Marks the slot that an edge leads to.
fn mark(begins: &mut Vec<bool>, edge: Option<u16>)
    requires { IfSome edge (λ to. to < length begins.old.items) }
    ensures len { length begins.new.items ≡ length begins.old.items }
    ensures marked { (k : ℕ) → slice_index_or begins.new.items k false ≡ (leads_to edge k || slice_index_or begins.old.items k false) }
{
    if let Some(to) = edge {
        begins[to as usize] = true;
    }
}

// A block ends before the slot after an instruction.
pub(crate) fn ends_before(begins: &[bool], fall: Option<u16>) -> bool
    requires { IfSome fall (λ to. to < length begins.now) }
    ensures { (p : List (Option Insn)) → ((k : ℕ) → k < length begins.now → slice_index_or begins.now k false ≡ begins_block p k) → result ≡ ends_before p fall }
{
    match fall {
        None => true,
        Some(next) => begins[next as usize],
    }
}
