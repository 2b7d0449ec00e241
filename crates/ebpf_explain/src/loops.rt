//! Whether a jump back closes a loop, or leads to a block that is only out of order.
//!
//! *The idea.* The check of the flow refuses the first slot that jumps back, so all slots before it lead forward. One pass from
//! where the jump leads, up to its own slot, marks all that is led to.

ghost use Rattle.std.specs.Prelude.{◌≡◌, ◌≤◌, ◌<◌, ◌-◌, ◌+◌, ◌&&◌, ◌||◌, ◌==◌, ℕ, false, length, slice_index_or, IfOk};
ghost use Rattle.ebpf_insn.specs.declared.program.TheConstants.{MAX_SLOTS};
ghost use Rattle.ebpf_flow.specs.Edges.{edges_at, has_edge_to, leads_to};
ghost use Rattle.ebpf_explain.specs.Loops.{closes_loop, led_by};

use ebpf_flow::edges::{fall_of, jump_of};
use ebpf_insn::insn::Insn;
use ebpf_insn::program::Program;
use std::alloc::{AllocError, Global};

// Whether a path goes forward from where an instruction jumps to, back to its own slot.
pub(crate) fn closes_loop(
    alloc: Global,
    program: &Program,
    slot: usize,
    insn: Insn,
) -> Result<bool, AllocError>
    requires { slot < MAX_SLOTS }
    ensures { IfOk result (λ b. b ≡ closes_loop program.now slot insn) }
{
    match jump_of(insn, slot) {
        Some(to) if to <= slot => is_led(alloc, program, to, slot),
        _ => Ok(false),
    }
}

// Whether a path goes forward from one slot to another.
fn is_led(alloc: Global, program: &Program, from: usize, to: usize) -> Result<bool, AllocError>
    requires forward { from ≤ to }
    requires few { to < MAX_SLOTS }
    ensures { IfOk result (λ b. b ≡ led_by program.now from (to - from) to) }
{
    let mut led = first_led(alloc, from, to + 1)?;
    for passed in 0..to - from {
        pass_on(program, from + passed, &mut led);
    }
    Ok(led[to])
}

// A mark for each slot: a path of no edge leads to where it begins, and to no other.
fn first_led(alloc: Global, from: usize, slots: usize) -> Result<Vec<bool>, AllocError>
    requires { from < slots }
    ensures len { IfOk result (λ led. length led.items ≡ slots) }
    ensures first { IfOk result (λ led. (k : ℕ) → k < slots → slice_index_or led.items k false ≡ (k == from)) }
{
    let mut led = vec![in alloc; false; slots]?;
    led[from] = true;
    Ok(led)
}

// Marks what a slot leads to, if it is marked.
fn pass_on(program: &Program, slot: usize, led: &mut Vec<bool>)
    requires few { slot < MAX_SLOTS }
    requires inside { slot < length led.old.items }
    ensures len { length led.new.items ≡ length led.old.items }
    ensures marked { (k : ℕ) → k < length led.old.items → slice_index_or led.new.items k false ≡
        ((slice_index_or led.old.items slot false && has_edge_to (edges_at program.now slot) k) || slice_index_or led.old.items k false) }
{
    if !led[slot] {
        return;
    }
    let Some(insn) = program.at(slot) else {
        return;
    };
    mark(led, jump_of(*insn, slot));
    mark(led, fall_of(*insn, slot));
}

// Marks the slot that an edge leads to, if it has a mark.
fn mark(led: &mut Vec<bool>, edge: Option<usize>)
    ensures len { length led.new.items ≡ length led.old.items }
    ensures marked { (k : ℕ) → k < length led.old.items → slice_index_or led.new.items k false ≡ (leads_to edge k || slice_index_or led.old.items k false) }
{
    if let Some(to) = edge
        && to < led.len()
    {
        led[to] = true;
    }
}
