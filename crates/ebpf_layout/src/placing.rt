//! The order of the new program, made from its end to its start.
//!
//! An instruction may be placed once all that it leads to is. What falls to the one that was placed last goes next if it may: then the
//! two are neighbours, and no jump has to be added. Otherwise the highest slot that may goes next, so a program whose edges all lead
//! forward keeps its order. One that may is always left: the first of the search's order that isn't placed.

ghost use Rattle.std.specs.Prelude.{◌≡◌, ◌≤◌, ◌<◌, ◌-◌, ◌++◌, [], ◌∷◌, ℕ, Some, length, slice_get, slice_set};
ghost use Rattle.std.specs.Prelude.{IfOk, IfSome, OnOk, true, false};
ghost use Rattle.ebpf_insn.specs.declared.program.TheConstants.{MAX_SLOTS};
ghost use Rattle.ebpf_insn.specs.Encoding.{IsWellFormed};
ghost use Rattle.ebpf_flow.specs.Edges.{edges_at};
ghost use Rattle.ebpf_layout.specs.declared.mark.Mark.{Mark};
ghost use Rattle.ebpf_layout.specs.Placing.{is_placed, is_left, is_ready, GoesNext, IsBeforeLast, IsPlacing, AreNeighbours};
ghost use Rattle.ebpf_layout.specs.Search.{is_done, mark_at, IsOrder};

use crate::edges::{fall_from, jump_from};
use crate::mark::Mark;
use crate::search::Order;
use ebpf_insn::program::Program;
use std::alloc::{AllocError, Global};

/// What the search found, in the order of the new program.
pub(crate) fn place(alloc: Global, program: &Program, found: &Order) -> Result<Order, AllocError>
    requires { IsOrder program.now found.now.marks.items found.now.slots.items }
    ensures ordered { IfOk result (λ o. IsOrder program.now o.marks.items o.slots.items) }
    ensures neighbours { IfOk result (λ o. AreNeighbours program.now o.slots.items) }
{
    let mut order = begin(alloc, program)?;
    let mut top = program.slots();
    let mut slot = next(program, found, &order, top);
    while slot > 0 {
        push(&mut order, slot)?;
        top = lowered(found, &order, top);
        slot = next(program, found, &order, top);
    }
    push(&mut order, slot)?;
    Ok(order)
}

// The order before anything is placed.
fn begin(alloc: Global, program: &Program) -> Result<Order, AllocError>
    ensures placing { IfOk result (λ o. IsPlacing program.now o.marks.items o.slots.items) }
    ensures left { IfOk result (λ o. is_done (mark_at o.marks.items 0) ≡ false) }
{
    let slots = program.slots();
    Ok(Order {
        slots: Vec::with_capacity(alloc, slots)?,
        marks: vec![in alloc; Mark::New; slots]?,
    })
}

// The slot to be placed next, while slot 0 isn't placed. From `top` on nothing is left.
fn next(program: &Program, found: &Order, order: &Order, top: usize) -> usize
    requires found { IsOrder program.now found.now.marks.items found.now.slots.items }
    requires placing { IsPlacing program.now order.now.marks.items order.now.slots.items }
    requires left { is_done (mark_at order.now.marks.items 0) ≡ false }
    requires inside { top ≤ length program.now }
    requires above { (k : ℕ) → top ≤ k → is_left found.now.marks.items order.now.marks.items k ≡ false }
    ensures { GoesNext program.now found.now.marks.items order.now.marks.items order.now.slots.items result }
{
    if let Some(slot) = before_last(program, order) {
        if is_ready(program, found, order, slot) {
            return slot;
        }
    }
    highest(program, found, order, top)
}

// The instruction that comes right before the one that was placed last.
fn before_last(program: &Program, order: &Order) -> Option<usize>
    requires { IsPlacing program.now order.now.marks.items order.now.slots.items }
    ensures inside { IfSome result (λ k. k < length program.now) }
    ensures only { IsBeforeLast program.now order.now.slots.items result }
{
    let last = order.slots.last().copied()?;
    before(program, last)
}

// The instruction that comes right before a slot.
fn before(program: &Program, slot: usize) -> Option<usize>
    requires { IsWellFormed program.now }
    ensures lower { IfSome result (λ k. k < slot) }
    ensures only { (from : ℕ) → (edges_at program.now from).fall ≡ Some slot → result ≡ Some from }
{
    if slot == 0 {
        return None;
    }
    match program.at(slot - 1) {
        Some(_) => Some(slot - 1),
        None if slot == 1 => None,
        // That is the second half of a wide instruction.
        None => Some(slot - 2),
    }
}

// The highest slot that may be placed. From `top` on nothing is left.
fn highest(program: &Program, found: &Order, order: &Order, top: usize) -> usize
    requires few { length program.now ≤ MAX_SLOTS }
    requires inside { top ≤ length program.now }
    requires above { (k : ℕ) → top ≤ k → is_left found.now.marks.items order.now.marks.items k ≡ false }
    requires some { (k : ℕ) × (k < length program.now) × (is_ready program.now found.now.marks.items order.now.marks.items k ≡ true) }
    ensures { is_ready program.now found.now.marks.items order.now.marks.items result ≡ true }
{
    let mut slot = top;
    while slot > 0 {
        slot -= 1;
        if is_ready(program, found, order, slot) {
            return slot;
        }
    }
    unreachable!()
}

// The end of what is left to be placed, which is `top` or lower.
fn lowered(found: &Order, order: &Order, top: usize) -> usize
    requires { (k : ℕ) → top ≤ k → is_left found.now.marks.items order.now.marks.items k ≡ false }
    ensures inside { result ≤ top }
    ensures above { (k : ℕ) → result ≤ k → is_left found.now.marks.items order.now.marks.items k ≡ false }
{
    let mut end = top;
    while end > 0 && !is_left(found, order, end - 1) {
        end -= 1;
    }
    end
}

// Whether a slot may be placed: it is left, and all that it leads to is placed.
fn is_ready(program: &Program, found: &Order, order: &Order, slot: usize) -> bool
    requires { slot < MAX_SLOTS }
    ensures { result ≡ is_ready program.now found.now.marks.items order.now.marks.items slot }
{
    is_left(found, order, slot)
        && is_placed(order, jump_from(program, slot))
        && is_placed(order, fall_from(program, slot))
}

// Whether a slot that was found isn't placed.
fn is_left(found: &Order, order: &Order, slot: usize) -> bool
    ensures { result ≡ is_left found.now.marks.items order.now.marks.items slot }
{
    is_done(found, slot) && !is_done(order, slot)
}

// Whether the instruction that an edge leads to is placed, if it leads to one.
fn is_placed(order: &Order, edge: Option<usize>) -> bool
    ensures { result ≡ is_placed order.now.marks.items edge }
{
    match edge {
        Some(to) => is_done(order, to),
        None => true,
    }
}

// Whether a slot is in an order.
fn is_done(order: &Order, slot: usize) -> bool
    ensures { result ≡ is_done (mark_at order.now.marks.items slot) }
{
    matches!(order.marks.get(slot), Some(Mark::Done(_)))
}

// Places a slot.
fn push(order: &mut Order, slot: usize) -> Result<(), AllocError>
    requires { slot < length order.old.marks.items }
    ensures marks { OnOk result (order.new.marks.items ≡ slice_set order.old.marks.items slot (Mark.Done (length order.old.slots.items))) }
    ensures slots { OnOk result (order.new.slots.items ≡ order.old.slots.items ++ slot ∷ []) }
{
    order.marks[slot] = Mark::Done(order.slots.len());
    order.slots.push(slot)?;
    Ok(())
}
