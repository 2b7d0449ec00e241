//! The search for what is reached, and for some order of it.
//!
//! It goes from slot 0 along the edges, at each instruction first along the jump and then along the fall, and back where all that
//! an instruction leads to was done. The path is the way from slot 0 to where it is. An instruction goes into the order when the
//! search leaves it, after all that it leads to; so the order is read from its end. An edge to an instruction on the path closes a
//! loop. That there is such an order is what `placing` needs to make that of the new program.

ghost use Rattle.std.specs.Prelude.{◌≡◌, ◌≤◌, ◌<◌, ◌+◌, ◌-◌, ◌++◌, [], ◌∷◌, ℕ, Option, Some, None, length, slice_get, slice_set};
ghost use Rattle.std.specs.Prelude.{IfOk, IfErr, IfSome, OnOk, take, is_none, true, false};
ghost use Rattle.ebpf_insn.specs.declared.program.TheConstants.{MAX_SLOTS};
ghost use Rattle.ebpf_insn.specs.Program.{insn_at};
ghost use Rattle.ebpf_flow.specs.Edges.{edges_at};
ghost use Rattle.ebpf_layout.specs.declared.mark.Mark.{Mark};
ghost use Rattle.ebpf_layout.specs.declared.fault.LayoutFault.{LayoutFault};
ghost use Rattle.ebpf_layout.specs.Paths.{IsEdge};
ghost use Rattle.ebpf_layout.specs.Refusal.{IsLayoutFault};
ghost use Rattle.ebpf_layout.specs.Search.{ClosesLoop, IsSearch, IsOrder, IsDone, left, mark_at, standing};

use crate::edges::{fall_from, jump_from};
use crate::fault::LayoutFault;
use crate::mark::Mark;
use ebpf_insn::program::Program;
use std::alloc::{AllocError, Global};

/// The reached instructions in an order in which all that one leads to comes earlier.
#[derive(Drop)]
pub(crate) struct Order {
    /// The slots at which they begin. Slot 0 is the last.
    pub(crate) slots: Vec<usize>,
    /// For each slot of the program its number in the order, if it has one.
    pub(crate) marks: Vec<Mark>,
}

// A search on its way.
#[derive(Drop)]
struct Search {
    marks: Vec<Mark>,
    // From slot 0 to where the search is.
    path: Vec<usize>,
    // What it has left.
    order: Vec<usize>,
}

/// An order of what is reached.
///
/// # Errors
/// `Loop` where there is none; `NoMemory`.
pub(crate) fn order_of(alloc: Global, program: &Program) -> Result<Order, LayoutFault>
    ensures ordered { IfOk result (λ o. IsOrder program.now o.marks.items o.slots.items) }
    ensures refused { IfErr result (IsLayoutFault program.now) }
{
    let mut search = begin(alloc, program)?;
    while let Some(slot) = last(&search) {
        step(&mut search, program, slot)?;
    }
    let Search {
        marks,
        path: _,
        order,
    } = search;
    Ok(Order {
        slots: order,
        marks,
    })
}

// The search at its first instruction.
fn begin(alloc: Global, program: &Program) -> Result<Search, LayoutFault>
    ensures begun { IfOk result (λ s. IsSearch program.now s.marks.items s.path.items s.order.items) }
    ensures refused { IfErr result (λ e. e ≡ LayoutFault.NoMemory) }
{
    let slots = program.slots();
    let mut search = Search {
        marks: vec![in alloc; Mark::New; slots]?,
        path: Vec::with_capacity(alloc, slots)?,
        order: Vec::with_capacity(alloc, slots)?,
    };
    enter(&mut search, 0)?;
    Ok(search)
}

// Where the search is.
fn last(search: &Search) -> Option<usize>
    ensures { result ≡ slice_get search.now.path.items (length search.now.path.items - 1) }
{
    search.path.last().copied()
}

// Goes on to the first instruction that this one leads to and that is new, or else leaves it.
fn step(search: &mut Search, program: &Program, slot: usize) -> Result<(), LayoutFault>
    requires so_far { IsSearch program.now search.old.marks.items search.old.path.items search.old.order.items }
    requires last { slice_get search.old.path.items (length search.old.path.items - 1) ≡ Some slot }
    ensures so_far { OnOk result (IsSearch program.now search.new.marks.items search.new.path.items search.new.order.items) }
    ensures smaller { OnOk result (left search.new.marks.items < left search.old.marks.items) }
    ensures refused { IfErr result (IsLayoutFault program.now) }
{
    let jump = jump_from(program, slot);
    if follow(search, program, slot, jump)? {
        return Ok(());
    }
    let fall = fall_from(program, slot);
    if follow(search, program, slot, fall)? {
        return Ok(());
    }
    leave(search, slot)?;
    Ok(())
}

// Goes on along an edge, if what it leads to is new, and says whether it is.
fn follow(
    search: &mut Search,
    program: &Program,
    slot: usize,
    edge: Option<usize>,
) -> Result<bool, LayoutFault>
    requires so_far { IsSearch program.now search.old.marks.items search.old.path.items search.old.order.items }
    requires last { slice_get search.old.path.items (length search.old.path.items - 1) ≡ Some slot }
    requires edge { IfSome edge (λ to. IsEdge program.now slot to × (is_none (insn_at program.now to) ≡ false)) }
    ensures so_far { IfOk result (λ on. on ≡ true → IsSearch program.now search.new.marks.items search.new.path.items search.new.order.items) }
    ensures smaller { IfOk result (λ on. on ≡ true → left search.new.marks.items < left search.old.marks.items) }
    ensures same { IfOk result (λ on. on ≡ false → search.new ≡ search.old) }
    ensures done { IfOk result (λ on. on ≡ false → IfSome edge (λ to. IsDone (mark_at search.old.marks.items to))) }
    ensures refused { IfErr result (IsLayoutFault program.now) }
{
    match new_slot(search, slot, edge)? {
        Some(to) => {
            enter(search, to)?;
            Ok(true)
        }
        None => Ok(false),
    }
}

// The slot that an edge leads to, if the search has not come to it. An edge to a slot on the path closes a loop.
fn new_slot(search: &Search, from: usize, edge: Option<usize>) -> Result<Option<usize>, LayoutFault>
    requires few { length search.now.marks.items ≤ MAX_SLOTS }
    requires from { from < length search.now.marks.items }
    requires inside { IfSome edge (λ to. to < length search.now.marks.items) }
    ensures found { IfOk result (λ found. IfSome found (λ to. (edge ≡ Some to) × (mark_at search.now.marks.items to ≡ Mark.New))) }
    ensures none { IfOk result (λ found. found ≡ None → IfSome edge (λ to. IsDone (mark_at search.now.marks.items to))) }
    ensures closes { IfErr result (ClosesLoop search.now.marks.items from edge) }
{
    let Some(to) = edge else {
        return Ok(None);
    };
    match search.marks[to] {
        Mark::New => Ok(Some(to)),
        Mark::Open(_) => Err(LayoutFault::Loop {
            from: from as u16,
            to: to as u16,
        }),
        Mark::Done(_) => Ok(None),
    }
}

// Goes on to an instruction.
fn enter(search: &mut Search, to: usize) -> Result<(), AllocError>
    requires { to < length search.old.marks.items }
    ensures marks { OnOk result (search.new.marks.items ≡ slice_set search.old.marks.items to (Mark.Open (length search.old.path.items))) }
    ensures path { OnOk result (search.new.path.items ≡ search.old.path.items ++ to ∷ []) }
    ensures order { OnOk result (search.new.order.items ≡ search.old.order.items) }
{
    search.marks[to] = Mark::Open(search.path.len());
    search.path.push(to)?;
    Ok(())
}

// Leaves an instruction, and goes back to the one before it on the path.
fn leave(search: &mut Search, slot: usize) -> Result<(), AllocError>
    requires { slot < length search.old.marks.items }
    ensures marks { OnOk result (search.new.marks.items ≡ slice_set search.old.marks.items slot (Mark.Done (length search.old.order.items))) }
    ensures path { OnOk result (search.new.path.items ≡ take (length search.old.path.items - 1) search.old.path.items) }
    ensures order { OnOk result (search.new.order.items ≡ search.old.order.items ++ slot ∷ []) }
{
    let _ = search.path.pop();
    search.marks[slot] = Mark::Done(search.order.len());
    search.order.push(slot)?;
    Ok(())
}
