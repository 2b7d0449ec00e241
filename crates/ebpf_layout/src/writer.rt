//! The new program, written from its last slot to its first.
//!
//! An instruction is written once all that it leads to is, which the order sees to. So how far it is to them is known then, and stays
//! so when more is written before it.

ghost use Rattle.std.specs.Prelude.{◌≡◌, ◌≤◌, ◌<◌, ◌+◌, ◌*◌, ◌++◌, [], ◌∷◌, ℕ, pos, List, Option, Some, None, length, slice_get, slice_index_or};
ghost use Rattle.std.specs.Prelude.{IfOk, IfSome, OnOk};
ghost use Rattle.ebpf_insn.specs.declared.insn.Insn.{Insn};
ghost use Rattle.ebpf_insn.specs.Program.{insn_at, slots_in};
ghost use Rattle.ebpf_insn.specs.Encoding.{IsDefined};
ghost use Rattle.ebpf_flow.specs.Edges.{displacement_of};
ghost use Rattle.ebpf_layout.specs.EdgeFaults.{edge_fault_at};
ghost use Rattle.ebpf_layout.specs.Paths.{IsReached};
ghost use Rattle.ebpf_layout.specs.Placing.{AreNeighbours};
ghost use Rattle.ebpf_layout.specs.Search.{IsOrder};
ghost use Rattle.ebpf_layout.specs.Writing.{half_of, with_jump, HasPlace, NotesLast, WritesJump, IsPlaced, IsWayTo, IsCode, LeadsOn, IsMovedTo};
ghost use Rattle.ebpf_layout.specs.Writing.{Writes, AreWritten, IsWriting};

use crate::edges::moved;
use crate::mark::Mark;
use crate::search::Order;
use ebpf_flow::edges::{fall_of, jump_of};
use ebpf_insn::insn::Insn;
use ebpf_insn::program::Program;
use std::alloc::{AllocError, Global};

/// What is written so far.
#[derive(Drop)]
pub(crate) struct Writer {
    /// The slots of the new program, from its last to its first.
    pub(crate) code: Vec<Option<Insn>>,
    /// How many instructions these are.
    pub(crate) count: usize,
    /// Where in `code` the instructions of the order begin.
    pub(crate) places: Vec<usize>,
}

/// The slots of the new program, from its last to its first, however many they are.
pub(crate) fn write(alloc: Global, program: &Program, order: &Order) -> Result<Writer, AllocError>
    requires order { IsOrder program.now order.now.marks.items order.now.slots.items }
    requires neighbours { AreNeighbours program.now order.now.slots.items }
    requires fine { (slot : ℕ) → IsReached program.now slot → edge_fault_at program.now slot ≡ None }
    ensures written { IfOk result (λ w. IsWriting program.now order.now.slots.items w.places.items w.code.items w.count) }
    ensures all { IfOk result (λ w. length w.places.items ≡ length order.now.slots.items) }
{
    let mut writer = Writer {
        code: Vec::with_capacity(alloc, program.slots())?,
        count: 0,
        places: Vec::with_capacity(alloc, order.slots.len())?,
    };
    for slot in &order.slots {
        write_slot(&mut writer, program, order, *slot)?;
    }
    Ok(writer)
}

// Writes the next of the order.
fn write_slot(
    writer: &mut Writer,
    program: &Program,
    order: &Order,
    slot: usize,
) -> Result<(), AllocError>
    requires order { IsOrder program.now order.now.marks.items order.now.slots.items }
    requires neighbours { AreNeighbours program.now order.now.slots.items }
    requires fine { (slot : ℕ) → IsReached program.now slot → edge_fault_at program.now slot ≡ None }
    requires here { slice_get order.now.slots.items (length writer.old.places.items) ≡ Some slot }
    requires written { IsWriting program.now order.now.slots.items writer.old.places.items writer.old.code.items writer.old.count }
    ensures written { OnOk result (IsWriting program.now order.now.slots.items writer.new.places.items writer.new.code.items writer.new.count) }
    ensures all { OnOk result (length writer.new.places.items ≡ length writer.old.places.items + 1) }
{
    match program.at(slot) {
        Some(insn) => {
            let fall = fall_of(*insn, slot);
            let jump = jump_of(*insn, slot);
            write_insn(writer, order, *insn, fall, jump)?;
            Ok(())
        }
        None => unreachable!(),
    }
}

// Writes an instruction that falls and jumps to what is written already, and after it a jump to what it falls to, if that
// is elsewhere.
fn write_insn(
    writer: &mut Writer,
    order: &Order,
    insn: Insn,
    fall: Option<usize>,
    jump: Option<usize>,
) -> Result<(), AllocError>
    requires code { IsCode writer.old.code.items writer.old.count }
    requires room { length writer.old.code.items + 2 * slots_in insn ≤ 8192 }
    requires defined { IsDefined insn }
    requires fall { IfSome fall (IsPlaced order.now.marks.items writer.old.places.items writer.old.code.items) }
    requires jump { IfSome jump (IsPlaced order.now.marks.items writer.old.places.items writer.old.code.items) }
    requires jumps { jump ≡ None → displacement_of insn ≡ None }
    ensures code { OnOk result (IsCode writer.new.code.items writer.new.count) }
    ensures written { OnOk result (Writes order.now.marks.items writer.old.places.items writer.old.code.items insn fall jump writer.new.code.items) }
    ensures places { OnOk result (NotesLast writer.new.code.items writer.old.places.items writer.new.places.items) }
{
    write_fall(writer, order, fall)?;
    let moved = moved_to(writer, order, insn, jump);
    push(writer, moved)?;
    let place = writer.code.len() - 1;
    writer.places.push(place)?;
    Ok(())
}

// Writes a jump to what an instruction that is written next falls to, unless it comes right after.
fn write_fall(writer: &mut Writer, order: &Order, fall: Option<usize>) -> Result<(), AllocError>
    requires code { IsCode writer.old.code.items writer.old.count }
    requires room { length writer.old.code.items < 8192 }
    requires fall { IfSome fall (IsPlaced order.now.marks.items writer.old.places.items writer.old.code.items) }
    ensures code { OnOk result (IsCode writer.new.code.items writer.new.count) }
    ensures places { writer.new.places.items ≡ writer.old.places.items }
    ensures written { OnOk result (LeadsOn order.now.marks.items writer.old.places.items writer.old.code.items fall writer.new.code.items) }
{
    match fall {
        Some(to) => {
            let place = place_of(writer, order, to);
            write_jump(writer, place)
        }
        None => Ok(()),
    }
}

// The instruction, with the way to what it jumps to if it is written next.
fn moved_to(writer: &Writer, order: &Order, insn: Insn, jump: Option<usize>) -> Insn
    requires few { length writer.now.code.items ≤ 8192 }
    requires jump { IfSome jump (IsPlaced order.now.marks.items writer.now.places.items writer.now.code.items) }
    requires jumps { jump ≡ None → displacement_of insn ≡ None }
    ensures { IsMovedTo order.now.marks.items writer.now.places.items writer.now.code.items insn jump result }
{
    match jump {
        Some(to) => moved(insn, way_to(writer, place_of(writer, order, to))),
        None => insn,
    }
}

// Where what was at a slot is.
fn place_of(writer: &Writer, order: &Order, slot: usize) -> usize
    requires { IsPlaced order.now.marks.items writer.now.places.items writer.now.code.items slot }
    ensures has { HasPlace order.now.marks.items writer.now.places.items slot result }
    ensures inside { result < length writer.now.code.items }
{
    match order.marks[slot] {
        Mark::Done(number) => writer.places[number],
        _ => unreachable!(),
    }
}

// How many slots will lie between an instruction of one slot that is written next and a place.
fn way_to(writer: &Writer, place: usize) -> usize
    requires { place < length writer.now.code.items }
    ensures { place + result + 1 ≡ length writer.now.code.items }
{
    writer.code.len() - 1 - place
}

// Writes a jump to a place, unless what is written next comes right before it.
fn write_jump(writer: &mut Writer, place: usize) -> Result<(), AllocError>
    requires code { IsCode writer.old.code.items writer.old.count }
    requires room { length writer.old.code.items < 8192 }
    requires place { place < length writer.old.code.items }
    ensures code { OnOk result (IsCode writer.new.code.items writer.new.count) }
    ensures places { writer.new.places.items ≡ writer.old.places.items }
    ensures written { OnOk result (WritesJump writer.old.code.items place writer.new.code.items) }
{
    let way = way_to(writer, place);
    if way > 0 {
        push(writer, Insn::Jump { offset: way as i16 })?;
    }
    Ok(())
}

// Writes an instruction before all that are there.
fn push(writer: &mut Writer, insn: Insn) -> Result<(), AllocError>
    requires code { IsCode writer.old.code.items writer.old.count }
    requires room { length writer.old.code.items + slots_in insn ≤ 8192 }
    requires defined { IsDefined insn }
    ensures code { OnOk result (IsCode writer.new.code.items writer.new.count) }
    ensures places { writer.new.places.items ≡ writer.old.places.items }
    ensures written { OnOk result (writer.new.code.items ≡ writer.old.code.items ++ half_of insn ++ Some insn ∷ []) }
{
    writer.count += 1;
    push_half(&mut writer.code, insn)?;
    writer.code.push(Some(insn))?;
    Ok(())
}

// Writes the second half of a wide instruction.
fn push_half(code: &mut Vec<Option<Insn>>, insn: Insn) -> Result<(), AllocError>
    ensures { OnOk result (code.new.items ≡ code.old.items ++ half_of insn) }
{
    match insn {
        Insn::Wide { .. } => {
            code.push(None)?;
            Ok(())
        }
        _ => Ok(()),
    }
}
