//! The copies that the walk chose, written.

ghost use Rattle.std.specs.Prelude.{◌≡◌, ◌≤◌, ◌<◌, Some, IfOk, IfSome, OnOk, length};
ghost use Rattle.ebpf_insn.specs.Program.{insn_at};
ghost use Rattle.ebpf_insn.specs.Encoding.{IsDefined};
ghost use Rattle.ebpf_insn.specs.declared.program.TheConstants.{MAX_SLOTS};
ghost use Rattle.ebpf_unroll.specs.Written.{IsWritten};

use crate::walk::Visit;
use crate::writer::{Writer, push};
use ebpf_flow::edges::{displacement_of, falls};
use ebpf_insn::insn::Insn;
use ebpf_insn::program::{MAX_SLOTS, Program};
use ebpf_layout::edges::moved;
use std::alloc::{AllocError, Global};

// Where the stub is, from the end.
const STUB: usize = 1;

// No place is as high.
const NOWHERE: usize = 16384;

/// The slots of the copies in this order, from the last to the first: no more are written once they are more than a program has.
/// There are none where a copy leads to what isn't written.
pub(crate) fn copies_of(
    alloc: Global,
    old: &Program,
    visits: &[Visit],
    order: &[usize],
) -> Result<Option<Writer>, AllocError>
    ensures { IfOk result (λ found. IfSome found (λ w. IsWritten old.now w.code.items w.of.items w.count)) }
{
    let mut writer = Writer {
        code: Vec::with_capacity(alloc, order.len())?,
        of: Vec::with_capacity(alloc, order.len())?,
        count: 0,
    };
    let mut places = vec![in alloc; NOWHERE; visits.len()]?;
    write_stub(&mut writer, old, visits)?;
    for k in 0..order.len() {
        if writer.code.len() > MAX_SLOTS {
            return Ok(Some(writer));
        }
        let visit = order[order.len() - 1 - k];
        if !write_visit(&mut writer, old, visits, visit, &mut places)? {
            return Ok(None);
        }
    }
    Ok(Some(writer))
}

// Writes the stub, if an edge leads there: a call of no helper, and an exit, since a call goes on.
fn write_stub(writer: &mut Writer, old: &Program, visits: &[Visit]) -> Result<(), AllocError>
    requires written { IsWritten old.now writer.old.code.items writer.old.of.items writer.old.count }
    requires room { length writer.old.code.items ≤ MAX_SLOTS }
    ensures written { OnOk result (IsWritten old.now writer.new.code.items writer.new.of.items writer.new.count) }
{
    if !needs_stub(old, visits) {
        return Ok(());
    }
    push(writer, old, Insn::Exit, None)?;
    push(writer, old, Insn::Call { number: 99 }, None)?;
    Ok(())
}

// Whether no run goes along an edge of some copy.
fn needs_stub(old: &Program, visits: &[Visit]) -> bool {
    for visit in visits {
        if let Some(insn) = old.at(visit.slot) {
            if falls(*insn) && visit.fall.is_none() {
                return true;
            }
            if displacement_of(*insn).is_some() && visit.jump.is_none() {
                return true;
            }
        }
    }
    false
}

// Writes the copy of a visit, if what it leads to is written, and notes its place.
fn write_visit(
    writer: &mut Writer,
    old: &Program,
    visits: &[Visit],
    visit: usize,
    places: &mut Vec<usize>,
) -> Result<bool, AllocError>
    requires written { IsWritten old.now writer.old.code.items writer.old.of.items writer.old.count }
    requires room { length writer.old.code.items ≤ MAX_SLOTS }
    ensures written { OnOk result (IsWritten old.now writer.new.code.items writer.new.of.items writer.new.count) }
{
    if visit >= visits.len() || visit >= places.len() {
        return Ok(false);
    }
    let fall = place_of(places, visits[visit].fall);
    let jump = place_of(places, visits[visit].jump);
    let written = write_copy(writer, old, visits[visit].slot, fall, jump)?;
    if written && writer.code.len() > 0 {
        places[visit] = writer.code.len() - 1;
    }
    Ok(written)
}

// Where the copy is that an edge leads to, from the end, or the stub.
fn place_of(places: &[usize], edge: Option<usize>) -> usize {
    match edge {
        Some(visit) => places.get(visit).copied().unwrap_or(NOWHERE),
        None => STUB,
    }
}

// Writes a copy of a slot that falls to one place and jumps to another, and before it a jump where it can't fall. False where what it
// leads to isn't written.
fn write_copy(
    writer: &mut Writer,
    old: &Program,
    slot: usize,
    fall: usize,
    jump: usize,
) -> Result<bool, AllocError>
    requires written { IsWritten old.now writer.old.code.items writer.old.of.items writer.old.count }
    requires room { length writer.old.code.items ≤ MAX_SLOTS }
    ensures written { OnOk result (IsWritten old.now writer.new.code.items writer.new.of.items writer.new.count) }
{
    // Read for what it promises: the program is well formed.
    let slots = old.slots();
    if slot >= slots {
        return Ok(false);
    }
    let Some(insn) = old.at(slot) else {
        return Ok(false);
    };
    if falls(*insn) {
        if fall >= writer.code.len() {
            return Ok(false);
        }
        write_jump(writer, old, fall)?;
    }
    let mut way = 0;
    if displacement_of(*insn).is_some() {
        if jump >= writer.code.len() {
            return Ok(false);
        }
        way = writer.code.len() - 1 - jump;
    }
    push(writer, old, moved(*insn, way), Some(slot as u16))?;
    Ok(true)
}

// Writes a jump to a place, unless what is written next comes right before it.
fn write_jump(writer: &mut Writer, old: &Program, place: usize) -> Result<(), AllocError>
    requires written { IsWritten old.now writer.old.code.items writer.old.of.items writer.old.count }
    requires room { length writer.old.code.items ≤ MAX_SLOTS }
    requires place { place < length writer.old.code.items }
    ensures written { OnOk result (IsWritten old.now writer.new.code.items writer.new.of.items writer.new.count) }
    ensures room { OnOk result (length writer.new.code.items ≤ 4097) }
    ensures longer { OnOk result (length writer.old.code.items ≤ length writer.new.code.items) }
{
    let way = writer.code.len() - 1 - place;
    if way > 0 {
        push(writer, old, Insn::Jump { offset: way as i16 }, None)?;
    }
    Ok(())
}
