//! Which slots of the old program those of the new one copy.

ghost use Rattle.std.specs.Prelude.{◌≡◌, ◌<◌, IfOk, length};
ghost use Rattle.ebpf_insn.specs.declared.program.TheConstants.{MAX_SLOTS};
ghost use Rattle.ebpf_insn.specs.Program.{insn_at};
ghost use Rattle.ebpf_layout.specs.Search.{if_there};
ghost use Rattle.ebpf_layout.specs.Writing.{AreCopied, AreOwn, HavePlaces};

use ebpf_insn::program::Program;
use std::alloc::{AllocError, Global};

/// Of each slot of a code of some length the slot of the old program that was written there, if one was. The order has the slots
/// that were written, and `places` where each begins.
pub(crate) fn copied_slots(
    alloc: Global,
    order: &[usize],
    places: &[usize],
    len: usize,
) -> Result<Vec<Option<u16>>, AllocError>
    requires { HavePlaces order.now places.now len }
    ensures all { IfOk result (λ of. length of.items ≡ len) }
    ensures copied { IfOk result (λ of. AreCopied order.now places.now (length order.now) of.items) }
{
    let mut of: Vec<Option<u16>> = vec![in alloc; None; len]?;
    for number in 0..order.len() {
        let slot = order[number] as u16;
        of[places[number]] = Some(slot);
    }
    Ok(of)
}

/// Of each slot of a program that slot, if an instruction begins there.
pub(crate) fn own_slots(alloc: Global, program: &Program) -> Result<Vec<Option<u16>>, AllocError>
    ensures all { IfOk result (λ of. length of.items ≡ length program.now) }
    ensures own { IfOk result (λ of. AreOwn program.now of.items) }
{
    let slots = program.slots();
    let mut of = Vec::with_capacity(alloc, slots)?;
    for slot in 0..slots {
        of.push_reserved(own_slot(program, slot));
    }
    Ok(of)
}

// A slot, if an instruction begins there.
fn own_slot(program: &Program, slot: usize) -> Option<u16>
    requires { slot < MAX_SLOTS }
    ensures { result ≡ if_there (insn_at program.now slot) slot }
{
    match program.at(slot) {
        Some(_) => Some(slot as u16),
        None => None,
    }
}
