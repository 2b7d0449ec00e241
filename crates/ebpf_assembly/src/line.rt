//! The instruction of a line.

ghost use Rattle.std.specs.Prelude.{◌≡◌, ◌≢◌, ◌≤◌, ◌+◌, [], IfOk, IfErr};
ghost use Rattle.std.specs.Option.{MatchOption};
ghost use Rattle.ebpf_insn.specs.Program.{slots_in};
ghost use Rattle.ebpf_insn.specs.declared.program.TheConstants.{MAX_SLOTS};
ghost use Rattle.ebpf_assembly.specs.Lines.{words, IsInsnAt};
ghost use Rattle.ebpf_assembly.specs.Faults.{IsLineFault, IsLineStop};
ghost use Rattle.ebpf_assembly.specs.Reading.{texts};

use crate::fault::{AssemblyFault, LineFault};
use crate::insn::read_insn;
use crate::words::{line_words, unlabelled};
use ebpf_insn::insn::Insn;
use ebpf_insn::program::MAX_SLOTS;
use std::alloc::Global;

// The instruction of the line of this number, where the next slot is this one; `None` where the line is blank.
pub(crate) fn read_line(
    alloc: Global,
    number: usize,
    slot: usize,
    line: &[u8],
) -> Result<Option<Insn>, AssemblyFault>
    requires { slot ≤ MAX_SLOTS }
    ensures ok { IfOk result (λ o. MatchOption o (words line.now ≡ []) (λ i. IsInsnAt slot (words line.now) i × (slot + slots_in i ≤ MAX_SLOTS))) }
    ensures refused { IfErr result (IsLineStop number slot line.now) }
{
    let words = line_words(alloc, line)?;
    if words.is_empty() {
        return Ok(None);
    }
    match insn_at(slot, &words) {
        Ok(insn) => Ok(Some(insn)),
        Err(fault) => Err(AssemblyFault::Bad {
            line: number,
            fault,
        }),
    }
}

// The instruction that has these words at a slot.
fn insn_at(slot: usize, words: &[&[u8]]) -> Result<Insn, LineFault>
    requires few { slot ≤ MAX_SLOTS }
    requires some { texts words.now ≢ [] }
    ensures ok { IfOk result (λ i. IsInsnAt slot (texts words.now) i × (slot + slots_in i ≤ MAX_SLOTS)) }
    ensures refused { IfErr result (IsLineFault slot (texts words.now)) }
{
    let Some(rest) = unlabelled(slot, words) else {
        return Err(LineFault::WrongSlot);
    };
    let Some(insn) = read_insn(rest) else {
        return Err(LineFault::NoInstruction);
    };
    if slot + insn.slots() > MAX_SLOTS {
        return Err(LineFault::TooManySlots);
    }
    Ok(insn)
}
