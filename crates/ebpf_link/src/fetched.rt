//! Whether what is fetched from the word is the context's pointer.

ghost use Rattle.std.specs.Prelude.{◌≡◌, ◌<◌, length, pos, true, false, None, Some};
ghost use Rattle.ebpf_insn.specs.declared.insn.Insn.{Insn};
ghost use Rattle.ebpf_insn.specs.declared.register.Reg.{Reg};
ghost use Rattle.ebpf_state.specs.declared.value.Abs.TheVariants.{Ctx};
ghost use Rattle.ebpf_link.specs.Linking.{fetches};
ghost use Rattle.ebpf_link.specs.Pointing.{HoldsAfter, HoldsContext};

use crate::known::known_at;
use ebpf_insn::insn::{Insn, Size};
use ebpf_insn::register::Reg;
use ebpf_state::value::Abs;
use ebpf_verify::entry::EntryState;
use ebpf_verify::trace::Trace;

/// Whether a slot fetches nothing from the word, or what is known after it is that the register has the context's first byte.
pub(crate) fn holds_after(trace: &Trace, word: i16, slot: usize) -> bool
    requires all { length trace.now.entries.items ≡ length trace.now.flowed.now }
    requires inside { slot < length trace.now.entries.items }
    ensures holds { result ≡ true → HoldsAfter trace.now.flowed.now word slot }
    ensures wrong { result ≡ false → HoldsAfter trace.now.flowed.now word slot → ⊥ }
{
    let Some(insn) = trace.flowed.program().at(slot) else {
        return true;
    };
    match fetched_by(*insn, word) {
        Some(dst) => slot + 1 < trace.entries.len() && holds_context(trace, slot + 1, dst),
        None => true,
    }
}

// The register into which an instruction fetches the word.
fn fetched_by(insn: Insn, word: i16) -> Option<Reg>
    ensures some { (dst : Reg) → insn ≡ fetches dst word → result ≡ Some dst }
    ensures only { (dst : Reg) → result ≡ Some dst → insn ≡ fetches dst word }
{
    match insn {
        Insn::Load {
            size: Size::D,
            signed: false,
            dst,
            base: Reg::R10,
            offset,
        } if offset == word => Some(dst),
        _ => None,
    }
}

// Whether all that comes to a slot has the context's first byte in a register.
fn holds_context(trace: &Trace, slot: usize, register: Reg) -> bool
    requires inside { slot < length trace.now.entries.items }
    ensures holds { result ≡ true → HoldsContext trace.now.flowed.now slot register }
    ensures wrong { result ≡ false → HoldsContext trace.now.flowed.now slot register → ⊥ }
{
    match known_at(trace, slot) {
        EntryState::Unreached => true,
        EntryState::Known(state) => is_context(state.reg(register)),
        EntryState::Conflict => false,
    }
}

// Whether it is the context's first byte.
fn is_context(value: Abs) -> bool
    ensures is { result ≡ true → value ≡ Ctx (pos 0) (pos 0) }
    ensures other { result ≡ false → value ≡ Ctx (pos 0) (pos 0) → ⊥ }
{
    match value {
        Abs::Ctx(low, high) => low == 0 && high == 0,
        _ => false,
    }
}
