//! Whether a program's own loads and stores are apart from the word.

ghost use Rattle.std.specs.Prelude.{◌≡◌, ◌<◌, length, true, false, Some};
ghost use Rattle.ebpf_insn.specs.Program.{insn_at};
ghost use Rattle.ebpf_state.specs.Stack.{bytes_in};
ghost use Rattle.ebpf_verify.specs.Entry.{entry_of};
ghost use Rattle.ebpf_link.specs.Apart.{AllApart, ApartAt, IsApartBy, IsApartIn, IsOfWord};

use crate::known::known_at;
use crate::words::is_apart;
use ebpf_insn::insn::{Insn, Size, Source};
use ebpf_insn::register::Reg;
use ebpf_state::value::Abs;
use ebpf_verify::entry::EntryState;
use ebpf_verify::trace::Trace;

// No pointer that is further from r10 than this comes near the stack by an offset.
const FAR: i64 = 131072;

/// Whether what the instruction at a slot may load from the stack or store there is apart from the word, unless it saves the context's
/// pointer there or fetches it.
pub(crate) fn is_apart_at(trace: &Trace, word: i16, slot: usize) -> bool
    requires inside { slot < length trace.now.entries.items }
    ensures apart { result ≡ true → ApartAt trace.now.flowed.now word slot }
    ensures touches { result ≡ false → ApartAt trace.now.flowed.now word slot → ⊥ }
{
    match trace.flowed.program().at(slot) {
        Some(insn) => is_of_word(*insn, word) || is_all_apart(trace, *insn, word, slot),
        None => true,
    }
}

// Whether an instruction saves the context's pointer in the word, or fetches it from there.
fn is_of_word(insn: Insn, word: i16) -> bool
    ensures is { result ≡ true → IsOfWord word (Some insn) }
    ensures other { result ≡ false → IsOfWord word (Some insn) → ⊥ }
{
    match insn {
        Insn::Load {
            size: Size::D,
            signed: false,
            base: Reg::R10,
            offset,
            ..
        } => offset == word,
        Insn::Store {
            size: Size::D,
            base: Reg::R10,
            offset,
            src: Source::Register(Reg::R1),
        } => offset == word,
        _ => false,
    }
}

// Whether what an instruction at a slot may load from the stack or store there is apart from the word.
fn is_all_apart(trace: &Trace, insn: Insn, word: i16, slot: usize) -> bool
    requires inside { slot < length trace.now.entries.items }
    ensures apart { result ≡ true → AllApart (Some insn) word (entry_of trace.now.flowed.now slot) }
    ensures touches { result ≡ false → AllApart (Some insn) word (entry_of trace.now.flowed.now slot) → ⊥ }
{
    match insn {
        Insn::Load {
            size,
            base,
            offset,
            ..
        } => is_apart_in(trace, slot, base, size, offset, word),
        Insn::Store {
            size,
            base,
            offset,
            ..
        } => is_apart_in(trace, slot, base, size, offset, word),
        _ => true,
    }
}

// Whether the bytes at an offset from a register are.
fn is_apart_in(trace: &Trace, slot: usize, base: Reg, size: Size, offset: i16, word: i16) -> bool
    requires inside { slot < length trace.now.entries.items }
    ensures apart { result ≡ true → IsApartIn base (bytes_in size) offset word (entry_of trace.now.flowed.now slot) }
    ensures touches { result ≡ false → IsApartIn base (bytes_in size) offset word (entry_of trace.now.flowed.now slot) → ⊥ }
{
    match known_at(trace, slot) {
        EntryState::Unreached => true,
        EntryState::Known(state) => is_apart_by(state.reg(base), size, offset, word),
        EntryState::Conflict => false,
    }
}

// Whether they are, by what is known of the register.
fn is_apart_by(base: Abs, size: Size, offset: i16, word: i16) -> bool
    ensures apart { result ≡ true → IsApartBy (bytes_in size) offset word base }
    ensures touches { result ≡ false → IsApartBy (bytes_in size) offset word base → ⊥ }
{
    match base {
        Abs::Unset => false,
        Abs::Stk(k) => k < -FAR || k > FAR || is_apart(k + offset as i64, size, word),
        _ => true,
    }
}
