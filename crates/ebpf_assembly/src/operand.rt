//! The operands of an instruction, each a word.

ghost use Rattle.std.specs.Prelude.{◌≡◌, ◌≢◌, ◌∷◌, [], ◌++◌, ℕ, List};
ghost use Rattle.std.specs.Option.{MatchOption};
ghost use Rattle.ebpf_insn.specs.declared.register.Reg.{Reg};
ghost use Rattle.ebpf_insn.specs.Encoding.{IsSource};
ghost use Rattle.ebpf_insn.specs.Registers.{number_of};
ghost use Rattle.ebpf_text.specs.Operands.{register_text, source_text};
ghost use Rattle.ebpf_assembly.specs.Reading.{IsRead, IsPlaceRead, IsPlaceReadAt};

use crate::number::{immediate, number, offset};
use ebpf_insn::insn::Source;
use ebpf_insn::register::Reg;

// A register: `r0` to `r10`.
pub(crate) fn register(word: &[u8]) -> Option<Reg>
    ensures { MatchOption result ((r : Reg) → word.now ≢ register_text r) (λ r. word.now ≡ register_text r) }
{
    let (first, digits) = word.split_first()?;
    if *first != b'r' {
        return None;
    }
    register_of(number(digits)?)
}

// A second operand: a register, or an immediate.
pub(crate) fn source(word: &[u8]) -> Option<Source>
    ensures { IsRead IsSource source_text word.now result }
{
    if let Some(register) = register(word) {
        return Some(Source::Register(register));
    }
    Some(Source::Imm(immediate(word)?))
}

// A place in memory: a base and an offset, in brackets.
pub(crate) fn place(word: &[u8]) -> Option<(Reg, i16)>
    ensures { IsPlaceRead word.now result }
{
    let inner = within_brackets(word)?;
    // The name of a register has two bytes, or three.
    if let Some(place) = place_at(inner, 2) {
        return Some(place);
    }
    place_at(inner, 3)
}

fn within_brackets(word: &[u8]) -> Option<&[u8]>
    ensures { MatchOption result ((inner : List ℕ) → word.now ≢ 91 ∷ (inner ++ 93 ∷ [])) (λ inner. word.now ≡ 91 ∷ (inner.now ++ 93 ∷ [])) }
{
    let (first, rest) = word.split_first()?;
    let (last, inner) = rest.split_last()?;
    if *first != b'[' {
        return None;
    }
    if *last != b']' {
        return None;
    }
    Some(inner)
}

// A base whose name has this length, and an offset.
fn place_at(text: &[u8], name_len: usize) -> Option<(Reg, i16)>
    ensures { IsPlaceReadAt text.now name_len result }
{
    let (name, displacement) = text.split_at_checked(name_len)?;
    let base = register(name)?;
    let offset = offset(displacement)?;
    Some((base, offset))
}

// The register of a number.
fn register_of(number: u64) -> Option<Reg>
    ensures { MatchOption result ((r : Reg) → number ≢ number_of r) (λ r. number ≡ number_of r) }
{
    match number {
        0 => Some(Reg::R0),
        1 => Some(Reg::R1),
        2 => Some(Reg::R2),
        3 => Some(Reg::R3),
        4 => Some(Reg::R4),
        5 => Some(Reg::R5),
        6 => Some(Reg::R6),
        7 => Some(Reg::R7),
        8 => Some(Reg::R8),
        9 => Some(Reg::R9),
        10 => Some(Reg::R10),
        _ => None,
    }
}
