//! The operands of an instruction.

ghost use Rattle.std.specs.Prelude.{◌≡◌, [], ◌∷◌, ◌++◌, decimal, string_bytes, OnOk};
ghost use Rattle.ebpf_text.specs.Operands.{operands_of, register_text, source_text, offset_text, place_text};
ghost use Rattle.ebpf_text.specs.Listing.{operands_text};

use crate::operand::{write_offset, write_place, write_source};
use ebpf_insn::insn::{Insn, Source};
use ebpf_insn::register::Reg;
use std::alloc::AllocError;

// Writes the operands of an instruction after a text. It fails only where an allocation fails.
pub(crate) fn write_operands(text: &mut String, insn: &Insn) -> Result<(), AllocError>
    ensures { OnOk result (string_bytes text.new ≡ string_bytes text.old ++ operands_text (operands_of insn.now)) }
{
    match *insn {
        Insn::Alu { dst, src, .. } => write_pair(text, dst, src),
        Insn::Sext { dst, src, .. } => write_pair(text, dst, Source::Register(src)),
        Insn::Neg { dst, .. } | Insn::Swap { dst, .. } => write_register(text, dst),
        Insn::Wide { dst, value } => write_wide(text, dst, value),
        Insn::Load {
            dst,
            base,
            offset,
            ..
        } => write_load(text, dst, base, offset),
        Insn::Store {
            base,
            offset,
            src,
            ..
        } => write_store(text, base, offset, src),
        Insn::Jump { offset } => write_displacement(text, offset as i32),
        Insn::JumpFar { offset } => write_displacement(text, offset),
        Insn::Branch {
            left,
            right,
            offset,
            ..
        } => {
            write_pair(text, left, right)?;
            text.push_str(", ")?;
            write_offset(text, offset as i32)
        }
        Insn::Call { number } => {
            text.push_str(" ")?;
            write_source(text, Source::Imm(number))
        }
        Insn::Exit => Ok(()),
    }
}

// A register.
fn write_register(text: &mut String, register: Reg) -> Result<(), AllocError>
    ensures { OnOk result (string_bytes text.new ≡ string_bytes text.old ++ operands_text (register_text register ∷ [])) }
{
    write!(text, " r{}", register.number())
}

// A register, and the number that it takes.
fn write_wide(text: &mut String, dst: Reg, value: u64) -> Result<(), AllocError>
    ensures { OnOk result (string_bytes text.new ≡ string_bytes text.old ++ operands_text (register_text dst ∷ decimal value ∷ [])) }
{
    write!(text, " r{}, {value}", dst.number())
}

// A register, and a second operand.
fn write_pair(text: &mut String, left: Reg, right: Source) -> Result<(), AllocError>
    ensures { OnOk result (string_bytes text.new ≡ string_bytes text.old ++ operands_text (register_text left ∷ source_text right ∷ [])) }
{
    write!(text, " r{}, ", left.number())?;
    write_source(text, right)
}

// The operands of a load.
fn write_load(text: &mut String, dst: Reg, base: Reg, offset: i16) -> Result<(), AllocError>
    ensures { OnOk result (string_bytes text.new ≡ string_bytes text.old ++ operands_text (register_text dst ∷ place_text base offset ∷ [])) }
{
    write!(text, " r{}, ", dst.number())?;
    write_place(text, base, offset)
}

// The operands of a store.
fn write_store(text: &mut String, base: Reg, offset: i16, src: Source) -> Result<(), AllocError>
    ensures { OnOk result (string_bytes text.new ≡ string_bytes text.old ++ operands_text (place_text base offset ∷ source_text src ∷ [])) }
{
    text.push_str(" ")?;
    write_place(text, base, offset)?;
    text.push_str(", ")?;
    write_source(text, src)
}

// The one operand of a jump.
fn write_displacement(text: &mut String, offset: i32) -> Result<(), AllocError>
    ensures { OnOk result (string_bytes text.new ≡ string_bytes text.old ++ operands_text (offset_text offset ∷ [])) }
{
    text.push_str(" ")?;
    write_offset(text, offset)
}
