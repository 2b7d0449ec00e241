//! The line of an instruction.

ghost use Rattle.std.specs.Prelude.{◌≡◌, ◌++◌, string_bytes, IfOk, OnOk};
ghost use Rattle.ebpf_text.specs.Listing.{insn_text, line_of};

use crate::mnemonic::write_mnemonic;
use crate::operands::write_operands;
use ebpf_insn::insn::Insn;
use std::alloc::{AllocError, Global};

/// The line of the instruction at a slot: the slot in decimal, a colon and a space, the instruction, and a newline. It
/// fails only where an allocation fails.
pub fn line(alloc: Global, slot: usize, insn: &Insn) -> Result<String, AllocError>
    ensures { IfOk result (λ text. string_bytes text ≡ line_of slot insn.now) }
{
    let mut text = String::new(alloc);
    write_line(&mut text, slot, insn)?;
    Ok(text)
}

// Writes the line of an instruction after a text. It fails only where an allocation fails.
pub(crate) fn write_line(text: &mut String, slot: usize, insn: &Insn) -> Result<(), AllocError>
    ensures { OnOk result (string_bytes text.new ≡ string_bytes text.old ++ line_of slot insn.now) }
{
    write!(text, "{slot}: ")?;
    write_insn(text, insn)?;
    text.push_str("\n")
}

/// Writes an instruction after a text: its mnemonic and its operands. It fails only where an allocation fails.
pub fn write_insn(text: &mut String, insn: &Insn) -> Result<(), AllocError>
    ensures { OnOk result (string_bytes text.new ≡ string_bytes text.old ++ insn_text insn.now) }
{
    write_mnemonic(text, insn)?;
    write_operands(text, insn)?;
    Ok(())
}
