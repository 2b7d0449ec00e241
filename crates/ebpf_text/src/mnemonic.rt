//! The word that a line begins with, after its slot.

ghost use Rattle.std.specs.Prelude.{◌≡◌, ◌++◌, decimal, string_bytes, OnOk};
ghost use Rattle.ebpf_text.specs.Mnemonics.{mnemonic_of};

use crate::names::{alu_name, cond_name, order_name, size_name, width_name};
use ebpf_insn::insn::{Insn, Source};
use std::alloc::AllocError;

// Writes the word of an instruction after a text. It fails only where an allocation fails.
pub(crate) fn write_mnemonic(text: &mut String, insn: &Insn) -> Result<(), AllocError>
    ensures { OnOk result (string_bytes text.new ≡ string_bytes text.old ++ mnemonic_of insn.now) }
{
    match *insn {
        Insn::Alu { width, op, .. } => write_both(text, alu_name(op), width_name(width)),
        Insn::Sext { width, bits, .. } => {
            write_number(text, "movs", bits)?;
            write_both(text, "_", width_name(width))
        }
        Insn::Neg { width, .. } => write_both(text, "neg", width_name(width)),
        Insn::Swap { order, bits, .. } => write_number(text, order_name(order), bits),
        Insn::Wide { .. } => text.push_str("lddw"),
        Insn::Load {
            size,
            signed: true,
            ..
        } => write_both(text, "ldxs", size_name(size)),
        Insn::Load { size, .. } => write_both(text, "ldx", size_name(size)),
        Insn::Store {
            size,
            src: Source::Register(_),
            ..
        } => write_both(text, "stx", size_name(size)),
        Insn::Store { size, .. } => write_both(text, "st", size_name(size)),
        Insn::Jump { .. } => text.push_str("ja"),
        Insn::JumpFar { .. } => text.push_str("ja32"),
        Insn::Branch { width, cond, .. } => write_both(text, cond_name(cond), width_name(width)),
        Insn::Call { .. } => text.push_str("call"),
        Insn::Exit => text.push_str("exit"),
    }
}

// Two words as one.
fn write_both(text: &mut String, first: &str, second: &str) -> Result<(), AllocError>
    ensures { OnOk result (string_bytes text.new ≡ string_bytes text.old ++ (first.now ++ second.now)) }
{
    text.push_str(first)?;
    text.push_str(second)
}

// A word and a number of bits.
fn write_number(text: &mut String, word: &str, bits: u8) -> Result<(), AllocError>
    ensures { OnOk result (string_bytes text.new ≡ string_bytes text.old ++ (word.now ++ decimal bits)) }
{
    write!(text, "{word}{bits}")
}
