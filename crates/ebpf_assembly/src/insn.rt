//! An instruction, read from its words.

ghost use Rattle.ebpf_insn.specs.Encoding.{IsDefined};
ghost use Rattle.ebpf_assembly.specs.Lines.{words_of};
ghost use Rattle.ebpf_assembly.specs.Kinds.{IsKind, IsOfKind};
ghost use Rattle.ebpf_assembly.specs.Reading.{IsRead, texts};

use crate::kind::{Kind, read_kind};
use crate::operands::{
    alu, branch, call, exit, jump, jump_far, load, neg, sext, store_immediate, store_register,
    swap, wide,
};
use ebpf_insn::insn::Insn;

// The instruction that has these words.
pub(crate) fn read_insn(words: &[&[u8]]) -> Option<Insn>
    ensures { IsRead IsDefined words_of (texts words.now) result }
{
    let (mnemonic, operands) = words.split_first()?;
    with_operands(read_kind(mnemonic)?, operands)
}

// The instruction of a kind that has these operands.
fn with_operands(kind: Kind, words: &[&[u8]]) -> Option<Insn>
    requires { IsKind kind }
    ensures { IsOfKind kind (texts words.now) result }
{
    match kind {
        Kind::Alu { width, op } => alu(width, op, words),
        Kind::Sext { width, bits } => sext(width, bits, words),
        Kind::Neg { width } => neg(width, words),
        Kind::Swap { order, bits } => swap(order, bits, words),
        Kind::Wide => wide(words),
        Kind::Load { size, signed } => load(size, signed, words),
        Kind::StoreImmediate { size } => store_immediate(size, words),
        Kind::StoreRegister { size } => store_register(size, words),
        Kind::Jump => jump(words),
        Kind::JumpFar => jump_far(words),
        Kind::Branch { width, cond } => branch(width, cond, words),
        Kind::Call => call(words),
        Kind::Exit => exit(words),
    }
}
