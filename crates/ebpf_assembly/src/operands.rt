//! The operands of each kind of instruction, read from the words after its mnemonic.

ghost use Rattle.ebpf_assembly.specs.declared.kind.Kind.TheVariants as kind;
ghost use Rattle.ebpf_assembly.specs.Kinds.{IsKind, IsOfKind};
ghost use Rattle.ebpf_assembly.specs.Reading.{texts};

use crate::number::{far_offset, immediate, number, offset};
use crate::operand::{place, register, source};
use ebpf_insn::insn::{AluOp, Cond, Insn, Order, Size, Source, Width};

// What is written, and a second operand.
pub(crate) fn alu(width: Width, op: AluOp, words: &[&[u8]]) -> Option<Insn>
    ensures { IsOfKind (kind.Alu width op) (texts words.now) result }
{
    let [dst, src] = words else {
        return None;
    };
    Some(Insn::Alu {
        width,
        op,
        dst: register(dst)?,
        src: source(src)?,
    })
}

// What is written, and the register that is extended.
pub(crate) fn sext(width: Width, bits: u8, words: &[&[u8]]) -> Option<Insn>
    requires { IsKind (kind.Sext width bits) }
    ensures { IsOfKind (kind.Sext width bits) (texts words.now) result }
{
    let [dst, src] = words else {
        return None;
    };
    Some(Insn::Sext {
        width,
        bits,
        dst: register(dst)?,
        src: register(src)?,
    })
}

// The register that is negated.
pub(crate) fn neg(width: Width, words: &[&[u8]]) -> Option<Insn>
    ensures { IsOfKind (kind.Neg width) (texts words.now) result }
{
    let [dst] = words else {
        return None;
    };
    Some(Insn::Neg {
        width,
        dst: register(dst)?,
    })
}

// The register whose bytes are swapped.
pub(crate) fn swap(order: Order, bits: u8, words: &[&[u8]]) -> Option<Insn>
    requires { IsKind (kind.Swap order bits) }
    ensures { IsOfKind (kind.Swap order bits) (texts words.now) result }
{
    let [dst] = words else {
        return None;
    };
    Some(Insn::Swap {
        order,
        bits,
        dst: register(dst)?,
    })
}

// What is written, and a number of 64 bits.
pub(crate) fn wide(words: &[&[u8]]) -> Option<Insn>
    ensures { IsOfKind kind.Wide (texts words.now) result }
{
    let [dst, value] = words else {
        return None;
    };
    Some(Insn::Wide {
        dst: register(dst)?,
        value: number(value)?,
    })
}

// What is written, and the place that is read.
pub(crate) fn load(size: Size, signed: bool, words: &[&[u8]]) -> Option<Insn>
    requires { IsKind (kind.Load size signed) }
    ensures { IsOfKind (kind.Load size signed) (texts words.now) result }
{
    let [dst, from] = words else {
        return None;
    };
    let dst = register(dst)?;
    let (base, offset) = place(from)?;
    Some(Insn::Load {
        size,
        signed,
        dst,
        base,
        offset,
    })
}

// The place that is written, and an immediate.
pub(crate) fn store_immediate(size: Size, words: &[&[u8]]) -> Option<Insn>
    ensures { IsOfKind (kind.StoreImmediate size) (texts words.now) result }
{
    let [to, value] = words else {
        return None;
    };
    let (base, offset) = place(to)?;
    let src = Source::Imm(immediate(value)?);
    Some(Insn::Store {
        size,
        base,
        offset,
        src,
    })
}

// The place that is written, and a register.
pub(crate) fn store_register(size: Size, words: &[&[u8]]) -> Option<Insn>
    ensures { IsOfKind (kind.StoreRegister size) (texts words.now) result }
{
    let [to, value] = words else {
        return None;
    };
    let (base, offset) = place(to)?;
    let src = Source::Register(register(value)?);
    Some(Insn::Store {
        size,
        base,
        offset,
        src,
    })
}

// How far to jump.
pub(crate) fn jump(words: &[&[u8]]) -> Option<Insn>
    ensures { IsOfKind kind.Jump (texts words.now) result }
{
    let [to] = words else {
        return None;
    };
    Some(Insn::Jump {
        offset: offset(to)?,
    })
}

// The same, in 32 bits.
pub(crate) fn jump_far(words: &[&[u8]]) -> Option<Insn>
    ensures { IsOfKind kind.JumpFar (texts words.now) result }
{
    let [to] = words else {
        return None;
    };
    Some(Insn::JumpFar {
        offset: far_offset(to)?,
    })
}

// What is compared, and how far to jump.
pub(crate) fn branch(width: Width, cond: Cond, words: &[&[u8]]) -> Option<Insn>
    ensures { IsOfKind (kind.Branch width cond) (texts words.now) result }
{
    let [left, right, to] = words else {
        return None;
    };
    Some(Insn::Branch {
        width,
        cond,
        left: register(left)?,
        right: source(right)?,
        offset: offset(to)?,
    })
}

// The number of the helper.
pub(crate) fn call(words: &[&[u8]]) -> Option<Insn>
    ensures { IsOfKind kind.Call (texts words.now) result }
{
    let [called] = words else {
        return None;
    };
    Some(Insn::Call {
        number: immediate(called)?,
    })
}

// Nothing.
pub(crate) fn exit(words: &[&[u8]]) -> Option<Insn>
    ensures { IsOfKind kind.Exit (texts words.now) result }
{
    if !words.is_empty() {
        return None;
    }
    Some(Insn::Exit)
}
