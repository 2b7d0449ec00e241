//! The mnemonic of an instruction, and what it says.
//!
//! *The idea.* A mnemonic says all of an instruction but its operands: that is its kind. Words are looked up by families, each a
//! table, since most are two names put together.

ghost use Rattle.std.specs.Prelude.{◌≡◌, ◌++◌};
ghost use Rattle.std.specs.Option.{MatchOption};
ghost use Rattle.ebpf_text.specs.Names.{alu_name, cond_name, width_name};
ghost use Rattle.ebpf_assembly.specs.Kinds.{IsKind, IsNoOther, kind_name};
ghost use Rattle.ebpf_assembly.specs.Reading.{IsRead, IsPairRead, IsKindRead, IsStoreRead};
ghost use Rattle.ebpf_assembly.specs.declared.kind.Kind.TheVariants as kind;

use ebpf_insn::insn::{AluOp, Cond, Order, Size, Width};

/// An instruction without its operands; of a store, only whether it stores a register.
#[derive(Clone, Copy)]
pub enum Kind {
    Alu { width: Width, op: AluOp },
    Sext { width: Width, bits: u8 },
    Neg { width: Width },
    Swap { order: Order, bits: u8 },
    Wide,
    Load { size: Size, signed: bool },
    StoreImmediate { size: Size },
    StoreRegister { size: Size },
    Jump,
    JumpFar,
    Branch { width: Width, cond: Cond },
    Call,
    Exit,
}

// The kind of a mnemonic.
pub(crate) fn read_kind(word: &[u8]) -> Option<Kind>
    ensures { IsRead IsKind kind_name word.now result }
{
    let Ok(word) = str::from_utf8(word) else {
        return None;
    };
    if let Some((op, width)) = arithmetic(word) {
        return Some(Kind::Alu { width, op });
    }
    if let Some((cond, width)) = condition(word) {
        return Some(Kind::Branch { width, cond });
    }
    if let Some((size, signed)) = load(word) {
        return Some(Kind::Load { size, signed });
    }
    if let Some((size, is_register)) = store(word) {
        return Some(if is_register {
            Kind::StoreRegister { size }
        } else {
            Kind::StoreImmediate { size }
        });
    }
    if let Some((width, bits)) = sign_extension(word) {
        return Some(Kind::Sext { width, bits });
    }
    if let Some((order, bits)) = swap(word) {
        return Some(Kind::Swap { order, bits });
    }
    other(word)
}

// The operation and the width of arithmetic.
fn arithmetic(word: &str) -> Option<(AluOp, Width)>
    ensures { IsPairRead (λ op width. alu_name op ++ width_name width) word.now result }
{
    match word {
        "add32" => Some((AluOp::Add, Width::W32)),
        "add64" => Some((AluOp::Add, Width::W64)),
        "sub32" => Some((AluOp::Sub, Width::W32)),
        "sub64" => Some((AluOp::Sub, Width::W64)),
        "mul32" => Some((AluOp::Mul, Width::W32)),
        "mul64" => Some((AluOp::Mul, Width::W64)),
        "div32" => Some((AluOp::Div, Width::W32)),
        "div64" => Some((AluOp::Div, Width::W64)),
        "sdiv32" => Some((AluOp::SDiv, Width::W32)),
        "sdiv64" => Some((AluOp::SDiv, Width::W64)),
        "or32" => Some((AluOp::Or, Width::W32)),
        "or64" => Some((AluOp::Or, Width::W64)),
        "and32" => Some((AluOp::And, Width::W32)),
        "and64" => Some((AluOp::And, Width::W64)),
        "lsh32" => Some((AluOp::Lsh, Width::W32)),
        "lsh64" => Some((AluOp::Lsh, Width::W64)),
        "rsh32" => Some((AluOp::Rsh, Width::W32)),
        "rsh64" => Some((AluOp::Rsh, Width::W64)),
        "mod32" => Some((AluOp::Rem, Width::W32)),
        "mod64" => Some((AluOp::Rem, Width::W64)),
        "smod32" => Some((AluOp::SRem, Width::W32)),
        "smod64" => Some((AluOp::SRem, Width::W64)),
        "xor32" => Some((AluOp::Xor, Width::W32)),
        "xor64" => Some((AluOp::Xor, Width::W64)),
        "mov32" => Some((AluOp::Mov, Width::W32)),
        "mov64" => Some((AluOp::Mov, Width::W64)),
        "arsh32" => Some((AluOp::Arsh, Width::W32)),
        "arsh64" => Some((AluOp::Arsh, Width::W64)),
        _ => None,
    }
}

// The condition and the width of a branch.
fn condition(word: &str) -> Option<(Cond, Width)>
    ensures { IsPairRead (λ cond width. cond_name cond ++ width_name width) word.now result }
{
    match word {
        "jeq32" => Some((Cond::Eq, Width::W32)),
        "jeq64" => Some((Cond::Eq, Width::W64)),
        "jne32" => Some((Cond::Ne, Width::W32)),
        "jne64" => Some((Cond::Ne, Width::W64)),
        "jgt32" => Some((Cond::Gt, Width::W32)),
        "jgt64" => Some((Cond::Gt, Width::W64)),
        "jge32" => Some((Cond::Ge, Width::W32)),
        "jge64" => Some((Cond::Ge, Width::W64)),
        "jlt32" => Some((Cond::Lt, Width::W32)),
        "jlt64" => Some((Cond::Lt, Width::W64)),
        "jle32" => Some((Cond::Le, Width::W32)),
        "jle64" => Some((Cond::Le, Width::W64)),
        "jset32" => Some((Cond::Set, Width::W32)),
        "jset64" => Some((Cond::Set, Width::W64)),
        "jsgt32" => Some((Cond::SGt, Width::W32)),
        "jsgt64" => Some((Cond::SGt, Width::W64)),
        "jsge32" => Some((Cond::SGe, Width::W32)),
        "jsge64" => Some((Cond::SGe, Width::W64)),
        "jslt32" => Some((Cond::SLt, Width::W32)),
        "jslt64" => Some((Cond::SLt, Width::W64)),
        "jsle32" => Some((Cond::SLe, Width::W32)),
        "jsle64" => Some((Cond::SLe, Width::W64)),
        _ => None,
    }
}

// The size of a load, and whether it extends the sign.
fn load(word: &str) -> Option<(Size, bool)>
    ensures { IsKindRead kind.Load word.now result }
{
    match word {
        "ldxb" => Some((Size::B, false)),
        "ldxh" => Some((Size::H, false)),
        "ldxw" => Some((Size::W, false)),
        "ldxdw" => Some((Size::D, false)),
        "ldxsb" => Some((Size::B, true)),
        "ldxsh" => Some((Size::H, true)),
        "ldxsw" => Some((Size::W, true)),
        _ => None,
    }
}

// The size of a store, and whether it stores a register.
fn store(word: &str) -> Option<(Size, bool)>
    ensures { IsStoreRead word.now result }
{
    match word {
        "stb" => Some((Size::B, false)),
        "sth" => Some((Size::H, false)),
        "stw" => Some((Size::W, false)),
        "stdw" => Some((Size::D, false)),
        "stxb" => Some((Size::B, true)),
        "stxh" => Some((Size::H, true)),
        "stxw" => Some((Size::W, true)),
        "stxdw" => Some((Size::D, true)),
        _ => None,
    }
}

// The width of a sign extension, and how many bits it takes.
fn sign_extension(word: &str) -> Option<(Width, u8)>
    ensures { IsKindRead kind.Sext word.now result }
{
    match word {
        "movs8_32" => Some((Width::W32, 8)),
        "movs16_32" => Some((Width::W32, 16)),
        "movs8_64" => Some((Width::W64, 8)),
        "movs16_64" => Some((Width::W64, 16)),
        "movs32_64" => Some((Width::W64, 32)),
        _ => None,
    }
}

// The order of a byte swap, and how many bits it takes.
fn swap(word: &str) -> Option<(Order, u8)>
    ensures { IsKindRead kind.Swap word.now result }
{
    match word {
        "le16" => Some((Order::Little, 16)),
        "le32" => Some((Order::Little, 32)),
        "le64" => Some((Order::Little, 64)),
        "be16" => Some((Order::Big, 16)),
        "be32" => Some((Order::Big, 32)),
        "be64" => Some((Order::Big, 64)),
        "swap16" => Some((Order::Flip, 16)),
        "swap32" => Some((Order::Flip, 32)),
        "swap64" => Some((Order::Flip, 64)),
        _ => None,
    }
}

// The kinds of no family.
fn other(word: &str) -> Option<Kind>
    ensures { MatchOption result (IsNoOther word.now) (λ k. IsKind k × (word.now ≡ kind_name k)) }
{
    match word {
        "neg32" => Some(Kind::Neg { width: Width::W32 }),
        "neg64" => Some(Kind::Neg { width: Width::W64 }),
        "lddw" => Some(Kind::Wide),
        "ja" => Some(Kind::Jump),
        "ja32" => Some(Kind::JumpFar),
        "call" => Some(Kind::Call),
        "exit" => Some(Kind::Exit),
        _ => None,
    }
}
