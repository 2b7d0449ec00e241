//! Instructions as values (RFC 9669, sections 4 and 5).

ghost use Rattle.std.specs.Prelude.{◌≡◌, ◌≤◌};

use crate::register::Reg;

/// How many low bits of its operands an operation or a comparison reads.
#[derive(Clone, Copy)]
pub enum Width {
    /// 32 bits: the classes ALU and JMP32.
    W32,
    /// 64 bits: the classes ALU64 and JMP.
    W64,
}

impl Width {
    ghost use Rattle.ebpf_insn.specs.Arithmetic.{immediate};

    /// The number that an immediate means: at 64 bits it is sign-extended, at 32 it keeps its own bits (RFC 9669,
    /// section 4.1).
    pub fn immediate(self, imm: i32) -> u64
        ensures { result ≡ immediate self imm }
    {
        match self {
            Width::W32 => imm.cast_unsigned() as u64,
            Width::W64 => (imm as i64).cast_unsigned(),
        }
    }
}

/// How many bytes a load or a store moves (RFC 9669, section 5).
#[derive(Clone, Copy)]
pub enum Size {
    /// One byte.
    B,
    /// Two bytes, a half word.
    H,
    /// Four bytes, a word.
    W,
    /// Eight bytes, a double word.
    D,
}

/// A second operand: a register, or the signed 32-bit immediate of the slot.
#[derive(Clone, Copy)]
pub enum Source {
    Register(Reg),
    Imm(i32),
}

/// What a byte swap does with the bytes that it takes (RFC 9669, section 4.2).
#[derive(Clone, Copy)]
pub enum Order {
    /// To little-endian: on this machine the bytes stay as they are.
    Little,
    /// To big-endian: on this machine the bytes are reversed.
    Big,
    /// The bytes are reversed on every machine.
    Flip,
}

/// An operation of the arithmetic classes (RFC 9669, section 4.1).
#[derive(Clone, Copy)]
pub enum AluOp {
    Add,
    Sub,
    Mul,
    /// Unsigned division.
    Div,
    /// Signed division, which truncates.
    SDiv,
    Or,
    And,
    /// Shift left.
    Lsh,
    /// Shift right, with zeros.
    Rsh,
    /// Unsigned remainder.
    Rem,
    /// Signed remainder.
    SRem,
    Xor,
    Mov,
    /// Shift right, with copies of the sign.
    Arsh,
}

/// The condition of a branch (RFC 9669, section 4.3). Those that begin with `S` compare signed numbers.
#[derive(Clone, Copy)]
pub enum Cond {
    Eq,
    Ne,
    Gt,
    Ge,
    Lt,
    Le,
    /// Both operands have a set bit in common.
    Set,
    SGt,
    SGe,
    SLt,
    SLe,
}

/// An instruction. Displacements of jumps count slots from the slot after the jump; those of loads and stores count
/// bytes from the base.
#[derive(Clone, Copy)]
pub enum Insn {
    /// `dst = dst op src`, or for `Mov` `dst = src` (RFC 9669, section 4.1).
    Alu {
        width: Width,
        op: AluOp,
        dst: Reg,
        src: Source,
    },
    /// Moves the low `bits` (8, 16 or 32) of `src`, sign-extended to the width (RFC 9669, section 4.1).
    Sext {
        width: Width,
        bits: u8,
        dst: Reg,
        src: Reg,
    },
    /// `dst = 0 - dst`.
    Neg {
        width: Width,
        dst: Reg,
    },
    /// Takes the low `bits` (16, 32 or 64) of `dst` in another order (RFC 9669, section 4.2).
    Swap {
        order: Order,
        bits: u8,
        dst: Reg,
    },
    /// Loads a 64-bit number. It takes two slots (RFC 9669, section 5.4).
    Wide {
        dst: Reg,
        value: u64,
    },
    /// Loads from memory (RFC 9669, sections 5.1 and 5.2).
    Load {
        size: Size,
        signed: bool,
        dst: Reg,
        base: Reg,
        offset: i16,
    },
    /// Stores to memory (RFC 9669, section 5.1).
    Store {
        size: Size,
        base: Reg,
        offset: i16,
        src: Source,
    },
    /// Jumps always, by the slot's offset.
    Jump {
        offset: i16,
    },
    /// Jumps always, by the slot's immediate.
    JumpFar {
        offset: i32,
    },
    /// Jumps where the condition holds (RFC 9669, section 4.3).
    Branch {
        width: Width,
        cond: Cond,
        left: Reg,
        right: Source,
        offset: i16,
    },
    /// Calls the helper of this number.
    Call {
        number: i32,
    },
    /// Ends the run with the number in `r0`.
    Exit,
}

impl Insn {
    ghost use Rattle.ebpf_insn.specs.Program.{slots_in};

    /// How many slots the instruction takes up: one, or two for a wide one.
    pub fn slots(self) -> usize
        ensures value { result ≡ slots_in self }
        ensures some { 1 ≤ result }
        ensures few { result ≤ 2 }
    {
        match self {
            Insn::Wide { .. } => 2,
            _ => 1,
        }
    }
}
