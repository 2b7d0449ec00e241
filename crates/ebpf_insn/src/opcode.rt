//! The table of opcodes (RFC 9669, section 3.2).
//!
//! The low three bits of an opcode are its class. In the arithmetic and jump classes (4 to 7) the bit 0x08 says where the
//! second operand comes from, and the high four bits are the code. In the load and store classes (0 to 3) the high three
//! bits are the mode and the next two the size.

ghost use Rattle.std.specs.Prelude.{◌≡◌, ◌≤◌, ◌/◌, ◌%◌, Some, None};
ghost use Rattle.ebpf_insn.specs.Opcodes.{opcode_of, form_of, store_class, alu_class, jump_class, alu_op_of, condition_of};
ghost use Rattle.ebpf_insn.specs.Opcodes.{size_code, operand_bit, alu_code, condition_code, is_left_out};

use crate::insn::{AluOp, Cond, Order, Size, Width};

// Where an instruction takes its second operand from.
#[derive(Clone, Copy)]
pub(crate) enum Operand {
    // The immediate of the slot.
    Immediate,
    // The register that the slot's src names.
    Register,
}

// What an opcode means, before the other fields of its slot are looked at.
#[derive(Clone, Copy)]
pub(crate) enum Form {
    // An operation on two operands. The offset makes a division or a remainder a signed one, and a move from a register a
    // sign-extending one, so `op` is never `SDiv` or `SRem`.
    Alu {
        width: Width,
        op: AluOp,
        operand: Operand,
    },
    Neg {
        width: Width,
    },
    Swap {
        order: Order,
    },
    // A load of 64 bits from this slot and the next.
    Wide,
    // A load, never a signed one of eight bytes.
    Load {
        size: Size,
        signed: bool,
    },
    Store {
        size: Size,
        operand: Operand,
    },
    // A jump by the offset.
    Jump,
    // A jump by the immediate.
    JumpFar,
    Branch {
        width: Width,
        cond: Cond,
        operand: Operand,
    },
    Call,
    Exit,
}

// The class LD. For each class this is the form of an opcode, or `None` where it means no instruction of ours.
#[inline(always)]
pub(crate) fn wide_form(opcode: u8) -> Option<Form>
    requires { opcode % 8 ≡ 0 }
    ensures { result ≡ form_of opcode }
{
    if opcode == 0x18 {
        Some(Form::Wide)
    } else {
        None
    }
}

// The class LDX, with the modes of memory (3) and of memory with its sign (4).
#[inline(always)]
pub(crate) fn load_form(opcode: u8) -> Option<Form>
    requires { opcode % 8 ≡ 1 }
    ensures { result ≡ form_of opcode }
{
    let size = size(opcode);
    match opcode / 32 {
        3 => Some(Form::Load {
            size,
            signed: false,
        }),
        4 if !matches!(size, Size::D) => Some(Form::Load { size, signed: true }),
        _ => None,
    }
}

// The classes ST and STX, with the mode of memory (3).
#[inline(always)]
pub(crate) fn store_form(opcode: u8, operand: Operand) -> Option<Form>
    requires { opcode % 8 ≡ store_class operand }
    ensures { result ≡ form_of opcode }
{
    let size = size(opcode);
    if opcode / 32 == 3 {
        Some(Form::Store { size, operand })
    } else {
        None
    }
}

// The classes ALU and ALU64, where the code means no operation on two operands.
pub(crate) fn lone_form(opcode: u8, width: Width) -> Option<Form>
    requires class { opcode % 8 ≡ alu_class width }
    requires none { alu_op_of (opcode / 16) ≡ None }
    ensures { result ≡ form_of opcode }
{
    match opcode {
        0x84 | 0x87 => Some(Form::Neg { width }),
        0xd4 => Some(Form::Swap {
            order: Order::Little,
        }),
        0xdc => Some(Form::Swap { order: Order::Big }),
        0xd7 => Some(Form::Swap { order: Order::Flip }),
        _ => None,
    }
}

// The classes JMP and JMP32, where the code means no condition.
pub(crate) fn leaving_form(opcode: u8, width: Width) -> Option<Form>
    requires class { opcode % 8 ≡ jump_class width }
    requires none { condition_of (opcode / 16) ≡ None }
    ensures { result ≡ form_of opcode }
{
    match opcode {
        0x05 => Some(Form::Jump),
        0x06 => Some(Form::JumpFar),
        0x85 => Some(Form::Call),
        0x95 => Some(Form::Exit),
        _ => None,
    }
}

// The operation of an arithmetic code, of the signed and the unsigned one the unsigned.
#[inline(always)]
pub(crate) fn alu_op(code: u8) -> Option<AluOp>
    ensures { result ≡ alu_op_of code }
{
    match code {
        0x0 => Some(AluOp::Add),
        0x1 => Some(AluOp::Sub),
        0x2 => Some(AluOp::Mul),
        0x3 => Some(AluOp::Div),
        0x4 => Some(AluOp::Or),
        0x5 => Some(AluOp::And),
        0x6 => Some(AluOp::Lsh),
        0x7 => Some(AluOp::Rsh),
        0x9 => Some(AluOp::Rem),
        0xa => Some(AluOp::Xor),
        0xb => Some(AluOp::Mov),
        0xc => Some(AluOp::Arsh),
        _ => None,
    }
}

// The condition of a jump's code.
#[inline(always)]
pub(crate) fn condition(code: u8) -> Option<Cond>
    ensures { result ≡ condition_of code }
{
    match code {
        0x1 => Some(Cond::Eq),
        0x2 => Some(Cond::Gt),
        0x3 => Some(Cond::Ge),
        0x4 => Some(Cond::Set),
        0x5 => Some(Cond::Ne),
        0x6 => Some(Cond::SGt),
        0x7 => Some(Cond::SGe),
        0xa => Some(Cond::Lt),
        0xb => Some(Cond::Le),
        0xc => Some(Cond::SLt),
        0xd => Some(Cond::SLe),
        _ => None,
    }
}

// The size of a load's or a store's opcode.
#[inline(always)]
fn size(opcode: u8) -> Size
    ensures { size_code result ≡ opcode / 8 % 4 }
{
    match opcode / 8 % 4 {
        0 => Size::W,
        1 => Size::H,
        2 => Size::B,
        _ => Size::D,
    }
}

// Whether an opcode that has no form is one of the forms that are left out: packets (20, 28, 30, 40, 48, 50), atomics
// (c3, db) and the call through a register (8d).
pub(crate) fn is_left_out(opcode: u8) -> bool
    ensures { result ≡ is_left_out opcode }
{
    matches!(
        opcode,
        0x20 | 0x28 | 0x30 | 0x40 | 0x48 | 0x50 | 0xc3 | 0xdb | 0x8d
    )
}

// The opcode of a form.
pub(crate) fn opcode_of(form: Form) -> u8
    requires { form_of (opcode_of form) ≡ Some form }
    ensures { result ≡ opcode_of form }
{
    match form {
        Form::Wide => 0x18,
        Form::Load {
            size,
            signed: false,
        } => 0x61 + 8 * size_code(size),
        Form::Load { size, signed: true } => 0x81 + 8 * size_code(size),
        Form::Store { size, operand } => 0x60 + store_class(operand) + 8 * size_code(size),
        Form::Alu { width, op, operand } => {
            alu_class(width) + 8 * operand_bit(operand) + 16 * alu_code(op)
        }
        Form::Neg { width } => alu_class(width) + 0x80,
        Form::Swap {
            order: Order::Little,
        } => 0xd4,
        Form::Swap { order: Order::Big } => 0xdc,
        Form::Swap { order: Order::Flip } => 0xd7,
        Form::Branch {
            width,
            cond,
            operand,
        } => jump_class(width) + 8 * operand_bit(operand) + 16 * condition_code(cond),
        Form::Jump => 0x05,
        Form::JumpFar => 0x06,
        Form::Call => 0x85,
        Form::Exit => 0x95,
    }
}

// The code of a size: the bits 0x18.
fn size_code(size: Size) -> u8
    ensures code { result ≡ size_code size }
    ensures few { result ≤ 3 }
{
    match size {
        Size::W => 0,
        Size::H => 1,
        Size::B => 2,
        Size::D => 3,
    }
}

// The bit 0x08 of arithmetic and jumps.
fn operand_bit(operand: Operand) -> u8
    ensures code { result ≡ operand_bit operand }
    ensures few { result ≤ 1 }
{
    match operand {
        Operand::Immediate => 0,
        Operand::Register => 1,
    }
}

// The class of a store.
fn store_class(operand: Operand) -> u8
    ensures code { result ≡ store_class operand }
    ensures few { result ≤ 3 }
{
    match operand {
        Operand::Immediate => 2,
        Operand::Register => 3,
    }
}

// The class of arithmetic.
fn alu_class(width: Width) -> u8
    ensures code { result ≡ alu_class width }
    ensures few { result ≤ 7 }
{
    match width {
        Width::W32 => 4,
        Width::W64 => 7,
    }
}

// The class of jumps.
fn jump_class(width: Width) -> u8
    ensures code { result ≡ jump_class width }
    ensures few { result ≤ 7 }
{
    match width {
        Width::W32 => 6,
        Width::W64 => 5,
    }
}

// The code of an operation, signed or not.
fn alu_code(op: AluOp) -> u8
    ensures code { result ≡ alu_code op }
    ensures few { result ≤ 12 }
{
    match op {
        AluOp::Add => 0x0,
        AluOp::Sub => 0x1,
        AluOp::Mul => 0x2,
        AluOp::Div | AluOp::SDiv => 0x3,
        AluOp::Or => 0x4,
        AluOp::And => 0x5,
        AluOp::Lsh => 0x6,
        AluOp::Rsh => 0x7,
        AluOp::Rem | AluOp::SRem => 0x9,
        AluOp::Xor => 0xa,
        AluOp::Mov => 0xb,
        AluOp::Arsh => 0xc,
    }
}

// The code of a condition.
fn condition_code(cond: Cond) -> u8
    ensures code { result ≡ condition_code cond }
    ensures few { result ≤ 13 }
{
    match cond {
        Cond::Eq => 0x1,
        Cond::Gt => 0x2,
        Cond::Ge => 0x3,
        Cond::Set => 0x4,
        Cond::Ne => 0x5,
        Cond::SGt => 0x6,
        Cond::SGe => 0x7,
        Cond::Lt => 0xa,
        Cond::Le => 0xb,
        Cond::SLt => 0xc,
        Cond::SLe => 0xd,
    }
}
