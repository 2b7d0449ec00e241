//! The words of a listing.

ghost use Rattle.std.specs.Prelude.{◌≡◌};
ghost use Rattle.ebpf_text.specs.Names.{width_name, size_name, order_name, alu_name, cond_name};

use ebpf_insn::insn::{AluOp, Cond, Order, Size, Width};

// How many bits of its operands an operation or a comparison reads.
pub(crate) fn width_name(width: Width) -> &'static str
    ensures { result.now ≡ width_name width }
{
    match width {
        Width::W32 => "32",
        Width::W64 => "64",
    }
}

// How many bytes a load or a store moves.
pub(crate) fn size_name(size: Size) -> &'static str
    ensures { result.now ≡ size_name size }
{
    match size {
        Size::B => "b",
        Size::H => "h",
        Size::W => "w",
        Size::D => "dw",
    }
}

// What a byte swap does.
pub(crate) fn order_name(order: Order) -> &'static str
    ensures { result.now ≡ order_name order }
{
    match order {
        Order::Little => "le",
        Order::Big => "be",
        Order::Flip => "swap",
    }
}

// An arithmetic operation.
pub(crate) fn alu_name(op: AluOp) -> &'static str
    ensures { result.now ≡ alu_name op }
{
    match op {
        AluOp::Add => "add",
        AluOp::Sub => "sub",
        AluOp::Mul => "mul",
        AluOp::Div => "div",
        AluOp::SDiv => "sdiv",
        AluOp::Or => "or",
        AluOp::And => "and",
        AluOp::Lsh => "lsh",
        AluOp::Rsh => "rsh",
        AluOp::Rem => "mod",
        AluOp::SRem => "smod",
        AluOp::Xor => "xor",
        AluOp::Mov => "mov",
        AluOp::Arsh => "arsh",
    }
}

// The condition of a branch.
pub(crate) fn cond_name(cond: Cond) -> &'static str
    ensures { result.now ≡ cond_name cond }
{
    match cond {
        Cond::Eq => "jeq",
        Cond::Ne => "jne",
        Cond::Gt => "jgt",
        Cond::Ge => "jge",
        Cond::Lt => "jlt",
        Cond::Le => "jle",
        Cond::Set => "jset",
        Cond::SGt => "jsgt",
        Cond::SGe => "jsge",
        Cond::SLt => "jslt",
        Cond::SLe => "jsle",
    }
}
