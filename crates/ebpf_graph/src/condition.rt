//! The condition of a branch, written after a text. Writing fails only where an allocation fails.

ghost use Rattle.std.specs.Prelude.{◌≡◌, ◌++◌, string_bytes, OnOk};
ghost use Rattle.ebpf_graph.specs.Conditions.{compared_register, compared_source, comparison, condition, register_letter};

use ebpf_insn::insn::{Cond, Source, Width};
use ebpf_insn::register::Reg;
use std::alloc::AllocError;

// The comparison with its operands.
pub(crate) fn write_condition(
    text: &mut String,
    width: Width,
    cond: Cond,
    left: Reg,
    right: Source,
) -> Result<(), AllocError>
    ensures { OnOk result (string_bytes text.new ≡ string_bytes text.old ++ condition width cond left right) }
{
    write_register(text, width, left)?;
    text.push_str(comparison(cond))?;
    match right {
        Source::Register(register) => write_register(text, width, register),
        Source::Imm(immediate) => write!(text, "{immediate}"),
    }
}

// A register, or its low half.
fn write_register(text: &mut String, width: Width, register: Reg) -> Result<(), AllocError>
    ensures { OnOk result (string_bytes text.new ≡ string_bytes text.old ++ compared_register width register) }
{
    let letter = register_letter(width);
    write!(text, "{letter}{}", register.number())
}

// The letter of a register, or of its low half.
fn register_letter(width: Width) -> &'static str
    ensures { result.now ≡ register_letter width }
{
    match width {
        Width::W32 => "w",
        Width::W64 => "r",
    }
}

// The comparison, with a blank at each side.
fn comparison(cond: Cond) -> &'static str
    ensures { result.now ≡ comparison cond }
{
    match cond {
        Cond::Eq => " == ",
        Cond::Ne => " != ",
        Cond::Gt => " > ",
        Cond::Ge => " >= ",
        Cond::Lt => " < ",
        Cond::Le => " <= ",
        Cond::Set => " & ",
        Cond::SGt => " s> ",
        Cond::SGe => " s>= ",
        Cond::SLt => " s< ",
        Cond::SLe => " s<= ",
    }
}
