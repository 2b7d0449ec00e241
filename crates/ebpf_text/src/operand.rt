//! The texts of operands, each written after a text. They fail only where an allocation fails.

ghost use Rattle.std.specs.Prelude.{◌≡◌, ◌++◌, string_bytes, OnOk};
ghost use Rattle.ebpf_text.specs.Operands.{source_text, offset_text, place_text};

use ebpf_insn::insn::Source;
use ebpf_insn::register::Reg;
use std::alloc::AllocError;

// A register, or a signed immediate.
pub(crate) fn write_source(text: &mut String, source: Source) -> Result<(), AllocError>
    ensures { OnOk result (string_bytes text.new ≡ string_bytes text.old ++ source_text source) }
{
    match source {
        Source::Register(register) => write!(text, "r{}", register.number()),
        Source::Imm(immediate) => write!(text, "{immediate}"),
    }
}

// An offset: a reader sees its sign, also where it is zero.
pub(crate) fn write_offset(text: &mut String, offset: i32) -> Result<(), AllocError>
    ensures { OnOk result (string_bytes text.new ≡ string_bytes text.old ++ offset_text offset) }
{
    if offset < 0 {
        write!(text, "{offset}")
    } else {
        write!(text, "+{offset}")
    }
}

// A place in memory.
pub(crate) fn write_place(text: &mut String, base: Reg, offset: i16) -> Result<(), AllocError>
    ensures { OnOk result (string_bytes text.new ≡ string_bytes text.old ++ place_text base offset) }
{
    write!(text, "[r{}", base.number())?;
    write_offset(text, offset as i32)?;
    text.push_str("]")
}
