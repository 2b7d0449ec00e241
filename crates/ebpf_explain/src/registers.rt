//! What is known of the registers, in words, each written after a text. Writing fails only where an allocation fails.

ghost use Rattle.std.specs.Prelude.{◌≡◌, ◌++◌, string_bytes, OnOk};
ghost use Rattle.std.specs.List.{flat_map};
ghost use Rattle.ebpf_explain.specs.Registers.{register_word, known_register};

use crate::values::write_value;
use ebpf_insn::register::Reg;
use ebpf_state::state::State;
use ebpf_state::value::Abs;
use std::alloc::AllocError;

// The words of these registers, in their order.
pub(crate) fn write_registers(
    text: &mut String,
    state: &State,
    registers: &[Reg],
) -> Result<(), AllocError>
    ensures { OnOk result (string_bytes text.new ≡ string_bytes text.old ++ flat_map (known_register state.now) registers.now) }
{
    for register in registers {
        write_register(text, *register, state.reg(*register))?;
    }
    Ok(())
}

// The word of a register that is set.
pub(crate) fn write_register(text: &mut String, register: Reg, value: Abs) -> Result<(), AllocError>
    ensures { OnOk result (string_bytes text.new ≡ string_bytes text.old ++ register_word register value) }
{
    if value.is_unset() {
        return Ok(());
    }
    write!(text, "  r{} ", register.number())?;
    write_value(text, value)
}
