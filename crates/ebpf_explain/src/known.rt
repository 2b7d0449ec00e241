//! What is known before a slot, in words.

ghost use Rattle.std.specs.Prelude.{◌≡◌, ◌++◌, string_bytes, OnOk};
ghost use Rattle.ebpf_explain.specs.Known.{known_words};

use crate::references::write_references;
use crate::registers::write_registers;
use crate::stack_words::write_stack;
use ebpf_insn::register::Reg;
use ebpf_state::kinds::KindRow;
use ebpf_state::state::State;
use std::alloc::AllocError;

// All registers, in the order of their numbers.
pub(crate) const REGISTERS: [Reg; 11] = [
    Reg::R0,
    Reg::R1,
    Reg::R2,
    Reg::R3,
    Reg::R4,
    Reg::R5,
    Reg::R6,
    Reg::R7,
    Reg::R8,
    Reg::R9,
    Reg::R10,
];

/// Writes what a state knows after a text: the registers that are set, the words of the stack of which something is known,
/// and the references that are held, each with two blanks before it. The rows have the names of the kinds; a kind without a
/// row is known by its number.
///
/// # Errors
/// It fails only where an allocation fails, and some of the words may be written then.
pub fn write_known(text: &mut String, state: &State, kinds: &[KindRow]) -> Result<(), AllocError>
    ensures { OnOk result (string_bytes text.new ≡ string_bytes text.old ++ known_words state.now kinds.now) }
{
    write_registers(text, state, &REGISTERS)?;
    write_stack(text, state)?;
    write_references(text, state.references(), kinds)
}
