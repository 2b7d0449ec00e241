//! What a call or an exit does that it may not, in words, each written after a text. Writing fails only where an allocation
//! fails.

ghost use Rattle.std.specs.Prelude.{◌≡◌, ◌++◌, string_bytes, OnOk};
ghost use Rattle.ebpf_explain.specs.CallFaults.{helper_text, no_helper, call_with, too_many_held, held_at_exit, no_number_at_exit};
ghost use Rattle.ebpf_explain.specs.Mendings.{number_called};
ghost use Rattle.ebpf_explain.specs.Reads.{registers_read};

use crate::mending::number_called;
use crate::reads::write_with_reads;
use crate::references::write_references;
use crate::registers::write_register;
use ebpf_insn::insn::Insn;
use ebpf_insn::register::Reg;
use ebpf_state::held::Held;
use ebpf_state::kinds::KindRow;
use ebpf_state::state::State;
use std::alloc::AllocError;

// There is no helper of this number.
pub(crate) fn write_no_helper(text: &mut String, number: i32) -> Result<(), AllocError>
    ensures { OnOk result (string_bytes text.new ≡ string_bytes text.old ++ no_helper number) }
{
    write_helper(text, number)?;
    text.push_str(", which does not exist")
}

// The number of a helper that is called.
fn write_helper(text: &mut String, number: i32) -> Result<(), AllocError>
    ensures { OnOk result (string_bytes text.new ≡ string_bytes text.old ++ helper_text number) }
{
    write!(text, "calls helper {number}")
}

// A call, and what is wrong with the registers that it reads.
pub(crate) fn write_call_with(
    text: &mut String,
    fault: &str,
    state: &State,
    insn: &Insn,
) -> Result<(), AllocError>
    ensures { OnOk result (string_bytes text.new ≡ string_bytes text.old ++ call_with (number_called insn.now) fault.now state.now (registers_read insn.now)) }
{
    write_helper(text, number_called(insn))?;
    write_with_reads(text, fault, state, insn)
}

// As many objects are held already as the program declares.
pub(crate) fn write_too_many_held(text: &mut String, held: usize) -> Result<(), AllocError>
    ensures { OnOk result (string_bytes text.new ≡ string_bytes text.old ++ too_many_held held) }
{
    write!(
        text,
        "asks for an object while holding {held}, the most the program declares"
    )
}

// An object is held at the exit.
pub(crate) fn write_held_at_exit(
    text: &mut String,
    held: &[Held],
    kinds: &[KindRow],
) -> Result<(), AllocError>
    ensures { OnOk result (string_bytes text.new ≡ string_bytes text.old ++ held_at_exit held.now kinds.now) }
{
    text.push_str("exits while holding objects,")?;
    write_references(text, held, kinds)
}

// The result of the exit is no number.
pub(crate) fn write_no_number_at_exit(text: &mut String, state: &State) -> Result<(), AllocError>
    ensures { OnOk result (string_bytes text.new ≡ string_bytes text.old ++ no_number_at_exit state.now) }
{
    text.push_str("exits with")?;
    write_register(text, Reg::R0, state.reg(Reg::R0))?;
    text.push_str(", which is not a number")
}
