//! What a branch compares that leads out of a loop, first and last.

ghost use Rattle.std.specs.Prelude.{◌≡◌, ◌++◌, Some, IfOk, OnOk, string_bytes};
ghost use Rattle.ebpf_forward.specs.ExitText.{change_of, changes, exit_at, exit_in};

use ebpf_explain::values::write_value;
use ebpf_insn::insn::{Insn, Source};
use ebpf_insn::program::Program;
use ebpf_insn::register::Reg;
use ebpf_state::value::Abs;
use ebpf_text::line::write_insn;
use ebpf_unroll::long_loop::LoopExit;
use std::alloc::{AllocError, Global};

/// What a branch compares that leads out of a loop, first and last. It fails only where an allocation fails.
pub(crate) fn exit_text(
    alloc: Global,
    program: &Program,
    exit: LoopExit,
) -> Result<String, AllocError>
    ensures { IfOk result (λ text. string_bytes text ≡ exit_in program.now exit) }
{
    let mut text = String::new(alloc);
    if let Some(insn) = program.at(exit.slot as usize) {
        write_exit(&mut text, insn, exit)?;
    }
    Ok(text)
}

// Writes what an instruction compares.
fn write_exit(text: &mut String, insn: &Insn, exit: LoopExit) -> Result<(), AllocError>
    ensures { OnOk result (string_bytes text.new ≡ string_bytes text.old ++ exit_at exit (Some insn.now)) }
{
    let slot = exit.slot;
    write!(text, "slot {slot}, ")?;
    write_insn(text, insn)?;
    text.push_str(", leads out of it: ")?;
    write_changes(text, insn, exit)
}

// How the registers change that a branch compares.
fn write_changes(text: &mut String, insn: &Insn, exit: LoopExit) -> Result<(), AllocError>
    ensures { OnOk result (string_bytes text.new ≡ string_bytes text.old ++ changes insn.now exit) }
{
    match *insn {
        Insn::Branch { left, right, .. } => {
            write_change(text, left, exit.first.left, exit.last.left)?;
            match right {
                Source::Register(right) => {
                    text.push_str("; ")?;
                    write_change(text, right, exit.first.right, exit.last.right)
                }
                Source::Imm(_) => Ok(()),
            }
        }
        _ => Ok(()),
    }
}

// What a register was, and is.
fn write_change(text: &mut String, register: Reg, first: Abs, last: Abs) -> Result<(), AllocError>
    ensures { OnOk result (string_bytes text.new ≡ string_bytes text.old ++ change_of register first last) }
{
    write!(text, "r{} was ", register.number())?;
    write_value(text, first)?;
    text.push_str(", and is ")?;
    write_value(text, last)
}
