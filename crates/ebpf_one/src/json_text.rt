//! A run and a listing, as objects of JSON.

ghost use Rattle.std.specs.Prelude.{◌≡◌, ◌++◌, IfOk, OnOk, length, string_bytes};
ghost use Rattle.ebpf_explain.specs.StackWords.{texts_below};
ghost use Rattle.ebpf_insn.specs.Program.{insn_at};
ghost use Rattle.ebpf_one.specs.Formats.{run_objects, object_at};

use ebpf_command::json::write_numbers;
use ebpf_input::json_text::write_instruction;
use ebpf_insn::program::Program;
use std::alloc::{AllocError, Global};

/// Writes the objects of a program of n instructions that ran to its end, after a text.
pub(crate) fn write_run_objects(
    text: &mut String,
    len: usize,
    output: &[u64],
    exit: u64,
    executed: u64,
    peak: u64,
) -> Result<(), AllocError>
    ensures { OnOk result (string_bytes text.new ≡ string_bytes text.old ++ run_objects len output.now exit executed peak) }
{
    write!(text, "{{\"accepted\":{len}}}\n")?;
    write!(
        text,
        "{{\"exit\":{exit},\"executed\":{executed},\"peak\":{peak},\"output\":["
    )?;
    write_numbers(text, output)?;
    text.push_str("]}\n")
}

/// Writes the object of the instruction at a slot, if one begins there.
pub(crate) fn write_object_at(
    text: &mut String,
    program: &Program,
    slot: usize,
) -> Result<(), AllocError>
    ensures { OnOk result (string_bytes text.new ≡ string_bytes text.old ++ object_at slot (insn_at program.now slot)) }
{
    match program.at(slot) {
        Some(insn) => write_instruction(text, slot, insn),
        None => Ok(()),
    }
}

/// The objects of a program's instructions.
pub(crate) fn listing_objects(alloc: Global, program: &Program) -> Result<String, AllocError>
    ensures { IfOk result (λ text. string_bytes text ≡ texts_below (length program.now) (λ slot. object_at slot (insn_at program.now slot))) }
{
    let mut text = String::new(alloc);
    for slot in 0..program.slots() {
        write_object_at(&mut text, program, slot)?;
    }
    Ok(text)
}
