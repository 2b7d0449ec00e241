//! The listing of a program.

ghost use Rattle.std.specs.Prelude.{◌≡◌, ◌++◌, string_bytes, IfOk, OnOk};
ghost use Rattle.ebpf_insn.specs.Program.{insn_at};
ghost use Rattle.ebpf_text.specs.Listing.{line_at, listing_of};

use crate::line::write_line;
use ebpf_insn::program::Program;
use std::alloc::{AllocError, Global};

/// The lines of a program's instructions, in the order of their slots. It fails only where an allocation fails.
pub fn listing(alloc: Global, program: &Program) -> Result<String, AllocError>
    ensures { IfOk result (λ text. string_bytes text ≡ listing_of program.now) }
{
    let mut text = String::new(alloc);
    for slot in 0..program.slots() {
        write_slot(&mut text, program, slot)?;
    }
    Ok(text)
}

// Writes the line of a slot after a text, if an instruction begins there. It fails only where an allocation fails.
fn write_slot(text: &mut String, program: &Program, slot: usize) -> Result<(), AllocError>
    ensures { OnOk result (string_bytes text.new ≡ string_bytes text.old ++ line_at slot (insn_at program.now slot)) }
{
    match program.at(slot) {
        Some(insn) => write_line(text, slot, insn),
        None => Ok(()),
    }
}
