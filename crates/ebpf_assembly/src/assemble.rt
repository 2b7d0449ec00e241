//! From a text to its program.

ghost use Rattle.std.specs.Prelude.{◌≡◌, ◌++◌, List, Option, IfOk, IfErr, OnOk, MatchResult};
ghost use Rattle.ebpf_insn.specs.declared.insn.Insn.{Insn};
ghost use Rattle.ebpf_insn.specs.Program.{placed};
ghost use Rattle.ebpf_insn.specs.Encoding.{IsWellFormed};
ghost use Rattle.ebpf_text.specs.Listing.{listing_of};
ghost use Rattle.ebpf_assembly.specs.declared.fault.AssemblyFault.TheVariants.{NoMemory};
ghost use Rattle.ebpf_assembly.specs.Lines.{IsAssembledPlain};
ghost use Rattle.ebpf_assembly.specs.Assembly.{IsAssembled};
ghost use Rattle.ebpf_assembly.specs.Faults.{IsPlainFault, IsAssemblyFault};

use crate::fault::AssemblyFault;
use crate::label::{first_labels, read_labels};
use crate::line::read_line;
use crate::plain::{plain_lines, without_first};
use ebpf_insn::insn::Insn;
use ebpf_insn::program::Program;
use std::alloc::{AllocError, Global};

/// The program of a text.
///
/// # Errors
/// `Bad` with the first line at fault, counted from 1, and what is wrong with it; `Empty` where no line has an instruction;
/// `NoMemory` where an allocation failed.
pub fn assemble(alloc: Global, text: &[u8]) -> Result<Program, AssemblyFault>
    ensures ok { IfOk result (IsAssembled text.now) }
    // Which fault it is.
    ensures refused { IfErr result (IsAssemblyFault text.now) }
    // The text of a program is assembled to it, unless memory runs out.
    ensures only { (p : List (Option Insn)) → IsAssembled text.now p → MatchResult result (λ q. q ≡ p) (λ e. e ≡ NoMemory) }
    // The same of its listing, which is such a text.
    ensures back { (p : List (Option Insn)) → IsWellFormed p → text.now ≡ listing_of p → MatchResult result (λ q. q ≡ p) (λ e. e ≡ NoMemory) }
{
    read_text(alloc, text)
}

// Reads the lines of a text without its labels.
fn read_text(alloc: Global, text: &[u8]) -> Result<Program, AssemblyFault>
    ensures ok { IfOk result (IsAssembled text.now) }
    ensures refused { IfErr result (IsAssemblyFault text.now) }
{
    let all = read_labels(alloc, text)?;
    let labels = first_labels(&all);
    if labels.is_empty() {
        return read_lines(alloc, text);
    }
    let lines = plain_lines(alloc, labels, text)?;
    read_lines(alloc, without_first(&lines))
}

// Reads the lines one by one, to the first at fault.
fn read_lines(alloc: Global, text: &[u8]) -> Result<Program, AssemblyFault>
    ensures ok { IfOk result (IsAssembledPlain text.now) }
    ensures refused { IfErr result (IsPlainFault text.now) }
{
    let mut slots = Vec::new(alloc);
    let mut len = 0;
    let mut number = 0;
    for line in text.split(|c| *c == b'\n') {
        number += 1;
        match read_line(alloc, number, slots.len(), line) {
            Ok(None) => {}
            Ok(Some(insn)) => {
                place(&mut slots, insn)?;
                len += 1;
            }
            Err(fault) => return Err(fault),
        }
    }
    if len == 0 {
        return Err(AssemblyFault::Empty { line: number });
    }
    Ok(Program::new(slots, len))
}

// Adds the slots that an instruction takes up.
fn place(slots: &mut Vec<Option<Insn>>, insn: Insn) -> Result<(), AllocError>
    ensures { OnOk result (slots.new.items ≡ slots.old.items ++ placed insn) }
{
    slots.push(Some(insn))?;
    if let Insn::Wide { .. } = insn {
        slots.push(None)?;
    }
    Ok(())
}
