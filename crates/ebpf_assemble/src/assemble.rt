//! The command `assemble`.

ghost use Rattle.std.specs.Prelude.{◌≡◌, ℕ, List, IfOk};
ghost use Rattle.ebpf_command.specs.Response.{refused_response};
ghost use Rattle.ebpf_command.specs.Writing.{Performs};
ghost use Rattle.ebpf_assemble.specs.FaultText.{long_text_lines, IsFaultText};
ghost use Rattle.ebpf_assemble.specs.AssembleText.{Assembles, AreSlotsOf, WritesEachText, WritesEachListing};

use crate::fault_text::assembly_fault_text;
use crate::slots_text::slots_text;
use ebpf_assembly::assemble::assemble as assemble_text;
use ebpf_assembly::fault::AssemblyFault;
use ebpf_command::answer::{Answer, respond};
use ebpf_command::done::{Done, EngineFault, FaultCode};
use ebpf_command::input::MAX_INPUT;
use ebpf_command::text::fault_line;
use ebpf_insn::encode::encode;
use ebpf_insn::program::Program;
use std::alloc::{AllocError, Global};
use std::io::{Read, Write};

/// Reads the text of a program and writes its slots as hex, a line for each; or the first line at fault, and what is wrong with
/// it.
///
/// # Errors
/// `Input` where a read failed and `NoMemory` where an allocation failed: nothing was written then. `Output` where a write
/// failed or took nothing.
pub fn assemble<R: Read, W: Write>(
    alloc: Global,
    reader: &mut R,
    writer: &mut W,
) -> Result<Done, EngineFault>
    // The slots of the program that the input is a text of are written, or why it is of none, and nothing else.
    ensures done { Performs Assembles (R.remaining reader.old) (R.remaining reader.new) (W.contents writer.old) (W.contents writer.new)
        writer.old writer.new result }
    // Of a text of a program its slots are written, and no fault.
    ensures only { WritesEachText (R.remaining reader.old) (W.contents writer.old) (W.contents writer.new) result }
    // So they are of its listing.
    ensures back { WritesEachListing (R.remaining reader.old) (W.contents writer.old) (W.contents writer.new) result }
{
    respond(alloc, reader, writer, |input| assemble_input(alloc, input))
}

// The response to an input.
fn assemble_input(alloc: Global, input: &[u8]) -> Result<Answer, AllocError>
    ensures { IfOk result (Assembles input.now) }
{
    if input.len() > MAX_INPUT {
        return answer_long(alloc);
    }
    match assemble_text(alloc, input) {
        Ok(program) => answer_slots(alloc, &program),
        Err(AssemblyFault::NoMemory) => Err(AllocError),
        Err(fault) => answer_fault(alloc, input, fault),
    }
}

// The answer to a text that is too long.
fn answer_long(alloc: Global) -> Result<Answer, AllocError>
    ensures { IfOk result (λ answer. answer ≡ refused_response long_text_lines) }
{
    let mut text = fault_line(alloc, FaultCode::InputTooLong, 0)?;
    text.push_str("  the text has more than 1048576 bytes\n")?;
    Ok(Answer {
        text,
        done: Done::Refused,
    })
}

// The answer with the slots of a program.
fn answer_slots(alloc: Global, program: &Program) -> Result<Answer, AllocError>
    ensures { IfOk result (AreSlotsOf program.now) }
{
    let bytes = encode(alloc, program)?;
    Ok(Answer {
        text: slots_text(alloc, &bytes)?,
        done: Done::Clean,
    })
}

// The answer to a text that is of no program.
fn answer_fault(alloc: Global, input: &[u8], fault: AssemblyFault) -> Result<Answer, AllocError>
    ensures { IfOk result (λ answer. (lines : List ℕ) × IsFaultText input.now fault lines × (answer ≡ refused_response lines)) }
{
    Ok(Answer {
        text: assembly_fault_text(alloc, input, fault)?,
        done: Done::Refused,
    })
}
