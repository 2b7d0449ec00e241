//! Why a text is of no program, in words.

ghost use Rattle.std.specs.Prelude.{◌≡◌, ◌++◌, IfOk, OnOk, string_bytes};
ghost use Rattle.ebpf_assemble.specs.FaultText.{cause_words, line_fault_name, wanted_words, IsFaultText};

use ebpf_assembly::cause::{Cause, Wanted, cause_of};
use ebpf_assembly::fault::{AssemblyFault, LineFault};
use std::alloc::{AllocError, Global};

// The code and the line of a text, and then what is wrong with it.
pub(crate) fn assembly_fault_text(
    alloc: Global,
    text: &[u8],
    fault: AssemblyFault,
) -> Result<String, AllocError>
    ensures { IfOk result (λ lines. IsFaultText text.now fault (string_bytes lines)) }
{
    match fault {
        AssemblyFault::Bad { line, fault } => {
            let cause = cause_of(alloc, text, line, fault)?;
            let name = line_fault_name(fault);
            let mut lines = format!(in alloc; "fault {name} line {line}\n  ")?;
            write_cause(&mut lines, cause)?;
            lines.push_str("\n")?;
            Ok(lines)
        }
        AssemblyFault::Empty { line } => {
            format!(in alloc; "fault A4 line {line}\n  no line has an instruction\n")
        }
        AssemblyFault::NoMemory => Ok(String::new(alloc)),
    }
}

// The code of what is wrong with a line.
fn line_fault_name(fault: LineFault) -> &'static str
    ensures { result.now ≡ line_fault_name fault }
{
    match fault {
        LineFault::WrongSlot => "A1",
        LineFault::NoInstruction => "A2",
        LineFault::TooManySlots => "A3",
    }
}

// Why a line is at fault.
fn write_cause(text: &mut String, cause: Cause) -> Result<(), AllocError>
    ensures { OnOk result (string_bytes text.new ≡ string_bytes text.old ++ cause_words cause) }
{
    match cause {
        Cause::OtherSlot => {
            text.push_str(
                "what is before the colon is neither the slot of this instruction nor a label",
            )
        }
        Cause::SecondLabel => text.push_str("the line has a second label or slot"),
        Cause::LabelTwice => text.push_str("the label is that of an earlier line"),
        Cause::LabelTooLate => text.push_str("the text has more than 256 labels"),
        Cause::NoWord => text.push_str("after the slot there is no instruction"),
        Cause::NoWidth => { text.push_str("the name has no width: add 64 or 32, as in mov64") }
        Cause::UnknownWord => text.push_str("no instruction has that name"),
        Cause::Operands { wanted } => {
            write!(
                text,
                "wrong number of operands: this instruction takes {wanted}"
            )
        }
        Cause::Operand { number, wanted } => {
            let words = wanted_words(wanted);
            write!(text, "operand {number} is not {words}")
        }
        Cause::NoLabel { number } => write!(text, "operand {number} is the name of no label"),
        Cause::Other => text.push_str("this is not an instruction"),
        Cause::TooManySlots => {
            text.push_str("with this instruction the program has more than 4096 slots")
        }
    }
}

// What an operand has to be.
fn wanted_words(wanted: Wanted) -> &'static str
    ensures { result.now ≡ wanted_words wanted }
{
    match wanted {
        Wanted::Register => "a register, r0 to r10",
        Wanted::Source => "a register or a number of 32 bits without leading zeros",
        Wanted::Immediate => "a number of 32 bits without leading zeros",
        Wanted::Number => "a number of 64 bits without sign and leading zeros",
        Wanted::Place => "a place in memory, as [r1+0], with an offset of 16 bits",
        Wanted::Offset => "an offset of 16 bits with its sign, as +1, or a label",
        Wanted::FarOffset => "an offset of 32 bits with its sign, as +1, or a label",
    }
}
