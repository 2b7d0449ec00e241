//! Why a slot of a program is refused, by what is there and what comes there.

ghost use Rattle.std.specs.Prelude.{◌≡◌, ◌++◌, None, OnOk, string_bytes};
ghost use Rattle.ebpf_verify.specs.Traced.{subject_of};
ghost use Rattle.ebpf_explain.specs.Loops.{closes_loop};
ghost use Rattle.ebpf_explain.specs.Reasons.{misled_in, reason_at, reason_by};

use crate::flow_sentence::write_flow_sentence;
use crate::loops::closes_loop;
use crate::loss::{loss_of, write_loss};
use crate::meeting::write_meeting;
use crate::verify_sentence::write_verify_sentence;
use ebpf_flow::fault::FlowCode;
use ebpf_insn::program::Program;
use ebpf_verify::comers::comers_to;
use ebpf_verify::entry::EntryState;
use ebpf_verify::fault::VerifyCode;
use ebpf_verify::trace::Trace;
use std::alloc::{AllocError, Global};

/// Writes after a text why the edges of a slot are refused, as a line: its number, what is wrong with its instruction, and how that is
/// mended; nothing, where no instruction begins there.
///
/// # Errors
/// It fails only where an allocation fails, and a part of the line may be written then.
pub fn write_misled(
    alloc: Global,
    text: &mut String,
    program: &Program,
    slot: usize,
    code: FlowCode,
) -> Result<(), AllocError>
    ensures { OnOk result (string_bytes text.new ≡ string_bytes text.old ++ misled_in program.now slot code) }
{
    match program.at(slot) {
        Some(insn) => {
            let slots = program.slots();
            let loops = closes_loop(alloc, program, slot, *insn)?;
            write_flow_sentence(text, slot, insn, slots, loops, code)
        }
        None => Ok(()),
    }
}

/// Writes after a text why an instruction is refused, by what comes to its slot, as [`write_verify_sentence`] does. Where paths
/// meet that hold different objects, it writes which two those are, and what each holds; where a register is read whose values were
/// lost, where that was, and two of them. It writes nothing where no instruction begins there, nothing comes or the slot was not looked at.
///
/// # Errors
/// It fails only where an allocation fails, and a part of the line may be written then.
pub fn write_reason(
    alloc: Global,
    text: &mut String,
    trace: &Trace,
    slot: usize,
    code: VerifyCode,
) -> Result<(), AllocError>
    ensures { OnOk result (string_bytes text.new ≡ string_bytes text.old ++ reason_at (subject_of trace.now) trace.now.entries.items slot code) }
{
    if let Some(loss) = loss_of(alloc, trace, slot, code)? {
        return write_loss(alloc, text, trace, slot, loss);
    }
    write_reason_at(alloc, text, trace, slot, code)
}

// Why an instruction is refused that reads no register whose values were lost.
fn write_reason_at(
    alloc: Global,
    text: &mut String,
    trace: &Trace,
    slot: usize,
    code: VerifyCode,
) -> Result<(), AllocError>
    ensures { OnOk result (string_bytes text.new ≡ string_bytes text.old ++ reason_by None (subject_of trace.now) trace.now.entries.items slot code) }
{
    let Some(insn) = trace.flowed.program().at(slot) else {
        return Ok(());
    };
    match trace.entries.get(slot) {
        Some(EntryState::Known(state)) => {
            write_verify_sentence(text, slot, insn, state, code, trace.decl, trace.kinds)
        }
        Some(EntryState::Conflict) => {
            let comers = comers_to(alloc, trace, slot)?;
            write_meeting(text, slot, &comers, trace.kinds)
        }
        _ => Ok(()),
    }
}
