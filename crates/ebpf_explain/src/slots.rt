//! What is known before each slot of a program, beside its instruction.

ghost use Rattle.std.specs.Prelude.{◌≡◌, ◌<◌, ◌++◌, length, string_bytes, OnOk};
ghost use Rattle.ebpf_explain.specs.Slots.{entry_line, known_lines, slot_lines};
ghost use Rattle.ebpf_verify.specs.Comers.{comers};
ghost use Rattle.ebpf_verify.specs.Traced.{subject_of};

use crate::known::write_known;
use crate::lost::write_lost;
use ebpf_text::line::line;
use ebpf_verify::comers::comers_to;
use ebpf_verify::entry::EntryState;
use ebpf_verify::trace::Trace;
use std::alloc::{AllocError, Global};

/// Writes two lines for each instruction that was looked at after a text: what is known before it, and the line of its listing;
/// where paths meet there and something is lost that each of them knew, a line between says what.
///
/// # Errors
/// It fails only where an allocation fails, and some of the lines may be written then.
pub fn write_slots(alloc: Global, text: &mut String, trace: &Trace) -> Result<(), AllocError>
    ensures { OnOk result (string_bytes text.new ≡ string_bytes text.old ++ known_lines (subject_of trace.now) trace.now.entries.items) }
{
    for slot in 0..trace.entries.len() {
        write_slot(alloc, text, trace, slot)?;
    }
    Ok(())
}

/// Writes the lines of a slot after a text, as [`write_slots`] does; nothing, where no instruction begins there.
///
/// # Errors
/// It fails only where an allocation fails, and some of the lines may be written then.
pub fn write_slot(
    alloc: Global,
    text: &mut String,
    trace: &Trace,
    slot: usize,
) -> Result<(), AllocError>
    requires inside { slot < length trace.now.entries.items }
    ensures { OnOk result (string_bytes text.new ≡ string_bytes text.old ++ slot_lines trace.now.flowed.now trace.now.entries.items trace.now.kinds.now slot) }
{
    let Some(insn) = trace.flowed.program().at(slot) else {
        return Ok(());
    };
    write_entry(alloc, text, trace, slot, &trace.entries[slot])?;
    let line = line(alloc, slot, insn)?;
    text.push_str(line.as_str())
}

// Writes what is known before a slot, and what is lost there.
fn write_entry(
    alloc: Global,
    text: &mut String,
    trace: &Trace,
    slot: usize,
    entry: &EntryState,
) -> Result<(), AllocError>
    requires inside { slot < length trace.now.entries.items }
    ensures { OnOk result (string_bytes text.new ≡ string_bytes text.old ++ entry_line trace.now.kinds.now (comers trace.now.flowed.now slot) entry.now) }
{
    match entry {
        EntryState::Known(state) => {
            write_known(text, state, trace.kinds)?;
            text.push_str("\n")?;
            let comers = comers_to(alloc, trace, slot)?;
            write_lost(alloc, text, &comers, state)
        }
        EntryState::Unreached => text.push_str("  never entered\n"),
        EntryState::Conflict => text.push_str("  paths meet that hold different objects\n"),
    }
}
