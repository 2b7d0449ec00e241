//! What is known before each slot, as objects of JSON.

ghost use Rattle.std.specs.Prelude.{◌≡◌, ◌<◌, ◌++◌, OnOk, length, string_bytes};
ghost use Rattle.ebpf_explain.specs.Known.{known_words};
ghost use Rattle.ebpf_explain.specs.Lost.{lost_line};
ghost use Rattle.ebpf_explain.specs.StackWords.{texts_below};
ghost use Rattle.ebpf_verify.specs.Comers.{comers};
ghost use Rattle.ebpf_verify.specs.Traced.{subject_of};
ghost use Rattle.ebpf_show.specs.KnownObjects.{entry_objects, known_object, lost_object, slot_objects};

use ebpf_command::json::{sentence_of, write_quoted};
use ebpf_explain::known::write_known;
use ebpf_explain::lost::write_lost;
use ebpf_input::json_text::{words_of, write_instruction};
use ebpf_state::kinds::KindRow;
use ebpf_state::state::State;
use ebpf_verify::comers::comers_to;
use ebpf_verify::entry::EntryState;
use ebpf_verify::trace::Trace;
use std::alloc::{AllocError, Global};

/// Writes what is known before each slot after a text.
pub(crate) fn write_objects(
    alloc: Global,
    text: &mut String,
    trace: &Trace,
) -> Result<(), AllocError>
    ensures { OnOk result (string_bytes text.new ≡ string_bytes text.old
        ++ texts_below (length trace.now.entries.items) (slot_objects trace.now.flowed.now trace.now.entries.items trace.now.kinds.now)) }
{
    for slot in 0..trace.entries.len() {
        write_slot_objects(alloc, text, trace, slot)?;
    }
    Ok(())
}

/// Writes what is known before a slot after a text, what is lost there, and its instruction; nothing, where none begins there.
pub(crate) fn write_slot_objects(
    alloc: Global,
    text: &mut String,
    trace: &Trace,
    slot: usize,
) -> Result<(), AllocError>
    requires inside { slot < length trace.now.entries.items }
    ensures { OnOk result (string_bytes text.new ≡ string_bytes text.old
        ++ slot_objects trace.now.flowed.now trace.now.entries.items trace.now.kinds.now slot) }
{
    let Some(insn) = trace.flowed.program().at(slot) else {
        return Ok(());
    };
    write_entry(alloc, text, trace, slot, &trace.entries[slot])?;
    write_instruction(text, slot, insn)?;
    Ok(())
}

// Writes what is known before a slot, and what is lost there.
fn write_entry(
    alloc: Global,
    text: &mut String,
    trace: &Trace,
    slot: usize,
    entry: &EntryState,
) -> Result<(), AllocError>
    requires inside { slot < length trace.now.entries.items }
    ensures { OnOk result (string_bytes text.new ≡ string_bytes text.old ++ entry_objects trace.now.kinds.now (comers trace.now.flowed.now slot) entry.now) }
{
    match entry {
        EntryState::Known(state) => {
            write_known_of(alloc, text, state, trace.kinds)?;
            write_lost_at(alloc, text, trace, slot, state)?;
            Ok(())
        }
        EntryState::Unreached => text.push_str("{\"known\":\"never entered\"}\n"),
        EntryState::Conflict => {
            text.push_str("{\"known\":\"paths meet that hold different objects\"}\n")
        }
    }
}

// Writes what a state knows.
fn write_known_of(
    alloc: Global,
    text: &mut String,
    state: &State,
    kinds: &[KindRow],
) -> Result<(), AllocError>
    ensures { OnOk result (string_bytes text.new ≡ string_bytes text.old ++ known_object (known_words state.now kinds.now)) }
{
    let mut words = String::new(alloc);
    write_known(&mut words, state, kinds)?;
    write_known_object(text, &words)?;
    Ok(())
}

// Writes what is lost before a slot, where this state is known.
fn write_lost_at(
    alloc: Global,
    text: &mut String,
    trace: &Trace,
    slot: usize,
    state: &State,
) -> Result<(), AllocError>
    requires inside { slot < length trace.now.entries.items }
    ensures { OnOk result (string_bytes text.new ≡ string_bytes text.old ++ lost_object (lost_line (comers trace.now.flowed.now slot) state.now)) }
{
    let comers = comers_to(alloc, trace, slot)?;
    let mut lost = String::new(alloc);
    write_lost(alloc, &mut lost, &comers, state)?;
    write_lost_object(text, &lost)?;
    Ok(())
}

// Writes the object of the words of what is known.
fn write_known_object(text: &mut String, words: &str) -> Result<(), AllocError>
    ensures { OnOk result (string_bytes text.new ≡ string_bytes text.old ++ known_object words.now) }
{
    text.push_str("{\"known\":")?;
    write_quoted(text, words_of(words.as_bytes()))?;
    text.push_str("}\n")?;
    Ok(())
}

// Writes the object of the line of what is lost, if there is one.
fn write_lost_object(text: &mut String, line: &str) -> Result<(), AllocError>
    ensures { OnOk result (string_bytes text.new ≡ string_bytes text.old ++ lost_object line.now) }
{
    if line.is_empty() {
        return Ok(());
    }
    text.push_str("{\"lost\":")?;
    write_quoted(text, sentence_of(line.as_bytes()))?;
    text.push_str("}\n")?;
    Ok(())
}
