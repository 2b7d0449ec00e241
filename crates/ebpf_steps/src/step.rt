//! A step of a run, and its line.

ghost use Rattle.std.specs.Prelude.{◌≡◌, ◌≤◌, ◌++◌, None, string_bytes, length, OnOk};
ghost use Rattle.ebpf_insn.specs.Program.{insn_at, instructions};
ghost use Rattle.ebpf_machine.specs.World.{kinds_of};
ghost use Rattle.ebpf_machine.specs.Sound.{IsAlone};
ghost use Rattle.ebpf_machine.specs.Step.{GivesBackNext, seen_in};
ghost use Rattle.ebpf_machine.specs.Store.{AreOut};
ghost use Rattle.ebpf_machine.specs.Turns.{IsTurn};
ghost use Rattle.ebpf_steps.specs.Changes.{frame_of};
ghost use Rattle.ebpf_steps.specs.Chosen.{chosen_at};
ghost use Rattle.ebpf_steps.specs.StepText.{head_in, line_at, step_in, tail_in};

use crate::change::changed;
use crate::choice::Choice;
use crate::words::write_change;
use ebpf_command::format::Format;
use ebpf_insn::insn::Insn;
use ebpf_machine::objects::Objects;
use ebpf_machine::run::Run;
use ebpf_text::line::write_insn;
use ebpf_verify::verified::Verified;
use std::alloc::AllocError;

/// Does one instruction of a run that goes on, and says whether this step is chosen.
///
/// Of the run and of the store it asks what [`Run::step`] does.
pub fn step_chosen<O: Objects>(
    choice: Choice,
    verified: &Verified,
    run: &mut Run<'_, O::Held>,
    objects: &mut O,
) -> bool
    requires kinds { O.store.kinds ≡ kinds_of run.old.subject.rows }
    requires room { GivesBackNext (seen_in O.store objects.old run.old) → O.store.can_give objects.old }
    requires out { AreOut O.store objects.old run.old.held }
    requires alone { IsAlone (seen_in O.store objects.old run.old) }
    requires going { run.old.exit ≡ None }
    requires program { run.old.subject ≡ verified.now }
    ensures turn { IsTurn O.store run.old run.new objects.old objects.new }
    ensures bounded { run.new.executed ≤ length (instructions verified.now.program) }
    ensures chosen { result ≡ chosen_at choice run.old.executed run.old.pc (insn_at verified.now.program run.old.pc) (frame_of run.new) }
{
    let (before, slot) = (run.executed(), run.pc());
    run.step(objects);
    match verified.program().at(slot) {
        Some(insn) => choice.chooses(before, slot, changed(insn, run)),
        None => false,
    }
}

/// Writes the line of a step after a text: the instruction at the slot where the run was, and what it changed, by the run after it.
///
/// # Errors
/// It fails only where an allocation fails: some of the line may be written then.
pub fn write_step_at<H>(
    text: &mut String,
    format: Format,
    verified: &Verified,
    slot: usize,
    run: &Run<'_, H>,
) -> Result<(), AllocError>
    ensures { OnOk result (string_bytes text.new ≡ string_bytes text.old ++ line_at format slot (insn_at verified.now.program slot) (frame_of run.now)) }
{
    match verified.program().at(slot) {
        Some(insn) => write_step(text, format, slot, insn, run),
        None => Ok(()),
    }
}

// The instruction at a slot, and what it changed, by the run after it.
fn write_step<H>(
    text: &mut String,
    format: Format,
    slot: usize,
    insn: &Insn,
    run: &Run<'_, H>,
) -> Result<(), AllocError>
    ensures { OnOk result (string_bytes text.new ≡ string_bytes text.old ++ step_in format slot insn.now (frame_of run.now)) }
{
    write_head(text, format, slot, insn)?;
    write_change(text, format, changed(insn, run))?;
    write_tail(text, format)
}

// The instruction at a slot.
fn write_head(text: &mut String, format: Format, slot: usize, insn: &Insn) -> Result<(), AllocError>
    ensures { OnOk result (string_bytes text.new ≡ string_bytes text.old ++ head_in format slot insn.now) }
{
    match format {
        Format::Text => {
            write!(text, "{slot}: ")?;
            write_insn(text, insn)
        }
        Format::Json => {
            write!(text, "{{\"slot\":{slot},\"instruction\":\"")?;
            write_insn(text, insn)?;
            text.push_str("\"")
        }
    }
}

// The end of the line.
fn write_tail(text: &mut String, format: Format) -> Result<(), AllocError>
    ensures { OnOk result (string_bytes text.new ≡ string_bytes text.old ++ tail_in format) }
{
    match format {
        Format::Text => text.push_str("\n"),
        Format::Json => text.push_str("}\n"),
    }
}
