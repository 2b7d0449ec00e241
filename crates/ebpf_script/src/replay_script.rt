//! The command `replay`: programs, and a list of events over runs of them.

ghost use Rattle.std.specs.Prelude.{◌≡◌, ◌++◌, string_bytes, IfOk, OnOk};
ghost use Rattle.ebpf_core.specs.Replay.{world_after};
ghost use Rattle.ebpf_core.specs.Shown.{OfWorld};
ghost use Rattle.ebpf_machine.specs.Kinds.{AreKnown};
ghost use Rattle.ebpf_command.specs.Writing.{Performs};
ghost use Rattle.ebpf_reader.specs.ReadScripts.{parsed_script};
ghost use Rattle.ebpf_report.specs.ScriptText.{RespondsScript};
ghost use Rattle.ebpf_script.specs.ReplayText.{RespondsReplay, DoesReplay, world_response, stopped_line, stopped_object, stopped_in};

use crate::event_codes::apply_name;
use ebpf_command::answer::{Answer, answer_fault_in, respond};
use ebpf_command::done::{Done, EngineFault};
use ebpf_command::format::Format;
use ebpf_core::event::Event;
use ebpf_core::fault::{ApplyCode, ReplayFault};
use ebpf_core::replay::replay as replay_events;
use ebpf_core::world::World;
use ebpf_reader::read_script::read_script;
use ebpf_reader::script::{Dialect, Script, ScriptStop};
use ebpf_report::verdicts::verdicts_on;
use ebpf_report::world_text::write_world;
use ebpf_verify::verified::Verified;
use std::alloc::{AllocError, Global};
use std::io::{Read, Write};

/// Reads a script, judges its programs, makes the world after its events, and writes what became of each.
///
/// # Errors
/// `Input` where a read failed and `NoMemory` where an allocation failed: nothing was written then. `Output` where a write
/// failed or took nothing.
pub fn replay_script<R: Read, W: Write>(
    alloc: Global,
    reader: &mut R,
    writer: &mut W,
    format: Format,
) -> Result<Done, EngineFault>
    ensures { Performs (RespondsReplay format) (R.remaining reader.old) (R.remaining reader.new) (W.contents writer.old) (W.contents writer.new)
        writer.old writer.new result }
{
    respond(
        alloc,
        reader,
        writer,
        |input| answer_text(alloc, format, input),
    )
}

// The response to a text.
fn answer_text(alloc: Global, format: Format, text: &[u8]) -> Result<Answer, AllocError>
    ensures { IfOk result (RespondsReplay format text.now) }
{
    match read_script(alloc, Dialect::Events, text) {
        Ok(script) => answer_script(alloc, format, &script),
        Err(ScriptStop::Fault(fault)) => answer_fault_in(alloc, format, fault.code, fault.line),
        Err(ScriptStop::NoMemory) => Err(AllocError),
    }
}

// The response to a script.
fn answer_script(alloc: Global, format: Format, script: &Script) -> Result<Answer, AllocError>
    ensures { IfOk result (RespondsScript format (DoesReplay format) (Ok (parsed_script script.now))) }
{
    let verdicts = verdicts_on(alloc, format, &script.programs)?;
    if verdicts.refused {
        return Ok(verdicts.into_answer());
    }
    answer_events(
        alloc,
        format,
        verdicts.text,
        &verdicts.accepted,
        &script.events,
    )
}

// The response to the events, after the verdicts.
fn answer_events(
    alloc: Global,
    format: Format,
    text: String,
    programs: &[Verified],
    events: &[Event],
) -> Result<Answer, AllocError>
    requires { AreKnown programs.now }
    ensures { IfOk result (λ answer. answer ≡ world_response format (string_bytes text) (world_after programs.now events.now)) }
{
    let mut text = text;
    match replay_events(alloc, programs, events) {
        Ok(world) => {
            write_world(&mut text, format, &world)?;
            Ok(Answer {
                text,
                done: Done::Clean,
            })
        }
        Err(ReplayFault::Bad { index, code }) => {
            write_stop(&mut text, format, index, code)?;
            Ok(Answer {
                text,
                done: Done::Refused,
            })
        }
        Err(ReplayFault::NoMemory) => Err(AllocError),
    }
}

// Writes which event is not legal, and its code.
fn write_stop(
    text: &mut String,
    format: Format,
    index: usize,
    code: ApplyCode,
) -> Result<(), AllocError>
    ensures { OnOk result (string_bytes text.new ≡ string_bytes text.old ++ stopped_in format index code) }
{
    match format {
        Format::Text => write_stop_line(text, index, code),
        Format::Json => write_stop_object(text, index, code),
    }
}

// Writes that as a line.
fn write_stop_line(text: &mut String, index: usize, code: ApplyCode) -> Result<(), AllocError>
    ensures { OnOk result (string_bytes text.new ≡ string_bytes text.old ++ stopped_line index code) }
{
    let code = apply_name(code);
    write!(text, "stopped {code} {index}\n")
}

// Writes that as an object.
fn write_stop_object(text: &mut String, index: usize, code: ApplyCode) -> Result<(), AllocError>
    ensures { OnOk result (string_bytes text.new ≡ string_bytes text.old ++ stopped_object index code) }
{
    let code = apply_name(code);
    write!(text, "{{\"stopped\":\"{code}\",\"event\":{index}}}\n")
}
