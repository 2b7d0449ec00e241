//! The lines of a script that say something, each read into the script.

ghost use Rattle.std.specs.Prelude.{◌≡◌, length, IfErr, OnOk};
ghost use Rattle.ebpf_command.specs.Stops.{IsStop};
ghost use Rattle.ebpf_reader.specs.Again.{IsBeginning};
ghost use Rattle.ebpf_reader.specs.LineFaults.{shape_fault, length_fault};
ghost use Rattle.ebpf_reader.specs.ReadScripts.{parsed_script, Adds, HasRoom};
ghost use Rattle.ebpf_reader.specs.ParsedScript.{answer_of, with_job};
ghost use Rattle.ebpf_reader.specs.Shapes.{ProgramLine, StartLine, ExecLine, AnsweredLine, GrowLine, ReapLine, ArenaLine, JobLine, PassLine};

use crate::again::Again;
use crate::names::name_of;
use crate::numbers::{context_of, held_of, kind_of, pages_of, run_of, slot_of};
use crate::programs::program_of;
use crate::script::{ProgramText, Script};
use ebpf_command::done::{FaultCode, Stop};
use ebpf_command::hex_text::{hex_or_dash, hex_or_dash_in};
use ebpf_core::event::{Answer, Event};
use ebpf_machine::context::Context;
use ebpf_verify::decl::Decl;
use std::alloc::Global;

/// Reads `program NAME CONTEXT HELD HEX`.
pub(crate) fn read_program(
    alloc: Global,
    script: &mut Script,
    name: &[u8],
    context: &[u8],
    held: &[u8],
    hex: &[u8],
) -> Result<(), Stop>
    ensures ok { OnOk result (Adds (ProgramLine name.now context.now held.now hex.now) script.old script.new) }
    ensures refused { IfErr result (IsStop (shape_fault (parsed_script script.old) (ProgramLine name.now context.now held.now hex.now))) }
{
    let Some(context) = context_of(context) else {
        return Err(Stop::Fault(FaultCode::BadNumber));
    };
    let Some(held) = held_of(held) else {
        return Err(Stop::Fault(FaultCode::BadNumber));
    };
    let Some(bytes) = hex_or_dash(alloc, hex)? else {
        return Err(Stop::Fault(FaultCode::BadHex));
    };
    let Some(name) = name_of(name) else {
        return Err(Stop::Fault(FaultCode::BadName));
    };
    if script.programs.contains_key(name) {
        return Err(Stop::Fault(FaultCode::BadName));
    }
    let decl = Decl::new(context, held).unwrap();
    let name = String::from_str(alloc, name)?;
    script.programs.insert(name, ProgramText { bytes, decl })?;
    Ok(())
}

/// Reads `start NAME HEX`.
pub(crate) fn read_start(
    alloc: Global,
    script: &mut Script,
    name: &[u8],
    hex: &[u8],
) -> Result<(), Stop>
    ensures ok { OnOk result (Adds (StartLine name.now hex.now) script.old script.new) }
    ensures refused { IfErr result (IsStop (shape_fault (parsed_script script.old) (StartLine name.now hex.now))) }
{
    let Some(bytes) = hex_or_dash(alloc, hex)? else {
        return Err(Stop::Fault(FaultCode::BadHex));
    };
    let Some(name) = name_of(name) else {
        return Err(Stop::Fault(FaultCode::BadName));
    };
    let Some(program) = script.programs.get_index_of(name) else {
        return Err(Stop::Fault(FaultCode::UndefinedName));
    };
    let context = Context { bytes };
    script.events.push(Event::Start { program, context })?;
    Ok(())
}

/// Reads `exec RUN`.
pub(crate) fn read_exec(script: &mut Script, run: &[u8]) -> Result<(), Stop>
    ensures ok { OnOk result (Adds (ExecLine run.now) script.old script.new) }
    ensures refused { IfErr result (IsStop (shape_fault (parsed_script script.old) (ExecLine run.now))) }
{
    let Some(run) = run_of(run) else {
        return Err(Stop::Fault(FaultCode::BadNumber));
    };
    script.events.push(Event::Exec {
        run,
        answer: Answer::Absent,
    })?;
    Ok(())
}

/// Reads `exec RUN null` and `exec RUN SLOT`.
pub(crate) fn read_answered(script: &mut Script, run: &[u8], answer: &[u8]) -> Result<(), Stop>
    ensures ok { OnOk result (Adds (AnsweredLine run.now answer.now) script.old script.new) }
    ensures refused { IfErr result (IsStop (shape_fault (parsed_script script.old) (AnsweredLine run.now answer.now))) }
{
    let Some(run) = run_of(run) else {
        return Err(Stop::Fault(FaultCode::BadNumber));
    };
    let Some(answer) = answer_of(answer) else {
        return Err(Stop::Fault(FaultCode::BadNumber));
    };
    script.events.push(Event::Exec { run, answer })?;
    Ok(())
}

// The answer that a word gives: `null`, or a slot.
#[tactic(auto, unfolding(crate::specs::ParsedScript::answer_of))]
fn answer_of(word: &[u8]) -> Option<Answer>
    ensures { result ≡ answer_of word.now }
{
    if word == b"null".as_slice() {
        return Some(Answer::Null);
    }
    let slot = slot_of(word)?;
    Some(Answer::Slot(slot))
}

/// Reads `grow KIND SLOT`.
pub(crate) fn read_grow(script: &mut Script, kind: &[u8], slot: &[u8]) -> Result<(), Stop>
    ensures ok { OnOk result (Adds (GrowLine kind.now slot.now) script.old script.new) }
    ensures refused { IfErr result (IsStop (shape_fault (parsed_script script.old) (GrowLine kind.now slot.now))) }
{
    let Some(kind) = kind_of(kind) else {
        return Err(Stop::Fault(FaultCode::BadNumber));
    };
    let Some(slot) = slot_of(slot) else {
        return Err(Stop::Fault(FaultCode::BadNumber));
    };
    script.events.push(Event::Grow { kind, slot })?;
    Ok(())
}

/// Reads `reap KIND SLOT`.
pub(crate) fn read_reap(script: &mut Script, kind: &[u8], slot: &[u8]) -> Result<(), Stop>
    ensures ok { OnOk result (Adds (ReapLine kind.now slot.now) script.old script.new) }
    ensures refused { IfErr result (IsStop (shape_fault (parsed_script script.old) (ReapLine kind.now slot.now))) }
{
    let Some(kind) = kind_of(kind) else {
        return Err(Stop::Fault(FaultCode::BadNumber));
    };
    let Some(slot) = slot_of(slot) else {
        return Err(Stop::Fault(FaultCode::BadNumber));
    };
    script.events.push(Event::Reap { kind, slot })?;
    Ok(())
}

/// Reads `arena P`.
pub(crate) fn read_arena(script: &mut Script, pages: &[u8]) -> Result<(), Stop>
    ensures ok { OnOk result (Adds (ArenaLine pages.now) script.old script.new) }
    ensures refused { IfErr result (IsStop (shape_fault (parsed_script script.old) (ArenaLine pages.now))) }
{
    let Some(pages) = pages_of(pages) else {
        return Err(Stop::Fault(FaultCode::BadNumber));
    };
    if script.pages.is_some() {
        return Err(Stop::Fault(FaultCode::SecondArena));
    }
    script.pages = Some(pages);
    Ok(())
}

/// Reads `run NAME HEX`.
pub(crate) fn read_job(
    alloc: Global,
    script: &mut Script,
    name: &[u8],
    hex: &[u8],
) -> Result<(), Stop>
    ensures ok { OnOk result (Adds (JobLine name.now hex.now) script.old script.new) }
    ensures refused { IfErr result (IsStop (shape_fault (parsed_script script.old) (JobLine name.now hex.now))) }
{
    let Some(bytes) = hex_or_dash(alloc, hex)? else {
        return Err(Stop::Fault(FaultCode::BadHex));
    };
    let Some(name) = name_of(name) else {
        return Err(Stop::Fault(FaultCode::BadName));
    };
    let Some((program, text)) = program_of(script, name) else {
        return Err(Stop::Fault(FaultCode::UndefinedName));
    };
    let declared = text.decl.context;
    add_job(script, program, declared, &bytes)
}

/// Reads the rest of such a line where its program is known. The context is decoded in memory that is lent.
#[inline]
pub(crate) fn read_job_again(
    script: &mut Script,
    again: &Again<'_>,
    context: &mut Vec<u8>,
) -> Result<(), Stop>
    requires { IsBeginning script.now again.now.beginning }
    ensures ok { OnOk result (Adds (JobLine again.now.beginning.name.now again.now.hex.now) script.old script.new) }
    ensures refused { IfErr result (IsStop (shape_fault (parsed_script script.old) (JobLine again.now.beginning.name.now again.now.hex.now))) }
{
    if !hex_or_dash_in(context, again.hex)? {
        return Err(Stop::Fault(FaultCode::BadHex));
    }
    let beginning = &again.beginning;
    add_job(script, beginning.program, beginning.declared, context)
}

// Adds a job of a program that declares this many bytes of context.
#[inline]
fn add_job(script: &mut Script, program: usize, declared: u32, context: &[u8]) -> Result<(), Stop>
    ensures fits { OnOk result (length context.now ≡ declared) }
    ensures added { OnOk result (parsed_script script.new ≡ with_job (parsed_script script.old) (record { program = program; context = context.now })) }
    ensures refused { IfErr result (IsStop (length_fault declared context.now)) }
{
    if context.len() != declared as usize {
        return Err(Stop::Fault(FaultCode::WrongContextLength));
    }
    script.jobs.push(program, context)?;
    Ok(())
}

/// Reads `reap` alone.
pub(crate) fn read_pass(script: &mut Script)
    requires { HasRoom script.now }
    ensures { Adds PassLine script.old script.new }
{
    script.passes += 1;
}
