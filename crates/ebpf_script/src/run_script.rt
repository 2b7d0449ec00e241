//! The command `run`: programs, and jobs that workers do with them.

ghost use Rattle.std.specs.Prelude.{◌≡◌, ◌+◌, ◌≤◌, ◌<◌, ◌^◌, ◌++◌, ℕ, List, length, map, string_bytes, None, Ok, IfOk, OnOk};
ghost use Rattle.std.specs.Option.{option_copied};
ghost use Rattle.ebpf_machine.specs.Kinds.{AreKnown};
ghost use Rattle.worker_pool.specs.Admission.{pool_fault};
ghost use Rattle.ebpf_command.specs.Response.{clean_response};
ghost use Rattle.ebpf_command.specs.Writing.{Performs};
ghost use Rattle.ebpf_reader.specs.ReadScripts.{named, parsed_script};
ghost use Rattle.ebpf_reader.specs.Runnable.{IsRunnable};
ghost use Rattle.ebpf_lines.specs.Sources.{HasFile};
ghost use Rattle.ebpf_report.specs.RunAnswers.{run_response};
ghost use Rattle.ebpf_report.specs.ScriptText.{RespondsScript};
ghost use Rattle.ebpf_script.specs.RunText.{RespondsRun, RespondsWith, RespondsJobs, DoesRun, HasCounts, MayCome};

use crate::run_ask::{Coverage, RunAsk};
use ebpf_command::answer::{Answer, answer_fault_in};
use ebpf_command::done::{Done, EngineFault, FaultCode};
use ebpf_command::format::Format;
use ebpf_command::input::{MAX_INPUT, read_input};
use ebpf_input::object::answer_file_fault;
use ebpf_lines::source::ObjectFile;
use ebpf_reader::read_script::read_script;
use ebpf_reader::script::{Dialect, Script, ScriptStop};
use ebpf_report::covered_text::{DoneJobs, write_covered};
use ebpf_report::covered_trace::write_traces;
use ebpf_report::meter::{Meter, Stage};
use ebpf_report::run_answer::{JobsAnswer, RunAnswer, write_totals_in};
use ebpf_report::verdicts::verdicts_on;
use owners_table::owners::Owners;
use std::alloc::{AllocError, Global};
use std::io::{Read, Write};
use std::sync::Wait;
use std::thread::Threads;
use vmem_arena::MAX_PAGES;
use worker_pool::{Host, Jobs, NoGate, Outcome, PackedReports, PoolFault, run_job_list};

/// Reads a script of jobs, judges its programs, has the jobs done by the workers, and writes what came of each, of the caches and of the
/// shelves, and if that is asked for how often all jobs executed each instruction, or a tracefile of that in place of all else; with the bytes of an object file, how often they came to each
/// line of C of a program that has the bytes of one of its functions. The reaper makes its passes beside them, and those of the script's lines.
/// The meter learns how far it is, and what the caches and the workers did.
///
/// # Errors
/// `Input` where a read failed and `NoMemory` where an allocation failed: nothing was written then. `Output` where a write
/// failed or took nothing.
pub fn run_script<R: Threads + Wait + Sync, I: Read, W: Write, M: Meter>(
    rt: &R,
    alloc: Global,
    reader: &mut I,
    writer: &mut W,
    ask: RunAsk,
    object: Option<&[u8]>,
    meter: &mut M,
) -> Result<Done, EngineFault>
    ensures { Performs (RespondsRun ask.covered ask.format (option_copied object.entry)) (I.remaining reader.old) (I.remaining reader.new) (W.contents writer.old) (W.contents writer.new)
        writer.old writer.new result }
{
    let input = read_input(alloc, reader)?;
    meter.ended(Stage::Reading);
    let answer = answer_input(rt, alloc, ask, object, input, meter)?;
    let done = answer.write(alloc, writer)?;
    meter.ended(Stage::Writing);
    Ok(done)
}

// The response to a text. An object file that can't be read is refused before the text is looked at.
fn answer_input<R: Threads + Wait + Sync, M: Meter>(
    rt: &R,
    alloc: Global,
    ask: RunAsk,
    object: Option<&[u8]>,
    text: Vec<u8>,
    meter: &mut M,
) -> Result<RunAnswer, AllocError>
    ensures { IfOk result (λ answer. RespondsRun ask.covered ask.format (option_copied object.entry) text.items (run_response answer)) }
{
    match object {
        Some(file) => answer_with(rt, alloc, ask, file, text, meter),
        None => answer_text(rt, alloc, ask, None, text, meter),
    }
}

// The response with an object file.
fn answer_with<R: Threads + Wait + Sync, M: Meter>(
    rt: &R,
    alloc: Global,
    ask: RunAsk,
    file: &[u8],
    text: Vec<u8>,
    meter: &mut M,
) -> Result<RunAnswer, AllocError>
    ensures { IfOk result (λ answer. RespondsWith ask.covered ask.format file.now text.items (run_response answer)) }
{
    if file.len() > MAX_INPUT {
        let beginning = answer_fault_in(alloc, ask.format, FaultCode::InputTooLong, 0)?;
        return Ok(only(beginning));
    }
    match ObjectFile::read(file) {
        Ok(object) => answer_text(rt, alloc, ask, Some(object), text, meter),
        Err(fault) => {
            let beginning = answer_file_fault(alloc, ask.format, fault)?;
            Ok(only(beginning))
        }
    }
}

// The response to a text, whose memory is given back before the jobs are done: their reports take it.
fn answer_text<R: Threads + Wait + Sync, M: Meter>(
    rt: &R,
    alloc: Global,
    ask: RunAsk,
    object: Option<ObjectFile<'_>>,
    text: Vec<u8>,
    meter: &mut M,
) -> Result<RunAnswer, AllocError>
    requires { HasFile object }
    ensures { IfOk result (λ answer. RespondsJobs ask.covered ask.format object.entry text.items (run_response answer)) }
{
    let script = read_script(alloc, Dialect::Jobs, &text);
    drop(text);
    match script {
        Ok(script) => answer_script(rt, alloc, ask, object, script, meter),
        Err(ScriptStop::Fault(fault)) => {
            let beginning = answer_fault_in(alloc, ask.format, fault.code, fault.line)?;
            Ok(only(beginning))
        }
        Err(ScriptStop::NoMemory) => Err(AllocError),
    }
}

// The response to a script.
fn answer_script<R: Threads + Wait + Sync, M: Meter>(
    rt: &R,
    alloc: Global,
    ask: RunAsk,
    object: Option<ObjectFile<'_>>,
    script: Script,
    meter: &mut M,
) -> Result<RunAnswer, AllocError>
    requires object { HasFile object }
    requires reaps { ask.reaps + script.passes < 2 ^ 32 }
    requires runnable { IsRunnable (parsed_script script) }
    ensures { IfOk result (λ answer. RespondsScript ask.format (DoesRun ask.covered ask.format object.entry) (Ok (parsed_script script)) (run_response answer)) }
{
    let verdicts = verdicts_on(alloc, ask.format, &script.programs)?;
    if verdicts.refused {
        return Ok(only(verdicts.into_answer()));
    }
    let beginning = clean(verdicts.text);
    meter.ended(Stage::Judging);
    let host = Host {
        pages: script.pages.unwrap_or(MAX_PAGES),
        programs: verdicts.accepted,
    };
    let outcome = outcome_of(
        rt,
        alloc,
        &host,
        &script.jobs,
        ask.workers,
        ask.reaps + script.passes,
    )?;
    meter.ended(Stage::Running);
    let done = DoneJobs {
        programs: &script.programs,
        accepted: &host.programs,
        jobs: &script.jobs,
        reports: &outcome.reports,
        object,
    };
    if ask.covered.is_tracefile() {
        let mut text = String::new(alloc);
        write_covered_in(alloc, &mut text, ask, &done)?;
        drop(meter.came(outcome));
        return Ok(only(clean(text)));
    }
    let mut totals = String::new(alloc);
    write_totals_in(&mut totals, ask.format, &outcome)?;
    write_covered_in(alloc, &mut totals, ask, &done)?;
    Ok(RunAnswer {
        beginning,
        jobs: Some(JobsAnswer {
            format: ask.format,
            reports: meter.came(outcome),
            totals,
        }),
    })
}

// A text that is all of the answer.
fn only(beginning: Answer) -> RunAnswer
    ensures { result ≡ record { beginning = beginning; jobs = None } }
{
    RunAnswer {
        beginning,
        jobs: None,
    }
}

// A text in which nothing is refused.
fn clean(text: String) -> Answer
    ensures { result ≡ clean_response (string_bytes text) }
{
    Answer {
        text,
        done: Done::Clean,
    }
}

// Writes after a text what the jobs of each program executed, as that is asked for. It fails only where memory runs out, or a count
// would not fit 64 bits.
fn write_covered_in(
    alloc: Global,
    text: &mut String,
    ask: RunAsk,
    done: &DoneJobs<'_>,
) -> Result<(), AllocError>
    requires known { AreKnown done.now.accepted.now }
    requires all { length done.now.reports.now ≡ length done.now.jobs.now }
    requires object { HasFile done.now.object }
    ensures { OnOk result ((covered : List ℕ)
        × HasCounts ask.covered ask.format done.now.object (map named done.now.programs.now.entries) done.now.accepted.now done.now.jobs.now done.now.reports.now covered
        × (string_bytes text.new ≡ string_bytes text.old ++ covered)) }
{
    match ask.covered {
        Coverage::Nothing => Ok(()),
        Coverage::Counts => write_covered(alloc, text, ask.format, done),
        Coverage::Tracefile => write_traces(alloc, text, done),
    }
}

// What comes of jobs that can be done.
fn outcome_of<R: Threads + Wait + Sync>(
    rt: &R,
    alloc: Global,
    host: &Host,
    jobs: &Jobs,
    workers: u32,
    reaps: u32,
) -> Result<Outcome<PackedReports>, AllocError>
    requires known { AreKnown host.now.programs.items }
    requires workers { 1 ≤ workers }
    requires fine { pool_fault host.now workers jobs.now ≡ None }
    ensures { IfOk result (MayCome host.now.programs.items jobs.now) }
{
    let (owners, seats) = Owners::of_arena(alloc, workers)?;
    let (_, result) = run_job_list(rt, alloc, host, &owners, seats, jobs, reaps, &NoGate);
    match result {
        Ok(outcome) => Ok(outcome),
        Err(PoolFault::NoMemory) => Err(AllocError),
        Err(_) => unreachable!(),
    }
}
