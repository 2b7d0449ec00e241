//! A line of a stream of jobs.

ghost use Rattle.std.specs.Prelude.{◌≡◌, None, Some, IfOk, IfErr, length, map, slice_get};
ghost use Rattle.ebpf_command.specs.Stops.{IsStop};
ghost use Rattle.ebpf_reader.specs.JobLines.{IsReadAs, job_line_fault, job_of, run_shape, stream_shape};
ghost use Rattle.ebpf_reader.specs.LineFaults.{shape_fault};
ghost use Rattle.ebpf_reader.specs.ReadScripts.{parsed_script};
ghost use Rattle.ebpf_reader.specs.Shapes.{JobLine};

use crate::line::is_comment;
use crate::lines::{first_line, is_text};
use crate::names::name_of;
use crate::programs::program_after;
use crate::script::Script;
use crate::words::Words;
use ebpf_command::done::{FaultCode, Stop};
use ebpf_command::hex_text::hex_or_dash;
use ebpf_machine::context::Context;
use job_list::Job;
use std::alloc::Global;

/// The job that a line asks for, of a program of this script; `None` where the line is blank or a comment. The program of the last job
/// is looked at first, so its number spares a search; any other number, or none, gives the same job.
///
/// # Errors
/// `Fault` with the line's first code; `NoMemory` where an allocation failed.
pub fn read_job_line(
    alloc: Global,
    script: &Script,
    last: Option<usize>,
    line: &[u8],
) -> Result<Option<Job>, Stop>
    ensures read { IfOk result (IsReadAs (parsed_script script.now) line.now) }
    ensures refused { IfErr result (IsStop (job_line_fault (parsed_script script.now) line.now)) }
{
    if !is_text(line) {
        return Err(Stop::Fault(FaultCode::UnprintableByte));
    }
    let mut kept = Words::none();
    let line = first_line(line, &mut kept);
    read_words(alloc, script, last, line.words)
}

// The job of the words of a line.
fn read_words(
    alloc: Global,
    script: &Script,
    last: Option<usize>,
    words: &[&[u8]],
) -> Result<Option<Job>, Stop>
    ensures fine { IfOk result (λ job. shape_fault (parsed_script script.now) (stream_shape (map (λ w. w.now) words.now)) ≡ None) }
    ensures job { IfOk result (λ job. job ≡ job_of (parsed_script script.now) (stream_shape (map (λ w. w.now) words.now))) }
    ensures refused { IfErr result (IsStop (shape_fault (parsed_script script.now) (stream_shape (map (λ w. w.now) words.now)))) }
{
    let Some((first, rest)) = words.split_first() else {
        return Ok(None);
    };
    if is_comment(first) {
        return Ok(None);
    }
    read_run_words(alloc, script, last, first, rest)
}

// The job of a line's first word and those after it.
fn read_run_words(
    alloc: Global,
    script: &Script,
    last: Option<usize>,
    first: &[u8],
    rest: &[&[u8]],
) -> Result<Option<Job>, Stop>
    ensures fine { IfOk result (λ job. shape_fault (parsed_script script.now) (run_shape first.now (map (λ w. w.now) rest.now)) ≡ None) }
    ensures job { IfOk result (λ job. job ≡ job_of (parsed_script script.now) (run_shape first.now (map (λ w. w.now) rest.now))) }
    ensures refused { IfErr result (IsStop (shape_fault (parsed_script script.now) (run_shape first.now (map (λ w. w.now) rest.now)))) }
{
    match rest {
        [name, hex] if first == b"run".as_slice() => {
            Ok(Some(job_on(alloc, script, last, name, hex)?))
        }
        _ => Err(Stop::Fault(FaultCode::UnknownLine)),
    }
}

// The job of `run NAME HEX`.
fn job_on(
    alloc: Global,
    script: &Script,
    last: Option<usize>,
    name: &[u8],
    hex: &[u8],
) -> Result<Job, Stop>
    ensures fine { IfOk result (λ job. shape_fault (parsed_script script.now) (JobLine name.now hex.now) ≡ None) }
    ensures job { IfOk result (λ job. Some job ≡ job_of (parsed_script script.now) (JobLine name.now hex.now)) }
    ensures refused { IfErr result (IsStop (shape_fault (parsed_script script.now) (JobLine name.now hex.now))) }
{
    let Some(bytes) = hex_or_dash(alloc, hex)? else {
        return Err(Stop::Fault(FaultCode::BadHex));
    };
    let Some(name) = name_of(name) else {
        return Err(Stop::Fault(FaultCode::BadName));
    };
    let Some((program, text)) = program_after(script, last, name) else {
        return Err(Stop::Fault(FaultCode::UndefinedName));
    };
    if bytes.len() != text.decl.context as usize {
        return Err(Stop::Fault(FaultCode::WrongContextLength));
    }
    let context = Context { bytes };
    Ok(Job { program, context })
}
