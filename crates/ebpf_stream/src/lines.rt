//! A line of a stream.

ghost use Rattle.std.specs.Prelude.{◌≡◌, None, Some, IfOk, IfErr, IfSome, length, map, slice_get};
ghost use Rattle.ebpf_command.specs.Stops.{IsStop};
ghost use Rattle.ebpf_reader.specs.JobLines.{job_of, stream_shape};
ghost use Rattle.ebpf_reader.specs.ReadScripts.{parsed_script};
ghost use Rattle.ebpf_reader.specs.Words.{words};
ghost use Rattle.ebpf_stream.specs.Answering.{stream_fault};

use ebpf_command::done::{FaultCode, Stop};
use ebpf_reader::job_line::read_job_line;
use ebpf_reader::script::Script;
use std::alloc::Global;
use worker_pool::Job;

// The most bytes of a line, its newline aside.
pub(crate) const MAX_LINE: usize = 65_536;

/// The job that a line asks for; `None` where it is blank or a comment. The number of the last job's program, where it is given, spares
/// a search.
///
/// # Errors
/// `Fault` with the line's first code, `S1` where it is too long; `NoMemory` where an allocation failed.
#[tactic(auto, unfolding(crate::specs::Answering::stream_fault))]
pub(crate) fn read_line(
    alloc: Global,
    script: &Script,
    last: Option<usize>,
    line: &[u8],
) -> Result<Option<Job>, Stop>
    ensures fine { IfOk result (λ job. stream_fault (parsed_script script.now) line.now ≡ None) }
    ensures job { IfOk result (λ job. job ≡ job_of (parsed_script script.now) (stream_shape (words line.now))) }
    ensures declared { IfOk result (λ job. IfSome job (λ j.
        slice_get (map (λ p. p.context) (parsed_script script.now).programs) j.program ≡ Some (length j.context))) }
    ensures refused { IfErr result (IsStop (stream_fault (parsed_script script.now) line.now)) }
{
    if line.len() > MAX_LINE {
        return Err(Stop::Fault(FaultCode::InputTooLong));
    }
    read_job_line(alloc, script, last, line)
}
