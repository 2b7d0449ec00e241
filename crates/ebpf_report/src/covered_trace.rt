//! What jobs executed by line of C, as a tracefile of lcov.

ghost use Rattle.std.specs.Prelude.{◌≡◌, ◌++◌, ℕ, List, length, map, string_bytes, OnOk};
ghost use Rattle.std.specs.Option.{option_copied};
ghost use Rattle.ebpf_explain.specs.StackWords.{texts_below};
ghost use Rattle.ebpf_machine.specs.Kinds.{AreKnown};
ghost use Rattle.ebpf_cover.specs.Covered.{AreAllCounts, executed_at, taken_at};
ghost use Rattle.ebpf_lines.specs.Sources.{HasFile};
ghost use Rattle.ebpf_reader.specs.ReadScripts.{named};
ghost use Rattle.ebpf_report.specs.CoveredLines.{IsTraced, trace_at, trace_if};

use crate::covered_sources::{source_at, sources_of};
use crate::covered_text::DoneJobs;
use ebpf_cover::counts::Counts;
use ebpf_cover::cover::cover;
use ebpf_insn::program::Program;
use ebpf_lines::source::Source;
use ebpf_lines::tracefile::write_trace;
use std::alloc::{AllocError, Global};

/// Writes after a text the tracefile of each program that has lines of C by the object file. It fails only where memory runs out, or a count would
/// not fit 64 bits.
pub fn write_traces(alloc: Global, text: &mut String, done: &DoneJobs<'_>) -> Result<(), AllocError>
    requires known { AreKnown done.now.accepted.now }
    requires all { length done.now.reports.now ≡ length done.now.jobs.now }
    requires object { HasFile done.now.object }
    ensures { OnOk result ((traces : List ℕ)
        × IsTraced done.now.object (map named done.now.programs.now.entries) done.now.accepted.now done.now.jobs.now done.now.reports.now traces
        × (string_bytes text.new ≡ string_bytes text.old ++ traces)) }
{
    let all = cover(alloc, done.accepted, done.jobs, done.reports)?;
    let sources = sources_of(alloc, done.object, done.programs)?;
    write_each_trace(text, done, &all, &sources)
}

// Writes the tracefile of each program, by its lines.
fn write_each_trace(
    text: &mut String,
    done: &DoneJobs<'_>,
    all: &[Counts],
    sources: &[Option<Source<'_>>],
) -> Result<(), AllocError>
    requires { AreAllCounts done.now.accepted.now done.now.jobs.now done.now.reports.now all.now }
    ensures { OnOk result (string_bytes text.new ≡ string_bytes text.old
        ++ texts_below (length done.now.accepted.now) (trace_at sources.now done.now.accepted.now done.now.jobs.now done.now.reports.now)) }
{
    for program in 0..done.accepted.len() {
        let verified = &done.accepted[program];
        let counts = &all[program];
        write_trace_if(
            text,
            source_at(sources, program),
            verified.program(),
            counts,
        )?;
    }
    Ok(())
}

// Writes the tracefile of a program, if it has lines.
fn write_trace_if(
    text: &mut String,
    source: Option<&Source<'_>>,
    program: &Program,
    counts: &Counts,
) -> Result<(), AllocError>
    ensures { OnOk result (string_bytes text.new ≡ string_bytes text.old
        ++ trace_if (option_copied source.entry) (executed_at counts.now) (taken_at counts.now) program.now) }
{
    match source {
        Some(source) => write_trace(text, source, &counts.executed, &counts.taken, program),
        None => Ok(()),
    }
}
