//! The commands in plain text: no JSON, no counts of what was executed, no object file and no meter.
//!
//! A caller that wants one of these calls `check_script`, `replay_script` or `run_script`, which do the work.

ghost use Rattle.std.specs.Prelude.{◌≤◌, false, None};
ghost use Rattle.ebpf_command.specs.declared.format.Format.TheVariants.{Text};
ghost use Rattle.ebpf_command.specs.Writing.{Performs};
ghost use Rattle.ebpf_script.specs.CheckText.{RespondsCheck};
ghost use Rattle.ebpf_script.specs.ReplayText.{RespondsReplay};
ghost use Rattle.ebpf_script.specs.declared.run_ask.Coverage.TheVariants.{Nothing};
ghost use Rattle.ebpf_script.specs.RunText.{RespondsRun};

use crate::check_script::check_script;
use crate::replay_script::replay_script;
use crate::run_ask::{Coverage, RunAsk};
use crate::run_script::run_script;
use ebpf_command::done::{Done, EngineFault};
use ebpf_command::format::Format;
use ebpf_report::meter::NoMeter;
use std::alloc::Global;
use std::io::{Read, Write};
use std::sync::Wait;
use std::thread::Threads;

/// Reads a script of jobs, judges its programs, and writes the verdict on each. No job is done.
///
/// # Errors
/// `Input` where a read failed and `NoMemory` where an allocation failed: nothing was written then. `Output` where a write
/// failed or took nothing.
pub fn check<R: Read, W: Write>(
    alloc: Global,
    reader: &mut R,
    writer: &mut W,
) -> Result<Done, EngineFault>
    ensures { Performs (RespondsCheck false Text) (R.remaining reader.old) (R.remaining reader.new) (W.contents writer.old) (W.contents writer.new)
        writer.old writer.new result }
{
    check_script(alloc, reader, writer, Format::Text, false)
}

/// Reads a script of events, judges its programs, makes the world after the events, and writes what became of each run.
///
/// # Errors
/// `Input` where a read failed and `NoMemory` where an allocation failed: nothing was written then. `Output` where a write
/// failed or took nothing.
pub fn replay<R: Read, W: Write>(
    alloc: Global,
    reader: &mut R,
    writer: &mut W,
) -> Result<Done, EngineFault>
    ensures { Performs (RespondsReplay Text) (R.remaining reader.old) (R.remaining reader.new) (W.contents writer.old) (W.contents writer.new)
        writer.old writer.new result }
{
    replay_script(alloc, reader, writer, Format::Text)
}

/// Reads a script of jobs, judges its programs, has the jobs done by this many workers, and writes what came of each job, of the
/// caches and of the shelves. Beside the workers the reaper makes this many passes, and those that the script asks for.
///
/// # Errors
/// `Input` where a read failed and `NoMemory` where an allocation failed: nothing was written then. `Output` where a write
/// failed or took nothing.
pub fn run<R: Threads + Wait + Sync, I: Read, W: Write>(
    rt: &R,
    alloc: Global,
    reader: &mut I,
    writer: &mut W,
    workers: u32,
    reaps: u32,
) -> Result<Done, EngineFault>
    requires workers { (1 ≤ workers) × (workers ≤ 64) }
    requires reaps { reaps ≤ 1000 }
    ensures { Performs (RespondsRun Nothing Text None) (I.remaining reader.old) (I.remaining reader.new) (W.contents writer.old) (W.contents writer.new)
        writer.old writer.new result }
{
    let ask = RunAsk {
        format: Format::Text,
        covered: Coverage::Nothing,
        workers,
        reaps,
    };
    run_script(rt, alloc, reader, writer, ask, None, &mut NoMeter)
}
