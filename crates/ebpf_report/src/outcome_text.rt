//! What each job did, in lines, which are written in pieces.

ghost use Rattle.std.specs.Prelude.{◌≡◌, ◌++◌, string_bytes, OnOk};
ghost use Rattle.std.specs.List.{flat_map};
ghost use Rattle.ebpf_command.specs.Writing.{Puts};
ghost use Rattle.ebpf_report.specs.OutcomeLines.{job_emit_line, report_lines};

use crate::exit_line::ExitLine;
use crate::report_form::ReportForm;
use crate::text_line::TextLine;
use ebpf_command::done::EngineFault;
use ebpf_command::piece::Piece;
use std::alloc::AllocError;
use std::io::Write;
use worker_pool::JobReport;

/// Reports as lines: the numbers that a job added to its output, and how it ended.
#[derive(Drop)]
pub(crate) struct ReportLines {
    line: TextLine,
    exits: ExitLine,
}

impl ReportLines {
    /// The form, before the first report.
    pub(crate) fn new() -> ReportLines {
        ReportLines {
            line: TextLine::end(),
            exits: ExitLine::new(),
        }
    }
}

impl ReportForm for ReportLines {
    ghost use Rattle.ebpf_report.specs.OutcomeLines.{report_lines};

    ghost text = { report_lines };

    #[inline(always)]
    fn put<W: Write>(
        &mut self,
        writer: &mut W,
        piece: &mut Piece,
        job: usize,
        report: &JobReport,
    ) -> Result<(), EngineFault> {
        put_report(writer, piece, &mut self.line, &mut self.exits, job, report)
    }
}

// Writes what a job did: what it added to its output, and how it ended.
#[inline(always)]
fn put_report<W: Write>(
    writer: &mut W,
    piece: &mut Piece,
    line: &mut TextLine,
    exits: &mut ExitLine,
    job: usize,
    report: &JobReport,
) -> Result<(), EngineFault>
    ensures { Puts (W.contents writer.old) (W.contents writer.new) piece.old piece.new (report_lines job report.now) result }
{
    put_output(writer, piece, line, job, report.output())?;
    let Some(exit) = report.exit() else {
        return Ok(());
    };
    exits.set(job, exit, report.executed(), report.peak());
    piece.put(writer, exits.as_str().as_bytes())
}

// Writes the output of a job.
#[inline]
fn put_output<W: Write>(
    writer: &mut W,
    piece: &mut Piece,
    line: &mut TextLine,
    job: usize,
    output: &[u64],
) -> Result<(), EngineFault>
    ensures { Puts (W.contents writer.old) (W.contents writer.new) piece.old piece.new (flat_map (job_emit_line job) output.now) result }
{
    for value in output {
        set_emit(line, job, *value);
        piece.put(writer, line.as_str().as_bytes())?;
    }
    Ok(())
}

/// Writes the output of a job after a text. It fails only where an allocation fails.
#[inline]
pub fn write_output(
    text: &mut String,
    line: &mut TextLine,
    job: usize,
    output: &[u64],
) -> Result<(), AllocError>
    ensures { OnOk result (string_bytes text.new ≡ string_bytes text.old ++ flat_map (job_emit_line job) output.now) }
{
    for value in output {
        set_emit(line, job, *value);
        text.push_str(line.as_str())?;
    }
    Ok(())
}

// Makes a line that of a number of a job's output.
#[inline(never)]
fn set_emit(line: &mut TextLine, job: usize, value: u64)
    ensures { line.new ≡ job_emit_line job value }
{
    line.restart();
    line.number(value);
    line.words(b" ");
    line.number(job as u64);
    line.words(b"emit ");
}
