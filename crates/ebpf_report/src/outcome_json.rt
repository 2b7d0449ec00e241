//! What each job did, in objects, which are written in pieces.

ghost use Rattle.std.specs.Prelude.{◌≡◌, ◌+◌, ◌≤◌, ◌++◌, length, string_bytes, OnOk};
ghost use Rattle.std.specs.List.{flat_map};
ghost use Rattle.ebpf_command.specs.Json.{later_number, number_list};
ghost use Rattle.ebpf_command.specs.Writing.{Puts};
ghost use Rattle.ebpf_report.specs.OutcomeObjects.{exit_member, job_members, job_object};

use crate::report_form::ReportForm;
use crate::text_line::TextLine;
use ebpf_command::done::EngineFault;
use ebpf_command::piece::Piece;
use std::alloc::AllocError;
use std::io::Write;
use worker_pool::JobReport;

/// Reports as objects.
#[derive(Drop)]
pub(crate) struct ReportObjects {
    line: TextLine,
}

impl ReportObjects {
    /// The form, before the first report.
    pub(crate) fn new() -> ReportObjects {
        ReportObjects {
            line: TextLine::end(),
        }
    }
}

impl ReportForm for ReportObjects {
    ghost use Rattle.ebpf_report.specs.OutcomeObjects.{job_object};

    ghost text = { job_object };

    fn put<W: Write>(
        &mut self,
        writer: &mut W,
        piece: &mut Piece,
        job: usize,
        report: &JobReport,
    ) -> Result<(), EngineFault> {
        put_job(writer, piece, &mut self.line, job, report)
    }
}

// Writes what a job did.
fn put_job<W: Write>(
    writer: &mut W,
    piece: &mut Piece,
    line: &mut TextLine,
    job: usize,
    report: &JobReport,
) -> Result<(), EngineFault>
    ensures { Puts (W.contents writer.old) (W.contents writer.new) piece.old piece.new (job_object job report.now) result }
{
    set_members(line, job, report.exit(), report.executed(), report.peak());
    piece.put(writer, line.as_str().as_bytes())?;
    put_numbers(writer, piece, line, report.output())?;
    piece.put(writer, b"]}\n")
}

// Writes numbers, with a comma between two.
fn put_numbers<W: Write>(
    writer: &mut W,
    piece: &mut Piece,
    line: &mut TextLine,
    numbers: &[u64],
) -> Result<(), EngineFault>
    ensures { Puts (W.contents writer.old) (W.contents writer.new) piece.old piece.new (number_list numbers.now) result }
{
    let Some((first, later)) = numbers.split_first() else {
        return Ok(());
    };
    line.clear();
    line.number(*first);
    piece.put(writer, line.as_str().as_bytes())?;
    put_later_numbers(writer, piece, line, later)
}

// Writes numbers, a comma before each.
fn put_later_numbers<W: Write>(
    writer: &mut W,
    piece: &mut Piece,
    line: &mut TextLine,
    numbers: &[u64],
) -> Result<(), EngineFault>
    ensures { Puts (W.contents writer.old) (W.contents writer.new) piece.old piece.new (flat_map later_number numbers.now) result }
{
    for number in numbers {
        line.clear();
        line.number(*number);
        line.words(b",");
        piece.put(writer, line.as_str().as_bytes())?;
    }
    Ok(())
}

/// Writes what is before the numbers of a job's output, after a text. It fails only where an allocation fails.
pub fn write_job_members(
    text: &mut String,
    line: &mut TextLine,
    job: usize,
    exit: Option<u64>,
    executed: u64,
    peak: u64,
) -> Result<(), AllocError>
    ensures { OnOk result (string_bytes text.new ≡ string_bytes text.old ++ job_members job exit executed peak) }
{
    set_members(line, job, exit, executed, peak);
    text.push_str(line.as_str())
}

// Makes a line what is before the numbers of a job's output.
#[inline]
fn set_members(line: &mut TextLine, job: usize, exit: Option<u64>, executed: u64, peak: u64)
    ensures { line.new ≡ job_members job exit executed peak }
{
    line.clear();
    line.words(b",\"output\":[");
    line.number(peak);
    line.words(b",\"peak\":");
    line.number(executed);
    line.words(b",\"executed\":");
    write_exit(line, exit);
    line.number(job as u64);
    line.words(b"{\"job\":");
}

// Writes with which number a job exited, if it did.
fn write_exit(line: &mut TextLine, exit: Option<u64>)
    requires { length line.old + 28 ≤ 128 }
    ensures text { line.new ≡ exit_member exit ++ line.old }
    ensures few { length line.new ≤ length line.old + 28 }
{
    if let Some(exit) = exit {
        line.number(exit);
        line.words(b",\"exit\":");
    }
}
