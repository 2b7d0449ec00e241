//! The reports of all jobs, in one form or another.

ghost use Rattle.std.specs.Prelude.{◌≡◌, ℕ, List};
ghost use Rattle.ebpf_machine.specs.declared.report.Report.{Report};
ghost use Rattle.ebpf_command.specs.Writing.{Puts};
ghost use Rattle.ebpf_report.specs.ReportForms.{each_from};

use ebpf_command::done::EngineFault;
use ebpf_command::piece::Piece;
use std::io::Write;
use worker_pool::{JobReport, PackedReports};

/// A form of reports: lines or objects.
pub(crate) trait ReportForm {
    /// What is written of the job of a number.
    ghost text: { ℕ → Report → List ℕ };

    /// Writes what a job did.
    ///
    /// # Errors
    /// `Output` where a write failed or took nothing.
    fn put<W: Write>(
        &mut self,
        writer: &mut W,
        piece: &mut Piece,
        job: usize,
        report: &JobReport,
    ) -> Result<(), EngineFault>
        ensures { Puts (W.contents writer.old) (W.contents writer.new) piece.old piece.new (text job report.now) result };
}

/// Writes what each job did, in order.
///
/// # Errors
/// `Output` where a write failed or took nothing.
pub(crate) fn put_each<F: ReportForm, W: Write>(
    writer: &mut W,
    piece: &mut Piece,
    form: &mut F,
    reports: &PackedReports,
) -> Result<(), EngineFault>
    ensures { Puts (W.contents writer.old) (W.contents writer.new) piece.old piece.new (each_from F.text 0 reports.now) result }
{
    let mut left = reports.iter();
    for job in 0..reports.len() {
        if let Some(report) = left.next() {
            form.put(writer, piece, job, report)?;
        }
    }
    Ok(())
}
