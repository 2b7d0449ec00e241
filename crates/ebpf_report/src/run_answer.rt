//! What `run` answers. Its text has a line or an object for each job, so it is not made as a whole: it is written in pieces.

ghost use Rattle.std.specs.Prelude.{◌≡◌, ◌≢◌, ◌++◌, [], string_bytes, IfOk, IfErr, OnOk, OnErr};
ghost use Rattle.std.specs.Io.KnownBytes.{Appends};
ghost use Rattle.ebpf_command.specs.declared.done.EngineFault.TheVariants.{Output};
ghost use Rattle.ebpf_command.specs.Writing.{AppendsBeginning, Puts};
ghost use Rattle.ebpf_report.specs.RunAnswers.{jobs_in, jobs_text, run_text, totals_in};

use crate::outcome_json::ReportObjects;
use crate::outcome_text::ReportLines;
use crate::report_form::put_each;
use crate::totals_text::write_totals;
use ebpf_command::answer::Answer;
use ebpf_command::done::{Done, EngineFault};
use ebpf_command::format::Format;
use ebpf_command::output::flush;
use ebpf_command::piece::Piece;
use std::alloc::{AllocError, Global};
use std::io::Write;
use worker_pool::{Outcome, PackedReports};

/// The beginning of a text, what jobs came to, which follows it, and how the command ends.
#[derive(Drop)]
pub struct RunAnswer {
    /// A fault, or the verdicts.
    pub beginning: Answer,
    pub jobs: Option<JobsAnswer>,
}

/// What jobs came to: their reports, and what follows those.
#[derive(Drop)]
pub struct JobsAnswer {
    pub format: Format,
    pub reports: PackedReports,
    pub totals: String,
}

impl RunAnswer {
    /// Writes the text, and flushes the writer. All memory that this takes is had before the first byte is written.
    ///
    /// # Errors
    /// `NoMemory` where an allocation failed: nothing was written then. `Output` where a write failed or took nothing.
    pub fn write<W: Write>(&self, alloc: Global, writer: &mut W) -> Result<Done, EngineFault>
        ensures done { IfOk result (λ done. done ≡ self.now.beginning.done) }
        ensures written { IfOk result (λ done. Appends (W.contents writer.old) (W.contents writer.new) (run_text self.now)) }
        ensures beginning { IfErr result (λ fault. fault ≡ Output → AppendsBeginning (W.contents writer.old) (W.contents writer.new) (run_text self.now)) }
        ensures untouched { IfErr result (λ fault. fault ≢ Output → writer.new ≡ writer.old) }
    {
        let mut piece = Piece::new(alloc)?;
        self.write_by(writer, &mut piece)?;
        Ok(self.beginning.done)
    }

    // Writes the text in pieces, and flushes the writer.
    fn write_by<W: Write>(&self, writer: &mut W, piece: &mut Piece) -> Result<(), EngineFault>
        ensures written { OnOk result (Appends (W.contents writer.old) (W.contents writer.new) (piece.old ++ run_text self.now)) }
        ensures beginning { OnErr result (AppendsBeginning (W.contents writer.old) (W.contents writer.new) (piece.old ++ run_text self.now)) }
        ensures err { IfErr result (λ e. e ≡ Output) }
    {
        self.put(writer, piece)?;
        piece.write_out(writer)?;
        flush(writer)
    }

    // Writes the text, but for what waits then.
    fn put<W: Write>(&self, writer: &mut W, piece: &mut Piece) -> Result<(), EngineFault>
        ensures { Puts (W.contents writer.old) (W.contents writer.new) piece.old piece.new (run_text self.now) result }
    {
        piece.put(writer, self.beginning.text.as_bytes())?;
        match &self.jobs {
            Some(jobs) => jobs.put(writer, piece),
            None => Ok(()),
        }
    }
}

impl JobsAnswer {
    // Writes it, but for what waits then.
    fn put<W: Write>(&self, writer: &mut W, piece: &mut Piece) -> Result<(), EngineFault>
        ensures { Puts (W.contents writer.old) (W.contents writer.new) piece.old piece.new (jobs_text self.now) result }
    {
        self.put_reports(writer, piece)?;
        piece.put(writer, self.totals.as_bytes())
    }

    // Writes the reports.
    fn put_reports<W: Write>(&self, writer: &mut W, piece: &mut Piece) -> Result<(), EngineFault>
        ensures { Puts (W.contents writer.old) (W.contents writer.new) piece.old piece.new (jobs_in self.now.format self.now.reports) result }
    {
        match self.format {
            Format::Text => put_each(writer, piece, &mut ReportLines::new(), &self.reports),
            Format::Json => put_each(writer, piece, &mut ReportObjects::new(), &self.reports),
        }
    }
}

/// Writes after a text what an outcome says of the caches and the shelves. It fails only where an allocation fails.
pub fn write_totals_in(
    text: &mut String,
    format: Format,
    outcome: &Outcome<PackedReports>,
) -> Result<(), AllocError>
    ensures { OnOk result (string_bytes text.new ≡ string_bytes text.old ++ totals_in format outcome.now) }
{
    write_totals(text, format, &outcome.totals, &outcome.shelves)
}
