//! The answers to the lines of a stream.

ghost use Rattle.std.specs.Prelude.{◌≡◌, ◌≢◌, ◌⊎◌, ◌≤◌, ◌^◌, ◌+◌, ◌++◌, ℕ, List, None, Some, true};
ghost use Rattle.std.specs.Prelude.{length, map, slice_get, string_bytes, IfOk, OnOk, OnErr, IfErr};
ghost use Rattle.ebpf_host.specs.Stocks.{stock_of};
ghost use Rattle.ebpf_command.specs.Json.{fault_in};
ghost use Rattle.ebpf_command.specs.declared.done.EngineFault.TheVariants.{Input, Output};
ghost use Rattle.ebpf_reader.specs.ReadScripts.{parsed_script};
ghost use Rattle.ebpf_stream.specs.Answering.{IsAnswered, IsDone, position_of, report_in, start};
ghost use Rattle.ebpf_stream.specs.Feeding.{set_up};
ghost use Rattle.ebpf_stream.specs.Totals.{TellAllLeft, totals_in};
ghost use Rattle.ebpf_stream.specs.declared.totals.MachineTotals.{MachineTotals};

use crate::job_text::write_report;
use crate::lines::read_line;
use crate::place::Place;
use crate::setup::Setup;
use crate::totals::totals_of;
use crate::totals_text::write_totals;
use ebpf_command::answer::answer_fault_in;
use ebpf_command::done::{EngineFault, FaultCode, Stop};
use ebpf_command::format::Format;
use ebpf_host::machine::Machine;
use ebpf_machine::report::Report;
use ebpf_machine::run::StartFault;
use ebpf_report::exit_line::ExitLine;
use ebpf_report::text_line::TextLine;
use std::alloc::{AllocError, Global};
use worker_pool::Job;

/// The machine that does the jobs, how far the stream is, and what is answered and not yet written.
#[derive(Drop)]
pub(crate) struct Answers {
    pub(crate) machine: Machine,
    // Where the text of a job is made, so that none is answered in part.
    whole: String,
    line: TextLine,
    exits: ExitLine,
    pub(crate) text: String,
    pub(crate) place: Place,
    // The number of the last job's program.
    last: Option<usize>,
}

impl Answers {
    /// No line is answered yet, nothing is on the shelves of the machine, and this text waits.
    pub(crate) fn new(alloc: Global, machine: Machine, text: String) -> Answers
        requires { (kind : ℕ) → (stock_of machine kind).shelf ≡ None }
        ensures text { string_bytes result.text ≡ string_bytes text }
        ensures position { position_of result ≡ start }
    {
        Answers {
            machine,
            whole: String::new(alloc),
            line: TextLine::end(),
            exits: ExitLine::new(),
            text,
            place: Place {
                jobs: 0,
                lines: 0,
                faulty: false,
            },
            last: None,
        }
    }

    /// Answers a line.
    ///
    /// # Errors
    /// `NoMemory` if an allocation failed; `Input` if the line's number, or its job's, would be 2^64. The line is not answered then.
    pub(crate) fn answer(
        &mut self,
        alloc: Global,
        setup: &Setup,
        line: &[u8],
    ) -> Result<(), EngineFault>
        ensures answered { OnOk result ((here : List ℕ) ×
            IsAnswered (set_up setup.now) line.now (position_of self.old) (position_of self.new) here ×
            (string_bytes self.new.text ≡ string_bytes self.old.text ++ here)) }
        ensures text { OnErr result (string_bytes self.new.text ≡ string_bytes self.old.text) }
        ensures fault { IfErr result (λ fault. fault ≢ Output) }
        // Only a number that can't be counted ends a stream so.
        ensures due { IfErr result (λ fault. fault ≡ Input → (2 ^ 64 ≤ self.old.place.lines + 1) ⊎ (2 ^ 64 ≤ self.old.place.jobs + 1)) }
    {
        let Some(lines) = self.place.lines.checked_add(1) else {
            return Err(EngineFault::Input);
        };
        match read_line(alloc, &setup.script, self.last, line) {
            Ok(Some(job)) => self.run(setup, &job, lines),
            Ok(None) => {
                self.place.lines = lines;
                Ok(())
            }
            Err(Stop::Fault(code)) => {
                self.refuse(alloc, setup.format, code, lines)?;
                Ok(())
            }
            Err(Stop::NoMemory) => Err(EngineFault::NoMemory),
        }
    }

    // Answers the line of this number with its fault.
    fn refuse(
        &mut self,
        alloc: Global,
        format: Format,
        code: FaultCode,
        lines: usize,
    ) -> Result<(), AllocError>
        ensures place { OnOk result (self.new.place ≡ record self.old.place { lines = lines; faulty = true }) }
        ensures answered { OnOk result (string_bytes self.new.text ≡ string_bytes self.old.text ++ fault_in format code lines) }
        ensures machine { self.new.machine ≡ self.old.machine }
        ensures text { OnErr result (string_bytes self.new.text ≡ string_bytes self.old.text) }
    {
        let fault = answer_fault_in(alloc, format, code, lines)?;
        self.text.push_str(fault.text.as_str())?;
        self.place.lines = lines;
        self.place.faulty = true;
        Ok(())
    }

    // Runs the job of the line of this number, and answers what it did.
    fn run(&mut self, setup: &Setup, job: &Job, lines: usize) -> Result<(), EngineFault>
        requires declared { slice_get (map (λ p. p.context) (parsed_script setup.now.script).programs) job.now.program ≡ Some (length job.now.context) }
        requires next { lines ≡ self.old.place.lines + 1 }
        ensures done { OnOk result ((here : List ℕ) ×
            IsDone (set_up setup.now) (Some job.now) (position_of self.old) (position_of self.new) here ×
            (string_bytes self.new.text ≡ string_bytes self.old.text ++ here)) }
        ensures text { OnErr result (string_bytes self.new.text ≡ string_bytes self.old.text) }
        ensures fault { IfErr result (λ fault. fault ≢ Output) }
        ensures due { IfErr result (λ fault. fault ≡ Input → 2 ^ 64 ≤ self.old.place.jobs + 1) }
    {
        let Some(jobs) = self.place.jobs.checked_add(1) else {
            return Err(EngineFault::Input);
        };
        let program = &setup.programs[job.program];
        // More than any run of it does.
        let limit = program.len() as u64 + 1;
        let report = match self.machine.run(program, &job.context.bytes, limit) {
            Ok(report) => report,
            Err(StartFault::NoMemory) => return Err(EngineFault::NoMemory),
            Err(StartFault::ContextLength) => unreachable!(),
        };
        self.tell(setup.format, &report)?;
        self.place.jobs = jobs;
        self.place.lines = lines;
        self.last = Some(job.program);
        Ok(())
    }

    // Answers what the next job did.
    fn tell(&mut self, format: Format, report: &Report) -> Result<(), AllocError>
        ensures told { OnOk result (string_bytes self.new.text ≡ string_bytes self.old.text ++ report_in format self.old.place.jobs report.now) }
        ensures text { OnErr result (string_bytes self.new.text ≡ string_bytes self.old.text) }
        ensures place { self.new.place ≡ self.old.place }
        ensures machine { self.new.machine ≡ self.old.machine }
    {
        self.whole.clear();
        write_report(
            &mut self.whole,
            &mut self.line,
            &mut self.exits,
            format,
            self.place.jobs,
            report,
        )?;
        self.text.push_str(self.whole.as_str())
    }

    /// Answers the end of the input, with what the caches and the shelves did. It fails only where an allocation fails.
    pub(crate) fn end(&mut self, format: Format) -> Result<(), AllocError>
        ensures told { OnOk result ((totals : MachineTotals) × TellAllLeft (position_of self.old).shelves totals ×
            (string_bytes self.new.text ≡ string_bytes self.old.text ++ totals_in format totals)) }
        ensures text { OnErr result (string_bytes self.new.text ≡ string_bytes self.old.text) }
        ensures position { position_of self.new ≡ position_of self.old }
    {
        let totals = totals_of(&self.machine);
        self.whole.clear();
        write_totals(&mut self.whole, format, &totals)?;
        self.text.push_str(self.whole.as_str())
    }
}
