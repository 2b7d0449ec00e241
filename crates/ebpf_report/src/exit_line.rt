//! The line that says how a job ended, for one job after another.
//!
//! *The idea.* Many jobs end alike, and each has the number after that of the job before it. So the line of a job is kept for
//! the next one. What comes after the number is written anew only where that job ends in another way, and of the number only the last digit
//! changes unless that is a 9.

ghost use Rattle.std.specs.Prelude.{◌≡◌, ◌+◌, ◌++◌, ◌≤◌, codes, decimal, length, Some};
ghost use Rattle.ebpf_report.specs.OutcomeLines.{ending_words, job_line};

use crate::text_line::TextLine;

/// The line of a job, kept for the next job, and how that job ended.
#[derive(Drop)]
pub struct ExitLine {
    line: TextLine,
    // How many bytes come after the number of the job.
    after: usize,
    job: usize,
    exit: u64,
    executed: u64,
    peak: u64,
    ghost text: { line ≡ codes "job " ++ (decimal job ++ ending_words exit executed peak) },
    ghost after_is: { after ≡ length (ending_words exit executed peak) },
    ghost few: { after ≤ 83 },
}

impl ExitLine {
    /// Before any job.
    pub fn new() -> ExitLine {
        let mut line = TextLine::end();
        write_ending(&mut line, 0, 0, 0);
        let after = line.len();
        write_number(&mut line, 0);
        ExitLine {
            line,
            after,
            job: 0,
            exit: 0,
            executed: 0,
            peak: 0,
        }
    }

    /// Makes it the line of this job.
    // Else it would be a call for each job, since it has two callers: 38 host instructions more.
    #[inline(always)]
    pub fn set(&mut self, job: usize, exit: u64, executed: u64, peak: u64)
        ensures { self.new.line ≡ job_line job (Some exit) executed peak }
    {
        if exit != self.exit || executed != self.executed || peak != self.peak {
            self.end_with(job, exit, executed, peak);
        }
        self.number(job);
    }

    /// The line.
    #[inline]
    pub fn as_str(&self) -> &str
        ensures { result.now ≡ self.now.line }
    {
        self.line.as_str()
    }

    // Another job ended in this way.
    fn end_with(&mut self, job: usize, exit: u64, executed: u64, peak: u64)
        ensures { (self.new.exit ≡ exit) × (self.new.executed ≡ executed) × (self.new.peak ≡ peak) }
    {
        write_ending(&mut self.line, exit, executed, peak);
        self.after = self.line.len();
        write_number(&mut self.line, job);
        self.job = job;
        self.exit = exit;
        self.executed = executed;
        self.peak = peak;
    }

    // A job of this number ended in the same way.
    #[inline]
    fn number(&mut self, job: usize)
        ensures job { self.new.job ≡ job }
        ensures same { (self.new.exit ≡ self.old.exit) × (self.new.executed ≡ self.old.executed) × (self.new.peak ≡ self.old.peak) }
    {
        if self.job < job && job - self.job == 1 && self.line.count_on(self.after) {
            self.job = job;
        } else if job != self.job {
            self.number_anew(job);
        }
    }

    // All digits of the number are written.
    #[inline(never)]
    fn number_anew(&mut self, job: usize)
        ensures job { self.new.job ≡ job }
        ensures same { (self.new.exit ≡ self.old.exit) × (self.new.executed ≡ self.old.executed) × (self.new.peak ≡ self.old.peak) }
    {
        self.line.keep_last(self.after);
        write_number(&mut self.line, job);
        self.job = job;
    }
}

// Makes a line the part that comes after the number of a job.
fn write_ending(line: &mut TextLine, exit: u64, executed: u64, peak: u64)
    ensures text { line.new ≡ ending_words exit executed peak }
    ensures few { length line.new ≤ 83 }
{
    line.restart();
    line.number(peak);
    line.words(b" peak ");
    line.number(executed);
    line.words(b" executed ");
    line.number(exit);
    line.words(b" exit ");
}

// Writes the number of a job before what comes after it.
fn write_number(ending: &mut TextLine, job: usize)
    requires { length ending.old ≤ 83 }
    ensures { ending.new ≡ codes "job " ++ (decimal job ++ ending.old) }
{
    ending.number(job as u64);
    ending.words(b"job ");
}
