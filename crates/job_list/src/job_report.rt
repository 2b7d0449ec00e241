//! The report of a job, as it is kept until all jobs are done.
//!
//! A short job takes mostly the time of memory that is touched for the first time. So a report takes 16 bytes: its numbers have the
//! size that a program's bounds leave them, a few answers are packed in it, and longer lists are in a box. The small numbers are in each
//! variant of `Kept`, where they share a word with its tag and with the few answers.

ghost use Rattle.std.specs.Prelude.{◌≡◌, ◌<◌, true, None, is_some, IfOk};
ghost use Rattle.job_list.specs.JobReports.{exit_of, numbers_in, rest_in};

use crate::few_answers::{FEW_ANSWERS, FewAnswers};
use ebpf_machine::ended::Ended;
use ebpf_machine::report::{Answers, Output, Reply, Report, Taken};
use ebpf_machine::workspace::Workspace;
use std::alloc::{AllocError, Global};
use std::marker::Model;

/// What a report says beside its small numbers: its exit, which is 0 where there is none, and its lists.
#[derive(Drop)]
pub struct Rest {
    exit: u64,
    output: Output,
    answers: Answers,
    taken: Taken,
}

impl Rest {
    /// A box for it, with empty lists. It fails only where an allocation fails.
    pub fn boxed(alloc: Global) -> Result<Box<Rest>, AllocError> {
        let rest = Rest {
            exit: 0,
            output: Output {
                numbers: Vec::new(alloc),
            },
            answers: Answers {
                replies: Vec::new(alloc),
            },
            taken: Taken {
                bytes: Vec::new(alloc),
            },
        };
        Ok(Box::new(alloc, rest)?)
    }
}

/// The small numbers of a report.
#[derive(Clone, Copy)]
pub(crate) struct Numbers {
    executed: u16,
    peak: u8,
    exited: bool,
}

/// The small numbers of a report, and how the rest is kept. They lie at one place in both variants, so that a report is made in
/// registers.
#[derive(Drop)]
pub(crate) enum Kept {
    /// Nothing was added to the output, and nothing was taken off a shelf: a few answers and the exit are left.
    Answered(FewAnswers, Numbers, u64),
    /// The rest is in a box, and there are no answers here.
    All(FewAnswers, Numbers, Box<Rest>),
}

impl Kept {
    /// The small numbers.
    pub(crate) fn numbers(&self) -> &Numbers
        ensures { result.now ≡ numbers_in self.now }
    {
        match self {
            Kept::Answered(_, numbers, _) | Kept::All(_, numbers, _) => numbers,
        }
    }

    /// The exit, or 0 where there is none.
    fn exit(&self) -> u64
        ensures { result ≡ (rest_in self.now).exit }
    {
        match self {
            Kept::Answered(_, _, exit) => *exit,
            Kept::All(_, _, rest) => rest.exit,
        }
    }
}

/// The report of a job. Contracts see it as the [`Report`] of its run.
#[derive(Drop)]
pub struct JobReport {
    kept: Kept,
}

const _: () = prove!(size_of::<JobReport>() <= 16);

impl Model for JobReport {
    ghost use Rattle.ebpf_machine.specs.declared.report.Report.{Report};
    ghost use Rattle.job_list.specs.JobReports.{numbers_in, report_of, rest_in};

    ghost Value = { Report };

    ghost view = { λ r. report_of (numbers_in r.kept) (rest_in r.kept) };
}

impl JobReport {
    /// The report of a run that has ended, and the memory of that run. It takes the spare box where its lists need one.
    #[inline(always)]
    pub fn of<H>(ended: Ended<H>, spare: &mut Option<Box<Rest>>) -> (JobReport, Workspace<H>)
        requires spare { is_some spare.old ≡ true }
        requires executed { ended.executed < 65536 }
        requires peak { ended.peak < 256 }
        ensures { result.0 ≡ ended }
    {
        let numbers = Numbers {
            executed: ended.executed() as u16,
            peak: ended.peak() as u8,
            exited: ended.exit().is_some(),
        };
        let (kept, workspace) = rest_kept(numbers, ended, spare);
        (JobReport { kept }, workspace)
    }

    /// The number that the run returned.
    pub fn exit(&self) -> Option<u64>
        ensures { result ≡ self.now.exit }
    {
        if self.kept.numbers().exited {
            Some(self.kept.exit())
        } else {
            None
        }
    }

    /// How many instructions the run did.
    pub fn executed(&self) -> u64
        ensures { result ≡ self.now.executed }
    {
        u64::from(self.kept.numbers().executed)
    }

    /// The most objects that the run held at one time.
    pub fn peak(&self) -> u64
        ensures { result ≡ self.now.peak }
    {
        u64::from(self.kept.numbers().peak)
    }

    /// What the run added to its output.
    pub fn output(&self) -> &[u64]
        ensures { result.now ≡ self.now.output }
    {
        match &self.kept {
            Kept::All(_, _, rest) => &rest.output.numbers,
            Kept::Answered(_, _, _) => &[],
        }
    }

    /// What each call of `new` and of `swap` was answered. A few answers are packed in the report: they are unpacked into `room`.
    pub fn answers<'a>(&'a self, room: &'a mut [Reply; FEW_ANSWERS]) -> &'a [Reply]
        ensures { result.now ≡ self.now.answers }
    {
        match &self.kept {
            Kept::Answered(few, _, _) => few.replies(room),
            Kept::All(_, _, rest) => &rest.answers.replies,
        }
    }

    /// The bytes of each object that a call of `swap` was answered, as they were on the shelf.
    pub fn taken(&self) -> &[u8]
        ensures { result.now ≡ self.now.taken }
    {
        match &self.kept {
            Kept::All(_, _, rest) => &rest.taken.bytes,
            Kept::Answered(_, _, _) => &[],
        }
    }

    /// The same report with lists of its own.
    ///
    /// # Errors
    /// There was no memory.
    pub fn to_report(&self, alloc: Global) -> Result<Report, AllocError>
        ensures { IfOk result (λ report. report ≡ self.now) }
    {
        let mut room = [Reply::Null; FEW_ANSWERS];
        Ok(Report {
            exit: self.exit(),
            output: Output {
                numbers: self.output().to_vec(alloc)?,
            },
            executed: self.executed(),
            answers: Answers {
                replies: self.answers(&mut room).to_vec(alloc)?,
            },
            taken: Taken {
                bytes: self.taken().to_vec(alloc)?,
            },
            peak: self.peak(),
        })
    }
}

// These numbers beside the rest of a run that has ended, in the spare box where its lists need one, and the memory of that run.
#[inline(always)]
fn rest_kept<H>(
    numbers: Numbers,
    ended: Ended<H>,
    spare: &mut Option<Box<Rest>>,
) -> (Kept, Workspace<H>)
    requires spare { is_some spare.old ≡ true }
    requires exited { numbers.exited ≡ is_some ended.exit }
    ensures numbers { numbers_in result.0 ≡ numbers }
    ensures exit { exit_of numbers.exited (rest_in result.0).exit ≡ ended.exit }
    ensures output { (rest_in result.0).output ≡ ended.output }
    ensures answers { (rest_in result.0).answers ≡ ended.answers }
    ensures taken { (rest_in result.0).taken ≡ ended.taken }
{
    let exit = ended.exit().unwrap_or(0);
    let answers = ended.answers();
    if ended.output().is_empty() && ended.taken().is_empty() && answers.len() <= FEW_ANSWERS {
        let few = FewAnswers::of(answers);
        return (Kept::Answered(few, numbers, exit), ended.forget());
    }
    let Some(mut boxed) = spare.take() else {
        unreachable!()
    };
    let (report, workspace) = ended.report();
    *boxed = Rest {
        exit,
        output: report.output,
        answers: report.answers,
        taken: report.taken,
    };
    (Kept::All(FewAnswers::of(&[]), numbers, boxed), workspace)
}
