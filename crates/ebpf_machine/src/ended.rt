//! A run that has ended, still in its memory.
//!
//! *The reason.* A report has three lists, which most runs leave empty. So it is looked at where it is, and a list is moved only for
//! whoever keeps it.

ghost use Rattle.std.specs.Prelude.{◌≡◌, []};

use crate::parts::Parts;
use crate::report::{Answers, Output, Reply, Report, Taken};
use crate::workspace::Workspace;
use std::marker::Model;
use std::mem;

/// A run that has ended and holds nothing. Contracts see it as its [`Report`]. Its memory must be taken out of it.
pub struct Ended<H> {
    pub(crate) parts: Box<Parts<H>>,
}

impl<H> Model for Ended<H> {
    ghost use Rattle.std.specs.Prelude.{◌≡◌, []};
    ghost use Rattle.ebpf_machine.specs.declared.report.Report.{Report};
    ghost use Rattle.ebpf_machine.specs.Parts.{report_by};

    ghost Value = { Report };

    ghost view = { λ e. report_by e.parts.value };

    ghost invariant = { λ e. e.parts.value.held.items ≡ [] };
}

impl<H> Ended<H> {
    /// The number that the run returned, or `None` where it was given up before its exit.
    pub fn exit(&self) -> Option<u64>
        ensures { result ≡ self.now.exit }
    {
        self.parts.exit
    }

    /// How many instructions it did.
    pub fn executed(&self) -> u64
        ensures { result ≡ self.now.executed }
    {
        self.parts.executed
    }

    /// The most objects that it held at one time.
    pub fn peak(&self) -> u64
        ensures { result ≡ self.now.peak }
    {
        self.parts.peak
    }

    /// What it added to its output.
    pub fn output(&self) -> &[u64]
        ensures { result.now ≡ self.now.output }
    {
        &self.parts.output
    }

    /// What its calls of `new` and of `swap` were answered.
    pub fn answers(&self) -> &[Reply]
        ensures { result.now ≡ self.now.answers }
    {
        &self.parts.replies
    }

    /// The bytes of each object that a call of `swap` was answered, as they were on the shelf.
    pub fn taken(&self) -> &[u8]
        ensures { result.now ≡ self.now.taken }
    {
        &self.parts.taken
    }

    /// The report, with the lists themselves, and the memory for the next run.
    pub fn report(self) -> (Report, Workspace<H>)
        ensures { result.0 ≡ self }
    {
        let Ended { mut parts } = self;
        let report = Report {
            exit: parts.exit,
            output: Output {
                numbers: taken_out(&mut parts.output),
            },
            executed: parts.executed,
            answers: Answers {
                replies: taken_out(&mut parts.replies),
            },
            taken: Taken {
                bytes: taken_out(&mut parts.taken),
            },
            peak: parts.peak,
        };
        (report, Workspace { parts })
    }

    /// The memory for the next run, that of the lists too. What is in it is forgotten.
    pub fn forget(self) -> Workspace<H> {
        let Ended { mut parts } = self;
        parts.output.clear();
        parts.replies.clear();
        parts.taken.clear();
        Workspace { parts }
    }
}

// Takes what is in a list out of it. A list with nothing in it keeps its memory, for the next run.
fn taken_out<T: Drop>(list: &mut Vec<T>) -> Vec<T>
    ensures items { result.items ≡ list.old.items }
    ensures none { list.new.items ≡ [] }
{
    let alloc = *list.allocator();
    if list.is_empty() {
        return Vec::new(alloc);
    }
    mem::replace(list, Vec::new(alloc))
}
