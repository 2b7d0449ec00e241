//! Jobs in a list.
//!
//! A short job takes mostly the time of memory that is touched for the first time. So a job in a list takes sixteen bytes and those of
//! its context: all contexts lie one after another in one list of bytes.

ghost use Rattle.std.specs.Prelude.{◌≡◌, ◌≤◌, ◌<◌, ◌++◌, ◌∷◌, [], length, slice_get, None, Some, MatchOption, IfOk, OnOk, OnErr};
ghost use Rattle.job_list.specs.JobLists.{AreInOrder, IsJob, jobs_from, start_of};

use crate::jobs::Job;
use std::alloc::{AllocError, Global};
use std::marker::Model;

// A job of a list: its program, and where its context ends. It begins where the one before it ends.
#[derive(Clone, Copy)]
pub(crate) struct Entry {
    program: usize,
    end: usize,
}

/// Jobs in the order in which they were pushed. Contracts see the list of them.
#[derive(Drop)]
pub struct Jobs {
    entries: Vec<Entry>,
    // the contexts of all jobs
    bytes: Vec<u8>,
}

impl Model for Jobs {
    ghost use Rattle.std.specs.Prelude.{List};
    ghost use Rattle.job_list.specs.declared.jobs.Job.{Job};
    ghost use Rattle.job_list.specs.JobLists.{AreInOrder, jobs_from};

    ghost Value = { List Job };

    ghost view = { λ j. jobs_from 0 j.bytes.items j.entries.items };

    ghost invariant = { λ j. AreInOrder 0 j.bytes.items j.entries.items };
}

/// A job of a list, whose context is in the list.
#[derive(Clone, Copy)]
pub struct JobRef<'a> {
    pub program: usize,
    pub context: &'a [u8],
}

impl Jobs {
    /// No jobs.
    pub fn new(alloc: Global) -> Jobs
        ensures { result ≡ [] }
    {
        Jobs {
            entries: Vec::new(alloc),
            bytes: Vec::new(alloc),
        }
    }

    /// A copy of these jobs.
    ///
    /// # Errors
    /// There was no memory.
    pub fn of(alloc: Global, jobs: &[Job]) -> Result<Jobs, AllocError>
        ensures { IfOk result (λ list. list ≡ jobs.now) }
    {
        let mut list = Jobs::new(alloc);
        'copying: for number in 0..jobs.len() {
            let job = &jobs[number];
            list.push(job.program, &job.context.bytes)?;
        }
        Ok(list)
    }

    /// How many there are.
    #[tactic(auto, using(crate::proofs::JobLists::jobs_length))]
    pub fn len(&self) -> usize
        ensures { result ≡ length self.now }
    {
        self.entries.len()
    }

    /// Adds a job after the last: a program, by its place in a list, and a copy of the context that it is run on.
    ///
    /// # Errors
    /// There was no memory: nothing was added.
    #[inline]
    #[tactic(auto, using(crate::proofs::JobLists::pushed, crate::proofs::JobLists::pushed_order))]
    pub fn push(&mut self, program: usize, context: &[u8]) -> Result<(), AllocError>
        ensures ok { OnOk result (self.new ≡ self.old ++ record { program = program; context = context.now } ∷ []) }
        ensures failed { OnErr result (self.new ≡ self.old) }
    {
        self.entries.reserve(1)?;
        add_bytes(&mut self.bytes, context)?;
        let end = self.bytes.len();
        self.entries.push_reserved(Entry { program, end });
        Ok(())
    }

    /// The job of this number, from 0.
    #[inline]
    #[tactic(auto, using(crate::proofs::JobLists::jobs_length))]
    pub fn job(&self, number: usize) -> JobRef<'_>
        requires { number < length self.now }
        ensures { IsJob self.now number result }
    {
        job_at(&self.entries, &self.bytes, number)
    }
}

// The job of a number.
#[inline]
fn job_at<'a>(entries: &[Entry], bytes: &'a [u8], number: usize) -> JobRef<'a>
    requires order { AreInOrder 0 bytes.now entries.now }
    requires number { number < length entries.now }
    ensures { IsJob (jobs_from 0 bytes.now entries.now) number result }
{
    let start = start_of(entries, number);
    let entry = entries[number];
    JobRef {
        program: entry.program,
        context: &bytes[start..entry.end],
    }
}

// Adds bytes after those that are there, or none where there is no memory.
#[inline]
fn add_bytes(bytes: &mut Vec<u8>, more: &[u8]) -> Result<(), AllocError>
    ensures ok { OnOk result (bytes.new.items ≡ bytes.old.items ++ more.now) }
    ensures failed { OnErr result (bytes.new.items ≡ bytes.old.items) }
{
    // A short job mostly has no context, and a copy is a call.
    if more.is_empty() {
        return Ok(());
    }
    bytes.extend_from_slice(more)
}

// Where the context of a job begins.
#[inline]
fn start_of(entries: &[Entry], number: usize) -> usize
    requires { number ≤ length entries.now }
    ensures { result ≡ start_of 0 entries.now number }
{
    if number == 0 {
        return 0;
    }
    entries[number - 1].end
}
