//! Jobs by their number, however they are kept.

ghost use Rattle.std.specs.Prelude.{◌≡◌, ◌<◌, List, length};
ghost use Rattle.job_list.specs.JobLists.{IsJob};
ghost use Rattle.job_list.specs.declared.jobs.Job.{Job};

use crate::job_list::{JobRef, Jobs};
use crate::jobs::Job;

/// Jobs that can be looked at, in whatever form.
pub trait JobSource {
    /// The jobs, in their order.
    ghost listed: { Self → List Job };

    /// How many there are.
    fn count(&self) -> usize
        ensures { result ≡ length (listed self.now) };

    /// The job of this number, from 0.
    fn at(&self, number: usize) -> JobRef<'_>
        requires { number < length (listed self.now) }
        ensures { IsJob (listed self.now) number result };
}

/// Jobs as a host has them, each with a context of its own.
#[derive(Clone, Copy)]
pub struct JobSlice<'a> {
    pub jobs: &'a [Job],
}

impl<'a> JobSource for JobSlice<'a> {
    ghost listed = { λ slice. slice.jobs.now };

    fn count(&self) -> usize {
        self.jobs.len()
    }

    fn at(&self, number: usize) -> JobRef<'_> {
        let job = &self.jobs[number];
        JobRef {
            program: job.program,
            context: &job.context.bytes,
        }
    }
}

impl JobSource for Jobs {
    ghost listed = { λ jobs. jobs };

    fn count(&self) -> usize {
        self.len()
    }

    fn at(&self, number: usize) -> JobRef<'_> {
        self.job(number)
    }
}
