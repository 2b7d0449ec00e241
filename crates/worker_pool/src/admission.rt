//! What is asked of jobs before any worker is started, and why they were not done.

ghost use Rattle.std.specs.Prelude.{◌≡◌, ◌↔◌, ◌≤◌, ◌<◌, Ok, Err, All, length, slice_get, position, IfSome, IfNone, IfErr, IfOk, OnOk};
ghost use Rattle.job_list.specs.JobLists.{job_of};
ghost use Rattle.worker_pool.specs.Admission.{has_program, has_context, without_program, without_context, job_fault, pool_fault};

use crate::outcome::{Host, MAX_JOBS, MAX_WORKERS};
use ebpf_verify::verified::Verified;
use job_list::{JobRef, JobSource};
use thiserror::Error;
use vmem_arena::MAX_PAGES;

/// Why no job was done, or not all of them. The first five are found before any worker is started, in this order.
#[derive(Clone, Copy, Debug, Error)]
pub enum PoolFault {
    /// The arena has no page, or more than [`vmem_arena::MAX_PAGES`].
    #[error("the arena can't have that many pages")]
    Pages,
    /// There is no worker, or more than [`crate::outcome::MAX_WORKERS`].
    #[error("there can't be that many workers")]
    Workers,
    /// There are more jobs than [`crate::outcome::MAX_JOBS`].
    #[error("there are too many jobs")]
    Jobs,
    /// This job's program isn't there; the lowest such job.
    #[error("the program of job {job} doesn't exist")]
    Program { job: usize },
    /// This job's context doesn't have the length that its program declares; the lowest such job.
    #[error("the context of job {job} doesn't have the declared length")]
    Context { job: usize },
    /// There was no memory. All workers were waited for, and all caches closed.
    #[error("out of memory")]
    NoMemory,
}

/// The first fault of the jobs, of what they are run with, or of the number of workers.
#[tactic(auto, unfolding(crate::specs::Admission::pool_fault))]
pub(crate) fn pool_fault<S: JobSource>(host: &Host, workers: usize, jobs: &S) -> Option<PoolFault>
    ensures { result ≡ pool_fault host.now workers (S.listed jobs.now) }
{
    if host.pages == 0 || host.pages > MAX_PAGES {
        return Some(PoolFault::Pages);
    }
    if workers == 0 || workers > MAX_WORKERS {
        return Some(PoolFault::Workers);
    }
    if jobs.count() as u64 > MAX_JOBS {
        return Some(PoolFault::Jobs);
    }
    job_fault(&host.programs, jobs)
}

// The fault of the first job without its program, or else of the first without its context.
fn job_fault<S: JobSource>(programs: &[Verified], jobs: &S) -> Option<PoolFault>
    ensures { result ≡ job_fault (without_program programs.now (S.listed jobs.now)) (without_context programs.now (S.listed jobs.now)) }
{
    // Without its program a job has no context that fits, so jobs with no fault are looked through once.
    let Some(job) = without_context(programs, jobs) else {
        return None;
    };
    match without_program(programs, jobs) {
        Some(job) => Some(PoolFault::Program { job }),
        None => Some(PoolFault::Context { job }),
    }
}

// The first job whose program isn't there.
fn without_program<S: JobSource>(programs: &[Verified], jobs: &S) -> Option<usize>
    ensures { result ≡ without_program programs.now (S.listed jobs.now) }
{
    'known: for number in 0..jobs.count() {
        if !has_program(programs, jobs.at(number)) {
            return Some(number);
        }
    }
    None
}

// The first job whose context doesn't have the length that its program declares.
fn without_context<S: JobSource>(programs: &[Verified], jobs: &S) -> Option<usize>
    ensures { result ≡ without_context programs.now (S.listed jobs.now) }
{
    'fitting: for number in 0..jobs.count() {
        if !has_context(programs, jobs.at(number)) {
            return Some(number);
        }
    }
    None
}

// Whether the job's program is there.
fn has_program(programs: &[Verified], job: JobRef) -> bool
    ensures { result ≡ has_program programs.now (job_of job.entry) }
{
    job.program < programs.len()
}

// Whether the job's context has the length that its program declares.
fn has_context(programs: &[Verified], job: JobRef) -> bool
    ensures { result ≡ has_context programs.now (job_of job.entry) }
{
    match programs.get(job.program) {
        Some(verified) => job.context.len() == verified.decl().context as usize,
        None => false,
    }
}
