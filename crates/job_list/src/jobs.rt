//! A job.

use ebpf_machine::context::Context;

/// A program to be run, by its place in a list, and the context that it is run on, which is the job's own. A stream has one such job at a
/// time; many are in [`crate::job_list::Jobs`].
#[derive(Drop)]
pub struct Job {
    pub program: usize,
    pub context: Context,
}
