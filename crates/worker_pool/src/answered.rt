//! What workers answer: a list of reports for each bundle.

ghost use Rattle.worker_pool.specs.Numbering.{IsBlank};

use job_list::JobReport;
use std::alloc::Global;

/// The reports of the jobs of a bundle, in the order of the jobs, and the bundle's number.
#[derive(Drop)]
pub(crate) struct Bundle {
    pub(crate) number: u64,
    pub(crate) reports: Vec<JobReport>,
}

/// What a worker did: the bundles that it drew.
#[derive(Drop)]
pub(crate) struct Answered {
    pub(crate) bundles: Vec<Bundle>,
}

impl Answered {
    /// Of no bundle.
    pub(crate) fn new(alloc: Global) -> Answered
        ensures { IsBlank result }
    {
        Answered {
            bundles: Vec::new(alloc),
        }
    }
}
