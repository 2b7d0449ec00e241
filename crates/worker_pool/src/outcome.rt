//! What jobs are run with, and what comes of them.

use ebpf_state::kinds::KINDS;
use ebpf_verify::verified::Verified;
use job_list::Reports;
use object_cache::Totals;

/// The most workers.
pub const MAX_WORKERS: usize = 64;

/// The most jobs: a mark has room for the number of each.
pub const MAX_JOBS: u64 = 1 << 20;

/// What all jobs share: the pages of the arena, 1 to [`vmem_arena::MAX_PAGES`], and the programs.
#[derive(Drop)]
pub struct Host {
    pub pages: u32,
    pub programs: Vec<Verified>,
}

/// What a shelf did.
#[derive(Clone, Copy, Debug, PartialEq, Eq)]
pub struct ShelfTotals {
    /// How often a run put an object there.
    pub puts: u64,
    /// How often a run got one from there.
    pub gets: u64,
    /// How many it held at the end: one, or none.
    pub left: u64,
    /// How often a run got none, though one had been put there before. It stops at the greatest number.
    pub misses: u64,
}

/// What came of all jobs, with their reports in some form: [`Reports`], or as [`crate::PackedReports`].
#[derive(Drop)]
pub struct Outcome<R = Reports> {
    /// A report for each job, in the order of the jobs.
    pub reports: R,
    /// What each cache did, in the order of the kinds' numbers.
    pub totals: [Totals; KINDS],
    /// How many objects went back to their cache since their slot had an owner.
    pub clashes: u64,
    /// What each shelf did, in the order of the kinds' numbers. What it held at the end went back to its cache.
    pub shelves: [ShelfTotals; KINDS],
    /// How many objects that came off a shelf went back to their cache since the table had their slots as another's.
    pub strays: u64,
    /// How many jobs each worker did, in the order of their seats.
    pub jobs_done: Vec<u64>,
}
