//! Workers that run jobs, whose programs allocate from caches that all workers share.
//!
//! A worker has a store, which answers the calls of `new`, `free` and `swap` of the runs that it makes: a hand at the cache and
//! one at the shelf of each kind, and a seat at the table of owners. An object that a hand takes is a run's only once the seat
//! has claimed its slot for the job. Where the table has another owner for it, the object goes back, the call is answered null,
//! and the clash is counted. An object that a run frees is released before the hand has it back, so that nobody who takes it
//! next finds its slot owned. The types see to this order (ebpf_owned): no hand and no shelf takes an object of a run.
//!
//! A shelf has room for one object, which a run of one worker leaves and a run of another takes. In the table its slot is the
//! shelf's before it is there, and the run's that took it after that. Where it is neither, it is a stray: it goes back to the
//! cache, the call is answered null, and the stray is counted. What the shelves hold at the end goes back too.
//!
//! Workers run side by side, with the reaper beside them. Each draws the number of a bundle of neighbouring jobs, runs them over its
//! store and keeps the reports, until there are none left. [`run_job_list`] makes all this and puts the reports in the order of the jobs,
//! and [`run_jobs`] does the same for jobs and reports that lie each by itself.
//!
//! What it promises: each job is done once, and its report is that of its program alone; what the caches and shelves count is
//! what the reports say, and all that went out came back. It rests on this: the store keeps the laws of `Objects` of
//! ebpf_machine, so all that is proved of a run over any store holds over this one; each bundle is drawn once, and each
//! job is in one bundle.
//!
//! To be read in this order: `ledgers`, `hands`, `supply`, `count`, `client`, `stock`, `each_kind`, `store`,
//! `answered`, `gate`, `spares`, `ending`, `four_jobs`, `bundle`, `worker`, `beside`, `crew`, `outcome`, `admission`, `setup`, `place`, `pool`, `plain_jobs`.
#![tactic(auto)]

mod admission;
mod answered;
mod beside;
mod bundle;
mod client;
mod count;
mod crew;
mod each_kind;
mod ending;
mod four_jobs;
mod gate;
mod hands;
mod ledgers;
mod outcome;
mod place;
mod plain_jobs;
mod pool;
mod setup;
mod spares;
mod stock;
mod store;
mod supply;
mod worker;

pub use admission::PoolFault;
pub use gate::{Gate, NoGate, Point};
pub use job_list::{
    FEW_ANSWERS, Job, JobRef, JobReport, Jobs, PackedReports, Reports, ReportsLeft,
};
pub use outcome::{Host, MAX_JOBS, MAX_WORKERS, Outcome, ShelfTotals};
pub use plain_jobs::run_jobs;
pub use pool::run_job_list;
