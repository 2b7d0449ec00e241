//! Jobs and their reports as lists, in which many short ones take little memory.
//!
//! A job is a program, by its place in a list, and the context that it is run on. [`Jobs`] have the contexts of all jobs one after
//! another; whoever reads jobs in either form is generic in a [`JobSource`]. A [`JobReport`] is what a run reported, in sixteen bytes
//! where its lists are short, and [`PackedReports`] are such reports in lists that stay where they were written. [`Reports`] are the
//! same reports, each with lists of its own.
//!
//! What it promises: the jobs of a list are those that were pushed, and a report says what its run reported, however it is kept. Who
//! runs the jobs isn't known here.
//!
//! To be read in this order: `jobs`, `job_list`, `job_source`, `few_answers`, `job_report`, `packed_reports`, `reports`.
#![tactic(auto)]

mod few_answers;
mod job_list;
mod job_report;
mod job_source;
mod jobs;
mod packed_reports;
mod reports;

pub use few_answers::FEW_ANSWERS;
pub use job_list::{JobRef, Jobs};
pub use job_report::{JobReport, Rest};
pub use job_source::{JobSlice, JobSource};
pub use jobs::Job;
pub use packed_reports::{PackedReports, ReportsLeft};
pub use reports::Reports;
