//! The command `stream`: a machine does the jobs of a stream without end, one after another.
//!
//! To be read in this order: `place`, `setup`, `lines`, `job_text`, `totals`, `totals_text`, `answers`, `output`, `feed`, `stream`.
#![tactic(auto)]

mod answers;
mod feed;
mod job_text;
mod lines;
mod output;
pub mod place;
mod setup;
pub mod stream;
pub mod totals;
mod totals_text;
