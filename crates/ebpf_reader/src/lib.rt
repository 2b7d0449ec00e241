//! Reads scripts: from the bytes of a text to its programs and its events or jobs, or to its first fault.
//!
//! *The idea.* A line is its words, its words have a shape, and a shape either adds to the script what it says or has a fault. So the
//! script that a text is parsed to is defined line by line, and [`read_script::read_script`] gives that script, or that fault.
//! [`job_line::read_job_line`] reads a line of a stream of jobs by the same words.
//!
//! To be read in this order: `words`, `lines`, `numbers`, `names`, `script`, `programs`, `again`, `kept`, `statement`, `line`,
//! `read_script`, `job_line`.
#![tactic(auto)]

mod again;
pub mod job_line;
mod kept;
mod line;
mod lines;
mod names;
mod numbers;
mod programs;
pub mod read_script;
pub mod script;
mod statement;
mod words;
