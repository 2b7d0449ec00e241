//! The texts of what was done over scripts, as lines and as JSON objects: verdicts on programs, a world, the outcome of jobs, what they
//! executed, and the table of `--stats`.
//!
//! *The idea.* No command is here. Each function writes a text that a definition gives to the byte, and commands that report alike use the
//! same one: `check`, `replay`, `run` and `stream` for a verdict, `run` and `stream` for a job.
//!
//! `verdicts` is here since each of those commands begins with it. It judges a program and writes the verdict in one step, so it stands above
//! the reader, whose programs it takes.
//!
//! To be read in this order: `verdict_text`, `verdicts`, `text_line`, `world_lines`, `world_json`, `world_text`, `exit_line`, `report_form`,
//! `outcome_text`, `outcome_json`, `totals_text`, `run_answer`, `covered_sources`, `covered_text`, `covered_trace`, `stats`, `outcome_stats`,
//! `meter`, `stats_text`, `watch`.
#![tactic(auto)]

mod covered_sources;
pub mod covered_text;
pub mod covered_trace;
pub mod exit_line;
pub mod meter;
pub mod outcome_json;
mod outcome_stats;
pub mod outcome_text;
mod report_form;
pub mod run_answer;
pub mod stats;
mod stats_text;
pub mod text_line;
pub mod totals_text;
mod verdict_text;
pub mod verdicts;
pub mod watch;
mod world_json;
mod world_lines;
pub mod world_text;
