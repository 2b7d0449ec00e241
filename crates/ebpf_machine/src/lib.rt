//! Runs of accepted programs.
//!
//! A [`run::Run`] does one instruction at each [`run::Run::step`], and up to n at each [`run::Run::run`]. Its program is a
//! `Verified`, so no instruction of it traps and none is tested at run time. What it computes is defined in specs/ by a
//! machine that tests every access: the world of many runs, one event of it, and a run alone in a world of its own.
//!
//! To be read in this order: `value`, `kinds`, `context`, `objects`, `holding`, `number`, `stack`, `memory`, `registers`, `arithmetic`,
//! `operate`, `report`, `answer`, `fixed`, `parts`, `workspace`, `ended`, `overwrite`, `helpers`, `going`, `burst`, `advance`, `run`, `whole`,
//! `lanes`, `fours`, `together`, `four_runs`.
#![tactic(auto)]

mod advance;
pub mod answer;
mod arithmetic;
mod burst;
pub mod context;
pub mod ended;
mod fixed;
pub mod four_runs;
mod fours;
mod going;
mod helpers;
pub mod holding;
pub mod kinds;
mod lanes;
mod memory;
mod number;
pub mod objects;
mod operate;
mod overwrite;
mod parts;
mod registers;
pub mod report;
pub mod run;
mod stack;
mod together;
pub mod value;
pub mod whole;
pub mod workspace;
