//! The steps of a run, as lines: each instruction that the run executes, or those that are chosen, with what it changed.
//!
//! *The idea.* What an instruction changed can be read off the run after it: the register that it sets, or the place to which it
//! stores, whose base and value it leaves as they are. So a line needs the instruction and the run, and no copy of the run before.
//!
//! To be read in this order: `change`, `choice`, `words`, `step`.
#![tactic(auto)]

mod change;
pub mod choice;
pub mod step;
mod words;
