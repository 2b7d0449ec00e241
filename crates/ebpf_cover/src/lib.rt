//! Which instructions jobs executed, and which branches they took.
//!
//! *The idea.* Jobs are counted after they are done, so doing them costs nothing more. Each job is run once more, alone, over a store that
//! answers its calls of `new` and `swap` as its report says. It is run by stretches, which are instructions that lead to the slot after
//! them and nowhere else, and the one after them: so a stretch is counted by the slot at which it begins.
//!
//! *The reason.* What a run does depends only on its program, its context and what its calls are answered. A second run that was
//! answered what the report says is where the run alone is with the report's replies, instruction by instruction.
//!
//! To be read in this order: `replaying`, `counts`, `straight`, `tally`, `cover`.
#![tactic(auto)]

pub mod counts;
pub mod cover;
mod replaying;
mod straight;
mod tally;
