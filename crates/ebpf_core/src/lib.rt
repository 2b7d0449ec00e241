//! The world of many runs, and its events.
//!
//! A [`world::World`] has runs of accepted programs, and what they share: the slots of each kind, in ledgers, and who owns
//! them. An event is one atomic step of it: a run starts, a run does one instruction, a slot joins or leaves a ledger.
//! [`replay::replay`] makes the world after a list of events. It carries the main theorem: for every legal list no run
//! traps, and each computes what its program computes alone, whatever the others do between (specs/Isolation).
//!
//! To be read in this order: `event`, `fault`, `ledger`, `passing`, `place`, `stepping`, `world`, `replay`.
#![tactic(auto)]

pub mod event;
pub mod fault;
mod ledger;
mod passing;
mod place;
pub mod replay;
mod stepping;
pub mod world;
