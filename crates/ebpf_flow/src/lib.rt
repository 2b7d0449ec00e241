//! Control flow: where each instruction leads.
//!
//! [`check::check`] makes a [`flowed::Flowed`] of a program exactly where every edge leads forward to an instruction and every
//! instruction is reached; else it names the lowest slot at fault and why. [`followed::follow`] does so from the bytes of a program on, and
//! keeps what it refuses.
//! Displacements are read here, once: the crates above see slots.
//!
//! To be read in this order: `fault`, `edges`, `flowed`, `check`, `followed`.
#![tactic(auto)]

pub mod check;
pub mod edges;
pub mod fault;
pub mod flowed;
pub mod followed;
