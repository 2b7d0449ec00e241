//! The verdict on a program: whether every run of it keeps within what it may touch.
//!
//! [`verify::verify`] walks a program once, in the order of its slots, and keeps for each slot what is known of every
//! run that comes there. It refuses the lowest slot whose rule refuses what is known there; where it refuses none, it
//! makes a [`verified::Verified`], and no run of that program traps. [`examined::examine`] does so from the bytes of a
//! program on, and keeps what it refuses. [`trace::Trace::of`] says what the verdict rests on, and [`comers::comers_to`] what each of those
//! states is the join of.
//! [`propagate::pass_on`] is the rule of one instruction, for walks that go another way.
//!
//! To be read in this order: `fault`, `decl`, `pointer`, `operations`, `branches`, `memory`, `call_count`, `calls`, `rules`, `entry`,
//! `propagate`, `verify`, `verified`, `examined`, `trace`, `comers`.
#![tactic(auto)]

mod branches;
mod call_count;
mod calls;
pub mod comers;
pub mod decl;
pub mod entry;
pub mod examined;
pub mod fault;
mod memory;
mod operations;
mod pointer;
pub mod propagate;
mod rules;
pub mod trace;
pub mod verified;
pub mod verify;
