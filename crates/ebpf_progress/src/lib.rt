//! How far a command has come that writes without end, for somebody who waits at a terminal.
//!
//! A [`counted::CountedWriter`] passes on what it is given, so that a command writes through it what it writes without it, and counts the lines. A
//! [`teller::Teller`] says on standard error, about once a second, how many there were.
#![tactic(auto)]

pub mod counted;
pub mod teller;
