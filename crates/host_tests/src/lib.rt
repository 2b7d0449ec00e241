//! Tests of runs on a machine, as a host calls them.
//!
//! What `Program::load` and `Machine::run` promise is proved where they are. What is tried here is what no contract says: that programs
//! are loaded and run where memory is there, that a page serves another kind once it is reaped, and that the promises mean the numbers
//! that a person expects.
#![tactic(auto)]

#[cfg(test)]
mod runs;
