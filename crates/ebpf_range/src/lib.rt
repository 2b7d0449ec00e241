//! Ranges of unsigned numbers: what is known of a number before a program runs.
//!
//! Each function is the table's entry exactly, and its result holds every number that the operation can give on
//! numbers of its operands' ranges, or every pair of numbers for which a branch goes that way. None of them allocates.
//!
//! To be read in this order: `range`, `hull`, `arithmetic` (what operations give on numbers), `rows` (the rows of the table of
//! results), `results`, `branches`.
#![tactic(auto)]

pub mod arithmetic;
pub mod branches;
mod hull;
pub mod range;
pub mod results;
mod rows;
