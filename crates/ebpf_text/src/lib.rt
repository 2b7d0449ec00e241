//! The text of a program: a line for each instruction.
//!
//! [`listing::listing`] gives the lines of a whole program, [`line::line`] that of one instruction. A line has the slot,
//! the word of the instruction (`mnemonic`) and its operands.
//!
//! To be read in this order: `names`, `mnemonic`, `operand`, `operands`, `line`, `listing`.
#![tactic(auto)]

pub mod line;
pub mod listing;
mod mnemonic;
mod names;
mod operand;
mod operands;
