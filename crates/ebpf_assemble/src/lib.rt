//! The command `assemble`: from the text of a program to its slots, as hex.
//!
//! What it writes is a function of what it reads, faults included, and it writes nothing else: that is the contract of
//! [`assemble::assemble`]. Which program a text is of is defined in ebpf_assembly. This crate adds the lines of hex, and the codes and
//! sentences of faults.
//!
//! To be read in this order: `fault_text`, `slots_text`, `assemble`.
#![tactic(auto)]

pub mod assemble;
mod fault_text;
mod slots_text;
