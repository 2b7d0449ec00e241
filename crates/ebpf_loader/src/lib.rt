//! A function of an object file as a program, linked with the read-only data that it uses: tables, strings and constants.
//!
//! [`load::load`] takes what ebpf_object_file says of a function, places the data after the context, and has ebpf_link make a program that finds
//! it there. [`sentence::write_sentence`] says why a function can't be linked.
//!
//! To be read in this order: `fault`, `load`, `sentence`.
#![tactic(auto)]

pub mod fault;
pub mod load;
pub mod sentence;
