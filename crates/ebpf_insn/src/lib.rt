//! Instructions of eBPF programs as values, and the programs that bytes encode (RFC 9669).
//!
//! This crate is the trust boundary: [`decode::decode`] makes a [`program::Program`] of bytes exactly where they are
//! the encodings of instructions, one after another, and else names the lowest slot that is at fault and why.
//! Everything above it works on instructions and never sees a byte of a program again.
//!
//! To be read in this order: `register`, `insn`, `slot`, `opcode`, `fields`, `program`, `fault`,
//! `decoded`, `decode`, `encode`.
#![tactic(auto)]

pub mod decode;
mod decoded;
pub mod encode;
pub mod fault;
mod fields;
pub mod insn;
mod opcode;
pub mod program;
pub mod register;
mod slot;
