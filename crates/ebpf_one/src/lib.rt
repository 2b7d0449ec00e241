//! The commands that run or write one program: `one` runs it, `list` writes its instructions, `lay_out` puts them in an order in which
//! every jump goes forward, and `unroll` unrolls its loops.
//!
//! What each writes is a function of what it reads and of what is asked, errors included, and it writes nothing else: that is the contract of
//! [`one::one`], [`list::list`], [`lay_out::lay_out`] and [`unroll::unroll`]. Of a loop that can't be unrolled `unroll` says what ebpf_forward
//! knows, which the contract leaves open. The program that an input gives comes from ebpf_input, and all else rests on the contracts of the
//! crates below. This crate adds what the four ask for and the lines of their texts.
//!
//! To be read in this order: `headed`, `how`, `alone`, `steps`, `text`, `json_text`, `answer`, `sourced_run`, `one`; `data_list`,
//! `source_list`, `list`; `copies_text`, `running`, `linked`, `lay_out_linked`, `lay_out`, `unroll`.
#![tactic(auto)]

mod alone;
mod answer;
mod copies_text;
mod data_list;
mod headed;
pub mod how;
mod json_text;
pub mod lay_out;
mod lay_out_linked;
mod linked;
pub mod list;
pub mod one;
mod running;
mod source_list;
mod sourced_run;
mod steps;
mod text;
pub mod unroll;
