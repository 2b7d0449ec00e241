//! The lines of C of programs that jobs ran, each with how often jobs came to it.
//!
//! *The idea.* A program of a script is bytes, and a function of an object file is too: the program has the lines of the first function
//! that has its bytes. A line's count is that of its most executed instruction, since the instructions of a line needn't be executed together.
//!
//! *The order.* A compiler moves instructions, so lines are written by their numbers. There are at most 4,096 slots: for each
//! line the next number is looked for at all of them, and no list is made.
//!
//! To be read in this order: `source`, `line_counts`, `line_text`, `source_text`, `trace_rows`, `tracefile`.
#![tactic(auto)]

mod line_counts;
mod line_text;
pub mod source;
pub mod source_text;
mod trace_rows;
pub mod tracefile;
