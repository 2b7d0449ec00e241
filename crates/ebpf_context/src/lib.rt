//! The context of one program, as the text of hex that a command takes: made of the bytes of a file, or with zeros after what is given.
//!
//! [`text::fill_context`] finds the bytes in a text of hex, and [`text::read_context`] in an input. What they make is read as exactly these
//! bytes, and zeros after them up to the length that is declared: that is the contract of `context_text`, which both use.
#![tactic(auto)]

pub mod text;
