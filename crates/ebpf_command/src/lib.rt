//! What the commands share: how an input is read, hex, the verdict on the bytes of a program, and how an answer is written.
//!
//! A command writes a whole text or a beginning of it, and writes nothing else. So each command is a function from what is
//! read to an [`answer::Answer`], and [`answer::respond`] reads and writes around it. A text that is too long to be made as a whole is
//! written in pieces ([`piece::Piece`]).
//!
//! To be read in this order: `done`, `input`, `hex_text`, `codes`, `judge`, `text`, `format`, `json`, `members`, `output`, `piece`, `answer`.
#![tactic(auto)]

pub mod answer;
pub mod codes;
pub mod done;
pub mod format;
pub mod hex_text;
pub mod input;
pub mod json;
pub mod judge;
pub mod members;
pub mod output;
pub mod piece;
pub mod text;
