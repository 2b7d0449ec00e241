//! What is asked of a command over one program, and the program that its input gives, or why it gives none.
//!
//! The input is hex, raw bytes, or an object file, of which a function is taken: [`request::given_bytes`] reads the first two, and
//! [`object::taken`] takes the slots of a function. A function that reads data of its file is linked with it: [`data_request::requested_with_data`]. What isn't such an input is answered in the format that is asked for, with its sentence and
//! the line of C that holds there. The commands themselves are in the crates above, which also write what is here: the rows of a refusal, of an
//! instruction and of a line of C.
//!
//! To be read in this order: `form`, `ask`, `program_text`, `request`, `json_text`, `source_line`, `in_format`, `why_not`,
//! `object`, `input_faults`, `under`, `data_request`, `no_request`.
#![tactic(auto)]

pub mod ask;
pub mod data_request;
pub mod form;
pub mod in_format;
pub mod input_faults;
pub mod json_text;
pub mod no_request;
pub mod object;
mod program_text;
pub mod request;
pub mod source_line;
pub mod under;
pub mod why_not;
