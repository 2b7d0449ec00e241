//! What the checks of a program know and say, in words.
//!
//! [`values::write_value`] says what is known of a value, [`known::write_known`] what is known before a slot, and [`slots::write_slots`]
//! writes a listing with such a line before each instruction; [`lost::write_lost`] says what is lost where paths meet, and
//! [`losses::add_losses`] collects it by the slots that it comes from. [`decode_sentence::write_decode_sentence`], [`reason::write_misled`] and
//! [`verify_sentence::write_verify_sentence`] tell in a line why one of the three checks refuses a slot, with what is there or
//! known there, and what would mend it. [`reason::write_reason`] writes that of a refused slot by what comes to it, and where paths
//! meet that hold different objects, which two those are, or where the values of a register were lost; [`why::write_why`] does so of
//! the bytes of a program. What is written is a function of what is known, defined in specs/.
//!
//! To be read in this order: `values`, `registers`, `stack_words`, `references`, `known`, `lost`, `losses`, `slots`; `hex`,
//! `decode_sentence`, `loops`, `flow_sentence`; `reads`, `accesses`, `memory_faults`, `rooms`, `mending`, `call_faults`, `verify_sentence`;
//! `meeting`, `loss`, `reason`, `why`.
#![tactic(auto)]

mod accesses;
mod call_faults;
pub mod decode_sentence;
mod flow_sentence;
mod hex;
pub mod known;
mod loops;
mod loss;
pub mod losses;
pub mod lost;
mod meeting;
mod memory_faults;
mod mending;
mod reads;
pub mod reason;
mod references;
mod registers;
mod rooms;
pub mod slots;
mod stack_words;
pub mod values;
pub mod verify_sentence;
pub mod why;
