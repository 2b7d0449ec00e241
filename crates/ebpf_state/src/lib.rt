//! Abstract states: what is known before a slot of every run that comes there.
//!
//! A state has the eleven registers, the 64 words of the stack, and the references that are held. The crate above walks
//! a program with them; this one says what they are and how two of them are joined where paths meet.
//!
//! To be read in this order: `value`, `word`, `held`, `kinds`, `stack`, `state`.
#![tactic(auto)]

pub mod held;
pub mod kinds;
pub mod stack;
pub mod state;
pub mod value;
pub mod word;
