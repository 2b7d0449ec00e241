//! The handles by which C keeps programs, machines, workers and what these share: one word each, which owns a box or nothing.
//!
//! C may not see a type that owns memory, so a handle is a pointer that names no type, and what it owns is in its ghost field. A
//! [`held::Held`] is such a pointer with its type; the handles only lose the type and get it back. A struct with a type parameter does
//! not cross to C, nor does one that holds such a struct, so each type that crosses has a handle of its own. Pointers are in this
//! crate alone, and what is said of them is proved by hand.
//!
//! To be read in this order: `loose`, `held`, `machine`, `worker`, `shared`, `program`, `view`.
#![tactic(auto)]

mod held;
mod loose;
pub mod machine;
pub mod program;
pub mod shared;
pub mod view;
pub mod worker;
