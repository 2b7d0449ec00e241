//! The objects of a run, whose slots a seat of the owners' table holds.
//!
//! A thread that makes runs has a seat at the table of owners. What it takes from a cache is a run's only once the seat has claimed the
//! slot for that run, and what it gets off a shelf only once the seat has fetched the slot. An [`Owned`] is such an object. It becomes a
//! bare object again, which caches and shelves take, only when its slot is released or passed to the shelf.
//!
//! This is all that a store needs to answer calls of `new`, `free` and `swap` for runs beside others. It knows no cache and counts
//! nothing: what a claim or a fetch found is noted by the seat, and each contract says all that changes there.
#![tactic(auto)]

mod closing;
mod optional;
mod owned;

pub use closing::unshelve;
pub use optional::{shelved, slot_in};
pub use owned::Owned;
