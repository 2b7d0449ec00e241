//! Who owns which slot, and who has which number: what makes "no object is ever held by two runs" true of threads.
//!
//! [`owners::Owners`] keeps one word a slot. One compare-exchange claims a slot, one exchange releases it or gives it up to
//! a shelf, one compare-exchange fetches it from there, and a seat, which a thread steps with, lists the slots that it
//! holds. [`tickets::Tickets`] keeps one word, the next number, which one fetch-add draws.
//!
//! What it promises of slots: two seats of one table never hold one slot. A claim is granted exactly where its exchange
//! found the slot free, and a fetch exactly where its exchange found the shelf; otherwise each reports the owner that it
//! found. What it promises of numbers, where limit and seats add up to less than 2^64: none is drawn twice, and once a seat
//! found none left, each was drawn. No call here waits for another thread, so none takes a handle.
#![tactic(auto)]

mod drawing;
pub mod mark;
pub mod owners;
mod owning;
mod place;
mod sheets;
pub mod tickets;
