//! Programs laid out anew, so that every jump leads forward.
//!
//! A compiler may lay the blocks of a function out so that a jump leads back although there is no loop, and it may leave
//! instructions that no path reaches. [`layout::lay_out`] makes a program of the reached instructions in an order in which each
//! comes before those that it leads to, with a jump added where a branch's target has to be between the branch and what that
//! falls to. So the check of the flow takes it, and a run of it does what a run of the old one would have done. It also says which slot
//! of the old program each slot of the new one copies.
//!
//! [`edges::moved`] and [`refusal::edge_fault`] are for crates that write programs in other ways.
//!
//! To be read in this order: `fault`, `edges`, `mark`, `search`, `refusal`, `placing`, `writer`, `copied`, `layout`.
#![tactic(auto)]

mod copied;
pub mod edges;
pub mod fault;
pub mod layout;
mod mark;
mod placing;
pub mod refusal;
mod search;
mod writer;
