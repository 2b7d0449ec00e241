//! Programs with loops, unrolled into programs without, and a proof that every run of such a program ends.
//!
//! *The idea.* [`unroll::unroll`] makes the verifier's walk over a program whose jumps may lead back, and comes to a slot as often
//! as something is known of a run that comes there. Each visit is a copy of the slot's instruction, whose edges lead to later
//! copies. So a loop is unrolled turn by turn, for as long as what is known says that a run may go on with it, and no number of
//! turns is asked for. An edge along which no run goes leads to a stub, a call of no helper: a program in which a run could come
//! to that is refused.
//!
//! *The invariant.* Each copy is the instruction of its slot but for its displacement, and each of its edges leads to a copy,
//! whichever, of what the edge of the instruction led to, or to a stub (specs/Unrolling, `IsUnrolled`).
//!
//! *The reason.* A run of the copies does what a run of the program does, until it comes to a stub. Where the copies are accepted it
//! never does, and it ends within as many instructions as there are copies: so the run of the program ends too (specs/Ending,
//! `AlwaysEnds`). Nothing is proved of the walk, which only chooses the copies: the writer is proved to write copies, `check` looks
//! where their edges lead, and the verifier judges what was written.
//!
//! Of a program that isn't unrolled, [`long_loop::long_loop`] and [`known::known_at_end`] say what the walk knows, for a sentence.
//!
//! To be read in this order: `fault`, `queue`, `compared`, `walk`, `order`, `writer`, `copies`, `check`, `unroll`; `long_loop`, `known`.
#![tactic(auto)]

mod check;
pub mod compared;
mod copies;
pub mod fault;
pub mod known;
pub mod long_loop;
mod order;
mod queue;
pub mod unroll;
mod walk;
mod writer;
