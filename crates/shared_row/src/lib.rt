//! Values that threads share, each with one of them at a time, and books that are exact at the end.
//!
//! *The idea.* A [`Row`] has places, each with a value. A thread has a [`Pass`]. By one compare-exchange of a place's word it takes the value,
//! works on it as on any value of its own, and puts it back by one store. If another has the value, the call says so: nobody waits, and nobody is
//! woken. A pass may have the values of several places, and gives them back last first.
//!
//! *The invariant.* Each value weighs something on the left and something on the right ([`Scale`]), and so does each pass. What a pass took weighs
//! on the same side as it did in its place, and what it put weighs on the other side. The two sides are even.
//!
//! *The reason.* No clause can name what is in a place that others may change. But each value that a thread takes or puts is entered in its own
//! pass. So when all passes are together again, what they count is what the values count. Which row a pass is for is a value of the proofs and not
//! a type. So a row and its passes can be kept for any time, also by a host that knows no types of Rattle.
//!
//! *Lines of the processor's cache.* Places are sixteen words and sixteen slots apart. So no two words are on one pair of cache lines, which the
//! processor may fetch together, and no two values of eight bytes or more. A value is moved out and in, so a large one is better boxed.
//!
//! *The source.* A word with a compare-exchange is the oldest of locks, here tried once, and the value is what it guards. Bonwick and Adams lock
//! their depots in place. That the value is moved out, and that a balance stands for what no clause can name, are this project's.
//!
//! To read the files: spread, weighing, pass, row.
#![tactic(auto)]

mod pass;
mod row;
mod spread;
mod weighing;

pub use pass::Pass;
pub use row::Row;
pub use weighing::Scale;
