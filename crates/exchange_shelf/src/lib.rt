//! A shelf for one value, on which threads leave it for one another, by one exchange of a word.
//!
//! *The idea.* There is one slot more than hands. Each [`ShelfHand`] has a slot, and the word of the [`Shelf`] says which one is the shelf's. A hand
//! writes what it brings into its slot, exchanges the word for that slot's number, and so has the slot that was the shelf's, with what is there.
//! One exchange always succeeds, so nobody waits and nothing is tried again.
//!
//! *The invariant.* The word's slot is nobody else's, and each other slot is one hand's at most. What was put on the shelf, by all hands, is what was
//! got from it and what is there.
//!
//! *The reason.* Between two exchanges no clause can say what is on the shelf, since any hand may change it. But each exchange is entered in the
//! counts of the hand that makes it. So when the shelf is closed with all its hands, what they put is what they got and what is left.
//!
//! *Lines of the processor's cache.* The word and the slots are sixteen words and sixteen slots apart. So what two hands write is not on one pair of
//! cache lines, which the processor may fetch together, if the slot of a value has eight bytes or more. A large value is better boxed.
//!
//! *The source.* A word that is exchanged for a pointer to what a thread brings is an old way to hand a value over. Here the word has the number of a
//! slot, and the slots change hands, so that no exchange takes memory: that is this project's. Bonwick and Adams have no such structure.
//!
//! To read the files: passing, hand, shelf.
#![tactic(auto)]

mod hand;
mod passing;
mod shelf;

pub use hand::ShelfHand;
pub use shelf::{Left, Shelf};
