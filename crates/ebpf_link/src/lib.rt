//! Programs that read the constant data of an object file, with that data after the context.
//!
//! *The idea.* A function of an object file loads the address of a table or of a string with a 64-bit immediate, of two slots. The
//! data's bytes are put after the context's, so such an address is the context's pointer moved by a number of bytes that is known. The
//! linked program begins with one added slot, which saves the context's pointer in a word of the stack. Each such immediate becomes a
//! load of that word and an addition, in the same two slots; so all else is one slot later, and no displacement changes.
//!
//! *The invariant.* A word is taken that the function doesn't use. Whether that is so is not read from the text alone, since a copy of r10
//! may reach any word: it is read from what the verifier knows before each slot. After each load of the word, its register has the
//! context's pointer; and every other load and store of the stack is apart from the word.
//!
//! *The reason.* Both are said of the states, so they hold in every run, and can be asked again of a program that was laid out or unrolled
//! after it was linked. A few words are tried in turn: compilers fill the stack from r10 down, so the lowest word is free as a rule.
//!
//! To be read in this order: `fault`, `link`, `words`, `known`, `fetched`, `apart`, `right`, `linked`, `choice`.
#![tactic(auto)]

mod apart;
pub mod choice;
pub mod fault;
mod fetched;
mod known;
pub mod link;
pub mod linked;
pub mod right;
pub mod words;
