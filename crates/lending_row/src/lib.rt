//! Values that threads lend one another: whoever takes one gets a loan with it, and puts it back with the loan, from any thread.
//!
//! *The idea.* A [`LendingRow`] has places, each with a value and a word. By one swap of the word for 1 a thread takes the value, with a [`Loan`]. If
//! the word was 1 already, it gets a [`Lent`], and nothing changed. The value and its loan can go to another thread. By one store of 0 the value, or
//! another one that fits, is put back. Nobody waits, and no thread needs a token before it takes.
//!
//! *The invariant.* If a word is 0, a value is in its place, and it fits what the row was told when it was made ([`Fitting`]). If it is 1, one loan has
//! the value.
//!
//! *The reason.* No clause can say what another thread put into a place. But each value that is put has to fit, so each one that is taken fits, whoever
//! put it there. So a thread may find its tools where others left them, and knows that they are tools for the things at hand. What fits is a fact of
//! the proofs, and nothing is tested.
//!
//! *Loans.* A loan is a seat of the row's table that its swap makes, so none are dealt at the start, and any thread may come at any time. The table
//! counts for each place how many loans have its value. So a loan becomes a [`Returned`] only by the store that marks its place, and there is a
//! [`Lent`] only for a place whose value was taken.
//!
//! *Lines of the processor's cache.* Words and slots are side by side. A row is for values that are taken rarely and kept for long.
//!
//! *The source.* A flag that is tested and set is the oldest of locks, and here it is tried once. As in `shared_row`, the value is moved out. That a
//! row is told once what fits, and so lends without tokens and without books, is this project's.
//!
//! To read the files: filling, lending, loan, row.
#![tactic(auto)]

mod filling;
mod lending;
mod loan;
mod row;

pub use lending::Fitting;
pub use loan::{Lent, Loan, Returned};
pub use row::LendingRow;
