//! The objects of a host's own threads: caches, shelves and a table of owners that they share, with no lock and no wait.
//!
//! *The idea.* A host makes a [`Keeper`] for a number of workers, and opens a [`Store`] for each of its threads. A store answers the calls
//! of `new`, `free` and `swap` of the runs of one worker: for each kind it has a hand at the cache, a hand at the shelf, and a seat at the
//! table of owners. An object that a hand gives is a run's only once the seat has claimed its slot; one that comes off a shelf, only once
//! the seat has fetched the slot from the shelf. Otherwise it goes back, the call is answered null or nothing, and that is counted: a
//! clash, or a stray.
//!
//! *The invariant.* A hand has lent as many objects as its seat holds slots, and for all that it has lent it has room. What it left to
//! others was put on the shelf, and what it took over came from there.
//!
//! *The reason.* So what a run gives back always finds room, whatever other threads do. And when all workers are closed, their counts add
//! up: what was taken came back, what was put on a shelf was got or is there, and no slot is a run's. No thread ever counts what another
//! does, so nothing is said of the totals while workers run.
//!
//! *Why nobody waits.* No function here takes a runtime, so none can wait. The tools of a worker that isn't open lie at home in a
//! [`lending_row::LendingRow`], which says of whatever is taken from there that it belongs to what is shared.
//!
//! *Where it differs from worker_pool's store.* There the hands of all workers are closed by the call that made them, and a call that finds
//! a lock taken waits. Here workers outlive calls, come and go, and never wait, so what is shared lies in an `Arc`. Both claim slots by the
//! definitions of ebpf_owned.
//!
//! To be read in this order: `commons`, `stock`, `tools`, `house`, `store`, `shelving`, `opening`, `calling_in`,
//! `totals`, `room`, `ending`, `closing`, `keeper`.
#![tactic(auto)]

mod calling_in;
mod closing;
mod commons;
mod ending;
mod house;
mod keeper;
mod opening;
mod room;
mod shelving;
mod stock;
mod store;
mod tools;
mod totals;

pub use keeper::{Keeper, MAX_WORKERS};
pub use store::{OpenFault, Store};
pub use totals::{KindTotals, SharedTotals};
