//! Caches of typed objects, which many workers share.
//!
//! *The idea.* An allocator with Bonwick's slabs below and Bonwick and Adams' magazines above (1994; 2001). Each worker
//! takes and gives objects by a [`Hand`] of its own, which keeps some ready objects in a layer of two magazines, and asks
//! nobody. Where the layer can't serve, the hand goes to the [`Cache`]. That has a depot of magazines, in parts, of which
//! one is the hand's home, and below it the slabs, under one lock. Their pages come from an arena under a lock of its own,
//! the [`ArenaLock`], which several caches share. A reaper gives pages with nothing out back to it.
//!
//! *The order.* To take: a round of the layer; else a full magazine of the depot; else an object of the slabs, which grow
//! by a page where none is home. To give: to the layer; else an empty magazine of the depot for a full one, or a new one;
//! else, where there is no memory for that, home to the slabs. The parts of the depot are looked at one after another, so what
//! other hands exchange meanwhile may be missed.
//!
//! *The locks.* A hand locks its home alone, and lets go of it. The cache's lock comes before those of the other parts of
//! the depot and the arena's, and nothing is locked inside these. From the moment that nothing is home until a new page's
//! object is taken the cache's lock stays, so no other hand takes the objects of the page that one asked for.
//!
//! *Why the totals are exact.* Each object that leaves the inside of a cache, or comes in, is entered in a book and in the
//! share of it that the hand has. So what the hands did can be compared with what is out of the slabs, though no worker
//! ever counts what another does: when a cache is closed, `missing + frees == allocs + foreign`. An object that is
//! neither given back nor lost to another cache is `missing`; one that comes home to slabs which it isn't out of is
//! `foreign`.
//!
//! *Shelves.* A [`Shelf`] has room for one object that a worker leaves for another. Each exchanges what is there by a
//! [`ShelfHand`] of its own, under the shelf's lock, and its totals are exact for the same reason.
//!
//! *Lines of the processor's cache.* What two workers write is on cache lines of its own: parts, shelves, and below them the bytes of
//! objects, the rounds of magazines and the stacks of a depot.
//!
//! Hands, caches and shelves must be spent by `close`, and can't be dropped.
//!
//! To read the files: activity, inner, part, asking, brief_lock, cache, hand; spare, shelf.
#![tactic(auto)]

mod activity;
mod arena_lock;
mod asking;
mod brief_lock;
mod cache;
mod count;
mod fault;
mod hand;
mod inner;
mod part;
mod shelf;
mod spare;
mod totals;

pub use activity::{DepotCounts, PageCounts};
pub use arena_lock::ArenaLock;
pub use cache::Cache;
pub use count::{MAX_HANDS, PARTS};
pub use fault::TakeFault;
pub use hand::Hand;
pub use shelf::{Left, Shelf, ShelfHand};
pub use totals::Totals;
