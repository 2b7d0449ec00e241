//! Ready objects, a magazine at a time: the fast path of the object caches.
//!
//! *The idea* (Bonwick and Adams 2001, section 3). Slabs give out objects one at a time, and all workers share
//! them under a lock. So a worker keeps some ready objects for itself, as a rifle has rounds in a magazine. To
//! take an object is to pop a round, to give one back is to push it, and nobody is asked. A [`Magazine`] holds
//! as many rounds as its kind says, M. The magazines that no worker has lie in a [`Depot`], full ones and empty
//! ones, which the workers share under a lock.
//!
//! *Why two magazines.* A worker with one magazine that takes a few objects and gives a few in turn, just where
//! the magazine runs out, would go to the depot each time: for a full one, then for an empty one. So a worker
//! has two, its [`Layer`]: the loaded one, and the previous one, which was loaded before. Where the loaded one
//! can't serve and the previous one can, the two are exchanged. A trip to the depot leaves one full and one
//! empty, so at least M calls are served before the next trip, in whatever order they take and give.
//!
//! *Why the previous one is full or empty.* The two are exchanged only where the loaded one is empty or full,
//! and what comes from the depot is empty or full too. So one test of each magazine finds what can serve, and a
//! layer that goes to the depot always has a whole magazine to hand over: an empty one where it can't take, a
//! full one where it can't give.
//!
//! *Why the depot exchanges whole ones.* Under its lock a whole magazine moves as one value, whatever M is, and
//! one comes for each that goes. So a trip is short, and the depot's tables grow only where a magazine is made.
//!
//! Memory is taken with a magazine, a layer's two among them, and by `add_empty`: by no other call. Magazines,
//! layers and depots must be ended by `end`, when they hold no round, and can't be dropped.
//!
//! To read the files: magazine, depot, layer.
#![tactic(auto)]

mod depot;
mod layer;
mod magazine;

pub use depot::Depot;
pub use layer::Layer;
pub use magazine::Magazine;
