//! Caches of typed objects, which threads share without a lock.
//!
//! *The idea.* An allocator with Bonwick's slabs below and Bonwick and Adams' magazines above (1994; 2001), as `object_cache` is. Each
//! thread takes and gives objects by a [`Hand`] of its own, which keeps some ready objects in a layer of two magazines, and asks
//! nobody. Where the layer can't serve, the hand goes to the places of the [`Cache`]: one for each hand, its home, with a depot of
//! magazines, and one with the slabs. A hand takes what lies in a place by one compare-exchange, works on it as on a value of its own,
//! and puts it back. Pages come from a [`SharedArena`], which has a place of its own, for the caches of all kinds.
//!
//! *The order.* To take: a round of the layer; else what lies aside; else a full magazine of a depot, from the hand's home on; else an
//! object of the slabs, which grow by a page where none is home. To give: to the layer; else an empty magazine of a depot for a full
//! one, or a new one; else aside, where each hand has room for all that it may lend.
//!
//! *Why nobody waits.* A depot that another hand has is passed over. The slabs and the arena are looked for again after pauses, as many
//! as the caller says, and then an object is refused: [`TakeFault::Busy`]. An object that is given back is never refused. A hand lends
//! 128 objects at most, those that lie aside among them, so it has room for each, whatever other threads do. No thread that has one
//! place waits for a place that a thread with another may have. A caller that may wait takes by [`Hand::take_waiting`].
//!
//! *Why the totals are exact.* What a place holds weighs something: the slots that are out of its slabs on the one side, its strangers
//! and rounds on the other. A hand's pass counts what moved between the places and the hand, and the hand what it lent and got back. No
//! thread ever counts what another does. But all passes together weigh what the places weigh: so when a cache is closed with all its
//! hands, `missing + frees == allocs + foreign`. An object that is neither given back nor lost to another cache is `missing`; one that
//! comes home to slabs which it isn't out of is `foreign`.
//!
//! *What a thread costs that ends inside a call.* What it had taken stays with it. A depot is passed over from then on; without the
//! slabs or the arena new objects are refused, and what is given back still finds room. The cache can't be closed then, and goes with
//! its objects when it is dropped. A thread that ends between two calls leaves its hand to whoever has it.
//!
//! *Lines of the processor's cache.* What two threads write is 128 bytes apart: places, and hands that lie one after another. A hand
//! that lies beside something else that threads write is better boxed.
//!
//! To read the files: count, fault, place, parcel, soon, arena, depots, supply, rack, hand; reaping, sums, closing, totals, cache.
#![tactic(auto)]

mod arena;
mod cache;
mod closing;
mod count;
mod depots;
mod fault;
mod hand;
mod parcel;
mod place;
mod rack;
mod reaping;
mod soon;
mod sums;
mod supply;
mod totals;

pub use arena::{ArenaPass, SharedArena};
pub use cache::Cache;
pub use count::{MAX_HANDS, MOST_LENT};
pub use fault::TakeFault;
pub use hand::Hand;
pub use parcel::Parcel;
pub use soon::PAUSES;
pub use totals::Totals;
