//! What became of what workers shared.

use ebpf_state::kinds::KINDS;

/// What all workers did to the objects of one kind, and what became of these.
#[derive(Clone, Copy)]
pub struct KindTotals {
    /// How often a hand was given an object.
    pub allocs: u64,
    /// How often one came back, counting the one that was on the shelf at the end.
    pub frees: u64,
    /// How often a hand was refused one for want of a page or of memory, or because it had lent all that it may.
    pub nulls: u64,
    /// How often a hand was refused one because another was at the slabs or at the arena.
    pub busy: u64,
    /// How many slots were still out of the slabs, when no hand and no magazine had an object any more.
    pub missing: u64,
    /// How many objects came home whose slot wasn't out of these slabs.
    pub foreign: u64,
    /// How often an object was put on the shelf.
    pub puts: u64,
    /// How often one was got from it.
    pub gets: u64,
    /// How many were on it at the end: none or one.
    pub left: u64,
}

/// The totals of all kinds.
#[derive(Clone, Copy)]
pub struct SharedTotals {
    /// Those of each kind, in the order of the kinds' numbers.
    pub kinds: [KindTotals; KINDS],
    /// How many objects went back to their cache since their slot had an owner.
    pub clashes: u64,
    /// How many objects that came off a shelf went back to their cache since the table had their slots as another's.
    pub strays: u64,
    /// How many slots still had a run as their owner.
    pub owned: u32,
}
