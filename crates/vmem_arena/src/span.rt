//! Spans: pages that are out of an arena, as their owner has them.
//!
//! *The idea* (Bonwick and Adams 2001, "Vmem"). Vmem hands out plain numbers and trusts that they come back
//! once. Here what is handed out is a value that can't be copied and that only an arena makes.
//!
//! *The invariant.* A span has a page at least, and none past page 255.
//!
//! *The reason.* An arena makes no second span of pages that are out, so who has a span has its pages to himself
//! until it goes back, as long as each span goes back to the arena that it came from. A span has the numbers of
//! its pages alone and doesn't know its arena: another arena with a span of the same pages out takes it for that
//! one. A span that is dropped leaves its pages out for good.

ghost use Rattle.std.specs.Prelude.{◌≡◌, ◌+◌, ◌<◌, ◌≤◌};
ghost use Rattle.vmem_arena.specs.declared.arena.TheConstants.{MAX_PAGES};

/// Neighbouring pages that are out of an arena (Bonwick and Adams 2001, section 4).
#[derive(Drop)]
pub struct Span {
    pub(crate) first: u32,
    pub(crate) len: u32,
    ghost some: { 0 < len },
    ghost within: { first + len ≤ MAX_PAGES },
}

impl Span {
    ghost use Rattle.vmem_arena.specs.Spans.{pages_of};

    /// The number of the lowest page, from 0 to 255.
    pub fn first(&self) -> u32
        ensures { result ≡ (pages_of self.now).first }
    {
        self.first
    }

    /// How many pages the span has, from 1 to 256.
    // A span has a page at least, so there is no `is_empty`.
    pub fn len(&self) -> u32
        ensures { result ≡ (pages_of self.now).len }
    {
        self.len
    }
}
