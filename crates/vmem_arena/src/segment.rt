//! Segments, as the pages' tags tell of them.
//!
//! *The idea* (Bonwick and Adams 2001, "Vmem": boundary tags). A segment is a run of pages that share one fate:
//! all are free, or all are out in one span. The tag of its first page says how many pages it has, and how many
//! the segment before it has. So from a segment its two neighbours are found with no walk.
//!
//! *The invariant.* A page at which no segment begins has the tag [`INSIDE`]. What the table keeps as a whole
//! is in the arena.
//!
//! *The reason.* Since no tag is left over from an earlier segment, a tag answers alone whether a span is out.

ghost use Rattle.std.specs.Prelude.{◌≡◌, ℕ, ◌+◌, ◌-◌, ◌<◌, ◌≤◌, ◌↔◌, length, IsTrue, IfOk};
ghost use Rattle.vmem_arena.specs.declared.arena.TheConstants.{MAX_PAGES};
ghost use Rattle.vmem_arena.specs.Segments.{tag_at, free_len, IsOut, whole, taken, freed};

use std::alloc::{AllocError, Global};
use std::marker::Model;

/// What a page's tag says of the segment that begins there.
#[derive(Clone, Copy)]
pub struct Tag {
    /// How many pages it has, 0 where none begins.
    pub len: u32,
    /// How many pages the segment before it has.
    pub before: u32,
    /// Whether a span has its pages.
    pub is_out: bool,
}

/// The tag of a page at which no segment begins.
const INSIDE: Tag = Tag {
    len: 0,
    before: 0,
    is_out: false,
};

/// The tags of all pages.
#[derive(Drop)]
pub struct Table {
    tags: Vec<Tag>,
}

impl Model for Table {
    ghost use Rattle.std.specs.Prelude.{List};
    ghost use Rattle.vmem_arena.specs.declared.segment.Tag.{Tag};

    ghost Value = { List Tag };

    ghost view = { λ a. a.tags.items };
}

impl Table {
    ghost use Rattle.vmem_arena.specs.Segments.{with_before};

    /// The tags of this many pages, all in one free segment.
    pub fn new(alloc: Global, pages: u32) -> Result<Table, AllocError>
        requires { 0 < pages }
        ensures { IfOk result (λ table. table ≡ whole pages) }
    {
        let mut tags = vec![in alloc; INSIDE; pages as usize]?;
        tags[0].len = pages;
        Ok(Table { tags })
    }

    /// How many pages the free segment has that begins at a page, 0 where none does.
    pub fn free_at(&self, page: usize) -> u32
        ensures { result ≡ free_len self.now page }
    {
        if page < self.tags.len() && !self.tags[page].is_out {
            self.tags[page].len
        } else {
            0
        }
    }

    /// How many pages the segment before the one has that begins at a page.
    pub fn before(&self, page: usize) -> u32
        requires { page < length self.now }
        ensures { result ≡ (tag_at self.now page).before }
    {
        self.tags[page].before
    }

    /// Whether a span of these pages is out.
    pub fn is_out(&self, first: usize, len: u32) -> bool
        ensures { IsTrue result ↔ IsOut self.now first len }
    {
        first < self.tags.len() && self.tags[first].is_out && self.tags[first].len == len
    }

    // Writes how many pages the segment before a page has, where there is such a page.
    fn set_before(&mut self, page: usize, len: u32)
        ensures { self.new ≡ with_before self.old page len }
    {
        if page < self.tags.len() {
            self.tags[page].before = len;
        }
    }

    /// Takes the first n pages of a free segment out. The `rest` of its pages is a free segment after them.
    pub fn cut(&mut self, first: usize, n: u32, rest: u32)
        requires some { 0 < n }
        requires within { first + n + rest ≤ length self.old }
        requires short { length self.old ≤ MAX_PAGES }
        ensures { self.new ≡ taken self.old first n rest }
    {
        self.tags[first] = Tag {
            len: n,
            before: self.tags[first].before,
            is_out: true,
        };
        if rest > 0 {
            let next = first + n as usize;
            self.tags[next] = Tag {
                len: rest,
                before: n,
                is_out: false,
            };
            self.set_before(next + rest as usize, rest);
        }
    }

    /// Frees the segment of `len` pages that begins at `first`, as one with the `low` free pages that end there
    /// and the `high` free pages that begin at its end.
    pub fn merge(&mut self, first: usize, low: u32, len: u32, high: u32)
        requires low { low ≤ first }
        requires some { 0 < len }
        requires within { first + len + high ≤ length self.old }
        requires short { length self.old ≤ MAX_PAGES }
        ensures { self.new ≡ freed self.old first low len high }
    {
        let at = first - low as usize;
        let whole = low + len + high;
        let before = self.tags[at].before;
        if high > 0 {
            self.tags[first + len as usize] = INSIDE;
        }
        self.tags[first] = INSIDE;
        self.tags[at] = Tag {
            len: whole,
            before,
            is_out: false,
        };
        self.set_before(at + whole as usize, whole);
    }
}
