//! The arena: a table of tags, and the free segments by size.
//!
//! *The idea* (Bonwick and Adams 2001, "Vmem"). A resource of numbered pages is cut into segments: runs of
//! pages that are all free, or that one span has. To take a span is to cut it off the lower end of a free
//! segment, found by its size. To give one back is to mark its segment as free and to merge it with the
//! neighbours that are free, found by the tags at its ends.
//!
//! *The invariant.* The segments tile the arena: the first begins at page 0, each next one where the one
//! before it ends, and the last ends with the last page. Each has a page at least, and its tag says how long
//! the one before it is. No two neighbours are free. Each free segment is listed in the class of its length,
//! and nothing else is.
//!
//! *The reason.* Since the segments tile the arena, a page is free or out and never both, and each span that
//! is out is a segment by itself: so the arena can tell by its pages whether a span is out. Since free
//! neighbours are merged at once, a run of free pages always lies inside one segment: so a span that would fit
//! fits in a segment, and a refusal means that it fits nowhere. Since every free segment is in the class of its
//! length, that segment is found without a walk over the others. The tables are as long as the arena from the
//! first, so none has to grow.

ghost use Rattle.std.specs.Prelude.{◌≡◌, ◌≢◌, ℕ, ◌+◌, ◌<◌, ◌≤◌, ◌↔◌, ◌⊎◌, [], ◌∷◌, true, false, Contains, IsPermutation, IfOk, IfErr, OnErr, OnOk, IsTrue};
ghost use Rattle.vmem_arena.specs.Spans.{AreFree, pages_of};

use crate::classes::{Classes, PLACES_OF_A_CLASS};
use crate::fault::{ArenaFault, NoSpan};
use crate::fit::{fit, longest};
use crate::segment::Table;
use crate::span::Span;
use std::alloc::Global;
use std::marker::Model;

/// The most pages of an arena.
pub const MAX_PAGES: u32 = 256;

/// Page numbers from 0 up, some of them in spans that are out.
#[derive(Drop)]
pub struct Arena {
    table: Table,
    classes: Classes,
}

impl Model for Arena {
    ghost use Rattle.std.specs.Prelude.{◌≤◌, length};
    ghost use Rattle.vmem_arena.specs.declared.arena.TheConstants.{MAX_PAGES};
    ghost use Rattle.vmem_arena.specs.Spans.{Spans};

    ghost Value = { Spans };

    ghost use Rattle.vmem_arena.specs.Segments.{outs, IsTable};
    ghost use Rattle.vmem_arena.specs.Classes.{IsListed};

    ghost view = { λ a. record { pages = length a.table; out = outs 0 a.table } };

    ghost invariant = { λ a. (IsTable a.table) × (IsListed a.classes a.table) × (length a.table ≤ MAX_PAGES) };
}

impl Arena {
    /// An arena of this many pages, 1 to [`MAX_PAGES`], all of them free. It is the one call that takes memory.
    pub fn new(alloc: Global, pages: u32) -> Result<Arena, ArenaFault>
        ensures all_free { IfOk result (λ arena. (arena.pages ≡ pages) × (arena.out ≡ [])) }
        ensures pages { (result ≡ Err ArenaFault.Pages) ↔ ((pages ≡ 0) ⊎ (MAX_PAGES < pages)) }
    {
        if pages == 0 || pages > MAX_PAGES {
            return Err(ArenaFault::Pages);
        }
        let Ok(table) = Table::new(alloc, pages) else {
            return Err(ArenaFault::NoMemory);
        };
        let mut classes = Classes::new();
        classes.insert(0, pages);
        Ok(Arena { table, classes })
    }

    /// Takes `n` neighbouring pages, off the lower end of a free segment that has as many. It takes no memory,
    /// and refuses exactly where no `n` neighbouring pages are free; then nothing changed.
    pub fn take(&mut self, n: u32) -> Result<Span, NoSpan>
        requires { 0 < n }
        ensures pages { self.new.pages ≡ self.old.pages }

        // The span had free pages, and is out now beside those that were.
        ensures len { IfOk result (λ span. (pages_of span).len ≡ n) }
        ensures free { IfOk result (λ span. AreFree self.old (pages_of span).first n) }
        ensures out { IfOk result (λ span. IsPermutation (pages_of span ∷ self.old.out) self.new.out) }

        // Nowhere are n neighbouring pages free.
        ensures none { OnErr result ((first : ℕ) → AreFree self.old first n → ⊥) }
        ensures unchanged { OnErr result (self.new ≡ self.old) }
    {
        let Some(place) = fit(&self.table, &self.classes, n) else {
            return Err(NoSpan);
        };
        let first = (place % PLACES_OF_A_CLASS) as u32;
        let len = self.table.free_at(first as usize);
        self.classes.strike(place);
        self.table.cut(first as usize, n, len - n);
        self.classes.insert(first + n, len - n);
        Ok(Span { first, len: n })
    }

    /// Takes a span back: true exactly where it was out of this arena. Its pages are then free, one segment
    /// with the free pages on either side of them. Where it answers false nothing changed. It takes no memory.
    pub fn give(&mut self, span: Span) -> bool
        ensures pages { self.new.pages ≡ self.old.pages }
        ensures known { IsTrue result ↔ Contains self.old.out (pages_of span) }
        ensures back { IsTrue result → IsPermutation (pages_of span ∷ self.new.out) self.old.out }
        ensures unchanged { result ≡ false → self.new ≡ self.old }
    {
        let Span { first, len } = span;
        let at = first as usize;
        if !self.table.is_out(at, len) {
            return false;
        }
        let low = self.table.free_at(at - self.table.before(at) as usize);
        let high = self.table.free_at(at + len as usize);
        self.classes.remove(first - low, low);
        self.classes.remove(first + len, high);
        self.table.merge(at, low, len, high);
        self.classes.insert(first - low, low + len + high);
        true
    }

    /// The length of the longest run of free pages, 0 where no page is free.
    pub fn largest(&self) -> u32
        ensures reached { (first : ℕ) × AreFree self.now first result }
        ensures longest { (first n : ℕ) → AreFree self.now first n → n ≤ result }
    {
        longest(&self.table, &self.classes)
    }
}
