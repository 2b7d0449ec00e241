//! Classes: the free segments by size.
//!
//! *The idea* (Bonwick and Adams 2001, "Vmem"). Class c lists the free segments of `2^c` to `2^(c+1) - 1` pages.
//! A list is a set of bits, one for each page that a segment may begin at, and the nine sets lie one after
//! another in 36 words. Another word says which of the 36 have a bit set.
//!
//! *The invariant.* A bit of that word is set exactly where the word of its number is not 0.
//!
//! *The reason.* A place is `PLACES_OF_A_CLASS * class + page`, so the next place from a class on lies in the lowest class
//! that has a segment, and no class is looked at by itself to find it. A segment comes or goes by one bit, with
//! no list to follow. What the places mean is the arena's business.

ghost use Rattle.std.specs.Prelude.{◌≡◌, ◌≢◌, ℕ, ◌+◌, ◌*◌, ◌%◌, ◌<◌, ◌≤◌, IfSome, IfNone};
ghost use Rattle.vmem_arena.specs.Classes.{bit_of, IsPlace, Relists};
ghost use Rattle.vmem_arena.specs.declared.arena.TheConstants.{MAX_PAGES};

use crate::arena::MAX_PAGES;
use crate::word::{BITS, highest, lowest_from, with_bit, without_bit};
use std::marker::Model;

/// The places of a class: one for each page that a segment may begin at.
pub const PLACES_OF_A_CLASS: usize = MAX_PAGES as usize;

/// How many places there are, in nine classes.
pub const PLACES: usize = 9 * PLACES_OF_A_CLASS;

/// The words that have a bit for each place.
const WORDS: usize = PLACES / BITS;

// The place of a segment of `len` pages that begins at this page.
fn place(page: u32, len: u32) -> usize
    requires page { page < MAX_PAGES }
    requires some { 0 < len }
    requires within { len ≤ MAX_PAGES }
    ensures place { IsPlace page len result }
    ensures below { result < PLACES }
{
    len.ilog2() as usize * PLACES_OF_A_CLASS + page as usize
}

/// Places, some of which are taken.
#[derive(Drop)]
pub struct Classes {
    words: [u64; WORDS],
    filled: u64,
}

impl Model for Classes {
    ghost use Rattle.std.specs.Prelude.{List, ℕ};

    ghost Value = { List ℕ };

    ghost use Rattle.vmem_arena.specs.Classes.{IsFilled};

    ghost view = { λ a. a.words };

    ghost invariant = { λ a. IsFilled a.words a.filled };
}

impl Classes {
    /// No place is taken.
    pub fn new() -> Classes
        ensures { (i : ℕ) → bit_of result i ≡ 0 }
    {
        Classes {
            words: [0; WORDS],
            filled: 0,
        }
    }

    // Takes a place.
    fn set(&mut self, place: usize)
        requires { place < PLACES }
        ensures here { bit_of self.new place ≡ 1 }
        ensures others { (i : ℕ) → i ≢ place → bit_of self.new i ≡ bit_of self.old i }
    {
        let at = place / BITS;
        self.words[at] = with_bit(self.words[at], (place % BITS) as u32);
        self.filled = with_bit(self.filled, at as u32);
    }

    // Gives a place up.
    fn clear(&mut self, place: usize)
        requires { place < PLACES }
        ensures here { bit_of self.new place ≡ 0 }
        ensures others { (i : ℕ) → i ≢ place → bit_of self.new i ≡ bit_of self.old i }
    {
        let at = place / BITS;
        let word = without_bit(self.words[at], (place % BITS) as u32);
        self.words[at] = word;
        if word == 0 {
            self.filled = without_bit(self.filled, at as u32);
        }
    }

    /// Lists the free segment of `len` pages that begins at a page, and nothing where `len` is 0.
    pub fn insert(&mut self, page: u32, len: u32)
        requires { page + len ≤ MAX_PAGES }
        ensures { Relists page 0 len self.old self.new }
    {
        if len > 0 {
            self.set(place(page, len));
        }
    }

    /// Strikes off the free segment of `len` pages that begins at a page, and nothing where `len` is 0.
    pub fn remove(&mut self, page: u32, len: u32)
        requires { page + len ≤ MAX_PAGES }
        ensures { Relists page len 0 self.old self.new }
    {
        if len > 0 {
            self.clear(place(page, len));
        }
    }

    /// Strikes off the free segment that has a place.
    pub fn strike(&mut self, place: usize)
        requires below { place < PLACES }
        requires listed { bit_of self.old place ≡ 1 }
        ensures { (len : ℕ) → Relists (place % PLACES_OF_A_CLASS) len 0 self.old self.new }
    {
        self.clear(place);
    }

    /// A place that is taken, in the lowest class that has one, of this class and those above.
    pub fn lowest(&self, class: u32) -> Option<usize>
        requires { class ≤ 9 }
        ensures found { IfSome result (λ i. (PLACES_OF_A_CLASS * class ≤ i) × (i < PLACES) × (bit_of self.now i ≡ 1)) }
        ensures none { IfNone result ((j : ℕ) → PLACES_OF_A_CLASS * class ≤ j → bit_of self.now j ≡ 0) }
    {
        let at = lowest_from(self.filled, 4 * class)? as usize;
        Some(BITS * at + self.words[at].trailing_zeros() as usize)
    }

    /// The lowest place that is taken, of those from `from` on.
    pub fn next(&self, from: usize) -> Option<usize>
        requires { from ≤ PLACES }
        ensures found { IfSome result (λ i. (from ≤ i) × (i < PLACES) × (bit_of self.now i ≡ 1)) }
        ensures lowest { IfSome result (λ i. (j : ℕ) → from ≤ j → j < i → bit_of self.now j ≡ 0) }
        ensures none { IfNone result ((j : ℕ) → from ≤ j → bit_of self.now j ≡ 0) }
    {
        let filled = self.filled;
        let at = from / BITS;
        if at == self.words.len() {
            return None;
        }
        if let Some(bit) = lowest_from(self.words[at], (from % BITS) as u32) {
            return Some(BITS * at + bit as usize);
        }
        let at = lowest_from(filled, at as u32 + 1)? as usize;
        Some(BITS * at + self.words[at].trailing_zeros() as usize)
    }

    /// The highest place that is taken.
    pub fn last(&self) -> Option<usize>
        ensures found { IfSome result (λ i. (i < PLACES) × (bit_of self.now i ≡ 1)) }
        ensures highest { IfSome result (λ i. (j : ℕ) → i < j → bit_of self.now j ≡ 0) }
        ensures none { IfNone result ((j : ℕ) → bit_of self.now j ≡ 0) }
    {
        let at = highest(self.filled)? as usize;
        Some(BITS * at + self.words[at].ilog2() as usize)
    }
}
