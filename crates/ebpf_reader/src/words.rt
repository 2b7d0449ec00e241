//! The words of a line.

ghost use Rattle.std.specs.Prelude.{◌≡◌, ◌≤◌, ◌<◌, ◌+◌, ◌++◌, ◌∷◌, [], ◌==◌, if◌then◌else◌, nat_le, true, false, ℕ, length, take, map, slice_index};
ghost use Rattle.ebpf_reader.specs.Words.{is_end, IsUnbroken};

use std::marker::Model;
use std::simd::prelude::*;

// More words than a line that is no comment may have.
const MOST: usize = 6;

/// How many bytes one comparison looks at.
pub(crate) const LANES: usize = 16;

/// The first words of a line, six at most. Contracts see the list of their bytes.
#[derive(Drop)]
pub(crate) struct Words<'a> {
    found: [&'a [u8]; MOST],
    count: usize,
}

impl<'a> Model for Words<'a> {
    ghost use Rattle.std.specs.Prelude.{ℕ, List, ◌≤◌, map, take};

    ghost Value = { List (List ℕ) };

    ghost view = { λ w. map (λ word. word.now) (take w.count w.found) };

    ghost invariant = { λ w. w.count ≤ 6 };
}

impl<'a> Words<'a> {
    /// No words.
    #[inline]
    pub(crate) fn none() -> Words<'a>
        ensures { result ≡ [] }
    {
        Words {
            found: [&[]; MOST],
            count: 0,
        }
    }

    /// Begins again with no words, in the same memory.
    #[inline]
    pub(crate) fn restart(&mut self)
        ensures { self.new ≡ [] }
    {
        self.count = 0;
    }

    /// Adds a word, unless it is empty or one too many.
    #[inline]
    pub(crate) fn add(&mut self, word: &'a [u8])
        ensures { self.new ≡ (if length word.now == 0 then self.old else take 6 (self.old ++ word.now ∷ [])) }
    {
        if !word.is_empty() && self.count < MOST {
            self.found[self.count] = word;
            self.count += 1;
        }
    }

    /// The words.
    #[inline]
    pub(crate) fn as_slice(&self) -> &[&'a [u8]]
        ensures { map (λ word. word.now) result.now ≡ self.now }
    {
        &self.found[..self.count]
    }
}

// Whether a byte ends a word: a newline, or one that separates words. Most bytes of a line are after these, and one comparison
// passes over them.
#[inline]
fn ends_word(c: u8) -> bool
    ensures { result ≡ is_end c }
{
    c <= b' ' && (c == b' ' || c == b'\n' || c == b'\t' || c == b'\r')
}

/// How long a text is up to the first byte that ends a word, or to its end.
#[inline]
pub(crate) fn word_length(text: &[u8]) -> usize
    ensures within { result ≤ length text.now }
    ensures whole { IsUnbroken (take result text.now) }
    ensures end { result < length text.now → is_end (slice_index text.now result) ≡ true }
{
    let mut i = past_visible(text, 0);
    while i < text.len() && !ends_word(text[i]) {
        i = past_visible(text, i + 1);
    }
    i
}

// Skips bytes above the space, sixteen in one step. Where fewer are left, none of those is looked at.
#[inline]
fn past_visible(text: &[u8], from: usize) -> usize
    requires within { from ≤ length text.now }
    requires before { IsUnbroken (take from text.now) }
    ensures on { from ≤ result }
    ensures within { result ≤ length text.now }
    ensures whole { IsUnbroken (take result text.now) }
{
    let mut i = from;
    while LANES <= text.len() - i {
        let run = visible_run(text, i);
        i += run;
        if run < LANES {
            return i;
        }
    }
    i
}

// How many of sixteen bytes are above the space before the first that isn't.
#[inline]
fn visible_run(text: &[u8], at: usize) -> usize
    requires { at + 16 ≤ length text.now }
    ensures within { result ≤ 16 }
    ensures visible { (k : ℕ) → at ≤ k → k < at + result → nat_le (slice_index text.now k) 32 ≡ false }
{
    let others = u8x16::from_slice(&text[at..])
        .simd_le(u8x16::splat(b' '))
        .to_bitmask();
    if others == 0 {
        LANES
    } else {
        others.trailing_zeros() as usize
    }
}
