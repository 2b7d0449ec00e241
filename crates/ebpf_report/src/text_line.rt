//! A line of text, or a part of one, that is written from its end to its beginning: each number is written where it stays, and
//! all is appended at once.

ghost use Rattle.std.specs.Prelude.{◌≡◌, ◌+◌, ◌-◌, ◌≤◌, ◌<◌, ◌++◌, [], IsAscii, codes, decimal, drop, length, slice_index, slice_set, true, false};

use itoa::write_digits;
use std::marker::Model;

// The most bytes of a line.
const ROOM: usize = 128;

/// A line or a part of one. Contracts see the bytes that are written.
#[derive(Drop)]
pub struct TextLine {
    bytes: [u8; ROOM],
    start: usize,
}

impl Model for TextLine {
    ghost use Rattle.std.specs.Prelude.{◌≤◌, ℕ, List, IsAscii, drop};

    ghost Value = { List ℕ };

    ghost view = { λ l. drop l.start l.bytes };

    ghost invariant = { λ l. (l.start ≤ 128) × IsAscii (drop l.start l.bytes) };
}

impl TextLine {
    /// The newline that ends a line.
    #[inline]
    pub fn end() -> TextLine
        ensures { result ≡ codes "\n" }
    {
        TextLine {
            bytes: [b'\n'; ROOM],
            start: ROOM - 1,
        }
    }

    /// Begins another line, in the same memory.
    #[inline]
    pub(crate) fn restart(&mut self)
        ensures { self.new ≡ codes "\n" }
    {
        self.bytes[ROOM - 1] = b'\n';
        self.start = ROOM - 1;
    }

    /// Begins a part of a line, in the same memory.
    #[inline]
    pub(crate) fn clear(&mut self)
        ensures { self.new ≡ [] }
    {
        self.start = ROOM;
    }

    /// How many bytes are written.
    #[inline]
    pub(crate) fn len(&self) -> usize
        ensures { result ≡ length self.now }
    {
        ROOM - self.start
    }

    /// Forgets all but the last n bytes.
    #[inline]
    pub(crate) fn keep_last(&mut self, n: usize)
        requires { n ≤ length self.old }
        ensures { self.new ≡ drop (length self.old - n) self.old }
    {
        self.start += self.len() - n;
    }

    /// Adds one to the digit that this many bytes come after, unless it is a 9, and returns whether it could.
    #[inline]
    pub(crate) fn count_on(&mut self, after: usize) -> bool
        requires { after < length self.old }
        ensures counted { result ≡ true → (slice_index self.old (length self.old - after - 1) < 57) ×
            (self.new ≡ slice_set self.old (length self.old - after - 1) (slice_index self.old (length self.old - after - 1) + 1)) }
        ensures same { result ≡ false → self.new ≡ self.old }
    {
        let before = self.len() - after - 1;
        let at = self.start + before;
        if self.bytes[at] >= b'9' {
            return false;
        }
        self.bytes[at] += 1;
        true
    }

    /// Writes a number before the rest.
    #[inline]
    pub(crate) fn number(&mut self, n: u64)
        requires { length self.old + 20 ≤ 128 }
        ensures text { self.new ≡ decimal n ++ self.old }
        ensures few { length self.new ≤ length self.old + 20 }
    {
        self.start = write_digits(n, &mut self.bytes, self.start);
    }

    /// Writes words before the rest.
    #[inline]
    pub(crate) fn words(&mut self, words: &[u8])
        requires room { length self.old + length words.now ≤ 128 }
        requires ascii { IsAscii words.now }
        ensures { self.new ≡ words.now ++ self.old }
    {
        let end = self.start;
        let start = end - words.len();
        self.bytes[start..end].copy_from_slice(words);
        self.start = start;
    }

    /// The line.
    #[inline]
    pub(crate) fn as_str(&self) -> &str
        ensures { result.now ≡ self.now }
    {
        unsafe { str::from_utf8_unchecked(&self.bytes[self.start..]) }
    }
}
