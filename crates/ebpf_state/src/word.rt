//! What is known of the words of the stack.

ghost use Rattle.std.specs.Prelude.{◌≡◌};
ghost use Rattle.ebpf_state.specs.References.{settled_word, forgotten_word};
ghost use Rattle.ebpf_state.specs.Words.{joined_word, spill_or_nothing, IsProperWord};

use crate::value::Abs;
use ebpf_range::range::hull;

/// What is known of one of the 64 aligned words of the stack. Word `w` covers the offsets `8w - 512` to `8w - 505` from
/// the frame pointer.
#[derive(Clone, Copy)]
pub enum Word {
    /// A value that was stored as a whole.
    Spill(Abs),
    /// The bytes that are set: bit `j` means byte `j` of the word.
    Bytes(u8),
}

impl Word {
    /// What is known where two paths meet, one of which knows each.
    pub fn join(self, other: Word) -> Word
        ensures value { result ≡ joined_word self other }
        ensures proper { IsProperWord result }
    {
        match (self, other) {
            (Word::Bytes(a), Word::Bytes(b)) => Word::Bytes(a & b),
            (Word::Spill(Abs::Num(_)), Word::Bytes(b)) => Word::Bytes(b),
            (Word::Bytes(a), Word::Spill(Abs::Num(_))) => Word::Bytes(a),
            (Word::Spill(a), Word::Spill(b)) => spill_or_nothing(a.join(b)),
            _ => Word::Bytes(0),
        }
    }

    /// Joins another word into this one. Most are two numbers, of which only the ends change.
    pub(crate) fn join_with(&mut self, other: &Word)
        ensures value { self.new ≡ joined_word self.old other.now }
        ensures proper { IsProperWord self.new }
    {
        match (&mut *self, other) {
            (Word::Spill(Abs::Num(here)), Word::Spill(Abs::Num(there))) => *here = hull(
                *here, *there,
            ),
            _ => *self = self.join(*other),
        }
    }

    /// What is known once the answer of a call is known to be null, or not to be.
    pub(crate) fn settle(self, call: u16, null: bool) -> Word
        requires { IsProperWord self }
        ensures value { result ≡ settled_word call null self }
        ensures proper { IsProperWord result }
    {
        match self {
            Word::Spill(value) => Word::Spill(value.settle(call, null)),
            Word::Bytes(mask) => Word::Bytes(mask),
        }
    }

    /// What is known once the object of a call was given back.
    pub(crate) fn forget(self, call: u16) -> Word
        ensures value { result ≡ forgotten_word call self }
        ensures proper { IsProperWord result }
    {
        match self {
            Word::Spill(value) => spill_or_nothing(value.forget(call)),
            Word::Bytes(mask) => Word::Bytes(mask),
        }
    }
}

// A spill of a value, or a word of which nothing is known.
pub(crate) fn spill_or_nothing(value: Abs) -> Word
    ensures value { result ≡ spill_or_nothing value }
    ensures proper { IsProperWord result }
{
    match value {
        Abs::Unset => Word::Bytes(0),
        value => Word::Spill(value),
    }
}
