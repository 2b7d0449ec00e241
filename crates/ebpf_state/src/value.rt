//! Abstract values.

ghost use Rattle.std.specs.Prelude.{◌≡◌};
ghost use Rattle.ebpf_state.specs.Abstract.{joined_value, is_unset, is_pointer, is_may};
ghost use Rattle.ebpf_state.specs.References.{settled_value, forgotten_value};

use ebpf_range::range::{Range, hull};

/// What is known of a register, or of a value that was spilled to the stack.
#[derive(Clone, Copy)]
pub enum Abs {
    /// Nothing: it may not be read.
    Unset,
    /// A number of the range.
    Num(Range),
    /// The frame pointer moved by this many bytes, which are known exactly.
    Stk(i64),
    /// The context's first byte moved by a number of bytes between these two.
    Ctx(i64, i64),
    /// The object that the call at this slot was granted, moved by a number of bytes between these two.
    Ob(u16, i64, i64),
    /// What the call at this slot answered, not yet compared with null: the object, or 0.
    May(u16),
}

impl Abs {
    /// It may not be read.
    pub fn is_unset(self) -> bool
        ensures { result ≡ is_unset self }
    {
        match self {
            Abs::Unset => true,
            _ => false,
        }
    }

    /// It is a pointer to the stack, the context or an object.
    pub fn is_pointer(self) -> bool
        ensures { result ≡ is_pointer self }
    {
        match self {
            Abs::Stk(_) | Abs::Ctx(_, _) | Abs::Ob(_, _, _) => true,
            _ => false,
        }
    }

    /// It is an answer that was not compared with null yet.
    pub fn is_may(self) -> bool
        ensures { result ≡ is_may self }
    {
        match self {
            Abs::May(_) => true,
            _ => false,
        }
    }

    /// What is known where two paths meet, one of which knows each: `Unset`, where the two have nothing in common.
    pub fn join(self, other: Abs) -> Abs
        ensures { result ≡ joined_value self other }
    {
        match (self, other) {
            (Abs::Num(a), Abs::Num(b)) => Abs::Num(hull(a, b)),
            (Abs::Stk(a), Abs::Stk(b)) if a == b => Abs::Stk(a),
            (Abs::Ctx(a, b), Abs::Ctx(c, d)) => Abs::Ctx(a.min(c), b.max(d)),
            (Abs::Ob(r, a, b), Abs::Ob(q, c, d)) if r == q => Abs::Ob(r, a.min(c), b.max(d)),
            (Abs::May(r), Abs::May(q)) if r == q => Abs::May(r),
            _ => Abs::Unset,
        }
    }

    /// Joins another value into this one. Where both are numbers only the ends change; where nothing is known, nothing does.
    pub(crate) fn join_with(&mut self, other: &Abs)
        ensures { self.new ≡ joined_value self.old other.now }
    {
        match (&mut *self, other) {
            (Abs::Unset, _) => {}
            (Abs::Num(here), Abs::Num(there)) => *here = hull(*here, *there),
            _ => *self = self.join(*other),
        }
    }

    /// What is known once the answer of a call is known to be null, or not to be.
    pub(crate) fn settle(self, call: u16, null: bool) -> Abs
        ensures { result ≡ settled_value call null self }
    {
        match self {
            Abs::May(r) if r == call => if null {
                Abs::Num(Range::constant(0))
            } else {
                Abs::Ob(call, 0, 0)
            },
            value => value,
        }
    }

    /// What is known once the object of a call was given back.
    pub(crate) fn forget(self, call: u16) -> Abs
        ensures { result ≡ forgotten_value call self }
    {
        match self {
            Abs::Ob(r, _, _) if r == call => Abs::Unset,
            Abs::May(r) if r == call => Abs::Unset,
            value => value,
        }
    }
}
