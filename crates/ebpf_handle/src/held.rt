//! A box that a caller outside Rattle keeps, as a pointer.

ghost use Rattle.std.specs.Prelude.{◌≡◌, Option, Some, None};
ghost use Rattle.std.specs.Option.{MatchOption};
ghost use Rattle.ebpf_handle.specs.Ownership.{held};

use crate::loose::Loose;
use std::alloc::Global;
use std::marker::Model;
use std::ptr::null_mut;

/// A boxed `T`, or nothing, as a pointer that is null where there is nothing.
pub(crate) struct Held<T> {
    pub(crate) at: *mut T,
    pub(crate) ghost value: { Option T },
}

impl<T> Model for Held<T> {
    ghost also_owns = { λ h. held T.row h.at h.value };
}

impl<T> Held<T> {
    /// Holds nothing.
    pub(crate) fn empty() -> Held<T>
        ensures { result.value ≡ None }
    {
        let at = null_mut();
        Held { at }
    }

    fn of_loose(loose: Loose<T, Global>) -> Held<T>
        ensures { result.value ≡ Some loose.value }
    {
        let Loose { at, alloc: _ } = loose;
        Held { at }
    }

    fn into_loose(self, alloc: Global) -> Option<Loose<T, Global>>
        ensures { MatchOption result (self.value ≡ None) (λ l. self.value ≡ Some l.value) }
    {
        let Held { at } = self;
        if at.is_null() {
            None
        } else {
            Some(Loose { at, alloc })
        }
    }
}

impl<T: Drop> Held<T> {
    /// Holds `value`.
    pub(crate) fn of(value: Box<T>) -> Held<T>
        ensures { result.value ≡ Some value.value }
    {
        Held::of_loose(Loose::of(value))
    }

    /// Gives the box back, if there is one.
    pub(crate) fn into_box(self, alloc: Global) -> Option<Box<T>>
        ensures { MatchOption result (self.value ≡ None) (λ b. self.value ≡ Some b.value) }
    {
        match self.into_loose(alloc) {
            None => None,
            Some(loose) => Some(loose.into_box()),
        }
    }
}
