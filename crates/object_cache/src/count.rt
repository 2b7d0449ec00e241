//! Counts that stop at 2^56.
//!
//! *The reason.* No host ever counts that far, and the sums of `MAX_HANDS` such counts fit a word. So a count needs no error
//! that nobody meets: a call that would pass the end waits for ever.

ghost use Rattle.std.specs.Prelude.{◌≡◌, ◌+◌, ◌^◌, ◌≤◌};

use std::sync::Wait;

/// The most that is counted.
pub const MOST: u64 = 1 << 56;

/// The most hands of a cache, or of a shelf.
pub const MAX_HANDS: u64 = 64;

/// The parts of a book: one for each hand, and one that no hand has.
pub const PARTS: u64 = MAX_HANDS + 1;

/// Counts one more.
#[inline]
pub fn count<R: Wait>(rt: &R, number: &mut u64)
    ensures counted { number.new ≡ number.old + 1 }
    ensures most { number.new ≤ 2 ^ 56 }
{
    if *number >= MOST {
        wait_for_ever(rt);
    }
    *number += 1;
}

/// Waits for ever where more was counted.
pub fn wait_past_most<R: Wait>(rt: &R, number: u64)
    ensures { number ≤ 2 ^ 56 }
{
    if number > MOST {
        wait_for_ever(rt);
    }
}

/// Never returns.
pub fn wait_for_ever<R: Wait>(rt: &R)
    ensures { ⊥ }
{
    for _ in rt.forever() {}
}
