//! Counts that stop at 2^56, as those of a hand do: a call that would pass the end waits for ever, which no host ever sees.

ghost use Rattle.std.specs.Prelude.{◌≡◌, ◌≤◌, ◌+◌, ◌^◌};

use std::sync::Wait;

// The most that is counted.
const MOST: u64 = 1 << 56;

/// Counts one more.
pub fn count<R: Wait>(rt: &R, number: &mut u64)
    ensures one_more { number.new ≡ number.old + 1 }
    ensures few { number.new ≤ 2 ^ 56 }
{
    if *number >= MOST {
        wait_for_ever(rt);
    }
    *number += 1;
}

// Never returns.
fn wait_for_ever<R: Wait>(rt: &R)
    ensures { ⊥ }
{
    for _ in rt.forever() {}
}
