//! Counts that stop at 2^56.
//!
//! *The reason.* No host ever counts that far, and the sums of `MAX_HANDS` such counts fit a word.

ghost use Rattle.std.specs.Prelude.{◌≡◌, ◌≤◌, ◌^◌};
ghost use Rattle.shared_cache.specs.HandView.{one_more};

/// The most that is counted.
pub const MOST: u64 = 1 << 56;

/// The most hands of a cache: one for each of 64 threads, and one for whoever reaps.
pub const MAX_HANDS: u32 = 65;

/// The most objects that a hand has lent and aside together.
pub const MOST_LENT: u64 = 128;

/// One more, or as many as before at the end.
pub fn count_up(number: &mut u64)
    requires { number.old ≤ 2 ^ 56 }
    ensures counted { number.new ≡ one_more number.old }
    ensures few { number.new ≤ 2 ^ 56 }
{
    if *number != MOST {
        *number += 1;
    }
}
