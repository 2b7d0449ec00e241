//! The hull of two ranges.

ghost use Rattle.std.specs.Prelude.{◌≡◌, ℕ};
ghost use Rattle.ebpf_range.specs.Interval.{hull, IsWithin};

use crate::range::Range;

/// The smallest range that holds both: what is known where two paths meet.
pub fn hull(a: Range, b: Range) -> Range
    ensures value { result ≡ hull a b }
    ensures holds_left { (n : ℕ) → IsWithin n a → IsWithin n result }
    ensures holds_right { (n : ℕ) → IsWithin n b → IsWithin n result }
{
    Range {
        lo: a.lo.min(b.lo),
        hi: a.hi.max(b.hi),
    }
}
