//! A range.

ghost use Rattle.std.specs.Prelude.{◌≡◌, ◌≤◌, ◌↔◌, IsSome, IfSome};

pub use crate::hull::hull;

/// The unsigned 64-bit numbers from `lo` to `hi`, both among them: `lo` is at most `hi`.
#[derive(Clone, Copy)]
pub struct Range {
    pub lo: u64,
    pub hi: u64,
    pub ghost ordered: { lo ≤ hi },
}

impl Range {
    ghost use Rattle.ebpf_range.specs.Interval.{constant};

    /// The range with these ends, or `None` where `hi` is below `lo`.
    pub fn new(lo: u64, hi: u64) -> Option<Range>
        ensures some { IsSome result ↔ (lo ≤ hi) }
        ensures value { IfSome result (λ a. (a.lo ≡ lo) × (a.hi ≡ hi)) }
    {
        if lo <= hi {
            Some(Range { lo, hi })
        } else {
            None
        }
    }

    /// The range of one number.
    pub fn constant(number: u64) -> Range
        ensures { result ≡ constant number }
    {
        Range {
            lo: number,
            hi: number,
        }
    }
}
