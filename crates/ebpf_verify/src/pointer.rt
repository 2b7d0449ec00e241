//! Sums and differences at 64 bits, in which a pointer may be moved by a number.

ghost use Rattle.std.specs.Prelude.{◌≡◌, ◌^◌, ◌≤ℤ◌, IfSome, Some, pos, negsuc};
ghost use Rattle.ebpf_verify.specs.Pointers.{signed_ends, moved_end, moved_by, opposite_ends, moved, moved_back, sum_value, difference_value};

use ebpf_insn::insn::{AluOp, Width};
use ebpf_range::range::Range;
use ebpf_range::results::alu;
use ebpf_state::value::Abs;

/// What is known of the sum of two values at 64 bits, or `None` where a pointer would be moved by a number of unknown
/// sign or too far, or no sum of the two has a meaning.
pub(crate) fn sum_value(left: Abs, right: Abs) -> Option<Abs>
    ensures { result ≡ sum_value left right }
{
    match (left, right) {
        (Abs::Num(a), Abs::Num(b)) => Some(Abs::Num(alu(AluOp::Add, Width::W64, a, b))),
        (pointer, Abs::Num(by)) => moved(pointer, by),
        (Abs::Num(by), pointer) => moved(pointer, by),
        _ => None,
    }
}

/// What is known of the difference of two values at 64 bits, or `None` where a pointer would be moved back by a number of
/// unknown sign or too far, or the difference has no meaning.
pub(crate) fn difference_value(left: Abs, right: Abs) -> Option<Abs>
    ensures { result ≡ difference_value left right }
{
    match (left, right) {
        (Abs::Num(a), Abs::Num(b)) => Some(Abs::Num(alu(AluOp::Sub, Width::W64, a, b))),
        (pointer, Abs::Num(by)) => moved_back(pointer, by),
        _ => None,
    }
}

// A pointer moved by a number of the range.
fn moved(pointer: Abs, by: Range) -> Option<Abs>
    ensures { result ≡ moved pointer by }
{
    let (low, high) = signed_ends(by)?;
    moved_by(pointer, low as i128, high as i128)
}

// A pointer moved back by a number of the range.
fn moved_back(pointer: Abs, by: Range) -> Option<Abs>
    ensures { result ≡ moved_back pointer by }
{
    let (low, high) = signed_ends(by)?;
    moved_by(pointer, 0 - high as i128, 0 - low as i128)
}

// A pointer whose ends are moved by so much.
fn moved_by(pointer: Abs, low: i128, high: i128) -> Option<Abs>
    requires low_low { negsuc (2 ^ 64) ≤ℤ low }
    requires low_high { low ≤ℤ pos (2 ^ 64) }
    requires high_low { negsuc (2 ^ 64) ≤ℤ high }
    requires high_high { high ≤ℤ pos (2 ^ 64) }
    ensures { result ≡ moved_by pointer (Some (low, high)) }
{
    match pointer {
        Abs::Stk(k) => Some(Abs::Stk(moved_end(k, low)?)),
        Abs::Ctx(a, b) => Some(Abs::Ctx(moved_end(a, low)?, moved_end(b, high)?)),
        Abs::Ob(call, a, b) => Some(Abs::Ob(call, moved_end(a, low)?, moved_end(b, high)?)),
        _ => None,
    }
}

// An end of a pointer's offset, moved, unless that is too far. No sum of the two overflows 128 bits.
fn moved_end(end: i64, by: i128) -> Option<i64>
    requires low { negsuc (2 ^ 64) ≤ℤ by }
    requires high { by ≤ℤ pos (2 ^ 64) }
    ensures { result ≡ moved_end end by }
{
    let sum = end as i128 + by;
    if sum < -(1 << 29) || sum > 1 << 29 {
        None
    } else {
        Some(sum as i64)
    }
}

// The ends of a range read as signed numbers, where all of it has one sign.
fn signed_ends(a: Range) -> Option<(i64, i64)>
    ensures { result ≡ signed_ends a }
{
    if a.hi < 1 << 63 || a.lo >= 1 << 63 {
        Some((a.lo.cast_signed(), a.hi.cast_signed()))
    } else {
        None
    }
}
