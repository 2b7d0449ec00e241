//! The rows of the table of results, on ranges of numbers below the modulus of a width.

ghost use Rattle.std.specs.Prelude.{◌≡◌, ◌≤◌, ◌<◌, ◌+◌, ◌^◌, ℕ};
ghost use Rattle.ebpf_insn.specs.Arithmetic.{modulus, factor_at};
ghost use Rattle.ebpf_range.specs.Interval.{AreBelow, all_below};
ghost use Rattle.ebpf_range.specs.Results.{up, sum_of, difference_of, product_of, quotient_of, remainder_of, left_shift_of, right_shift_of, signed_shift_of};

use crate::arithmetic::{modulus, power_of_two};
use crate::range::Range;
use ebpf_insn::insn::Width;

// All numbers of a width.
pub(crate) fn all_at(width: Width) -> Range
    ensures { result ≡ all_below (modulus width) }
{
    Range {
        lo: 0,
        hi: (modulus(width) - 1) as u64,
    }
}

// The sum, which wraps.
#[tactic(auto, using(crate::proofs::Spans::same_ends))]
pub(crate) fn sum(width: Width, a: Range, b: Range) -> Range
    requires { AreBelow (modulus width) a b }
    ensures { result ≡ sum_of (modulus width) a b }
{
    let modulus = modulus(width);
    let lo = a.lo as u128 + b.lo as u128;
    let hi = a.hi as u128 + b.hi as u128;
    if hi < modulus {
        Range {
            lo: lo as u64,
            hi: hi as u64,
        }
    } else if modulus <= lo {
        Range {
            lo: (lo - modulus) as u64,
            hi: (hi - modulus) as u64,
        }
    } else {
        all_at(width)
    }
}

// The difference, which wraps below zero.
#[tactic(auto, using(crate::proofs::Spans::same_ends))]
pub(crate) fn difference(width: Width, a: Range, b: Range) -> Range
    requires { AreBelow (modulus width) a b }
    ensures { result ≡ difference_of (modulus width) a b }
{
    if b.hi <= a.lo {
        Range {
            lo: a.lo - b.hi,
            hi: a.hi - b.lo,
        }
    } else if a.hi < b.lo {
        Range {
            lo: (a.lo as u128 + modulus(width) - b.hi as u128) as u64,
            hi: (a.hi as u128 + modulus(width) - b.lo as u128) as u64,
        }
    } else {
        all_at(width)
    }
}

// The product, which wraps.
#[tactic(auto, using(crate::proofs::Spans::same_ends))]
pub(crate) fn product(width: Width, a: Range, b: Range) -> Range
    ensures { result ≡ product_of (modulus width) a b }
{
    let hi = a.hi as u128 * b.hi as u128;
    if hi < modulus(width) {
        Range {
            lo: a.lo * b.lo,
            hi: hi as u64,
        }
    } else {
        all_at(width)
    }
}

// The quotient, which is 0 where the divisor is.
#[tactic(auto, using(crate::proofs::Spans::same_ends))]
pub(crate) fn quotient(a: Range, b: Range) -> Range
    ensures { result ≡ quotient_of a b }
{
    if 0 < b.lo {
        Range {
            lo: a.lo / b.hi,
            hi: a.hi / b.lo,
        }
    } else {
        Range { lo: 0, hi: a.hi }
    }
}

// The remainder, which is the dividend where the divisor is 0.
pub(crate) fn remainder(a: Range, b: Range) -> Range
    ensures { result ≡ remainder_of a b }
{
    if 0 < b.lo {
        Range {
            lo: 0,
            hi: a.hi.min(b.hi - 1),
        }
    } else {
        Range { lo: 0, hi: a.hi }
    }
}

// The number shifted to the left.
pub(crate) fn left_shift(width: Width, a: Range, b: Range) -> Range
    ensures { result ≡ left_shift_of width a b }
{
    if b.lo == b.hi {
        product(width, a, Range::constant(factor(width, b.lo)))
    } else {
        all_at(width)
    }
}

// The number shifted to the right, with zeros.
#[tactic(auto, using(crate::proofs::Spans::same_ends))]
pub(crate) fn right_shift(width: Width, a: Range, b: Range) -> Range
    ensures { result ≡ right_shift_of width a b }
{
    if b.lo != b.hi {
        Range { lo: 0, hi: a.hi }
    } else {
        quotient(a, Range::constant(factor(width, b.lo)))
    }
}

// The number shifted to the right, with copies of its sign.
pub(crate) fn signed_shift(width: Width, a: Range, b: Range) -> Range
    ensures { result ≡ signed_shift_of width a b }
{
    if b.lo == b.hi && (a.hi as u128) < modulus(width) / 2 {
        right_shift(width, a, b)
    } else {
        all_at(width)
    }
}

// What a shift by this count multiplies or divides by.
fn factor(width: Width, count: u64) -> u64
    ensures { result ≡ factor_at width count }
{
    match width {
        Width::W32 => power_of_two((count % 32) as u8) as u64,
        Width::W64 => power_of_two((count % 64) as u8) as u64,
    }
}

// The greatest number with no more bits than the numbers of the two ranges have: 2^n - 1 for the least n such that both lie
// below 2^n.
pub(crate) fn up(a: Range, b: Range) -> u64
    ensures value { result ≡ up a b }
    ensures reached { (n : ℕ) × (result + 1 ≡ 2 ^ n) × (a.hi < 2 ^ n) × (b.hi < 2 ^ n) }
    ensures least { (n : ℕ) → a.hi < 2 ^ n → b.hi < 2 ^ n → result < 2 ^ n }
{
    let bits = 64 - a.hi.max(b.hi).leading_zeros();
    (power_of_two(bits as u8) - 1) as u64
}
