//! Ranges after a branch (RFC 9669, section 4.3).

ghost use Rattle.std.specs.Prelude.{◌≡◌, ◌≤◌, ◌<◌, ℕ, IfSome, IsSomeAnd};
ghost use Rattle.ebpf_insn.specs.Arithmetic.{is_met};
ghost use Rattle.ebpf_range.specs.Interval.{IsWithin};
ghost use Rattle.ebpf_range.specs.Refinements.{after_eq, without, after_ne, after_gt, after_ge, exchange, unless_false};
ghost use Rattle.ebpf_range.specs.Refinements.{have_no_sign, after, after_not, fits, refinement};

use crate::arithmetic::{is_met, modulus};
use crate::range::Range;
use ebpf_insn::insn::{Cond, Width};

/// What is known of both operands where a branch is taken, or where it is not: the row of the condition, or of its
/// opposite. `None` says that the branch never goes that way.
// Callers ask for both ways, one after the other: in line, what each way tests alike is tested once.
#[inline(always)]
pub fn refine(cond: Cond, width: Width, a: Range, b: Range, taken: bool) -> Option<(Range, Range)>
    ensures value { result ≡ refinement cond width a b taken }
    ensures keeps { (x y : ℕ) → IsWithin x a → IsWithin y b → is_met cond width x y ≡ taken → IsSomeAnd result (λ p. IsWithin x p.0 × IsWithin y p.1) }
{
    refinement(cond, width, a, b, taken)
}

// What the table says of a branch.
#[inline(always)]
fn refinement(cond: Cond, width: Width, a: Range, b: Range, taken: bool) -> Option<(Range, Range)>
    ensures { result ≡ refinement cond width a b taken }
{
    if !fits(width, a, b) {
        Some((a, b))
    } else if taken {
        after(cond, width, a, b)
    } else {
        after_not(cond, width, a, b)
    }
}

// Whether both ranges lie below what the width compares.
fn fits(width: Width, a: Range, b: Range) -> bool
    ensures { result ≡ fits width a b }
{
    match width {
        Width::W32 => a.hi < 1 << 32 && b.hi < 1 << 32,
        Width::W64 => true,
    }
}

// What is known where the condition holds.
fn after(cond: Cond, width: Width, a: Range, b: Range) -> Option<(Range, Range)>
    ensures { result ≡ after cond width a b }
{
    match cond {
        Cond::Eq => after_eq(a, b),
        Cond::Ne => after_ne(a, b),
        Cond::Gt => after_gt(a, b),
        Cond::Ge => after_ge(a, b),
        Cond::Lt => exchange(after_gt(b, a)),
        Cond::Le => exchange(after_ge(b, a)),
        Cond::SGt if have_no_sign(width, a, b) => after_gt(a, b),
        Cond::SGe if have_no_sign(width, a, b) => after_ge(a, b),
        Cond::SLt if have_no_sign(width, a, b) => exchange(after_gt(b, a)),
        Cond::SLe if have_no_sign(width, a, b) => exchange(after_ge(b, a)),
        Cond::Set | Cond::SGt | Cond::SGe | Cond::SLt | Cond::SLe => unless_false(
            is_met(cond, width, a.lo, b.lo),
            a,
            b,
        ),
    }
}

// What is known where the condition doesn't hold.
fn after_not(cond: Cond, width: Width, a: Range, b: Range) -> Option<(Range, Range)>
    ensures { result ≡ after_not cond width a b }
{
    match cond {
        Cond::Eq => after(Cond::Ne, width, a, b),
        Cond::Ne => after(Cond::Eq, width, a, b),
        Cond::Gt => after(Cond::Le, width, a, b),
        Cond::Ge => after(Cond::Lt, width, a, b),
        Cond::Lt => after(Cond::Ge, width, a, b),
        Cond::Le => after(Cond::Gt, width, a, b),
        Cond::Set => unless_false(!is_met(Cond::Set, width, a.lo, b.lo), a, b),
        Cond::SGt => after(Cond::SLe, width, a, b),
        Cond::SGe => after(Cond::SLt, width, a, b),
        Cond::SLt => after(Cond::SGe, width, a, b),
        Cond::SLe => after(Cond::SGt, width, a, b),
    }
}

// Both are what both ranges hold.
fn after_eq(a: Range, b: Range) -> Option<(Range, Range)>
    ensures { result ≡ after_eq a b }
{
    if a.hi < b.lo || b.hi < a.lo {
        return None;
    }
    let both = Range {
        lo: a.lo.max(b.lo),
        hi: a.hi.min(b.hi),
    };
    Some((both, both))
}

// A constant is no longer in the other range, where it was an end of it.
fn after_ne(a: Range, b: Range) -> Option<(Range, Range)>
    ensures { result ≡ after_ne a b }
{
    if a.lo == a.hi && b.lo == b.hi && a.lo == b.lo {
        None
    } else if b.lo == b.hi {
        Some((without(b.lo, a), b))
    } else if a.lo == a.hi {
        Some((a, without(a.lo, b)))
    } else {
        Some((a, b))
    }
}

// A range without one number, where that is an end of it.
fn without(number: u64, a: Range) -> Range
    requires { a.lo ≡ number → a.lo < a.hi }
    ensures { result ≡ without number a }
{
    if a.lo == number {
        Range {
            lo: a.lo + 1,
            hi: a.hi,
        }
    } else if a.hi == number {
        Range {
            lo: a.lo,
            hi: a.hi - 1,
        }
    } else {
        a
    }
}

// The left number is the greater one.
fn after_gt(a: Range, b: Range) -> Option<(Range, Range)>
    ensures { result ≡ after_gt a b }
{
    if a.hi <= b.lo {
        return None;
    }
    let left = Range {
        lo: a.lo.max(b.lo + 1),
        hi: a.hi,
    };
    let right = Range {
        lo: b.lo,
        hi: b.hi.min(a.hi - 1),
    };
    Some((left, right))
}

// The left number is the right one, or greater.
fn after_ge(a: Range, b: Range) -> Option<(Range, Range)>
    ensures { result ≡ after_ge a b }
{
    if a.hi < b.lo {
        return None;
    }
    let left = Range {
        lo: a.lo.max(b.lo),
        hi: a.hi,
    };
    let right = Range {
        lo: b.lo,
        hi: b.hi.min(a.hi),
    };
    Some((left, right))
}

// What is known of the right and the left operand, for the left and the right one.
fn exchange(known: Option<(Range, Range)>) -> Option<(Range, Range)>
    ensures { result ≡ exchange known }
{
    match known {
        Some((a, b)) => Some((b, a)),
        None => None,
    }
}

// Nothing is learnt but where both ranges are constant.
fn unless_false(holds: bool, a: Range, b: Range) -> Option<(Range, Range)>
    ensures { result ≡ unless_false holds a b }
{
    if a.lo == a.hi && b.lo == b.hi && !holds {
        None
    } else {
        Some((a, b))
    }
}

// Whether no number of either range has the sign bit of the width.
fn have_no_sign(width: Width, a: Range, b: Range) -> bool
    ensures { result ≡ have_no_sign width a b }
{
    let half = modulus(width) / 2;
    (a.hi as u128) < half && (b.hi as u128) < half
}
