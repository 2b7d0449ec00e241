//! Ranges of results (RFC 9669, sections 4.1 and 4.2).

ghost use Rattle.std.specs.Prelude.{◌≡◌, ◌≤◌, ◌<◌, ◌%◌, ◌^◌, ℕ};
ghost use Rattle.ebpf_insn.specs.Arithmetic.{modulus, result_at, extension_at, negation_at, swapped_bits, swap_of};
ghost use Rattle.ebpf_range.specs.Interval.{AreBelow, low, IsWithin};
ghost use Rattle.ebpf_range.specs.Results.{low_at, row, row_or_constant, result_range, extension_or_any};
ghost use Rattle.ebpf_range.specs.Results.{extension_range, negation_or_any, negation_range, swap_range};

use crate::arithmetic::{compute, extend, negate, reorder};
use crate::range::Range;
use crate::rows::{
    all_at, difference, left_shift, product, quotient, remainder, right_shift, signed_shift, sum,
    up,
};
use ebpf_insn::insn::{AluOp, Order, Width};

/// What is known of the result of an operation: its row of the table of results.
pub fn alu(op: AluOp, width: Width, a: Range, b: Range) -> Range
    ensures value { result ≡ result_range op width a b }
    ensures below { result.hi < modulus width }
    ensures holds { (x y : ℕ) → IsWithin x a → IsWithin y b → IsWithin (result_at op width x y) result }
{
    row_or_constant(op, width, low_at(width, a), low_at(width, b))
}

/// What is known of the low 32 bits of a number of the range, which is what the table says of `mov` at 32 bits.
pub fn low(a: Range) -> Range
    ensures value { result ≡ low a }
    ensures table { result ≡ result_range AluOp.Mov Width.W32 a a }
    ensures half { result.hi < 2 ^ 32 }
    ensures holds { (n : ℕ) → IsWithin n a → IsWithin (n % 2 ^ 32) result }
{
    if a.hi < 1 << 32 {
        a
    } else if a.lo / (1 << 32) == a.hi / (1 << 32) {
        Range {
            lo: a.lo % (1 << 32),
            hi: a.hi % (1 << 32),
        }
    } else {
        Range {
            lo: 0,
            hi: (1 << 32) - 1,
        }
    }
}

// What an operation of a width reads of its operand.
fn low_at(width: Width, a: Range) -> Range
    ensures value { result ≡ low_at width a }
    ensures below { result.hi < modulus width }
{
    match width {
        Width::W32 => low(a),
        Width::W64 => a,
    }
}

// The result where both operands are constant, else the row of the operation.
fn row_or_constant(op: AluOp, width: Width, a: Range, b: Range) -> Range
    requires { AreBelow (modulus width) a b }
    ensures { result ≡ row_or_constant op width a b }
{
    if a.lo == a.hi && b.lo == b.hi {
        Range::constant(compute(op, width, a.lo, b.lo))
    } else {
        row(op, width, a, b)
    }
}

// The row of an operation.
fn row(op: AluOp, width: Width, a: Range, b: Range) -> Range
    requires { AreBelow (modulus width) a b }
    ensures { result ≡ row op width a b }
{
    match op {
        AluOp::Add => sum(width, a, b),
        AluOp::Sub => difference(width, a, b),
        AluOp::Mul => product(width, a, b),
        AluOp::Div => quotient(a, b),
        AluOp::SDiv => all_at(width),
        AluOp::Or => Range {
            lo: a.lo.max(b.lo),
            hi: up(a, b),
        },
        AluOp::And => Range {
            lo: 0,
            hi: a.hi.min(b.hi),
        },
        AluOp::Lsh => left_shift(width, a, b),
        AluOp::Rsh => right_shift(width, a, b),
        AluOp::Rem => remainder(a, b),
        AluOp::SRem => all_at(width),
        AluOp::Xor => Range {
            lo: 0,
            hi: up(a, b),
        },
        AluOp::Mov => b,
        AluOp::Arsh => signed_shift(width, a, b),
    }
}

/// What is known of a number whose low bits are extended with their sign: the result where it is constant, else all numbers
/// of the width.
pub fn sext(width: Width, bits: u8, a: Range) -> Range
    ensures value { result ≡ extension_range width bits a }
    ensures below { result.hi < modulus width }
    ensures holds { (n : ℕ) → IsWithin n a → IsWithin (extension_at width bits n) result }
{
    extension_or_any(width, bits, low_at(width, a))
}

// The extension of a constant, else all numbers of the width.
fn extension_or_any(width: Width, bits: u8, a: Range) -> Range
    ensures { result ≡ extension_or_any width bits a }
{
    if a.lo == a.hi {
        Range::constant(extend(width, bits, a.lo))
    } else {
        all_at(width)
    }
}

/// What is known of zero less a number: the result where it is constant, else all numbers of the width.
pub fn neg(width: Width, a: Range) -> Range
    ensures value { result ≡ negation_range width a }
    ensures below { result.hi < modulus width }
    ensures holds { (n : ℕ) → IsWithin n a → IsWithin (negation_at width n) result }
{
    negation_or_any(width, low_at(width, a))
}

// Zero less a constant, else all numbers of the width.
fn negation_or_any(width: Width, a: Range) -> Range
    ensures { result ≡ negation_or_any width a }
{
    if a.lo == a.hi {
        Range::constant(negate(width, a.lo))
    } else {
        all_at(width)
    }
}

/// What is known of the low bits of a number with their bytes in another order: the result where the number is constant,
/// else all numbers of n bits. Any number of bits but 16 and 32 counts as 64.
pub fn swap(order: Order, bits: u8, a: Range) -> Range
    ensures value { result ≡ swap_range order bits a }
    ensures below { result.hi < 2 ^ swapped_bits bits }
    ensures holds { (n : ℕ) → IsWithin n a → IsWithin (swap_of order bits n) result }
{
    swap_or_any(order, bits, a)
}

// The bytes of a constant in another order, else all numbers of n bits.
fn swap_or_any(order: Order, bits: u8, a: Range) -> Range
    ensures { result ≡ swap_range order bits a }
{
    if a.lo == a.hi {
        Range::constant(reorder(order, bits, a.lo))
    } else {
        Range {
            lo: 0,
            hi: match bits {
                16 => 0xffff,
                32 => 0xffff_ffff,
                _ => u64::MAX,
            },
        }
    }
}
