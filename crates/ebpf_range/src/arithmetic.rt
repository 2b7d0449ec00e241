//! What operations and conditions give on numbers (RFC 9669, section 4).

ghost use Rattle.std.specs.Prelude.{◌≡◌, ◌≤◌, ◌<◌, ◌%◌, ◌^◌};
ghost use Rattle.ebpf_insn.specs.Arithmetic.{modulus, bits_of, operation, result_at, negation_at, extended_bits, extension_at, swap_of, comparison, is_met};

use ebpf_insn::insn::{AluOp, Cond, Order, Width};

/// What an operation gives on two numbers (RFC 9669, section 4.1). At 32 bits it reads their low halves.
#[inline(always)]
pub fn compute(op: AluOp, width: Width, a: u64, b: u64) -> u64
    ensures { result ≡ result_at op width a b }
{
    match width {
        Width::W32 => compute_32(op, low_half(a), low_half(b)) as u64,
        Width::W64 => compute_64(op, a, b),
    }
}

// The low 32 bits of a number.
fn low_half(n: u64) -> u32
    ensures { result ≡ n % 2 ^ 32 }
{
    (n % (1 << 32)) as u32
}

// An operation on two numbers of 32 bits.
fn compute_32(op: AluOp, a: u32, b: u32) -> u32
    ensures { result ≡ operation op Width.W32 a b }
{
    match op {
        AluOp::Add => a.wrapping_add(b),
        AluOp::Sub => a.wrapping_sub(b),
        AluOp::Mul => a.wrapping_mul(b),
        AluOp::Div => if b == 0 { 0 } else { a / b },
        AluOp::SDiv => signed_quotient_32(a, b),
        AluOp::Or => a | b,
        AluOp::And => a & b,
        AluOp::Lsh => a << (b % 32),
        AluOp::Rsh => a >> (b % 32),
        AluOp::Rem => if b == 0 { a } else { a % b },
        AluOp::SRem => signed_remainder_32(a, b),
        AluOp::Xor => a ^ b,
        AluOp::Mov => b,
        AluOp::Arsh => (a.cast_signed() >> (b % 32)).cast_unsigned(),
    }
}

// The quotient of two numbers of 32 bits, read as signed ones. The least one by -1 wraps.
fn signed_quotient_32(a: u32, b: u32) -> u32
    ensures { result ≡ operation AluOp.SDiv Width.W32 a b }
{
    if b == 0 {
        return 0;
    }
    let quotient = a.cast_signed().wrapping_div(b.cast_signed());
    quotient.cast_unsigned()
}

// The remainder of two numbers of 32 bits, read as signed ones. It has the sign of the dividend.
fn signed_remainder_32(a: u32, b: u32) -> u32
    ensures { result ≡ operation AluOp.SRem Width.W32 a b }
{
    if b == 0 {
        return a;
    }
    let remainder = a.cast_signed().wrapping_rem(b.cast_signed());
    remainder.cast_unsigned()
}

// An operation on two numbers of 64 bits.
fn compute_64(op: AluOp, a: u64, b: u64) -> u64
    ensures { result ≡ operation op Width.W64 a b }
{
    match op {
        AluOp::Add => a.wrapping_add(b),
        AluOp::Sub => a.wrapping_sub(b),
        AluOp::Mul => a.wrapping_mul(b),
        AluOp::Div => if b == 0 { 0 } else { a / b },
        AluOp::SDiv => signed_quotient_64(a, b),
        AluOp::Or => a | b,
        AluOp::And => a & b,
        AluOp::Lsh => a << (b % 64),
        AluOp::Rsh => a >> (b % 64),
        AluOp::Rem => if b == 0 { a } else { a % b },
        AluOp::SRem => signed_remainder_64(a, b),
        AluOp::Xor => a ^ b,
        AluOp::Mov => b,
        AluOp::Arsh => (a.cast_signed() >> (b % 64)).cast_unsigned(),
    }
}

// The quotient of two numbers of 64 bits, read as signed ones. The least one by -1 wraps.
fn signed_quotient_64(a: u64, b: u64) -> u64
    ensures { result ≡ operation AluOp.SDiv Width.W64 a b }
{
    if b == 0 {
        return 0;
    }
    let quotient = a.cast_signed().wrapping_div(b.cast_signed());
    quotient.cast_unsigned()
}

// The remainder of two numbers of 64 bits, read as signed ones. It has the sign of the dividend.
fn signed_remainder_64(a: u64, b: u64) -> u64
    ensures { result ≡ operation AluOp.SRem Width.W64 a b }
{
    if b == 0 {
        return a;
    }
    let remainder = a.cast_signed().wrapping_rem(b.cast_signed());
    remainder.cast_unsigned()
}

/// Zero less the number (RFC 9669, section 4.1). At 32 bits the low half is negated.
pub fn negate(width: Width, n: u64) -> u64
    ensures { result ≡ negation_at width n }
{
    compute(AluOp::Sub, width, 0, n)
}

/// The low bits of a number, with copies of the highest of them above, up to the width (RFC 9669, section 4.1). A move
/// takes 8, 16 or 32 bits; more than the width has count as all of them.
pub fn extend(width: Width, bits: u8, n: u64) -> u64
    ensures { result ≡ extension_at width bits n }
{
    let size = power_of_two(bits.min(bits_of(width)));
    let low = n as u128 % size;
    if low * 2 < size {
        low as u64
    } else {
        (low + (modulus(width) - size)) as u64
    }
}

/// The low bits of a number, with their bytes in another order (RFC 9669, section 4.2). A swap takes 16, 32 or 64 bits;
/// any other number of them counts as 64.
pub fn reorder(order: Order, bits: u8, n: u64) -> u64
    ensures { result ≡ swap_of order bits n }
{
    let is_reversed = !matches!(order, Order::Little);
    match bits {
        16 => {
            let low = (n % (1 << 16)) as u16;
            if is_reversed {
                low.swap_bytes() as u64
            } else {
                low as u64
            }
        }
        32 => {
            let low = (n % (1 << 32)) as u32;
            if is_reversed {
                low.swap_bytes() as u64
            } else {
                low as u64
            }
        }
        _ => if is_reversed { n.swap_bytes() } else { n },
    }
}

/// Whether a condition holds of two numbers (RFC 9669, section 4.3). At 32 bits their low halves are compared.
#[inline(always)]
pub fn is_met(cond: Cond, width: Width, a: u64, b: u64) -> bool
    ensures { result ≡ is_met cond width a b }
{
    match width {
        Width::W32 => compare_32(cond, low_half(a), low_half(b)),
        Width::W64 => compare_64(cond, a, b),
    }
}

// A condition of two numbers of 32 bits.
fn compare_32(cond: Cond, a: u32, b: u32) -> bool
    ensures { result ≡ comparison cond Width.W32 a b }
{
    match cond {
        Cond::Eq => a == b,
        Cond::Ne => a != b,
        Cond::Gt => a > b,
        Cond::Ge => a >= b,
        Cond::Lt => a < b,
        Cond::Le => a <= b,
        Cond::Set => a & b != 0,
        Cond::SGt => a.cast_signed() > b.cast_signed(),
        Cond::SGe => a.cast_signed() >= b.cast_signed(),
        Cond::SLt => a.cast_signed() < b.cast_signed(),
        Cond::SLe => a.cast_signed() <= b.cast_signed(),
    }
}

// A condition of two numbers of 64 bits.
fn compare_64(cond: Cond, a: u64, b: u64) -> bool
    ensures { result ≡ comparison cond Width.W64 a b }
{
    match cond {
        Cond::Eq => a == b,
        Cond::Ne => a != b,
        Cond::Gt => a > b,
        Cond::Ge => a >= b,
        Cond::Lt => a < b,
        Cond::Le => a <= b,
        Cond::Set => a & b != 0,
        Cond::SGt => a.cast_signed() > b.cast_signed(),
        Cond::SGe => a.cast_signed() >= b.cast_signed(),
        Cond::SLt => a.cast_signed() < b.cast_signed(),
        Cond::SLe => a.cast_signed() <= b.cast_signed(),
    }
}

// Numbers of a width are below this.
pub(crate) fn modulus(width: Width) -> u128
    ensures { result ≡ modulus width }
{
    match width {
        Width::W32 => 1 << 32,
        Width::W64 => 1 << 64,
    }
}

// How many bits a number of a width has.
fn bits_of(width: Width) -> u8
    ensures { result ≡ bits_of width }
{
    match width {
        Width::W32 => 32,
        Width::W64 => 64,
    }
}

// 2 to a power.
pub(crate) fn power_of_two(exponent: u8) -> u128
    requires { exponent ≤ 64 }
    ensures { result ≡ 2 ^ exponent }
{
    1 << exponent
}
