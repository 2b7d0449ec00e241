//! The bits of a word.
//!
//! *The idea.* A word of 64 bits is a set of the numbers 0 to 63, and the processor finds its lowest member in
//! one instruction.
//!
//! *The invariant.* A function here changes one bit and no other.
//!
//! *The reason.* What the classes say of pages is said here of bits, so no other file reads a shift or a mask.

ghost use Rattle.std.specs.Prelude.{◌≡◌, ◌≢◌, ℕ, ◌<◌, ◌≤◌, IfSome, IfNone};
ghost use Rattle.std.specs.Int.{bit_at};
ghost use Rattle.vmem_arena.specs.declared.word.TheConstants.{BITS};

/// The bits of a word.
pub const BITS: usize = 64;

/// The word with this bit set.
pub fn with_bit(word: u64, bit: u32) -> u64
    requires { bit < BITS }
    ensures set { bit_at result bit ≡ 1 }
    ensures others { (i : ℕ) → i ≢ bit → bit_at result i ≡ bit_at word i }
{
    word | (1 << bit)
}

/// The word with this bit clear.
pub fn without_bit(word: u64, bit: u32) -> u64
    requires { bit < BITS }
    ensures clear { bit_at result bit ≡ 0 }
    ensures others { (i : ℕ) → i ≢ bit → bit_at result i ≡ bit_at word i }
{
    word & !(1 << bit)
}

/// The lowest bit that is set, of those from `from` on.
pub fn lowest_from(word: u64, from: u32) -> Option<u32>
    requires { from < BITS }
    ensures found { IfSome result (λ bit. (from ≤ bit) × (bit < BITS) × (bit_at word bit ≡ 1)) }
    ensures lowest { IfSome result (λ bit. (i : ℕ) → from ≤ i → i < bit → bit_at word i ≡ 0) }
    ensures none { IfNone result ((i : ℕ) → from ≤ i → bit_at word i ≡ 0) }
{
    let rest = word & (u64::MAX << from);
    if rest == 0 {
        None
    } else {
        Some(rest.trailing_zeros())
    }
}

/// The highest bit that is set.
pub fn highest(word: u64) -> Option<u32>
    ensures found { IfSome result (λ bit. (bit < BITS) × (bit_at word bit ≡ 1)) }
    ensures highest { IfSome result (λ bit. (i : ℕ) → bit < i → bit_at word i ≡ 0) }
    ensures none { IfNone result ((i : ℕ) → bit_at word i ≡ 0) }
{
    if word == 0 { None } else { Some(word.ilog2()) }
}
