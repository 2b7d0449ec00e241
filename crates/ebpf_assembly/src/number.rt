//! The numbers of a text, as a listing writes them.

ghost use Rattle.std.specs.Prelude.{◌≡◌, ◌≢◌, ◌≤◌, ◌<◌, ◌^◌, ℕ, pos, negsuc, suc, FitsSigned, decimal};
ghost use Rattle.std.specs.Option.{MatchOption};
ghost use Rattle.std.specs.Int.{w16, w32};
ghost use Rattle.std.specs.Fmt.{signed_decimal};
ghost use Rattle.ebpf_text.specs.Operands.{offset_text};
ghost use Rattle.ebpf_assembly.specs.Reading.{IsRead};

// A number without a sign: decimal digits, the first of which is 0 only where it is the only one.
pub(crate) fn number(word: &[u8]) -> Option<u64>
    ensures { IsRead (λ n. n < 2 ^ 64) decimal word.now result }
{
    let (first, rest) = word.split_first()?;
    if *first == b'+' {
        return None;
    }
    if *first == b'0' {
        return if rest.is_empty() { Some(0) } else { None };
    }
    let Ok(text) = str::from_utf8(word) else {
        return None;
    };
    text.parse().ok()
}

// An immediate: a minus where it is negative.
pub(crate) fn immediate(word: &[u8]) -> Option<i32>
    ensures { IsRead (FitsSigned w32) signed_decimal word.now result }
{
    let (first, rest) = word.split_first()?;
    if *first == b'-' {
        return negative(number(rest)?);
    }
    positive(number(word)?)
}

// The displacement of a far jump: with its sign, a plus also at zero.
pub(crate) fn far_offset(word: &[u8]) -> Option<i32>
    ensures { IsRead (FitsSigned w32) offset_text word.now result }
{
    let (first, rest) = word.split_first()?;
    match *first {
        b'-' => negative(number(rest)?),
        b'+' => positive(number(rest)?),
        _ => None,
    }
}

// The offset of a load, a store, a jump or a branch.
pub(crate) fn offset(word: &[u8]) -> Option<i16>
    ensures { IsRead (FitsSigned w16) offset_text word.now result }
{
    i16::try_from(far_offset(word)?).ok()
}

fn positive(size: u64) -> Option<i32>
    ensures { MatchOption result (2 ^ 31 ≤ size) (λ z. FitsSigned w32 z × (z ≡ pos size)) }
{
    if size > 0x7fff_ffff {
        return None;
    }
    Some(size as i32)
}

// Zero has no minus.
fn negative(size: u64) -> Option<i32>
    ensures { MatchOption result ((m : ℕ) → m < 2 ^ 31 → size ≢ suc m) (λ z. FitsSigned w32 z × ((m : ℕ) × (size ≡ suc m) × (z ≡ negsuc m))) }
{
    if size == 0 || size > 0x8000_0000 {
        return None;
    }
    Some((-(size as i64)) as i32)
}
