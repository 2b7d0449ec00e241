//! The numbers of a script, each with its range.

ghost use Rattle.std.specs.Prelude.{◌≡◌, ◌≤◌, IfSome};
ghost use Rattle.ebpf_verify.specs.declared.decl.TheConstants.{MAX_CONTEXT, MAX_HELD};
ghost use Rattle.ebpf_reader.specs.Numbers.{number_to, context_of, held_of, run_of, kind_of, slot_of, pages_of};

use ebpf_verify::decl::{MAX_CONTEXT, MAX_HELD};
use slab_layer::SLOTS;
use vmem_arena::MAX_PAGES;

/// The length of a context, 0 to [`MAX_CONTEXT`].
pub(crate) fn context_of(word: &[u8]) -> Option<u32>
    ensures value { result ≡ context_of word.now }
    ensures small { IfSome result (λ n. n ≤ MAX_CONTEXT) }
{
    number_to(MAX_CONTEXT, word)
}

/// The most objects to hold, 0 to [`MAX_HELD`].
pub(crate) fn held_of(word: &[u8]) -> Option<u8>
    ensures value { result ≡ held_of word.now }
    ensures small { IfSome result (λ n. n ≤ MAX_HELD) }
{
    let held = number_to(MAX_HELD as u32, word)?;
    Some(held as u8)
}

/// The number of a run, below 2^32.
pub(crate) fn run_of(word: &[u8]) -> Option<usize>
    ensures { result ≡ run_of word.now }
{
    let run = number_to(u32::MAX, word)?;
    Some(run as usize)
}

/// The number of a kind, 0 to 255.
pub(crate) fn kind_of(word: &[u8]) -> Option<u8>
    ensures { result ≡ kind_of word.now }
{
    let kind = number_to(255, word)?;
    Some(kind as u8)
}

/// The number of a slot, below [`SLOTS`].
pub(crate) fn slot_of(word: &[u8]) -> Option<u32>
    ensures { result ≡ slot_of word.now }
{
    number_to(SLOTS - 1, word)
}

/// The pages of an arena, 1 to [`MAX_PAGES`].
pub(crate) fn pages_of(word: &[u8]) -> Option<u32>
    ensures { result ≡ pages_of word.now }
{
    let pages = number_to(MAX_PAGES, word)?;
    if pages == 0 { None } else { Some(pages) }
}

// The number that a word of decimal digits writes; `None` where it isn't one, or is more than `most`.
fn number_to(most: u32, word: &[u8]) -> Option<u32>
    ensures value { result ≡ number_to most word.now }
    ensures small { IfSome result (λ n. n ≤ most) }
{
    if word.is_empty() {
        return None;
    }
    let limit = u64::from(most);
    let mut value = 0u64;
    for digit in word {
        if !digit.is_ascii_digit() {
            return None;
        }
        value = value * 10 + u64::from(*digit - b'0');
        if value > limit {
            return None;
        }
    }
    Some(value as u32)
}
