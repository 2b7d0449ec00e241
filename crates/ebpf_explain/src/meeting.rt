//! Why a slot is refused where paths meet that hold different objects, in words, each written after a text. Writing fails only
//! where an allocation fails.

ghost use Rattle.std.specs.Prelude.{◌≡◌, ◌++◌, string_bytes, OnOk, slice_get};
ghost use Rattle.std.specs.List.{flat_map};
ghost use Rattle.ebpf_explain.specs.Meeting.{both_paths, coming, held_from, holds_other, meeting_sentence, next_held, pair_text, paths_after, paths_from};

use crate::references::write_held;
use ebpf_state::held::Held;
use ebpf_state::kinds::KindRow;
use ebpf_state::state::is_same_held;
use ebpf_verify::comers::Comer;
use std::alloc::AllocError;

// No two are found that differ.
const UNKNOWN: &str =
    "paths meet that hold different objects, or of which only one has compared an answer";

// The sentence: which two paths meet, and what each of them holds.
pub(crate) fn write_meeting(
    text: &mut String,
    slot: usize,
    comers: &[Comer],
    kinds: &[KindRow],
) -> Result<(), AllocError>
    ensures { OnOk result (string_bytes text.new ≡ string_bytes text.old ++ meeting_sentence slot comers.now kinds.now) }
{
    write!(text, "  slot {slot} is where ")?;
    write_paths(text, comers, kinds)?;
    text.push_str(": before they meet, free what only one of them holds\n")
}

// The first that comes, and the first that doesn't hold the same.
fn write_paths(text: &mut String, comers: &[Comer], kinds: &[KindRow]) -> Result<(), AllocError>
    ensures { OnOk result (string_bytes text.new ≡ string_bytes text.old ++ paths_from kinds.now (slice_get comers.now 0) comers.now) }
{
    match comers.get(0) {
        Some(first) => write_from(text, first, comers, kinds),
        None => text.push_str(UNKNOWN),
    }
}

// One that comes, and the first that doesn't hold the same.
fn write_from(
    text: &mut String,
    first: &Comer,
    comers: &[Comer],
    kinds: &[KindRow],
) -> Result<(), AllocError>
    ensures { OnOk result (string_bytes text.new ≡ string_bytes text.old ++ paths_after kinds.now first.now comers.now) }
{
    match holds_other(first.state.references(), comers) {
        Some(number) => write_both(text, first, comers, number, kinds),
        None => text.push_str(UNKNOWN),
    }
}

// One that comes, and the one with this number.
fn write_both(
    text: &mut String,
    first: &Comer,
    comers: &[Comer],
    number: usize,
    kinds: &[KindRow],
) -> Result<(), AllocError>
    ensures { OnOk result (string_bytes text.new ≡ string_bytes text.old ++ both_paths kinds.now first.now (slice_get comers.now number)) }
{
    match comers.get(number) {
        Some(other) => write_pair(text, first, other, kinds),
        None => text.push_str(UNKNOWN),
    }
}

// Two that come, and what each holds.
fn write_pair(
    text: &mut String,
    first: &Comer,
    other: &Comer,
    kinds: &[KindRow],
) -> Result<(), AllocError>
    ensures { OnOk result (string_bytes text.new ≡ string_bytes text.old ++ pair_text kinds.now first.now other.now) }
{
    write_coming(text, first, kinds)?;
    text.push_str(", and ")?;
    write_coming(text, other, kinds)?;
    text.push_str(", meet")
}

// The first that comes and doesn't hold the same.
fn holds_other(held: &[Held], comers: &[Comer]) -> Option<usize>
    ensures { result ≡ holds_other held.now comers.now }
{
    comers
        .iter()
        .position(|comer| !is_same_held(held, comer.state.references()))
}

// What comes, and what it holds.
fn write_coming(text: &mut String, comer: &Comer, kinds: &[KindRow]) -> Result<(), AllocError>
    ensures { OnOk result (string_bytes text.new ≡ string_bytes text.old ++ coming kinds.now comer.now) }
{
    write!(text, "slot {}, which ", comer.from)?;
    write_holdings(text, comer.state.references(), kinds)
}

// What these references hold.
fn write_holdings(text: &mut String, held: &[Held], kinds: &[KindRow]) -> Result<(), AllocError>
    ensures { OnOk result (string_bytes text.new ≡ string_bytes text.old ++ held_from kinds.now (slice_get held.now 0) held.now) }
{
    let Some(first) = held.get(0) else {
        return text.push_str("holds nothing");
    };
    write_held(text, *first, kinds)?;
    write_others(text, &held[1..], kinds)
}

// What these references hold too.
fn write_others(text: &mut String, held: &[Held], kinds: &[KindRow]) -> Result<(), AllocError>
    ensures { OnOk result (string_bytes text.new ≡ string_bytes text.old ++ flat_map (next_held kinds.now) held.now) }
{
    for reference in held {
        write_next(text, *reference, kinds)?;
    }
    Ok(())
}

// What one more reference holds.
fn write_next(text: &mut String, reference: Held, kinds: &[KindRow]) -> Result<(), AllocError>
    ensures { OnOk result (string_bytes text.new ≡ string_bytes text.old ++ next_held kinds.now reference) }
{
    text.push_str(", ")?;
    write_held(text, reference, kinds)
}
