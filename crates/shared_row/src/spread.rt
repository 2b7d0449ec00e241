//! Where places are in a table: sixteen apart, after sixteen that are unused.
//!
//! A line of the processor's cache has eight words, and lines may be fetched in pairs. What lies before the table in memory is another's, so the
//! first place has its distance too.

ghost use Rattle.std.specs.Prelude.{◌≡◌, ◌+◌, ◌<◌, ◌≤◌, ◌^◌, ◌++◌, [], ◌∷◌, ℕ, None, length, replicate};
ghost use Rattle.std.specs.Prelude.{slice_index_or, vec_len, vec_capacity, IfSome};
ghost use Rattle.std.specs.Option.{option_to_list};
ghost use Rattle.std.specs.Slots.{slots_items, slots_len, IsFull};
ghost use Rattle.shared_row.specs.Spread.{spot, values_in, IsValue};
ghost use Rattle.shared_row.specs.declared.spread.TheConstants.{STRIDE};

use atomic_table::Closed;
use std::alloc::Global;

/// How far places are apart, in words and in slots.
pub(crate) const STRIDE: usize = 16;

/// The word and the slot of a place.
pub(crate) fn spot(place: usize) -> usize
    requires { spot place < 2 ^ 64 }
    ensures { result ≡ spot place }
{
    place * STRIDE + STRIDE
}

/// How many words and slots a table of this many places has. `None` if that is no number of the machine.
pub(crate) fn room_for(places: usize) -> Option<usize>
    ensures { IfSome result (λ n. n ≡ spot places) }
{
    if places > usize::MAX / STRIDE - 1 {
        return None;
    }
    Some(spot(places))
}

// One slot for what is given, and the unused ones after it.
fn push_apart<T>(slots: &mut Vec<Option<T>>, given: Option<T>)
    requires room { vec_len slots.old + STRIDE ≤ vec_capacity slots.old }
    ensures items { slots.new.items ≡ slots.old.items ++ given ∷ replicate 15 None }
    ensures len { vec_len slots.new ≡ vec_len slots.old + STRIDE }
    ensures capacity { vec_capacity slots.new ≡ vec_capacity slots.old }
{
    slots.push_reserved(given);
    for _i in 0..STRIDE - 1 {
        slots.push_reserved(None);
    }
}

/// Moves the values into slots, each to that of its place, in their order.
pub(crate) fn spread<T>(values: &mut Vec<T>, slots: &mut Vec<Option<T>>)
    requires none { slots.old.items ≡ [] }
    requires room { spot (vec_len values.old) ≤ vec_capacity slots.old }
    ensures values { values_in slots.new.items ≡ values.old.items }
    ensures len { vec_len slots.new ≡ spot (vec_len values.old) }
    ensures places { (k : ℕ) → k < vec_len values.old → IsValue (slice_index_or slots.new.items (spot k) None) }
    ensures moved { values.new.items ≡ [] }
    ensures capacity { vec_capacity values.new ≡ vec_capacity values.old }
{
    values.reverse();
    push_apart(slots, None);
    while let Some(value) = values.pop() {
        push_apart(slots, Some(value));
    }
}

// Adds the value of a slot, if it has one.
fn keep<T>(into: &mut Vec<T>, slot: Option<T>)
    requires room { vec_len into.old + length (option_to_list slot) ≤ vec_capacity into.old }
    ensures items { into.new.items ≡ into.old.items ++ option_to_list slot }
    ensures len { vec_len into.new ≡ vec_len into.old + length (option_to_list slot) }
    ensures capacity { vec_capacity into.new ≡ vec_capacity into.old }
{
    match slot {
        Some(value) => into.push_reserved(value),
        None => {}
    }
}

/// Moves the values out of slots again, in their order, into a list that has room for them.
pub(crate) fn gathered<T>(mut slots: Vec<Option<T>>, mut into: Vec<T>) -> Vec<T>
    requires none { into.items ≡ [] }
    requires room { length (values_in slots.items) ≤ vec_capacity into }
    ensures { result.items ≡ values_in slots.items }
{
    while let Some(slot) = slots.pop() {
        keep(&mut into, slot);
    }
    slots.destroy_empty();
    into.reverse();
    into
}

/// The same of the slots of a table that was closed, whose memory is freed.
pub(crate) fn gathered_from<T>(mut closed: Closed<Option<T>, Global>, mut into: Vec<T>) -> Vec<T>
    requires full { IsFull closed.slots }
    requires none { into.items ≡ [] }
    requires room { length (values_in (slots_items closed.slots)) ≤ vec_capacity into }
    ensures { result.items ≡ values_in (slots_items closed.slots) }
{
    for spot in 0..closed.slot_count() {
        let slot = closed.take(spot);
        keep(&mut into, slot);
    }
    closed.free();
    into
}
