//! What is lost where paths meet, in words, each written after a text. Writing fails only where an allocation fails.

ghost use Rattle.std.specs.Prelude.{◌≡◌, ◌++◌, string_bytes, IfOk, OnOk, Some, slice_get};
ghost use Rattle.std.specs.List.{flat_map};
ghost use Rattle.ebpf_explain.specs.Lost.{apart_from, first_apart, first_without, headed, is_lost, known_by, known_from, known_there, line_with};
ghost use Rattle.ebpf_explain.specs.Lost.{lost_among, lost_at, lost_line, lost_places, other_than, place_name, slots_lost, value_at};
ghost use Rattle.ebpf_explain.specs.declared.lost.Place.TheVariants.{Register};
ghost use Rattle.ebpf_state.specs.Abstract.{is_unset, joined_value};

use crate::known::REGISTERS;
use crate::values::write_value;
use ebpf_insn::register::Reg;
use ebpf_state::state::State;
use ebpf_state::value::Abs;
use ebpf_state::word::Word;
use ebpf_verify::comers::Comer;
use std::alloc::{AllocError, Global};

/// Where a state may know a value.
#[derive(Clone, Copy)]
pub(crate) enum Place {
    /// In a register.
    Register(Reg),
    /// In the word of the stack with this number.
    Slot(u8),
}

/// Writes the line of what each state that comes knows, and the join of them does not, after a text; nothing, where nothing is lost. It
/// fails only where an allocation fails.
pub fn write_lost(
    alloc: Global,
    text: &mut String,
    comers: &[Comer],
    joined: &State,
) -> Result<(), AllocError>
    ensures { OnOk result (string_bytes text.new ≡ string_bytes text.old ++ lost_line comers.now joined.now) }
{
    if comers.len() == 0 {
        return Ok(());
    }
    let places = lost_places(alloc, comers, joined)?;
    let mut words = String::new(alloc);
    write_lost_words(&mut words, &places, comers)?;
    write_headed(text, words.as_str())
}

// The line of these words, if there are any.
fn write_headed(text: &mut String, words: &str) -> Result<(), AllocError>
    ensures { OnOk result (string_bytes text.new ≡ string_bytes text.old ++ headed words.now) }
{
    if words.len() == 0 {
        return Ok(());
    }
    write_line(text, words)
}

// The line of these words.
fn write_line(text: &mut String, words: &str) -> Result<(), AllocError>
    ensures { OnOk result (string_bytes text.new ≡ string_bytes text.old ++ line_with words.now) }
{
    text.push_str("  lost where paths meet:")?;
    text.push_str(words)?;
    text.push_str("\n")
}

// The places of which what was known is lost, each with what two that come knew there.
fn write_lost_words(text: &mut String, places: &[Place], comers: &[Comer]) -> Result<(), AllocError>
    ensures { OnOk result (string_bytes text.new ≡ string_bytes text.old ++ flat_map (lost_at comers.now) places.now) }
{
    for place in places {
        write_lost_at(text, *place, comers)?;
    }
    Ok(())
}

// A place of which what was known is lost.
fn write_lost_at(text: &mut String, place: Place, comers: &[Comer]) -> Result<(), AllocError>
    ensures { OnOk result (string_bytes text.new ≡ string_bytes text.old ++ lost_at comers.now place) }
{
    write_place_name(text, place)?;
    write_apart(text, place, comers)
}

// The registers and the words of the stack that are lost.
pub(crate) fn lost_places(
    alloc: Global,
    comers: &[Comer],
    joined: &State,
) -> Result<Vec<Place>, AllocError>
    ensures { IfOk result (λ v. v.items ≡ lost_places comers.now joined.now) }
{
    let mut places = Vec::new(alloc);
    add_lost_registers(&mut places, comers, joined, &REGISTERS)?;
    add_lost_slots(&mut places, comers, joined)?;
    Ok(places)
}

// Adds those of these registers that are lost.
fn add_lost_registers(
    places: &mut Vec<Place>,
    comers: &[Comer],
    joined: &State,
    registers: &[Reg],
) -> Result<(), AllocError>
    ensures { OnOk result (places.new.items ≡ places.old.items ++ flat_map (λ r. lost_among comers.now joined.now (Register r)) registers.now) }
{
    for register in registers {
        add_if_lost(places, comers, joined, Place::Register(*register))?;
    }
    Ok(())
}

// Adds the words of the stack that are lost.
fn add_lost_slots(
    places: &mut Vec<Place>,
    comers: &[Comer],
    joined: &State,
) -> Result<(), AllocError>
    ensures { OnOk result (places.new.items ≡ places.old.items ++ slots_lost comers.now joined.now 64) }
{
    for number in 0..64 {
        add_if_lost(places, comers, joined, Place::Slot(number))?;
    }
    Ok(())
}

// Adds a place, if what was known there is lost.
fn add_if_lost(
    places: &mut Vec<Place>,
    comers: &[Comer],
    joined: &State,
    place: Place,
) -> Result<(), AllocError>
    ensures { OnOk result (places.new.items ≡ places.old.items ++ lost_among comers.now joined.now place) }
{
    if is_lost(place, comers, joined) {
        places.push(place)?;
    }
    Ok(())
}

// Whether each state that comes knows something of a place, and the join of them nothing.
pub(crate) fn is_lost(place: Place, comers: &[Comer], joined: &State) -> bool
    ensures { result ≡ is_lost place comers.now joined.now }
{
    value_at(place, joined).is_unset() && first_without(place, comers).is_none()
}

// The first that comes and knows nothing of a place.
pub(crate) fn first_without(place: Place, comers: &[Comer]) -> Option<usize>
    ensures { result ≡ first_without place comers.now }
{
    comers
        .iter()
        .position(|comer| value_at(place, &comer.state).is_unset())
}

// The first that comes and knows what can't be joined with what a state knows.
fn first_apart(place: Place, state: &State, comers: &[Comer]) -> Option<usize>
    ensures { result ≡ first_apart place (value_at place state.now) comers.now }
{
    comers
        .iter()
        .position(|comer| are_apart(place, state, &comer.state))
}

// Whether what two states know of a place can't be joined.
fn are_apart(place: Place, left: &State, right: &State) -> bool
    ensures { result ≡ is_unset (joined_value (value_at place left.now) (value_at place right.now)) }
{
    value_at(place, left)
        .join(value_at(place, right))
        .is_unset()
}

// What a state knows of a place: of a word, what was stored as a whole.
fn value_at(place: Place, state: &State) -> Abs
    ensures { result ≡ value_at place state.now }
{
    match place {
        Place::Register(register) => state.reg(register),
        Place::Slot(number) => match state.word(number as usize) {
            Word::Spill(value) => value,
            Word::Bytes(_) => Abs::Unset,
        },
    }
}

// A register by its name, or a word of the stack by where it begins.
pub(crate) fn write_place_name(text: &mut String, place: Place) -> Result<(), AllocError>
    ensures { OnOk result (string_bytes text.new ≡ string_bytes text.old ++ place_name place) }
{
    match place {
        Place::Register(register) => write!(text, "  r{}", register.number()),
        Place::Slot(number) => {
            let below = 512u16.saturating_sub(8 * number as u16);
            write!(text, "  [r10-{below}]")
        }
    }
}

// The value that comes first, and one that can't be joined with it, or else the last.
pub(crate) fn write_apart(
    text: &mut String,
    place: Place,
    comers: &[Comer],
) -> Result<(), AllocError>
    ensures { OnOk result (string_bytes text.new ≡ string_bytes text.old ++ apart_from place (slice_get comers.now 0) comers.now) }
{
    let Some(first) = comers.get(0) else {
        return Ok(());
    };
    let other = other_than(place, &first.state, comers);
    write_known_by(text, place, comers, 0)?;
    text.push_str(",")?;
    write_known_by(text, place, comers, other)
}

// The first that comes and can't be joined with a state there, or else the last.
fn other_than(place: Place, state: &State, comers: &[Comer]) -> usize
    ensures { result ≡ other_than place (value_at place state.now) comers.now }
{
    match first_apart(place, state, comers) {
        Some(other) => other,
        None => comers.len().saturating_sub(1),
    }
}

// What one that comes knows of a place.
fn write_known_by(
    text: &mut String,
    place: Place,
    comers: &[Comer],
    number: usize,
) -> Result<(), AllocError>
    ensures { OnOk result (string_bytes text.new ≡ string_bytes text.old ++ known_by place comers.now number) }
{
    match comers.get(number) {
        Some(comer) => write_known(text, place, comer),
        None => Ok(()),
    }
}

// What is known of a place, and from which slot it comes.
fn write_known(text: &mut String, place: Place, comer: &Comer) -> Result<(), AllocError>
    ensures { OnOk result (string_bytes text.new ≡ string_bytes text.old ++ known_from place (Some comer.now)) }
{
    write_known_there(text, place, &comer.state)?;
    write!(text, " from {}", comer.from)
}

// What a state knows of a place.
pub(crate) fn write_known_there(
    text: &mut String,
    place: Place,
    state: &State,
) -> Result<(), AllocError>
    ensures { OnOk result (string_bytes text.new ≡ string_bytes text.old ++ known_there place state.now) }
{
    text.push_str(" ")?;
    write_value(text, value_at(place, state))
}
