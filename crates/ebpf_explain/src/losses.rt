//! What is lost where paths meet, by the slot that each comes from.

ghost use Rattle.std.specs.Prelude.{◌≡◌, ◌<◌, ◌++◌, length, map, string_bytes, IfOk, OnOk};
ghost use Rattle.std.specs.List.{flat_map};
ghost use Rattle.ebpf_explain.specs.Lost.{known_there, place_name};
ghost use Rattle.ebpf_explain.specs.Losses.{lost_between, lost_by_each, lost_from, losses_at, words_between};

use crate::lost::{Place, lost_places, write_known_there, write_place_name};
use ebpf_state::state::State;
use ebpf_verify::comers::{Comer, comers_to};
use ebpf_verify::entry::EntryState;
use ebpf_verify::trace::Trace;
use std::alloc::{AllocError, Global};
use std::marker::Model;

/// What is lost at a slot of what comes there from another one, in words. Contracts see the words as their bytes.
#[derive(Drop)]
pub struct Loss {
    from: u16,
    to: usize,
    words: String,
}

impl Model for Loss {
    ghost use Rattle.std.specs.Prelude.{string_bytes};
    ghost use Rattle.ebpf_explain.specs.Losses.{Lost};

    ghost Value = { Lost };

    ghost view = { λ l. record { from = l.from; to = l.to; words = string_bytes l.words } };
}

/// Adds what is lost at a slot that was looked at, if anything is: of each that comes there, in the order of [`comers_to`].
///
/// # Errors
/// It fails only where an allocation fails, and some may be added then.
pub fn add_losses(
    alloc: Global,
    trace: &Trace,
    slot: usize,
    losses: &mut Vec<Loss>,
) -> Result<(), AllocError>
    requires inside { slot < length trace.now.entries.items }
    ensures { OnOk result (losses.new.items ≡ losses.old.items ++ losses_at trace.now.flowed.now trace.now.entries.items slot) }
{
    match &trace.entries[slot] {
        EntryState::Known(state) => {
            let comers = comers_to(alloc, trace, slot)?;
            let places = lost_places(alloc, &comers, state)?;
            add_of_each(alloc, &places, slot, &comers, losses)
        }
        _ => Ok(()),
    }
}

// Adds what each that comes knew of the places that are lost, if any are.
fn add_of_each(
    alloc: Global,
    places: &[Place],
    to: usize,
    comers: &[Comer],
    losses: &mut Vec<Loss>,
) -> Result<(), AllocError>
    ensures { OnOk result (losses.new.items ≡ losses.old.items ++ lost_by_each places.now to comers.now) }
{
    if places.len() == 0 {
        return Ok(());
    }
    for comer in comers {
        let loss = loss_from(alloc, places, to, comer)?;
        losses.push(loss)?;
    }
    Ok(())
}

// What one that comes knew of these places.
fn loss_from(alloc: Global, places: &[Place], to: usize, comer: &Comer) -> Result<Loss, AllocError>
    ensures { IfOk result (λ loss. loss ≡ lost_from places.now to comer.now) }
{
    let mut words = String::new(alloc);
    write_known_places(&mut words, places, &comer.state)?;
    let from = comer.from;
    Ok(Loss { from, to, words })
}

// Each of these places, with what a state knows there.
fn write_known_places(text: &mut String, places: &[Place], state: &State) -> Result<(), AllocError>
    ensures { OnOk result (string_bytes text.new ≡ string_bytes text.old ++ flat_map (λ place. place_name place ++ known_there place state.now) places.now) }
{
    for place in places {
        write_known_place(text, *place, state)?;
    }
    Ok(())
}

// A place with what a state knows there.
fn write_known_place(text: &mut String, place: Place, state: &State) -> Result<(), AllocError>
    ensures { OnOk result (string_bytes text.new ≡ string_bytes text.old ++ (place_name place ++ known_there place state.now)) }
{
    write_place_name(text, place)?;
    write_known_there(text, place, state)
}

/// Writes after a text what is lost of what comes from one slot to another; of a slot that leads there twice, of both.
///
/// # Errors
/// It fails only where an allocation fails, and some of the words may be written then.
pub fn write_lost_between(
    text: &mut String,
    losses: &[Loss],
    from: usize,
    to: usize,
) -> Result<(), AllocError>
    ensures { OnOk result (string_bytes text.new ≡ string_bytes text.old ++ lost_between losses.now from to) }
{
    for loss in losses {
        write_if_between(text, loss, from, to)?;
    }
    Ok(())
}

// What is lost, if it is of what comes from one slot to another.
fn write_if_between(
    text: &mut String,
    loss: &Loss,
    from: usize,
    to: usize,
) -> Result<(), AllocError>
    ensures { OnOk result (string_bytes text.new ≡ string_bytes text.old ++ words_between from to loss.now) }
{
    if loss.from as usize == from && loss.to == to {
        text.push_str(loss.words.as_str())
    } else {
        Ok(())
    }
}
