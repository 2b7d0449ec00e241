//! A world, in lines.

ghost use Rattle.std.specs.Prelude.{◌≡◌, ◌++◌, string_bytes, OnOk};
ghost use Rattle.ebpf_core.specs.Readers.{shelf_in};
ghost use Rattle.ebpf_core.specs.Shown.{OfWorld};
ghost use Rattle.ebpf_report.specs.WorldLines.{held_in, kind_line, shelf_line};
ghost use Rattle.ebpf_report.specs.WorldText.{kinds_in, run_in, runs_in, shelves_in, world_in};

use crate::world_json::write_run_object;
use crate::world_lines::write_run_lines;
use ebpf_command::format::Format;
use ebpf_command::members::{Member, write_line};
use ebpf_core::world::World;
use ebpf_state::kinds::kinds;
use std::alloc::AllocError;

/// Writes a world after a text: each run in order, then the slots of each kind, and then what is on the shelves. It fails
/// only where an allocation fails.
pub fn write_world(text: &mut String, format: Format, world: &World<'_>) -> Result<(), AllocError>
    ensures { OnOk result (OfWorld world.now (λ w. string_bytes text.new ≡ string_bytes text.old ++ world_in format w)) }
{
    write_runs(text, format, world)?;
    write_kinds(text, format, world)?;
    write_shelves(text, format, world)
}

// Writes the runs.
fn write_runs(text: &mut String, format: Format, world: &World<'_>) -> Result<(), AllocError>
    ensures { OnOk result (OfWorld world.now (λ w. string_bytes text.new ≡ string_bytes text.old ++ runs_in format w)) }
{
    for run in 0..world.runs() {
        write_run(text, format, world, run)?;
    }
    Ok(())
}

// Writes a run.
fn write_run(
    text: &mut String,
    format: Format,
    world: &World<'_>,
    run: usize,
) -> Result<(), AllocError>
    ensures { OnOk result (OfWorld world.now (λ w. string_bytes text.new ≡ string_bytes text.old ++ run_in format w run)) }
{
    match format {
        Format::Text => write_run_lines(text, world, run),
        Format::Json => write_run_object(text, world, run),
    }
}

// Writes the slots of the kinds.
fn write_kinds(text: &mut String, format: Format, world: &World<'_>) -> Result<(), AllocError>
    ensures { OnOk result (OfWorld world.now (λ w. string_bytes text.new ≡ string_bytes text.old ++ kinds_in format w)) }
{
    for kind in 0..kinds().len() {
        write_kind(text, format, world, kind as u8)?;
    }
    Ok(())
}

// Writes the slots of a kind.
fn write_kind(
    text: &mut String,
    format: Format,
    world: &World<'_>,
    kind: u8,
) -> Result<(), AllocError>
    ensures { OnOk result (OfWorld world.now (λ w. string_bytes text.new ≡ string_bytes text.old ++ kind_line format w kind)) }
{
    let members = [
        Member::Number("kind", u128::from(kind)),
        Member::Number("slots", world.ledger(kind).len() as u128),
        Member::Number("held", held_of(world, kind) as u128),
    ];
    write_line(text, format, &members)
}

// How many slots of a kind are held.
fn held_of(world: &World<'_>, kind: u8) -> usize
    ensures { OfWorld world.now (λ w. result ≡ held_in w kind) }
{
    let mut held = 0;
    for slot in world.ledger(kind) {
        if world.owner(*slot).is_some() {
            held += 1;
        }
    }
    held
}

// Writes what is on the shelves.
fn write_shelves(text: &mut String, format: Format, world: &World<'_>) -> Result<(), AllocError>
    ensures { OnOk result (OfWorld world.now (λ w. string_bytes text.new ≡ string_bytes text.old ++ shelves_in format w)) }
{
    for shelf in 0..kinds().len() {
        write_shelf(text, format, world, shelf as u8)?;
    }
    Ok(())
}

// Writes the slot on a shelf, if there is one.
fn write_shelf(
    text: &mut String,
    format: Format,
    world: &World<'_>,
    shelf: u8,
) -> Result<(), AllocError>
    ensures { OnOk result (OfWorld world.now (λ w. string_bytes text.new ≡ string_bytes text.old ++ shelf_line format shelf (shelf_in w shelf))) }
{
    let Some(slot) = world.shelf(shelf) else {
        return Ok(());
    };
    let members = [
        Member::Number("shelf", u128::from(shelf)),
        Member::Number("slot", u128::from(slot)),
    ];
    write_line(text, format, &members)
}
