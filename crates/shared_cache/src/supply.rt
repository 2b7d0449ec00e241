//! Objects of the slabs, for hands that no depot serves.
//!
//! *The idea* (Bonwick 1994). A hand takes the place with the slabs for a moment. Where nothing is home there it takes the arena too,
//! and the slabs grow by a page. It keeps the slabs until it has its object, so no other hand takes those of the page that it asked for.
//!
//! *The reason.* A hand that has the slabs may pause for the arena, and a hand that has the arena never waits for the slabs: so none
//! waits for another that waits for it. And each gives up after the last pause.

ghost use Rattle.std.specs.Prelude.{◌≡◌, ℕ, ◌+◌, ◌-◌, ◌/◌, ◌<◌, [], IsOk, IfOk, IfErr, OnOk, OnErr, MatchResult};
ghost use Rattle.slab_layer.specs.Slots.{AddsPage, Has, IsHome, TakesOut, out_count};
ghost use Rattle.slab_layer.specs.declared.kind.TheConstants.{PAGE_BYTES};
ghost use Rattle.shared_row.specs.Views.{IsIdleAt};
ghost use Rattle.shared_cache.specs.Asking.{Moves};
ghost use Rattle.shared_cache.specs.Faults.{InArena, InSlabs};

use crate::arena::{ArenaPass, SharedArena};
use crate::fault::TakeFault;
use crate::place::{Place, PlacePass, Places};
use crate::soon::take_soon;
use slab_layer::{GrowFault, Home, Kind, Obj, Ready};

// Adds a page of the arena to the slabs of a place.
fn grow_soon<K: Kind>(
    place: &mut Place<K>,
    arena: &SharedArena,
    pages: &mut ArenaPass,
    pauses: u32,
) -> Result<(), TakeFault>
    requires pages { IsIdleAt arena.now.table pages.old }
    ensures pages { Moves pages.old pages.new 0 0 }
    ensures grown { OnOk result ((page : ℕ) × (Has place.old.slabs page → ⊥) × AddsPage place.old.slabs place.new.slabs page (PAGE_BYTES / K.SIZE)) }
    ensures home { OnOk result ((slot : ℕ) × IsHome place.new.slabs slot) }
    ensures counted { out_count place.new.slabs ≡ out_count place.old.slabs }
    ensures unchanged { OnErr result (place.new ≡ place.old) }
    ensures rest { (place.new.depot ≡ place.old.depot) × (place.new.foreign ≡ place.old.foreign) }
    ensures why { IfErr result (λ fault. InArena fault pages.old.notes pages.new.notes) }
{
    let Some(mut held) = take_soon(&arena.row, pages, 0, pauses) else {
        return Err(TakeFault::Busy);
    };
    let grown = place.grow(&mut held.arena);
    arena.row.put(pages, 0, held);
    match grown {
        Ok(()) => Ok(()),
        Err(GrowFault::NoPage) => Err(TakeFault::NoSpan),
        Err(GrowFault::NoMemory) => Err(TakeFault::NoMemory),
    }
}

// Takes an object off the slabs of a place, which grow where none is home.
fn supply_from<K: Kind>(
    place: &mut Place<K>,
    arena: &SharedArena,
    pages: &mut ArenaPass,
    pauses: u32,
) -> Result<Obj<K, Home>, TakeFault>
    requires pages { IsIdleAt arena.now.table pages.old }
    ensures pages { Moves pages.old pages.new 0 0 }
    ensures home { (slot : ℕ) → IsHome place.old.slabs slot → IsOk result }
    ensures out { IfOk result (λ object. TakesOut place.old.slabs place.new.slabs object.slot) }
    ensures counted { MatchResult result (λ _. out_count place.new.slabs ≡ out_count place.old.slabs + 1)
        (λ _. out_count place.new.slabs ≡ out_count place.old.slabs) }
    ensures unchanged { OnErr result (place.new ≡ place.old) }
    ensures rest { (place.new.depot ≡ place.old.depot) × (place.new.foreign ≡ place.old.foreign) }
    ensures why { IfErr result (λ fault. InArena fault pages.old.notes pages.new.notes) }
{
    if let Some(object) = place.take_home() {
        return Ok(object);
    }
    grow_soon(place, arena, pages, pauses)?;
    match place.take_home() {
        Some(object) => Ok(object),
        None => unreachable!(),
    }
}

/// Takes an object off the slabs in the last place of a row, with its image.
#[inline(never)]
pub fn supply_at<K: Kind>(
    row: &Places<K>,
    pass: &mut PlacePass<K>,
    arena: &SharedArena,
    pages: &mut ArenaPass,
    pauses: u32,
) -> Result<Obj<K, Ready>, TakeFault>
    requires pass { IsIdleAt row.now.table pass.old }
    requires some { 0 < row.now.places }
    requires pages { IsIdleAt arena.now.table pages.old }
    ensures pages { Moves pages.old pages.new 0 0 }
    ensures moves { MatchResult result (λ _. Moves pass.old pass.new 1 0) (λ _. Moves pass.old pass.new 0 0) }
    ensures why { IfErr result (λ fault. InSlabs fault (row.now.places - 1) pass.old.notes pass.new.notes pages.old.notes pages.new.notes) }
{
    let slabs = row.places() - 1;
    let Some(mut held) = take_soon(row, pass, slabs, pauses) else {
        return Err(TakeFault::Busy);
    };
    let found = supply_from(&mut *held, arena, pages, pauses);
    row.put(pass, slabs, held);
    match found {
        Ok(object) => Ok(object.construct()),
        Err(fault) => Err(fault),
    }
}
