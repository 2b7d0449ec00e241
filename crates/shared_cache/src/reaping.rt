//! Full magazines that go home, and pages that go back to the arena.
//!
//! *The order.* For each depot the slabs are taken, and then the depot: a reaper that has both waits for nobody, and it lets go of
//! both before the next depot. So no hand is refused an object because of it for longer than one depot takes. A place that another
//! hand has is left for the next pass.

ghost use Rattle.std.specs.Prelude.{◌≡◌, ◌⊎◌, ℕ, ◌+◌, ◌-◌, ◌<◌, [], ◌∷◌, ◌++◌};
ghost use Rattle.slab_layer.specs.Slots.{out_count};
ghost use Rattle.shared_row.specs.Views.{IsIdleAt};
ghost use Rattle.shared_cache.specs.Asking.{Found, FoundBusy, Moves, WasAsked, WasBusy};
ghost use Rattle.shared_cache.specs.Faults.{IsGiven};
ghost use Rattle.shared_cache.specs.PlaceView.{EachIsBusy, ins, outs};

use crate::arena::{ArenaPass, SharedArena};
use crate::place::{Place, PlacePass, Places};
use crate::soon::take_soon;
use homing::give_pages;
use slab_layer::{Kind, Slabs};

// Sends the full magazines of a place home to slabs that the pass has taken.
fn drain_from<K: Kind>(row: &Places<K>, pass: &mut PlacePass<K>, home: &mut Place<K>, place: usize)
    requires table { pass.old.table ≡ row.now.table }
    requires place { place < row.now.places }
    ensures pass { (pass.new.table ≡ pass.old.table) × (pass.new.parts ≡ pass.old.parts) × (pass.new.out ≡ pass.old.out) }
    ensures even { pass.new.right + pass.old.left + outs home.new + ins home.old ≡ pass.new.left + pass.old.right + outs home.old + ins home.new }
    ensures asked { (word : ℕ) × (pass.new.notes ≡ pass.old.notes ++ (place, word) ∷ []) }
{
    let Some(mut depot) = row.take(pass, place) else {
        return;
    };
    home.drain(&mut *depot);
    row.put(pass, place, depot);
}

// The same with the slabs in the last place.
fn drain_at<K: Kind>(row: &Places<K>, pass: &mut PlacePass<K>, place: usize, pauses: u32)
    requires pass { IsIdleAt row.now.table pass.old }
    requires place { place + 1 < row.now.places }
    ensures moves { Moves pass.old pass.new 0 0 }
    ensures why { WasAsked pass.old.notes pass.new.notes place ⊎ FoundBusy pass.old.notes pass.new.notes (row.now.places - 1) }
{
    let slabs = row.places() - 1;
    let Some(mut home) = take_soon(row, pass, slabs, pauses) else {
        return;
    };
    drain_from(row, pass, &mut *home, place);
    row.put(pass, slabs, home);
}

/// Sends the full magazines of all depots that are free home.
pub fn drain_all<K: Kind>(row: &Places<K>, pass: &mut PlacePass<K>, pauses: u32)
    requires pass { IsIdleAt row.now.table pass.old }
    requires some { 0 < row.now.places }
    ensures moves { Moves pass.old pass.new 0 0 }
    ensures why { (k : ℕ) → k < row.now.places - 1 → WasAsked pass.old.notes pass.new.notes k ⊎ WasBusy pass.old.notes pass.new.notes (row.now.places - 1) }
{
    for place in 0..row.places() - 1 {
        drain_at(row, pass, place, pauses);
    }
}

/// Gives the pages of slabs with nothing out back to the arena. The answer is how many pages it took.
pub fn give_all<K: Kind>(
    slabs: &mut Slabs<K>,
    arena: &SharedArena,
    pages: &mut ArenaPass,
    pauses: u32,
) -> u32
    requires pages { IsIdleAt arena.now.table pages.old }
    ensures pages { Moves pages.old pages.new 0 0 }
    ensures counted { out_count slabs.new ≡ out_count slabs.old }
    ensures why { (FoundBusy pages.old.notes pages.new.notes 0 × (result ≡ 0)) ⊎ (Found pages.old.notes pages.new.notes 0 0 × EachIsBusy slabs.new) }
{
    let Some(mut held) = take_soon(&arena.row, pages, 0, pauses) else {
        return 0;
    };
    let given = give_pages(slabs, &mut held.arena);
    arena.row.put(pages, 0, held);
    given
}

/// Gives the pages with nothing out of the last place back to the arena. The answer is how many pages it took.
pub fn give_pages_at<K: Kind>(
    row: &Places<K>,
    pass: &mut PlacePass<K>,
    arena: &SharedArena,
    pages: &mut ArenaPass,
    pauses: u32,
) -> u32
    requires pass { IsIdleAt row.now.table pass.old }
    requires some { 0 < row.now.places }
    requires pages { IsIdleAt arena.now.table pages.old }
    ensures moves { Moves pass.old pass.new 0 0 }
    ensures pages { Moves pages.old pages.new 0 0 }
    ensures why { IsGiven result (row.now.places - 1) pass.old.notes pass.new.notes pages.old.notes pages.new.notes }
{
    let slabs = row.places() - 1;
    let Some(mut home) = take_soon(row, pass, slabs, pauses) else {
        return 0;
    };
    let given = give_all(&mut home.slabs, arena, pages, pauses);
    row.put(pass, slabs, home);
    given
}
