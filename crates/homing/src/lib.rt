//! Objects that go home to the slabs of a cache, and pages that go home to its arena.
//!
//! *The idea* (Bonwick 1994, section 3.2). A cache that needs less memory sends objects back to their slabs, and gives the pages
//! with nothing out back to the arena. An object knows the number of its slot and not its slabs. One whose slot isn't out of the
//! slabs that it comes home to is foreign: it is counted, and it is gone.
//!
//! *The invariant.* What comes home makes the slots that are out fewer by one, or the strangers more by one.
//!
//! *The reason.* So the slots that are out and the strangers that came tell how many objects a cache has elsewhere. The steps are
//! on the parts of a cache, since what a cache keeps doesn't hold while a magazine is unloaded.
#![tactic(auto)]

mod remains;

ghost use Rattle.std.specs.Prelude.{◌≡◌, ℕ, ◌+◌, ◌/◌, ◌^◌, ◌<◌, ◌≤◌, ◌↔◌, [], ◌∷◌, length};
ghost use Rattle.slab_layer.specs.declared.kind.TheConstants.{SLOTS_OF_A_PAGE};
ghost use Rattle.slab_layer.specs.Slots.{IsOut, Has, out_count, place_of};
ghost use Rattle.homing.specs.Homing.{SendsHome};

use magazine::Magazine;
pub use remains::Remains;
use slab_layer::{Kind, Obj, Ready, Slabs};
use vmem_arena::Arena;

/// Sends an object home. A stranger is counted, and is gone with its bytes.
pub fn go_home<K: Kind>(slabs: &mut Slabs<K>, foreign: &mut u64, object: Obj<K, Ready>)
    requires room { foreign.old + 1 < 2 ^ 64 }
    ensures sent { SendsHome slabs.old slabs.new (object.slot ∷ []) }
    ensures stranger { (IsOut slabs.old object.slot → ⊥) → foreign.new ≡ foreign.old + 1 }
    ensures counted { out_count slabs.new + foreign.old + 1 ≡ out_count slabs.old + foreign.new }
    ensures few { foreign.new ≤ foreign.old + 1 }
{
    if !slabs.give(object.retire()) {
        *foreign += 1;
    }
}

/// Sends the rounds of a magazine home, and ends it.
pub fn unload<K: Kind>(slabs: &mut Slabs<K>, foreign: &mut u64, mut magazine: Magazine<K>)
    requires room { foreign.old + length magazine < 2 ^ 64 }
    ensures sent { SendsHome slabs.old slabs.new magazine }
    ensures counted { out_count slabs.new + foreign.old + length magazine ≡ out_count slabs.old + foreign.new }
    ensures few { foreign.new ≤ foreign.old + length magazine }
{
    while let Some(object) = magazine.pop() {
        go_home(slabs, foreign, object);
    }
    magazine.end();
}

/// Gives each page with nothing out back to the arena. The answer is how many pages the arena took.
pub fn give_pages<K: Kind>(slabs: &mut Slabs<K>, arena: &mut Arena) -> u32
    ensures pages { arena.new.pages ≡ arena.old.pages }
    ensures taken { result + length arena.new.out ≡ length arena.old.out }
    ensures out { (slot : ℕ) → IsOut slabs.new slot ↔ IsOut slabs.old slot }
    ensures kept { (slot : ℕ) → Has slabs.new (slot / SLOTS_OF_A_PAGE) → place_of slabs.new slot ≡ place_of slabs.old slot }
    ensures counted { out_count slabs.new ≡ out_count slabs.old }
    ensures busy { (page : ℕ) → Has slabs.new page → (slot : ℕ) × (slot / SLOTS_OF_A_PAGE ≡ page) × IsOut slabs.new slot }
{
    let mut pages = 0;
    while let Some(span) = slabs.reap() {
        if arena.give(span) {
            pages += 1;
        }
    }
    pages
}
