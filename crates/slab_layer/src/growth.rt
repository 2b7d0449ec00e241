//! Slabs that get their pages from an arena.

ghost use Rattle.std.specs.Prelude.{◌≡◌, ℕ, ◌/◌, OnOk, OnErr, Err};
ghost use Rattle.slab_layer.specs.Growth.{GrowsBy, KeepsOut};
ghost use Rattle.slab_layer.specs.Slots.{Has, IsHome, out_count};
ghost use Rattle.slab_layer.specs.declared.growth.GrowFault.TheVariants.{NoMemory, NoPage};
ghost use Rattle.slab_layer.specs.declared.kind.TheConstants.{PAGE_BYTES};
ghost use Rattle.vmem_arena.specs.Spans.{AreFree};

use crate::kind::Kind;
use crate::slabs::Slabs;
use vmem_arena::Arena;

/// Why slabs got no page of an arena.
#[derive(Clone, Copy)]
pub enum GrowFault {
    /// The arena has no free page, or gave one that the slabs have already, which went back.
    NoPage,
    /// The objects of the page found no memory, and the page went back.
    NoMemory,
}

impl<K: Kind> Slabs<K> {
    /// Takes a page of an arena and adds its objects, all home.
    ///
    /// # Errors
    /// [`GrowFault`] says why there is no page more. Then the slabs are as they were, and the same spans are out of the arena.
    pub fn grow_from(&mut self, arena: &mut Arena) -> Result<(), GrowFault>
        ensures pages { arena.new.pages ≡ arena.old.pages }
        ensures grown { OnOk result (GrowsBy self.old self.new arena.old arena.new (PAGE_BYTES / K.SIZE)) }
        ensures home { OnOk result ((slot : ℕ) × IsHome self.new slot) }
        ensures counted { OnOk result (out_count self.new ≡ out_count self.old) }
        ensures no_page { result ≡ Err NoPage →
            ((page : ℕ) → AreFree arena.old page 1 → Has self.old page → ⊥) → (page : ℕ) → AreFree arena.old page 1 → ⊥ }
        ensures memory { result ≡ Err NoMemory → (page : ℕ) × AreFree arena.old page 1 }
        ensures unchanged { OnErr result ((self.new ≡ self.old) × KeepsOut arena.old arena.new) }
    {
        let Ok(span) = arena.take(1) else {
            return Err(GrowFault::NoPage);
        };
        if self.has(span.first()) {
            arena.give(span);
            return Err(GrowFault::NoPage);
        }
        match self.grow(span) {
            Ok(()) => Ok(()),
            Err(back) => {
                arena.give(back);
                Err(GrowFault::NoMemory)
            }
        }
    }
}
