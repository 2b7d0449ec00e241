//! The slots of a kind.

ghost use Rattle.std.specs.Prelude.{◌≡◌, ◌<◌, false, [], length, slice_index_or, slice_set, OnOk, OnErr};
ghost use Rattle.ebpf_state.specs.Ascending.{IsAscending};
ghost use Rattle.ebpf_machine.specs.World.{is_in};
ghost use Rattle.ebpf_machine.specs.Events.{with_slot, without_slot};

use ebpf_state::kinds::KINDS;
use std::alloc::{AllocError, Global};
use std::marker::Model;

/// The slots of one kind, ascending. Contracts see it as the list.
#[derive(Drop)]
pub(crate) struct Ledger {
    slots: Vec<u32>,
}

impl Model for Ledger {
    ghost use Rattle.std.specs.Prelude.{List, ℕ};
    ghost use Rattle.ebpf_state.specs.Ascending.{IsAscending};

    ghost Value = { List ℕ };

    ghost view = { λ l. l.slots.items };

    ghost invariant = { λ l. IsAscending l.slots.items };
}

impl Ledger {
    /// A ledger of no slots.
    pub(crate) fn new(alloc: Global) -> Ledger
        ensures { result ≡ [] }
    {
        Ledger {
            slots: Vec::new(alloc),
        }
    }

    /// Its slots.
    pub(crate) fn slots(&self) -> &[u32]
        ensures value { result.now ≡ self.now }
        ensures ascending { IsAscending result.now }
    {
        &self.slots
    }

    // A slot joins, in its place.
    pub(crate) fn join(&mut self, slot: u32) -> Result<(), AllocError>
        requires new { is_in slot self.old ≡ false }
        ensures joined { OnOk result (self.new ≡ with_slot slot self.old) }
        ensures unchanged { OnErr result (self.new ≡ self.old) }
    {
        let Err(place) = self.slots.binary_search(&slot) else {
            unreachable!()
        };
        self.slots.insert(place, slot)?;
        Ok(())
    }

    // A slot leaves.
    pub(crate) fn leave(&mut self, slot: u32)
        ensures { self.new ≡ without_slot slot self.old }
    {
        if let Ok(place) = self.slots.binary_search(&slot) {
            self.slots.remove(place);
        }
    }
}

/// A slot joins the ledger of a kind.
pub(crate) fn join(ledgers: &mut [Ledger; KINDS], kind: usize, slot: u32) -> Result<(), AllocError>
    requires kind { kind < length ledgers.old }
    requires new { is_in slot (slice_index_or ledgers.old kind []) ≡ false }
    ensures joined { OnOk result (ledgers.new ≡ slice_set ledgers.old kind (with_slot slot (slice_index_or ledgers.old kind []))) }
    ensures unchanged { OnErr result (ledgers.new ≡ ledgers.old) }
{
    ledgers[kind].join(slot)
}

/// A slot leaves the ledger of a kind.
pub(crate) fn leave(ledgers: &mut [Ledger; KINDS], kind: usize, slot: u32)
    requires { kind < length ledgers.old }
    ensures { ledgers.new ≡ slice_set ledgers.old kind (without_slot slot (slice_index_or ledgers.old kind [])) }
{
    ledgers[kind].leave(slot);
}
