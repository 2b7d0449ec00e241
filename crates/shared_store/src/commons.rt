//! What all workers share.

ghost use Rattle.std.specs.Prelude.{◌≤◌};
ghost use Rattle.owners_table.specs.declared.owners.TheConstants.{ARENA_SLOTS};

use exchange_shelf::Shelf;
use owners_table::owners::Owners;
use shared_cache::{Cache, Parcel, SharedArena};
use slab_layer::{BlockKind, CellKind, Kind, RecordKind};
use std::alloc::Global;
use std::marker::Model;

/// The cache of one kind, and the shelf on which a worker leaves one object for others.
#[derive(Drop)]
pub struct Supply<K: Kind> {
    pub(crate) cache: Cache<K>,
    pub(crate) shelf: Shelf<Parcel<K>>,
}

impl<K: Kind> Model for Supply<K> {
    ghost use Rattle.shared_store.specs.Stock.{SupplyView};

    ghost Value = { SupplyView };

    ghost view = { λ s. record { cache = s.cache; shelf = s.shelf } };
}

/// What is for all kinds: the arena, and the table that says whose a slot is.
#[derive(Drop)]
pub struct Base {
    pub alloc: Global,
    pub arena: SharedArena,
    pub owners: Owners,
    ghost slots: { ARENA_SLOTS ≤ owners.slots },
}

/// The caches and shelves of all kinds.
#[derive(Drop)]
pub struct Commons {
    pub base: Base,
    pub cells: Supply<CellKind>,
    pub records: Supply<RecordKind>,
    pub blocks: Supply<BlockKind>,
}
