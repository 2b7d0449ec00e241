//! Lists for the parts of tools, which are made before, so that closing takes no memory.

ghost use Rattle.std.specs.Prelude.{◌≡◌, IfOk};
ghost use Rattle.shared_store.specs.Room.{HasRoom, IsRoom};

use crate::stock::Stock;
use exchange_shelf::ShelfHand;
use owners_table::owners::OwnerSeat;
use shared_cache::{ArenaPass, Hand, Parcel};
use slab_layer::{BlockKind, CellKind, Kind, RecordKind};
use std::alloc::{AllocError, Global};

/// Passes to the arena, and stocks of each kind.
#[derive(Drop)]
pub(crate) struct Parts {
    pub(crate) passes: Vec<ArenaPass>,
    pub(crate) cells: Vec<Stock<CellKind>>,
    pub(crate) records: Vec<Stock<RecordKind>>,
    pub(crate) blocks: Vec<Stock<BlockKind>>,
}

/// Hands at the cache and at the shelf of one kind.
pub(crate) type Hands<K> = (Vec<Hand<K>>, Vec<ShelfHand<Parcel<K>>>);

/// Room for the parts of tools.
#[derive(Drop)]
pub struct Room {
    pub(crate) parts: Parts,
    pub(crate) cells: Hands<CellKind>,
    pub(crate) records: Hands<RecordKind>,
    pub(crate) blocks: Hands<BlockKind>,
    pub(crate) seats: Vec<OwnerSeat>,
}

// Lists with room for the hands of one kind.
fn hand_room<K: Kind>(alloc: Global, hands: usize) -> Result<Hands<K>, AllocError>
    ensures { IfOk result (λ r. IsRoom hands r.0 × IsRoom hands r.1) }
{
    Ok((
        Vec::with_capacity(alloc, hands)?,
        Vec::with_capacity(alloc, hands)?,
    ))
}

impl Room {
    /// Room for the parts of this many tools.
    ///
    /// # Errors
    /// There was no memory: nothing was made.
    pub fn new(alloc: Global, hands: u32) -> Result<Room, AllocError>
        ensures { IfOk result (HasRoom hands) }
    {
        let hands = hands as usize;
        Ok(Room {
            parts: Parts {
                passes: Vec::with_capacity(alloc, hands)?,
                cells: Vec::with_capacity(alloc, hands)?,
                records: Vec::with_capacity(alloc, hands)?,
                blocks: Vec::with_capacity(alloc, hands)?,
            },
            cells: hand_room(alloc, hands)?,
            records: hand_room(alloc, hands)?,
            blocks: hand_room(alloc, hands)?,
            seats: Vec::with_capacity(alloc, 3 * hands)?,
        })
    }
}
