//! What is made for workers: the caches, the shelves, the table of owners, and tools for each worker.

ghost use Rattle.std.specs.Prelude.{◌≡◌, ◌+◌, ◌*◌, ◌<◌, ◌≤◌, All, vec_len, IfOk};
ghost use Rattle.exchange_shelf.specs.Views.{fresh_hand as fresh_shelf_hand};
ghost use Rattle.owners_table.specs.Owning.{fresh as fresh_seat};
ghost use Rattle.shared_cache.specs.HandView.{fresh_hand};
ghost use Rattle.shared_cache.specs.declared.count.TheConstants.{MAX_HANDS};
ghost use Rattle.shared_row.specs.Views.{fresh_pass};
ghost use Rattle.shared_store.specs.Making.{HasHands, IsMade, IsUnused};
ghost use Rattle.shared_store.specs.Tools.{AreAtHome};

use crate::commons::{Base, Commons, Supply};
use crate::stock::Stock;
use crate::tools::Tools;
use exchange_shelf::{Shelf, ShelfHand};
use owners_table::owners::{OwnerSeat, Owners};
use shared_cache::{ArenaPass, Cache, Hand, Parcel, SharedArena};
use slab_layer::{BlockKind, CellKind, Kind, RecordKind};
use std::alloc::{AllocError, Global};
use vmem_arena::Arena;

// The hands of one kind, which no worker has yet.
type Hands<K> = (Vec<Hand<K>>, Vec<ShelfHand<Parcel<K>>>);

// A cache and a shelf with this many hands each.
fn supplied<K: Kind>(alloc: Global, hands: u32) -> Result<(Supply<K>, Hands<K>), AllocError>
    requires hands { (0 < hands) × (hands ≤ MAX_HANDS) }
    ensures made { IfOk result (λ r. HasHands hands r.0) }
    ensures hands { IfOk result (λ r. (vec_len r.1.0 ≡ hands) × All (λ h. h ≡ fresh_hand r.0.cache.table) r.1.0.items) }
    ensures shelf_hands { IfOk result (λ r. (vec_len r.1.1 ≡ hands) × All (λ h. h ≡ fresh_shelf_hand r.0.shelf.table) r.1.1.items) }
{
    let (cache, cache_hands) = Cache::new(alloc, hands)?;
    let (shelf, shelf_hands) = Shelf::new(alloc, hands)?;
    Ok((Supply { cache, shelf }, (cache_hands, shelf_hands)))
}

// A stock for each pair of hands, with a seat of its own.
fn stocked<K: Kind>(
    alloc: Global,
    supply: &Supply<K>,
    owners: &Owners,
    hands: Hands<K>,
    seats: &mut Vec<OwnerSeat>,
) -> Result<Vec<Stock<K>>, AllocError>
    requires hands { All (λ h. h ≡ fresh_hand supply.now.cache.table) hands.0.items }
    requires shelf_hands { All (λ h. h ≡ fresh_shelf_hand supply.now.shelf.table) hands.1.items }
    requires pairs { vec_len hands.1 ≡ vec_len hands.0 }
    requires seats { All (λ s. s ≡ fresh_seat owners.now.table) seats.old.items }
    requires enough { vec_len hands.0 ≤ vec_len seats.old }
    ensures stocks { IfOk result (λ v. (vec_len v ≡ vec_len hands.0) × All (IsUnused supply.now owners.now) v.items) }
    ensures seats { All (λ s. s ≡ fresh_seat owners.now.table) seats.new.items }
    ensures rest { IfOk result (λ v. vec_len seats.new + vec_len v ≡ vec_len seats.old) }
{
    let (mut hands, mut shelf_hands) = hands;
    let mut all = Vec::with_capacity(alloc, hands.len())?;
    while let Some(hand) = hands.pop() {
        let shelf_hand = shelf_hands.take_last();
        let seat = seats.take_last();
        all.push_reserved(Stock::new(hand, shelf_hand, seat));
    }
    Ok(all)
}

// Tools of a stock of each kind and a pass to the arena.
fn assembled(
    alloc: Global,
    commons: &Commons,
    mut passes: Vec<ArenaPass>,
    mut cells: Vec<Stock<CellKind>>,
    mut records: Vec<Stock<RecordKind>>,
    mut blocks: Vec<Stock<BlockKind>>,
) -> Result<Vec<Tools>, AllocError>
    requires passes { All (λ p. p ≡ fresh_pass commons.now.base.arena.table) passes.items }
    requires cells { (vec_len cells ≡ vec_len passes) × All (IsUnused commons.now.cells commons.now.base.owners) cells.items }
    requires records { (vec_len records ≡ vec_len passes) × All (IsUnused commons.now.records commons.now.base.owners) records.items }
    requires blocks { (vec_len blocks ≡ vec_len passes) × All (IsUnused commons.now.blocks commons.now.base.owners) blocks.items }
    ensures { IfOk result (λ v. (vec_len v ≡ vec_len passes) × All (AreAtHome commons.now) v.items) }
{
    let mut all = Vec::with_capacity(alloc, passes.len())?;
    while let Some(pages) = passes.pop() {
        let cells = cells.take_last();
        let records = records.take_last();
        let blocks = blocks.take_last();
        all.push_reserved(Tools::new(pages, cells, records, blocks));
    }
    Ok(all)
}

// An arena and a table of owners for this many sets of tools, with a pass for each, and three seats.
fn based(
    alloc: Global,
    arena: Arena,
    sets: u32,
) -> Result<(Base, Vec<ArenaPass>, Vec<OwnerSeat>), AllocError>
    requires { (0 < sets) × (sets ≤ MAX_HANDS) }
    ensures made { IfOk result (λ r. (r.0.arena.passes ≡ sets) × (r.0.owners.seats ≡ 3 * sets)) }
    ensures passes { IfOk result (λ r. (vec_len r.1 ≡ sets) × All (λ p. p ≡ fresh_pass r.0.arena.table) r.1.items) }
    ensures seats { IfOk result (λ r. (vec_len r.2 ≡ 3 * sets) × All (λ s. s ≡ fresh_seat r.0.owners.table) r.2.items) }
{
    let (arena, passes) = SharedArena::new(alloc, arena, sets)?;
    let (owners, seats) = Owners::of_arena(alloc, 3 * sets)?;
    let base = Base {
        alloc,
        arena,
        owners,
    };
    Ok((base, passes, seats))
}

// What this many sets of tools need of one kind, and a stock for each, with a seat of its own.
fn furnished<K: Kind>(
    alloc: Global,
    owners: &Owners,
    sets: u32,
    seats: &mut Vec<OwnerSeat>,
) -> Result<(Supply<K>, Vec<Stock<K>>), AllocError>
    requires sets { (0 < sets) × (sets ≤ MAX_HANDS) }
    requires seats { All (λ s. s ≡ fresh_seat owners.now.table) seats.old.items }
    requires enough { sets ≤ vec_len seats.old }
    ensures made { IfOk result (λ r. HasHands sets r.0) }
    ensures stocks { IfOk result (λ r. (vec_len r.1 ≡ sets) × All (IsUnused r.0 owners.now) r.1.items) }
    ensures seats { All (λ s. s ≡ fresh_seat owners.now.table) seats.new.items }
    ensures rest { IfOk result (λ r. vec_len seats.new + sets ≡ vec_len seats.old) }
{
    let (supply, hands) = supplied(alloc, sets)?;
    let stocks = stocked(alloc, &supply, owners, hands, seats)?;
    Ok((supply, stocks))
}

/// All that this many sets of tools need, and the tools. What can fail is in few steps, since each of them is a way out that drops all that was
/// made before it, and the proof follows each way.
///
/// # Errors
/// There was no memory: nothing was made, and the arena is gone.
pub(crate) fn made(
    alloc: Global,
    arena: Arena,
    sets: u32,
) -> Result<(Commons, Vec<Tools>), AllocError>
    requires { (0 < sets) × (sets ≤ MAX_HANDS) }
    ensures made { IfOk result (λ r. IsMade sets r.0) }
    ensures tools { IfOk result (λ r. (vec_len r.1 ≡ sets) × All (AreAtHome r.0) r.1.items) }
{
    let (base, passes, mut seats) = based(alloc, arena, sets)?;
    let (cells, of_cells) = furnished(alloc, &base.owners, sets, &mut seats)?;
    let (records, of_records) = furnished(alloc, &base.owners, sets, &mut seats)?;
    let (blocks, of_blocks) = furnished(alloc, &base.owners, sets, &mut seats)?;
    let commons = Commons {
        base,
        cells,
        records,
        blocks,
    };
    let tools = assembled(alloc, &commons, passes, of_cells, of_records, of_blocks)?;
    Ok((commons, tools))
}
