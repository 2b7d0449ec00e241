//! The end of what workers shared, of all kinds.
//!
//! *The order.* All tools are taken apart. Then each kind is ended, by one pass to the arena, to which its pages go back. At the end come the
//! arena, with all passes, and the table of owners, with all seats.

ghost use Rattle.std.specs.Prelude.{◌≡◌, ◌+◌, ◌<◌, ◌≤◌, All, vec_len, vec_capacity};
ghost use Rattle.shared_cache.specs.declared.count.TheConstants.{MAX_HANDS};
ghost use Rattle.shared_store.specs.Closing.{AreTotals, cells_of, records_of, blocks_of};
ghost use Rattle.shared_store.specs.Making.{IsMade, IsUnused};
ghost use Rattle.shared_store.specs.Parting.{AreAll, IsFree, IsOnePass};
ghost use Rattle.shared_store.specs.Room.{HasRoom, IsRoom};
ghost use Rattle.shared_store.specs.Tools.{AreAtHome};

use crate::commons::{Base, Commons};
use crate::ending::{Rest, ended};
use crate::room::{Parts, Room};
use crate::tools::Tools;
use crate::totals::SharedTotals;
use shared_cache::ArenaPass;

// Takes tools apart, into lists that have room for their parts.
fn parted(commons: &Commons, mut all: Vec<Tools>, room: Parts) -> Parts
    requires home { All (AreAtHome commons.now) all.items }
    requires passes { IsRoom (vec_len all) room.passes }
    requires cells { IsRoom (vec_len all) room.cells }
    requires records { IsRoom (vec_len all) room.records }
    requires blocks { IsRoom (vec_len all) room.blocks }
    ensures passes { All (IsOnePass commons.now.base.arena) result.passes.items × (vec_len result.passes ≡ vec_len all) }
    ensures cells { AreAll commons.now.cells commons.now.base.owners (cells_of all.items) result.cells.items }
    ensures records { AreAll commons.now.records commons.now.base.owners (records_of all.items) result.records.items }
    ensures blocks { AreAll commons.now.blocks commons.now.base.owners (blocks_of all.items) result.blocks.items }
{
    let Parts {
        mut passes,
        mut cells,
        mut records,
        mut blocks,
    } = room;
    while let Some(tools) = all.pop() {
        let Tools {
            pages,
            cells: own_cells,
            records: own_records,
            blocks: own_blocks,
        } = tools;
        passes.push_reserved(pages);
        cells.push_reserved(own_cells);
        records.push_reserved(own_records);
        blocks.push_reserved(own_blocks);
    }
    all.destroy_empty();
    Parts {
        passes,
        cells,
        records,
        blocks,
    }
}

// Ends the arena, with all passes, and the table of owners, with all seats: how many slots a run owns.
fn base_ended(base: Base, mut passes: Vec<ArenaPass>, rest: Rest) -> u32
    requires passes { All (IsOnePass base.arena) passes.items × IsOnePass base.arena rest.pages }
    requires room { vec_len passes < vec_capacity passes }
    requires all_passes { vec_len passes + 1 ≡ base.arena.passes }
    requires seats { All (IsFree base.owners) rest.seats.items × (vec_len rest.seats ≡ base.owners.seats) }
    ensures { result ≡ 0 }
{
    let Base {
        alloc: _,
        arena,
        owners,
    } = base;
    let Rest { pages, seats } = rest;
    passes.push_reserved(pages);
    arena.close(passes);
    owners.end(seats)
}

/// Ends all that workers shared, with all their tools. What is on a shelf goes back to its cache. It takes no memory.
pub fn closed(commons: Commons, all: Vec<Tools>, room: Room) -> SharedTotals
    requires made { IsMade (vec_len all) commons }
    requires few { (0 < vec_len all) × (vec_len all ≤ MAX_HANDS) }
    requires home { All (AreAtHome commons) all.items }
    requires room { HasRoom (vec_len all) room }
    ensures { AreTotals all.items result }
{
    let Room {
        parts,
        cells: cell_room,
        records: record_room,
        blocks: block_room,
        seats,
    } = room;
    let Parts {
        mut passes,
        cells: cell_stocks,
        records: record_stocks,
        blocks: block_stocks,
    } = parted(&commons, all, parts);
    let Some(pages) = passes.pop() else {
        unreachable!()
    };
    let mut rest = Rest { pages, seats };
    let Commons {
        base,
        cells,
        records,
        blocks,
    } = commons;
    let cells = ended(cells, cell_stocks, cell_room, &base, &mut rest);
    let records = ended(records, record_stocks, record_room, &base, &mut rest);
    let blocks = ended(blocks, block_stocks, block_room, &base, &mut rest);
    SharedTotals {
        kinds: [cells.totals, records.totals, blocks.totals],
        clashes: cells.clashes + records.clashes + blocks.clashes,
        strays: cells.strays + records.strays + blocks.strays,
        owned: base_ended(base, passes, rest),
    }
}
