//! What there is of each kind.
//!
//! The other files speak of one kind, whatever it is: its hands, its supply, its stock. Here the kinds stand side by side, and nowhere else.
//! Objects go in and out of stocks bare: the caller claims their slots and gives them up (ebpf_owned).

ghost use Rattle.std.specs.Prelude.{◌≡◌, ◌≤◌, ◌<◌, All, length, vec_len, IfOk, IfSome, IfNone};
ghost use Rattle.ebpf_machine.specs.Kinds.{known_kinds};
ghost use Rattle.ebpf_machine.specs.World.{image_at};
ghost use Rattle.ebpf_object.specs.Object.{bytes_of, kind_of};
ghost use Rattle.object_cache.specs.ShelfView.{one_if};
ghost use Rattle.worker_pool.specs.EachKind.{AreAllFor, AreAllWhole, AreClosed, AreOneMore, AreOpened};
ghost use Rattle.worker_pool.specs.EachKind.{HasMoved, HaveHands, HaveMade, HavePlaces, hands_of, unused_hands};
ghost use Rattle.worker_pool.specs.Outcomes.{IsIdle};

use crate::hands::{FreePairs, HandPair};
use crate::ledgers::Names;
use crate::outcome::ShelfTotals;
use crate::stock::Stock;
use crate::supply::{Closing, KindBlanks, Supply};
use ebpf_object::{KindName, Object, Offer, kind_named};
use ebpf_state::kinds::KINDS;
use object_cache::{ArenaLock, Totals};
use owners_table::owners::OwnerSeat;
use slab_layer::{BlockKind, CellKind, RecordKind};
use std::alloc::{AllocError, Global};
use std::sync::Wait;

/// A pair of hands of each kind.
pub struct Hands<L: Names> {
    pub(crate) cells: HandPair<CellKind, L>,
    pub(crate) records: HandPair<RecordKind, L>,
    pub(crate) blocks: HandPair<BlockKind, L>,
}

/// Pairs of hands of each kind that no worker has.
pub(crate) struct FreeHands<L: Names> {
    pub(crate) cells: FreePairs<CellKind, L>,
    pub(crate) records: FreePairs<RecordKind, L>,
    pub(crate) blocks: FreePairs<BlockKind, L>,
}

/// What becomes the books of each kind.
#[derive(Drop)]
pub(crate) struct Blanks {
    pub(crate) cells: KindBlanks,
    pub(crate) records: KindBlanks,
    pub(crate) blocks: KindBlanks,
}

/// A cache and a shelf of each kind.
pub(crate) struct Supplies<L: Names> {
    pub(crate) cells: Supply<CellKind, L>,
    pub(crate) records: Supply<RecordKind, L>,
    pub(crate) blocks: Supply<BlockKind, L>,
}

impl<L: Names> FreeHands<L> {
    /// The last pair of each kind.
    pub(crate) fn take_last(&mut self) -> Hands<L>
        requires { HaveHands self.old }
        ensures { AreOneMore self.new self.old result }
    {
        Hands {
            cells: self.cells.take_last(),
            records: self.records.take_last(),
            blocks: self.blocks.take_last(),
        }
    }

    /// Puts a pair of each kind after the others, for which there is room.
    pub(crate) fn push_reserved(&mut self, hands: Hands<L>)
        requires { HavePlaces self.old }
        ensures { AreOneMore self.old self.new hands }
    {
        let Hands {
            cells,
            records,
            blocks,
        } = hands;
        self.cells.push_reserved(cells);
        self.records.push_reserved(records);
        self.blocks.push_reserved(blocks);
    }
}

impl Blanks {
    /// Blanks for up to 64 hands of each kind.
    pub(crate) fn new() -> Blanks
        ensures { AreAllWhole result }
    {
        Blanks {
            cells: KindBlanks::new(),
            records: KindBlanks::new(),
            blocks: KindBlanks::new(),
        }
    }
}

impl<L: Names> Supplies<L> {
    /// The supplies, each with that many hands.
    ///
    /// # Errors
    /// There was no memory. All that were made were closed.
    pub(crate) fn open<R: Wait>(
        rt: &R,
        alloc: Global,
        arena: &ArenaLock,
        count: usize,
        blanks: Blanks,
    ) -> Result<(Supplies<L>, FreeHands<L>), AllocError>
        requires blanks { AreAllFor L.outs L.ins L.puts L.gets blanks }
        requires count { count ≤ 64 }
        ensures { IfOk result (λ r. AreOpened count r.0 r.1) }
    {
        let (cells, free_cells) = Supply::open(rt, alloc, arena, count, blanks.cells)?;
        let Ok((records, free_records)) = Supply::open(rt, alloc, arena, count, blanks.records)
        else {
            cells.abandon(rt, arena, free_cells);
            return Err(AllocError);
        };
        let Ok((blocks, free_blocks)) = Supply::open(rt, alloc, arena, count, blanks.blocks) else {
            cells.abandon(rt, arena, free_cells);
            records.abandon(rt, arena, free_records);
            return Err(AllocError);
        };
        let supplies = Supplies {
            cells,
            records,
            blocks,
        };
        let free = FreeHands {
            cells: free_cells,
            records: free_records,
            blocks: free_blocks,
        };
        Ok((supplies, free))
    }

    /// A pass of the reaper over each cache, in the order of the kinds' numbers.
    pub(crate) fn reap<R: Wait>(&self, rt: &R, arena: &ArenaLock) {
        self.cells.cache.reap_pass(rt, arena);
        self.records.cache.reap_pass(rt, arena);
        self.blocks.cache.reap_pass(rt, arena);
    }

    /// Closes the supplies with all hands that they made, and returns what each shelf and each cache did, in the order of the kinds'
    /// numbers. What the shelves hold is freed by the first seat.
    pub(crate) fn close<R: Wait>(
        self,
        closing: &Closing<'_, R>,
        free: FreeHands<L>,
        seats: &mut Vec<OwnerSeat>,
    ) -> ([ShelfTotals; KINDS], [Totals; KINDS])
        requires all { HaveMade self free }
        requires some { HaveHands free }
        requires seat { 0 < vec_len seats.old }
        requires idle { All (IsIdle closing.now.owners.now) seats.old.items }
        ensures { AreClosed closing.now.owners.now free seats.old.items seats.new.items result.0 result.1 }
    {
        let Supplies {
            cells,
            records,
            blocks,
        } = self;
        let FreeHands {
            cells: free_cells,
            records: free_records,
            blocks: free_blocks,
        } = free;
        let seat = &mut seats[0];
        let (cell_shelf, cells) = cells.close(closing, free_cells, seat);
        let (record_shelf, records) = records.close(closing, free_records, seat);
        let (block_shelf, blocks) = blocks.close(closing, free_blocks, seat);
        (
            [cell_shelf, record_shelf, block_shelf],
            [cells, records, blocks],
        )
    }
}

/// A stock of each kind.
pub struct Stocks<'a, L: Names> {
    pub(crate) cells: Stock<'a, CellKind, L>,
    pub(crate) records: Stock<'a, RecordKind, L>,
    pub(crate) blocks: Stock<'a, BlockKind, L>,
}

impl<'a, L: Names> Stocks<'a, L> {
    /// Stocks of hands with which nothing was done.
    pub(crate) fn new(supplies: &'a Supplies<L>, hands: Hands<L>) -> Stocks<'a, L>
        requires { hands ≡ unused_hands }
        ensures { hands_of result ≡ hands }
    {
        let Hands {
            cells,
            records,
            blocks,
        } = hands;
        Stocks {
            cells: Stock::new(&supplies.cells, cells),
            records: Stock::new(&supplies.records, records),
            blocks: Stock::new(&supplies.blocks, blocks),
        }
    }

    /// The hands, back.
    pub(crate) fn end(self) -> Hands<L>
        ensures { result ≡ hands_of self.entry }
    {
        let Stocks {
            cells,
            records,
            blocks,
        } = self;
        Hands {
            cells: cells.end(),
            records: records.end(),
            blocks: blocks.end(),
        }
    }

    /// Takes an object of a kind. None where its cache has none.
    pub(crate) fn take<R: Wait>(&mut self, rt: &R, arena: &ArenaLock, kind: u8) -> Option<Object>
        requires { kind < length known_kinds }
        ensures kind { IfSome result (λ o. kind_of o ≡ kind) }
        ensures image { IfSome result (λ o. bytes_of o ≡ image_at known_kinds kind) }
        ensures taken { IfSome result (λ _. HasMoved kind 1 0 0 0 0 (hands_of self.old) (hands_of self.new)) }
        ensures refused { IfNone result (HasMoved kind 0 0 1 0 0 (hands_of self.old) (hands_of self.new)) }
    {
        match kind_named(kind) {
            KindName::Cell => self.cells.take(rt, arena).map(Object::Cell),
            KindName::Record => self.records.take(rt, arena).map(Object::Record),
            KindName::Block => self.blocks.take(rt, arena).map(Object::Block),
        }
    }

    /// Gives an object back to the cache of its kind.
    #[inline(always)]
    pub(crate) fn give<R: Wait>(&mut self, rt: &R, object: Object)
        ensures { HasMoved (kind_of object) 0 1 0 0 0 (hands_of self.old) (hands_of self.new) }
    {
        match object {
            Object::Cell(object) => self.cells.give(rt, object),
            Object::Record(object) => self.records.give(rt, object),
            Object::Block(object) => self.blocks.give(rt, object),
        }
    }

    /// Exchanges an object of the shelf's kind, or nothing, for what is there.
    pub(crate) fn swap<R: Wait>(
        &mut self,
        rt: &R,
        shelf: u8,
        given: Option<Object>,
    ) -> Option<Object>
        requires shelf { shelf < length known_kinds }
        requires given { IfSome given (λ o. kind_of o ≡ shelf) }
        ensures kind { IfSome result (λ o. kind_of o ≡ shelf) }
        ensures moved { HasMoved shelf 0 0 0 (one_if given) (one_if result) (hands_of self.old) (hands_of self.new) }
    {
        match Offer::to(shelf, given) {
            Offer::Cells(given) => self.cells.swap(rt, given).map(Object::Cell),
            Offer::Records(given) => self.records.swap(rt, given).map(Object::Record),
            Offer::Blocks(given) => self.blocks.swap(rt, given).map(Object::Block),
        }
    }
}
