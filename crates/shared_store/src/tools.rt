//! What a worker works with: a stock of each kind, and a pass to the arena.
//!
//! The other files speak of one kind, whatever it is. Here the kinds stand side by side.

ghost use Rattle.std.specs.Prelude.{◌≡◌, ◌+◌, ◌<◌, ◌∷◌, [], ℕ, length, option_map, IfSome, IfNone, IsTrue};
ghost use Rattle.ebpf_machine.specs.Kinds.{known_kinds};
ghost use Rattle.ebpf_machine.specs.World.{image_at};
ghost use Rattle.ebpf_object.specs.Object.{bytes_of, kind_of, slot_of};
ghost use Rattle.owners_table.specs.Marking.{mark_word};
ghost use Rattle.owners_table.specs.Owning.{Holds, without};
ghost use Rattle.ebpf_owned.specs.Claims.{IsClaimed};
ghost use Rattle.ebpf_owned.specs.Exchanges.{HasPassed, one_if};
ghost use Rattle.shared_store.specs.Stock.{none_if};
ghost use Rattle.shared_store.specs.Tools.{AreAtHome, AreOf, AreStocks, HaveAnswered, Replies, held_at, puts_at, stock_at};
ghost use Rattle.shared_cache.specs.HandView.{HasNone, IsLaden};
ghost use Rattle.ebpf_object.specs.KindName.{number_of};

use crate::commons::Commons;
use crate::stock::Stock;
use ebpf_object::{KindName, Object, Offer, kind_named};
use owners_table::mark::Mark;
use shared_cache::ArenaPass;
use slab_layer::{BlockKind, CellKind, RecordKind};
use std::marker::Model;

/// What a worker works with. It belongs to what the worker shares with others, and to nothing else.
#[derive(Drop)]
pub struct Tools {
    pub(crate) pages: ArenaPass,
    pub(crate) cells: Stock<CellKind>,
    pub(crate) records: Stock<RecordKind>,
    pub(crate) blocks: Stock<BlockKind>,
}

impl Model for Tools {
    ghost use Rattle.std.specs.Prelude.{◌≡◌, []};
    ghost use Rattle.shared_store.specs.Tools.{ToolsView};

    ghost Value = { ToolsView };

    ghost view = { λ t. record { pages = t.pages; cells = t.cells; records = t.records; blocks = t.blocks } };

    ghost invariant = { λ t. (t.pages.out ≡ []) × (t.pages.parts ≡ 1) };
}

impl Tools {
    /// Tools of these parts.
    pub(crate) fn new(
        pages: ArenaPass,
        cells: Stock<CellKind>,
        records: Stock<RecordKind>,
        blocks: Stock<BlockKind>,
    ) -> Tools
        requires { (pages.out ≡ []) × (pages.parts ≡ 1) }
        ensures { result ≡ record { pages = pages; cells = cells; records = records; blocks = blocks } }
    {
        Tools {
            pages,
            cells,
            records,
            blocks,
        }
    }

    /// What always holds of tools. Nothing is computed.
    #[inline(always)]
    pub fn known(&self)
        ensures { AreStocks self.now }
    {
        self.cells.known();
        self.records.known();
        self.blocks.known();
    }

    /// Takes an object of a kind, and claims its slot. None if there is none to be had.
    #[inline(always)]
    pub(crate) fn take(&mut self, commons: &Commons, kind: u8, mark: Mark) -> Option<Object>
        requires of { AreOf commons.now self.old }
        requires kind { kind < length known_kinds }
        ensures kind { IfSome result (λ o. kind_of o ≡ kind) }
        ensures image { IfSome result (λ o. bytes_of o ≡ image_at known_kinds kind) }
        ensures granted { IfSome result (λ o. IsClaimed (slot_of o) (mark_word mark.run mark.at) (held_at self.old kind) (held_at self.new kind)) }
        ensures refused { IfNone result (held_at self.new kind ≡ held_at self.old kind) }
        ensures replies { Replies kind (one_if result) (none_if result) 0 self.old self.new }
        ensures puts { (k : ℕ) → puts_at self.new k ≡ puts_at self.old k }
    {
        let Tools {
            pages,
            cells,
            records,
            blocks,
        } = self;
        let base = &commons.base;
        match kind_named(kind) {
            KindName::Cell => cells
                .take(&commons.cells, base, pages, mark)
                .map(Object::Cell),
            KindName::Record => records
                .take(&commons.records, base, pages, mark)
                .map(Object::Record),
            KindName::Block => blocks
                .take(&commons.blocks, base, pages, mark)
                .map(Object::Block),
        }
    }

    /// Gives an object back, whose slot is released first.
    #[inline(always)]
    pub(crate) fn give(&mut self, commons: &Commons, object: Object)
        requires of { AreOf commons.now self.old }
        requires held { Holds (slot_of object) (held_at self.old (kind_of object)) }
        ensures held { held_at self.new (kind_of object) ≡ without (slot_of object) (held_at self.old (kind_of object)) }
        ensures replies { Replies (kind_of object) 0 0 0 self.old self.new }
        ensures puts { (k : ℕ) → puts_at self.new k ≡ puts_at self.old k }
    {
        let base = &commons.base;
        match object {
            Object::Cell(object) => self.cells.give(&commons.cells, base, object),
            Object::Record(object) => self.records.give(&commons.records, base, object),
            Object::Block(object) => self.blocks.give(&commons.blocks, base, object),
        }
    }

    /// Exchanges an object of a shelf's kind, or nothing, for what is there.
    pub(crate) fn swap(
        &mut self,
        commons: &Commons,
        shelf: u8,
        given: Option<Object>,
        mark: Mark,
    ) -> Option<Object>
        requires of { AreOf commons.now self.old }
        requires shelf { shelf < length known_kinds }
        requires given { IfSome given (λ g. Holds (slot_of g) (held_at self.old shelf) × (kind_of g ≡ shelf)) }
        ensures kind { IfSome result (λ o. kind_of o ≡ shelf) }
        ensures passed { HasPassed (option_map slot_of given) (option_map slot_of result) (mark_word mark.run mark.at) (held_at self.old shelf) (held_at self.new shelf) }
        ensures replies { Replies shelf 0 0 (one_if result) self.old self.new }
        ensures put { (IsLaden (stock_at self.old shelf).hand → ⊥) → puts_at self.new shelf ≡ puts_at self.old shelf + one_if given }
    {
        let base = &commons.base;
        match Offer::to(shelf, given) {
            Offer::Cells(given) => self
                .cells
                .swap(&commons.cells, base, shelf, given, mark)
                .map(Object::Cell),
            Offer::Records(given) => self
                .records
                .swap(&commons.records, base, shelf, given, mark)
                .map(Object::Record),
            Offer::Blocks(given) => self
                .blocks
                .swap(&commons.blocks, base, shelf, given, mark)
                .map(Object::Block),
        }
    }
    /// Whether there is room for an object that comes off the shelf of a kind.
    pub(crate) fn can_get(&mut self, commons: &Commons, kind: KindName) -> bool
        requires of { AreOf commons.now self.old }
        ensures room { IsTrue result → IsLaden (stock_at self.new (number_of kind)).hand → ⊥ }
        ensures same { (k : ℕ) → held_at self.new k ≡ held_at self.old k }
        ensures answered { HaveAnswered self.old self.new 0 0 0 }
        ensures puts { (k : ℕ) → puts_at self.new k ≡ puts_at self.old k }
    {
        match kind {
            KindName::Cell => self.cells.can_get(&commons.cells),
            KindName::Record => self.records.can_get(&commons.records),
            KindName::Block => self.blocks.can_get(&commons.blocks),
        }
    }

    /// Sends what the hands have home to the slabs, by tools that hold nothing. The answer is whether nothing stays: what another thread is in the way
    /// of does.
    pub(crate) fn flush(&mut self, commons: &Commons) -> bool
        requires { AreAtHome commons.now self.old }
        ensures home { AreAtHome commons.now self.new }
        ensures none { IsTrue result → HasNone self.new.cells.hand × HasNone self.new.records.hand × HasNone self.new.blocks.hand }
    {
        let of_cells = self.cells.flush(&commons.cells);
        let of_records = self.records.flush(&commons.records);
        let of_blocks = self.blocks.flush(&commons.blocks);
        of_cells && of_records && of_blocks
    }

    /// A pass of the reaper over the cache of each kind, by tools that hold nothing. The answer is how many pages went back to the arena.
    pub(crate) fn reap(&mut self, commons: &Commons) -> u32
        requires { AreAtHome commons.now self.old }
        ensures { AreAtHome commons.now self.new }
    {
        let Tools {
            pages,
            cells,
            records,
            blocks,
        } = self;
        let base = &commons.base;
        let of_cells = cells.reap(&commons.cells, base, pages);
        let of_records = records.reap(&commons.records, base, pages);
        let of_blocks = blocks.reap(&commons.blocks, base, pages);
        of_cells
            .saturating_add(of_records)
            .saturating_add(of_blocks)
    }
}
