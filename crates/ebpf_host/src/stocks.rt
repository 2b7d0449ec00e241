//! The objects of a machine, of all kinds.

ghost use Rattle.std.specs.Prelude.{◌≡◌, ◌<◌, ◌∷◌, [], ℕ, None, option_map, is_some, IfSome, IfNone, length};
ghost use Rattle.ebpf_machine.specs.Kinds.{known_kinds};
ghost use Rattle.ebpf_machine.specs.World.{image_at};
ghost use Rattle.ebpf_object.specs.Object.{bytes_of, kind_of, slot_of};
ghost use Rattle.ebpf_host.specs.Stock.{Exchanges, Gives, Takes};
ghost use Rattle.ebpf_host.specs.Stocks.{Holds, OthersStay, as_shelved, stock_of};

use crate::stock::{Counts, Stock};
use ebpf_object::{KindName, Object, Offer, kind_named};
use ebpf_state::kinds::KINDS;
use slab_layer::{BlockKind, CellKind, Kind, RecordKind};
use std::alloc::Global;
use vmem_arena::{Arena, MAX_PAGES};

/// How many words are unused before and after what a run writes: 128 bytes, two lines of the processor's cache, since they may be fetched
/// together. So what two machines write is on no line of both, wherever an allocator puts them.
pub(crate) const WORDS_APART: usize = 16;

/// An arena, and a stock of each kind that gets its pages there. They must be ended.
pub struct Stocks {
    before: [u64; WORDS_APART],
    pub(crate) arena: Arena,
    pub(crate) cells: Stock<CellKind>,
    pub(crate) records: Stock<RecordKind>,
    pub(crate) blocks: Stock<BlockKind>,
    after: [u64; WORDS_APART],
}

impl Stocks {
    /// Stocks with no objects yet, and nothing on the shelves. It takes no memory.
    pub(crate) fn new(alloc: Global, arena: Arena) -> Stocks
        ensures bare { (kind : ℕ) → (stock_of result kind).shelf ≡ None }
        ensures arena { result.arena ≡ arena }
    {
        Stocks {
            before: [0; WORDS_APART],
            arena,
            cells: Stock::new(alloc),
            records: Stock::new(alloc),
            blocks: Stock::new(alloc),
            after: [0; WORDS_APART],
        }
    }

    /// Takes an object of a kind, with its image. None where the arena has no page for it, or where memory for its objects ran
    /// out; then nothing changed here.
    pub(crate) fn take(&mut self, kind: u8) -> Option<Object>
        requires { kind < length known_kinds }
        ensures kind { IfSome result (λ o. kind_of o ≡ kind) }
        ensures image { IfSome result (λ o. bytes_of o ≡ image_at known_kinds kind) }
        ensures taken { IfSome result (λ o. Takes (stock_of self.old kind) (stock_of self.new kind) (slot_of o)) }
        ensures none { IfNone result (stock_of self.new kind ≡ stock_of self.old kind) }
        ensures others { OthersStay self.old self.new kind }
        ensures pages { self.new.arena.pages ≡ self.old.arena.pages }
    {
        let Stocks {
            arena,
            cells,
            records,
            blocks,
            ..
        } = self;
        match kind_named(kind) {
            KindName::Cell => cells.take(arena).map(Object::Cell),
            KindName::Record => records.take(arena).map(Object::Record),
            KindName::Block => blocks.take(arena).map(Object::Block),
        }
    }

    /// Takes an object back.
    pub(crate) fn give(&mut self, object: Object)
        requires { Holds self.old object }
        ensures given { Gives (stock_of self.old (kind_of object)) (stock_of self.new (kind_of object)) (slot_of object) }
        ensures others { OthersStay self.old self.new (kind_of object) }
        ensures pages { self.new.arena.pages ≡ self.old.arena.pages }
    {
        match object {
            Object::Cell(object) => self.cells.give(object),
            Object::Record(object) => self.records.give(object),
            Object::Block(object) => self.blocks.give(object),
        }
    }

    /// Exchanges an object of a shelf's kind, or nothing, for what is there.
    pub(crate) fn swap(&mut self, shelf: u8, given: Option<Object>) -> Option<Object>
        requires shelf { shelf < length known_kinds }
        requires given { IfSome given (λ g. Holds self.old g × (kind_of g ≡ shelf)) }
        ensures kind { IfSome result (λ o. kind_of o ≡ shelf) }
        ensures exchanged { Exchanges (stock_of self.old shelf) (stock_of self.new shelf) (option_map as_shelved given) (option_map as_shelved result) }
        ensures others { OthersStay self.old self.new shelf }
        ensures pages { self.new.arena.pages ≡ self.old.arena.pages }
    {
        match Offer::to(shelf, given) {
            Offer::Cells(given) => self.cells.swap(given).map(Object::Cell),
            Offer::Records(given) => self.records.swap(given).map(Object::Record),
            Offer::Blocks(given) => self.blocks.swap(given).map(Object::Block),
        }
    }

    /// Gives the pages that have nothing out back to the arena. What is on the shelves stays there.
    pub(crate) fn reap(&mut self)
        ensures shelves { (kind : ℕ) → (stock_of self.new kind).shelf ≡ (stock_of self.old kind).shelf }
        ensures pages { self.new.arena.pages ≡ self.old.arena.pages }
    {
        reap_all(&mut self.cells, &mut self.arena);
        reap_all(&mut self.records, &mut self.arena);
        reap_all(&mut self.blocks, &mut self.arena);
    }

    /// What runs did to the objects of each kind so far, in the order of the kinds' numbers.
    pub(crate) fn counts(&self) -> [Counts; KINDS] {
        [
            self.cells.counts(),
            self.records.counts(),
            self.blocks.counts(),
        ]
    }

    /// Whether an object is on each shelf.
    pub(crate) fn shelved(&self) -> [bool; KINDS]
        ensures { result ≡ is_some self.now.cells.shelf ∷ is_some self.now.records.shelf ∷ is_some self.now.blocks.shelf ∷ [] }
    {
        [
            self.cells.is_shelved(),
            self.records.is_shelved(),
            self.blocks.is_shelved(),
        ]
    }

    /// Ends the stocks, with all their objects.
    pub(crate) fn end(self) {
        let Stocks {
            before: _,
            arena: _,
            cells,
            records,
            blocks,
            after: _,
        } = self;
        cells.end();
        records.end();
        blocks.end();
    }
}

// Gives all pages of a stock that have nothing out back to the arena.
fn reap_all<K: Kind>(stock: &mut Stock<K>, arena: &mut Arena)
    ensures shelf { stock.new.shelf ≡ stock.old.shelf }
    ensures pages { arena.new.pages ≡ arena.old.pages }
{
    for _page in 0..MAX_PAGES {
        if !stock.reap(arena) {
            return;
        }
    }
}
