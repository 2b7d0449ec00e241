//! What a host leaves on the shelves of a machine for programs, and takes from there.
//!
//! *The idea.* The host does what a run does: it takes an object of a kind, writes to it, and exchanges it for what is on the shelf of that
//! kind. What it gets for it goes back.

ghost use Rattle.std.specs.Prelude.{◌≡◌, ◌≤◌, length, IfOk, IfErr, IfSome, IfNone, OnOk, OnErr};
ghost use Rattle.ebpf_host.specs.Shelving.{IsFetched, IsPut, IsPutFault, ShelfChanges, ShelvesStay, image_of, on_shelf};

use crate::machine::Machine;
use crate::stocks::Stocks;
use ebpf_object::KindName;
use slab_layer::{BlockKind, CellKind, Kind, RecordKind};
use thiserror::Error;

/// Why nothing was put on a shelf.
#[derive(Clone, Copy, Debug, Error)]
pub enum PutFault {
    /// An object of the kind has fewer bytes.
    #[error("an object of the kind has fewer bytes")]
    TooLong,
    /// There is no page, or no memory, for one more object of the kind.
    #[error("no page or no memory for an object")]
    NoObject,
}

impl Machine {
    /// Leaves an object of a kind on its shelf, for the next program that exchanges something there: it begins with these bytes, and has
    /// its kind's image after them. Returns whether it is there in place of another, which is given back.
    ///
    /// # Errors
    /// `TooLong` where an object of the kind has fewer bytes; `NoObject` where there is no page or no memory for one more. The shelves
    /// are as they were then.
    pub fn put(&mut self, kind: KindName, bytes: &[u8]) -> Result<bool, PutFault>
        ensures put { IfOk result (IsPut (image_of kind) bytes.now (on_shelf self.old kind) (on_shelf self.new kind)) }
        ensures changes { ShelfChanges self.old self.new kind }
        ensures pages { self.new.arena.pages ≡ self.old.arena.pages }
        ensures fits { OnOk result (length bytes.now ≤ length (image_of kind)) }
        ensures fault { IfErr result (IsPutFault kind (length bytes.now)) }
        ensures unchanged { OnErr result (ShelvesStay self.old self.new) }
    {
        if bytes.len() > size_of(kind) {
            return Err(PutFault::TooLong);
        }
        match self.stocks.put(kind, bytes) {
            Some(replaced) => Ok(replaced),
            None => Err(PutFault::NoObject),
        }
    }

    /// Takes what is on the shelf of a kind off it, copies its bytes as far as there is room, and gives it back. Returns whether there
    /// was something; else the room stays as it is.
    pub fn take(&mut self, kind: KindName, room: &mut [u8]) -> bool
        ensures taken { IsFetched result (on_shelf self.old kind) (on_shelf self.new kind) room.old room.new }
        ensures changes { ShelfChanges self.old self.new kind }
        ensures pages { self.new.arena.pages ≡ self.old.arena.pages }
    {
        self.stocks.fetch(kind, room)
    }
}

// How many bytes an object of a kind has.
pub(crate) fn size_of(kind: KindName) -> usize
    ensures { result ≡ length (image_of kind) }
{
    match kind {
        KindName::Cell => CellKind::SIZE,
        KindName::Record => RecordKind::SIZE,
        KindName::Block => BlockKind::SIZE,
    }
}

impl Stocks {
    // Leaves an object on the shelf of a kind; None where there is none to be had.
    fn put(&mut self, kind: KindName, bytes: &[u8]) -> Option<bool>
        requires { length bytes.now ≤ length (image_of kind) }
        ensures put { IfSome result (IsPut (image_of kind) bytes.now (on_shelf self.old kind) (on_shelf self.new kind)) }
        ensures none { IfNone result (ShelvesStay self.old self.new) }
        ensures changes { ShelfChanges self.old self.new kind }
        ensures pages { self.new.arena.pages ≡ self.old.arena.pages }
    {
        let Stocks {
            arena,
            cells,
            records,
            blocks,
            ..
        } = self;
        match kind {
            KindName::Cell => cells.put(arena, bytes),
            KindName::Record => records.put(arena, bytes),
            KindName::Block => blocks.put(arena, bytes),
        }
    }

    // Takes what is on the shelf of a kind off it, and copies its bytes.
    fn fetch(&mut self, kind: KindName, room: &mut [u8]) -> bool
        ensures taken { IsFetched result (on_shelf self.old kind) (on_shelf self.new kind) room.old room.new }
        ensures changes { ShelfChanges self.old self.new kind }
        ensures pages { self.new.arena.pages ≡ self.old.arena.pages }
    {
        match kind {
            KindName::Cell => self.cells.fetch(room),
            KindName::Record => self.records.fetch(room),
            KindName::Block => self.blocks.fetch(room),
        }
    }
}
