//! What is put on a shelf.

ghost use Rattle.std.specs.Prelude.{◌≡◌, ◌<◌, IfSome, length};
ghost use Rattle.ebpf_machine.specs.Kinds.{known_kinds};
ghost use Rattle.ebpf_object.specs.Object.{kind_of};
ghost use Rattle.ebpf_object.specs.Offer.{object_of, shelf_of};

use crate::kind_name::{KindName, kind_named};
use crate::object::Object;
use slab_layer::{BlockKind, CellKind, Held, Obj, RecordKind};

/// An object of a shelf's kind, or nothing, for the shelf of that kind. What it offers must be spent, and can't be dropped.
pub enum Offer {
    Cells(Option<Obj<CellKind, Held>>),
    Records(Option<Obj<RecordKind, Held>>),
    Blocks(Option<Obj<BlockKind, Held>>),
}

impl Offer {
    /// An offer of an object, or of nothing, to the shelf of a kind, which is the object's.
    #[inline]
    pub fn to(shelf: u8, object: Option<Object>) -> Offer
        requires shelf { shelf < length known_kinds }
        requires object { IfSome object (λ o. kind_of o ≡ shelf) }
        ensures shelf { shelf_of result ≡ shelf }
        ensures object { object_of result ≡ object }
    {
        match object {
            Some(Object::Cell(cell)) => Offer::Cells(Some(cell)),
            Some(Object::Record(record)) => Offer::Records(Some(record)),
            Some(Object::Block(block)) => Offer::Blocks(Some(block)),
            None => match kind_named(shelf) {
                KindName::Cell => Offer::Cells(None),
                KindName::Record => Offer::Records(None),
                KindName::Block => Offer::Blocks(None),
            },
        }
    }
}
