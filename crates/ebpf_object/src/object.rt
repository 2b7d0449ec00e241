//! An object of one of the three kinds.

ghost use Rattle.std.specs.Prelude.{◌≡◌, ◌+◌, ◌≤◌, length};
ghost use Rattle.slab_layer.specs.Images.{patched};
ghost use Rattle.ebpf_object.specs.Object.{bytes_of, kind_of, slot_of};

use slab_layer::{BlockKind, CellKind, Held, Obj, RecordKind};

/// An object that a run holds. It must be spent, and can't be dropped.
pub enum Object {
    Cell(Obj<CellKind, Held>),
    Record(Obj<RecordKind, Held>),
    Block(Obj<BlockKind, Held>),
}

impl Object {
    /// Its bytes, as many as its kind says.
    pub fn bytes(&self) -> &[u8]
        ensures { result.now ≡ bytes_of self.now }
    {
        match self {
            Object::Cell(object) => object.bytes(),
            Object::Record(object) => object.bytes(),
            Object::Block(object) => object.bytes(),
        }
    }

    /// Writes these bytes over those from `place` on.
    pub fn write(&mut self, place: usize, with: &[u8])
        requires { place + length with.now ≤ length (bytes_of self.old) }
        ensures kind { kind_of self.new ≡ kind_of self.old }
        ensures slot { slot_of self.new ≡ slot_of self.old }
        ensures bytes { bytes_of self.new ≡ patched (bytes_of self.old) place with.now }
    {
        match self {
            Object::Cell(object) => object.write(place, with),
            Object::Record(object) => object.write(place, with),
            Object::Block(object) => object.write(place, with),
        }
    }
}
