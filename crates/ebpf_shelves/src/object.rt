//! An object with its slot.

ghost use Rattle.std.specs.Prelude.{◌≡◌, ◌<◌, length, IfOk};
ghost use Rattle.ebpf_machine.specs.World.{image_at};
ghost use Rattle.ebpf_machine.specs.Kinds.{known_kinds};

use ebpf_machine::kinds::row_of;
use std::alloc::{AllocError, Global};

/// An object, with its slot and its bytes. Whoever has the object has the slot.
#[derive(Drop)]
pub struct Object {
    pub slot: u32,
    pub kind: u8,
    pub bytes: Vec<u8>,
}

impl Object {
    /// A new object, with its kind's fill in all its bytes.
    ///
    /// # Errors
    /// It fails only where an allocation fails.
    pub fn new(alloc: Global, slot: u32, kind: u8) -> Result<Object, AllocError>
        requires { kind < length known_kinds }
        ensures { IfOk result (λ o. (o.slot ≡ slot) × (o.kind ≡ kind) × (o.bytes.items ≡ image_at known_kinds kind)) }
    {
        let row = row_of(kind);
        let bytes = vec![in alloc; row.fill; row.size as usize]?;
        Ok(Object { slot, kind, bytes })
    }
}
