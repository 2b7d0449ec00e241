//! What a host leaves by a worker on the shelves that all share, and takes from there.
//!
//! *The idea.* The host does what a run of the worker does: it takes an object of a kind, writes to it, and exchanges it for what is on the
//! shelf of that kind. What it gets for it goes back. What is on a shelf between two calls is for any worker to take, so nothing is said of that.

ghost use Rattle.std.specs.Prelude.{◌≡◌, ◌<◌, ◌≤◌, length, OnOk, IfErr, IfOk};
ghost use Rattle.ebpf_machine.specs.Kinds.{known_kinds};
ghost use Rattle.ebpf_object.specs.KindName.{number_of};
ghost use Rattle.ebpf_host.specs.Shelving.{IsPutFault, image_of};
ghost use Rattle.ebpf_host.specs.Workers.{HasTaken};
ghost use Rattle.shared_store.specs.Putting.{HasPut, HoldAsMuch};

use crate::copying::copy;
use crate::shelving::{PutFault, size_of};
use crate::worker::Worker;
use ebpf_machine::objects::Objects;
use ebpf_object::KindName;
use shared_store::Store;

impl Worker {
    /// Leaves an object of a kind on its shelf, for the next program, of whatever worker, that exchanges something there: it begins with these
    /// bytes, and has its kind's image after them. Returns whether it is there in place of another, which is given back.
    ///
    /// # Errors
    /// `TooLong` if an object of the kind has fewer bytes; `NoObject` if there is none to be had. Nothing was put then.
    pub fn put(&mut self, kind: KindName, bytes: &[u8]) -> Result<bool, PutFault>
        ensures put { IfOk result (HasPut self.old self.new kind) }
        ensures fits { OnOk result (length bytes.now ≤ length (image_of kind)) }
        ensures fault { IfErr result (IsPutFault kind (length bytes.now)) }
    {
        if bytes.len() > size_of(kind) {
            return Err(PutFault::TooLong);
        }
        match self.store.put(kind, bytes) {
            Some(replaced) => Ok(replaced),
            None => Err(PutFault::NoObject),
        }
    }

    /// Takes what is on the shelf of a kind off it, copies its bytes as far as there is room, and gives it back. Returns whether there was
    /// something; else the room stays as it is.
    pub fn take(&mut self, kind: KindName, room: &mut [u8]) -> bool
        ensures { HasTaken self.old self.new (number_of kind) result room.old room.new }
    {
        taken(&mut self.store, number(kind), room)
    }
}

// The same with the worker's store, by the kind's number.
fn taken(store: &mut Store, kind: u8, room: &mut [u8]) -> bool
    requires { kind < length known_kinds }
    ensures taken { HasTaken store.old.tools store.new.tools kind result room.old room.new }
    ensures held { HoldAsMuch store.old.tools store.new.tools }
{
    match store.swap(kind, None, 0) {
        Some(object) => {
            copy(store.bytes(&object), room);
            store.give(kind, object);
            true
        }
        None => false,
    }
}

// The number of a kind.
fn number(kind: KindName) -> u8
    ensures number { result ≡ number_of kind }
    ensures few { result < length known_kinds }
{
    match kind {
        KindName::Cell => 0,
        KindName::Record => 1,
        KindName::Block => 2,
    }
}
