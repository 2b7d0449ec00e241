//! Objects that no hand has, on their way from one thread to another.

ghost use Rattle.std.specs.Prelude.{◌≡◌};

use crate::place::destroy;
use slab_layer::{Held, Kind, Obj};
use std::alloc::Global;

/// An object that a hand lent, as it lies on a shelf for another thread. One that is dropped is gone, and missing when its cache is
/// closed.
pub struct Parcel<K: Kind> {
    alloc: Global,
    pub object: Obj<K, Held>,
}

impl<K: Kind> Parcel<K> {
    /// A parcel of this object.
    pub fn new(alloc: Global, object: Obj<K, Held>) -> Parcel<K>
        ensures { result.object ≡ object }
    {
        Parcel { alloc, object }
    }

    /// The object.
    pub fn open(self) -> Obj<K, Held>
        ensures { result ≡ self.object }
    {
        let Parcel { alloc: _, object } = self;
        object
    }
}

impl<K: Kind> Drop for Parcel<K> {
    fn drop(self) {
        let Parcel { alloc, object } = self;
        destroy(alloc, object.restore());
    }
}
