//! The memory of a slab, before it is one.
//!
//! *The idea.* A slab needs memory in many pieces: the bytes of each object, and two tables. All of it is got
//! first and put together here. If a piece is refused, those got before it are freed and nothing else has
//! happened yet.
//!
//! *The invariant.* There are as many pieces as a page has objects, each as long as an object, and room in
//! both tables for as many entries.
//!
//! *The reason.* A slab is then made of its room in steps that can't fail, so that no half-made one has to be
//! taken apart.

ghost use Rattle.std.specs.Prelude.{◌≡◌, ◌≤◌, ◌/◌, length, vec_len, vec_capacity, All};
ghost use Rattle.slab_layer.specs.declared.kind.TheConstants.{PAGE_BYTES};

use crate::kind::{Kind, objects_of_a_page};
use crate::object::{Home, Obj};
use crate::place::Place;
use std::alloc::{AllocError, Global};

// How many bytes are unused after those of each object, whose box is got before them. So these bytes are on no line of the processor's
// cache, of 64 bytes, on which the next object has its box or its bytes, where blocks of memory begin at multiples of 16. Neighbours mostly
// go to different workers: what one writes, the other would wait for.
const APART: usize = 48;

/// Memory for the objects of a page and for the tables of their slab.
pub struct Room<K: Kind> {
    pub bytes: Vec<Box<Vec<u8>>>,
    pub places: Vec<Place>,
    pub home: Vec<Obj<K, Home>>,
    ghost each: { All (λ b. length b.value.items ≡ K.SIZE) bytes.items },
    ghost all: { vec_len bytes ≡ PAGE_BYTES / K.SIZE },
    ghost no_places: { vec_len places ≡ 0 },
    ghost few_places: { PAGE_BYTES / K.SIZE ≤ vec_capacity places },
    ghost none_home: { vec_len home ≡ 0 },
    ghost few_home: { PAGE_BYTES / K.SIZE ≤ vec_capacity home },
}

impl<K: Kind> Room<K> {
    /// The memory of one slab, or none of it.
    pub fn new(alloc: Global) -> Result<Room<K>, AllocError> {
        let count = objects_of_a_page::<K>();
        let mut bytes = Vec::with_capacity(alloc, count)?;
        for _index in 0..count {
            let mut own = Box::new(alloc, Vec::new(alloc))?;
            own.reserve_exact(K::SIZE + APART)?;
            own.resize(K::SIZE, 0)?;
            bytes.push_reserved(own);
        }
        // The first blocks may lie where others were given back, beside what workers write. So they become the objects that are handed
        // out last.
        bytes.reverse();
        let places = Vec::with_capacity(alloc, count)?;
        let home = Vec::with_capacity(alloc, count)?;
        Ok(Room {
            bytes,
            places,
            home,
        })
    }
}
