//! Objects of three kinds, made a page at a time and kept in slabs.
//!
//! An [`Obj`] owns its bytes and carries its state in its type: `Home` in a slab, `Ready` with its image,
//! `Held` by a client. A change of state takes the object and makes one in the other state of it, with the same
//! slot and the same memory, so none of them can fail. That a ready object's bytes are the kind's image is
//! in its type.
//!
//! [`Slabs`] are seen from outside as a finite map from slots to home or out. `take` gives an object whose slot
//! was home, and None only where none is. `give` takes one back and answers false exactly where its slot isn't
//! out of these slabs. `grow` adds a page's objects, `reap` takes a page away all of whose objects are home.
//! Only `grow` takes memory; `grow_from` is `grow` by a page of an arena.
//!
//! Objects and slabs must be spent: given back, or ended by `end`. They can't be dropped.
#![tactic(auto)]

mod growth;
mod kind;
mod object;
mod place;
mod room;
mod slab;
mod slab_tables;
mod slabs;

pub use growth::GrowFault;
pub use kind::{BlockKind, CellKind, Kind, RecordKind, SLOTS, SLOTS_OF_A_PAGE};
pub use object::{Held, Home, Obj, Ready, State};
pub use place::Place;
pub use slabs::Slabs;
