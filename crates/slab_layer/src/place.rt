//! Where the object of a slot is.
//!
//! *The idea.* An object of a slab is in one of two places, and a slot of no slab is in none.

/// Where an object of a slab is: home, in its slab, or out, with whoever took it.
#[derive(Clone, Copy)]
pub enum Place {
    Home,
    Out,
}
