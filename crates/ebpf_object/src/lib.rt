//! Objects that a run holds, of any kind.
//!
//! The slabs, and all that is built on them, know the kind of an object by its type. A run names it by a number. Here both meet: an
//! [`Object`] is one of the three kinds, and has the number, the slot and the bytes by which the definitions of runs speak of it. A
//! [`KindName`] is the number as a name, and an [`Offer`] is what goes onto the shelf of a kind.
#![tactic(auto)]

mod kind_name;
mod object;
mod offer;

pub use kind_name::{KindName, kind_named};
pub use object::Object;
pub use offer::Offer;
