//! Objects by their slots, and the shelves over which runs hand them to one another.
//!
//! An [`object::Object`] has its slot, its kind and its bytes: whoever has the object has the slot. [`shelves::Shelves`] have a
//! shelf for each kind, with an object of that kind or with none. A store of a run (`Objects` of ebpf_machine) whose objects are such
//! answers a call of `swap` by one exchange there. [`store::Store`] is the store of a run alone, with such shelves.
//!
//! To be read in this order: `object`, `shelves`, `store`.
#![tactic(auto)]

pub mod object;
pub mod shelves;
pub mod store;
