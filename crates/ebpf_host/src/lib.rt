//! Programs in a host's own process: on a machine one run at a time, by workers as many as the host has threads.
//!
//! A host loads a [`program::Program`] once and runs it any number of times. A [`machine::Machine`] has the memory of runs and the
//! objects that programs take, for one run at a time. A [`worker::Worker`] has the memory of runs, and takes objects from what all
//! workers of a [`shared::Shared`] share: caches, and a shelf of each kind. Nothing here starts a thread, takes a lock or waits: the
//! threads are the host's own, with a machine or a worker each.
//!
//! What it promises: a loaded program is one that the verifier accepts, and a refusal is the verdict with its sentence. One with loops may be
//! loaded too, with its loops unrolled by ebpf_forward: each run of it then ends, and does what the loaded program does. A report is that
//! of the program alone with the answers that its calls got, no matter what ran before or runs beside it. A run within a limit does as
//! many instructions as it says. What is on the shelves of a machine afterwards is what the program alone leaves there. A worker holds
//! nothing after a run, and when all are closed, all that they took came back. It rests on this: the stores of machines and of workers
//! keep the laws of `Objects` of ebpf_machine.
//!
//! To be read in this order: `refusal`, `program`, `unrolled`, `copying`, `stock`, `stocks`, `store`, `contexts`, `within`, `four_within`, `machine`,
//! `shelving`, `worker`, `shared`, `worker_shelving`.
#![tactic(auto)]

pub mod contexts;
pub mod copying;
pub mod four_within;
pub mod machine;
pub mod program;
pub mod refusal;
pub mod shared;
pub mod shelving;
pub mod stock;
pub mod stocks;
mod store;
mod unrolled;
pub mod within;
pub mod worker;
pub mod worker_shelving;
