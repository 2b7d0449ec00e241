//! The library `ebpf_host` as C calls it: `include/ebpf_host.h` declares these functions, and says what each does.
//!
//! A handle is a word that C sets to zero before the first call and otherwise only passes on. Each function does one thing of
//! ebpf_host, states what that promises, and reports the outcome by a status. The runs of a batch go one after another in one memory,
//! over any store, that of a machine or of a worker; those of a long program go four together. Nothing here starts a thread or takes a lock.
//!
//! To be read in this order: `status`, `reported`, `said`, `share`, `loading`, `with_data`, `program`, `functions`, `about`, `by_fours`,
//! `in_turn`, `machine`, `batch`, `shelving`, `totals`, `shared`, `worker`, `worker_batch`, `worker_shelving`.
#![tactic(auto)]

pub mod about;
pub mod batch;
mod by_fours;
pub mod functions;
pub mod in_turn;
pub mod loading;
pub mod machine;
pub mod program;
pub mod reported;
pub mod said;
pub mod share;
pub mod shared;
pub mod shelving;
pub mod status;
pub mod totals;
pub mod with_data;
pub mod worker;
pub mod worker_batch;
pub mod worker_shelving;
