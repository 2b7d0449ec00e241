//! The commands that show what is known of one program without running it: `explain` writes what is known before each instruction, and
//! `graph` draws its basic blocks.
//!
//! What each writes is a function of what it reads and of what is asked, errors included, and it writes nothing else: that is the contract of
//! [`explain::explain`] and [`graph::graph`]. The program that an input gives comes from ebpf_input. Both go the same way as far as the verdict
//! (`shown`), and differ in what they write of it.
//!
//! [`explain::explain_unrolled`] and [`graph::graph_unrolled`] show the program that is made of it so that every jump leads forward (`made`), as it
//! would be shown by itself; `explain` says which slots that one copies (`copies`). Of a function that is linked with data of its object file, `explain`
//! first says which bytes of the context are which data (`data_rows`).
//!
//! To be read in this order: `explain_json`, `copies`, `sourced`, `verdict`, `shown`, `made`, `data_rows`, `explain_object`, `explain`, `graph`.
#![tactic(auto)]

mod copies;
mod data_rows;
pub mod explain;
mod explain_json;
mod explain_object;
pub mod graph;
mod made;
mod shown;
mod sourced;
mod verdict;
