//! What can happen in the world.

pub use ebpf_machine::answer::Answer;
use ebpf_machine::context::Context;

/// One atomic step of the world.
#[derive(Drop)]
pub enum Event {
    /// A run of the program of this number begins, on this context. Runs are numbered in the order of their starts.
    Start { program: usize, context: Context },
    /// A run does the instruction at its pc.
    Exec { run: usize, answer: Answer },
    /// A slot joins the ledger of a kind.
    Grow { kind: u8, slot: u32 },
    /// A slot leaves the ledger of a kind.
    Reap { kind: u8, slot: u32 },
}
