//! A program whose flow was checked.

ghost use Rattle.std.specs.Prelude.{◌≡◌, None};
ghost use Rattle.ebpf_insn.specs.Encoding.{IsWellFormed};
ghost use Rattle.ebpf_flow.specs.Edges.{edges_at};
ghost use Rattle.ebpf_flow.specs.Flow.{flow_fault, AreForward, LeadsForward};

use crate::edges::Edges;
use ebpf_insn::program::Program;
use std::marker::Model;

/// A program all of whose edges lead forward to an instruction. Contracts see it as the program. Only
/// [`crate::check::check`] and [`crate::followed::follow`] make one.
#[derive(Drop)]
pub struct Flowed {
    pub(crate) program: Program,
    pub(crate) edges: Vec<Edges>,
}

impl Model for Flowed {
    ghost use Rattle.std.specs.Prelude.{List, Option};
    ghost use Rattle.ebpf_insn.specs.declared.insn.Insn.{Insn};
    ghost use Rattle.ebpf_flow.specs.Flow.{IsFlowed};

    ghost Value = { List (Option Insn) };

    ghost view = { λ f. f.program };

    ghost invariant = { λ f. IsFlowed f.program f.edges.items };
}

impl Flowed {
    /// The program itself.
    pub fn program(&self) -> &Program
        ensures value { result.now ≡ self.now }
        ensures forward { AreForward self.now }
        ensures formed { IsWellFormed self.now }
        ensures fine { flow_fault self.now ≡ None }
    {
        // Read for what they promise: the edges lead forward, and the program is well formed.
        let _ = &self.edges;
        let _ = self.program.slots();
        &self.program
    }

    /// Where the instruction at a slot leads; nowhere from a second half.
    pub fn successors(&self, slot: usize) -> Edges
        ensures value { result ≡ edges_at self.now slot }
        ensures fall { LeadsForward self.now slot result.fall }
        ensures jump { LeadsForward self.now slot result.jump }
    {
        match self.edges.get(slot) {
            Some(edges) => *edges,
            None => Edges {
                fall: None,
                jump: None,
            },
        }
    }
}
