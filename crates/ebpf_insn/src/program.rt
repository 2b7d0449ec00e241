//! A decoded program.

ghost use Rattle.std.specs.Prelude.{◌≡◌, ◌≤◌, length};
ghost use Rattle.std.specs.Option.{option_copied};
ghost use Rattle.ebpf_insn.specs.Program.{instructions, insn_at};
ghost use Rattle.ebpf_insn.specs.Encoding.{IsWellFormed};
ghost use Rattle.ebpf_insn.specs.declared.program.TheConstants.{MAX_SLOTS};

use crate::insn::Insn;
use std::marker::Model;

/// The most slots of a program.
pub const MAX_SLOTS: usize = 4096;

/// A program: 1 to [`MAX_SLOTS`] slots, each with the instruction that begins there or, in the second half of a wide
/// instruction, with none.
///
/// Contracts see it as the list of its slots. [`crate::decode::decode`] makes one of bytes.
#[derive(Drop)]
pub struct Program {
    slots: Vec<Option<Insn>>,
    len: usize,
}

impl Model for Program {
    ghost use Rattle.std.specs.Prelude.{List, Option, ◌≡◌, length};
    ghost use Rattle.ebpf_insn.specs.declared.insn.Insn.{Insn};
    ghost use Rattle.ebpf_insn.specs.Program.{instructions};
    ghost use Rattle.ebpf_insn.specs.Encoding.{IsWellFormed};

    ghost Value = { List (Option Insn) };

    ghost view = { λ p. p.slots.items };

    ghost invariant = { λ p. IsWellFormed p.slots.items × (p.len ≡ length (instructions p.slots.items)) };
}

impl Program {
    /// The program of these slots, which hold n instructions.
    pub fn new(slots: Vec<Option<Insn>>, len: usize) -> Program
        requires formed { IsWellFormed slots.items }
        requires count { len ≡ length (instructions slots.items) }
        ensures { result ≡ slots.items }
    {
        Program { slots, len }
    }

    /// How many instructions the program has: a wide one counts once.
    pub fn len(&self) -> usize
        ensures value { result ≡ length (instructions self.now) }
        ensures bound { result ≤ MAX_SLOTS }
    {
        self.len
    }

    /// How many slots the program has, 1 to [`MAX_SLOTS`].
    pub fn slots(&self) -> usize
        ensures value { result ≡ length self.now }
        ensures bound { result ≤ MAX_SLOTS }
        ensures some { 1 ≤ result }
        ensures formed { IsWellFormed self.now }
    {
        self.slots.len()
    }

    /// The instruction that begins at a slot: `None` in a second half, and outside the program.
    pub fn at(&self, slot: usize) -> Option<&Insn>
        ensures { option_copied result ≡ insn_at self.now slot }
    {
        match self.slots.get(slot) {
            Some(Some(insn)) => Some(insn),
            _ => None,
        }
    }
}
