//! Which steps of a run are chosen to be shown.

ghost use Rattle.std.specs.Prelude.{◌≡◌};
ghost use Rattle.ebpf_steps.specs.Chosen.{chooses, sets_chosen};

use crate::change::Change;
use ebpf_insn::register::Reg;

/// Which steps of a run are chosen to be shown: those that meet all of this.
#[derive(Clone, Copy)]
pub struct Choice {
    /// How many steps of the run come before the first one.
    pub skipped: u64,
    /// The lowest slot of a step.
    pub from: usize,
    /// Whether each register is chosen, by its number, if a step has to set one that is chosen.
    pub registers: Option<[bool; 11]>,
}

impl Choice {
    // Whether a step is chosen, by how many steps were before it, its slot and what it changed.
    pub(crate) fn chooses(self, before: u64, slot: usize, change: Change) -> bool
        ensures { result ≡ chooses self before slot change }
    {
        if before < self.skipped || slot < self.from {
            return false;
        }
        match self.registers {
            Some(registers) => sets_chosen(registers, change),
            None => true,
        }
    }
}

// Whether one of these registers got a value.
fn sets_chosen(registers: [bool; 11], change: Change) -> bool
    ensures { result ≡ sets_chosen registers change }
{
    match change {
        Change::Register { register, .. } => registers[register.number()],
        Change::Output { .. } => registers[Reg::R0.number()],
        Change::Memory { .. } | Change::Nothing => false,
    }
}
