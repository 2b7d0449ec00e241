//! Why a text is no program.

use std::alloc::AllocError;
use thiserror::Error;

/// What is wrong with a line.
#[derive(Clone, Copy, Debug, Error)]
pub enum LineFault {
    /// The line begins with the slot of another instruction, or with a label that means another slot.
    #[error("the slot or the label belongs to another instruction")]
    WrongSlot,
    /// No instruction has these words.
    #[error("this is not an instruction")]
    NoInstruction,
    /// The instruction doesn't fit into a program with those before it.
    #[error("a program has at most 4096 slots")]
    TooManySlots,
}

/// Why [`crate::assemble::assemble`] made no program.
#[derive(Clone, Copy, Debug, Error)]
pub enum AssemblyFault {
    /// The first line at fault, counted from 1.
    #[error("line {line}: {fault}")]
    Bad { line: usize, fault: LineFault },
    /// No line has an instruction: the number of the last one.
    #[error("line {line}: there is no instruction")]
    Empty { line: usize },
    /// An allocation failed.
    #[error("out of memory")]
    NoMemory,
}

impl From<AllocError> for AssemblyFault {
    ghost use Rattle.std.specs.Prelude.{◌≡◌};
    ghost use Rattle.ebpf_assembly.specs.declared.fault.AssemblyFault.TheVariants.{NoMemory};

    ghost from_gives = { λ _ e. e ≡ NoMemory };

    fn from(_e: AllocError) -> AssemblyFault {
        AssemblyFault::NoMemory
    }
}
