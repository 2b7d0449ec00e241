//! Why bytes are not loaded as a program.

use ebpf_command::codes::RefusalCode;
use std::alloc::AllocError;

/// Why bytes are no program of which no run traps.
#[derive(Drop)]
pub struct Refusal {
    /// The stage that refuses them, with its code.
    pub code: RefusalCode,
    /// The slot that is at fault: the lowest one, or one that closes a loop. Of a program that was laid out before it was judged it is a slot
    /// of the new program.
    pub slot: u16,
    /// That slot in the bytes that were given: the same, unless the program was laid out, or none.
    pub given: Option<u16>,
    /// What is wrong there, with the values that are known, and what would mend it: a line, indented by two blanks, and of loops maybe
    /// some more of these.
    pub sentence: String,
}

/// Why a program is not loaded.
#[derive(Drop)]
pub enum LoadFault {
    /// The bytes are refused.
    Refused(Refusal),
    /// The context is declared to be longer than 4,096 bytes, or more than 64 objects are declared.
    Declaration,
    /// An allocation failed.
    NoMemory,
}

impl From<AllocError> for LoadFault {
    ghost use Rattle.std.specs.Prelude.{◌≡◌};
    ghost use Rattle.ebpf_host.specs.declared.refusal.LoadFault.TheVariants.{NoMemory};

    ghost from_gives = { λ _ e. e ≡ NoMemory };

    fn from(_e: AllocError) -> LoadFault {
        LoadFault::NoMemory
    }
}
