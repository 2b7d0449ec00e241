//! Why bytes are no program.

use std::alloc::AllocError;
use thiserror::Error;

/// Why a slot is refused. Users see the code that begins each line. Within a slot `ProgramTooLong` comes first, then `UnknownOpcode`,
/// `UnsupportedForm`, and the others in the order of their codes.
#[derive(Clone, Copy, Debug)]
pub enum DecodeCode {
    /// `I1`: there are no bytes, or their number is no multiple of 8. It is reported at slot 0, before all else.
    WrongLength,
    /// `I2`: the opcode means no instruction.
    UnknownOpcode,
    /// `I3`: a register nibble is above 10, whether the instruction reads it or not.
    UnknownRegister,
    /// `I4`: a field that the instruction doesn't use isn't zero.
    UnusedFieldSet,
    /// `I5`: a wide instruction has no second slot.
    MissingSecondSlot,
    /// `I6`: the second slot of a wide instruction has an opcode, a register or an offset that isn't zero.
    BadSecondSlot,
    /// `I7`: the offset or the immediate isn't defined for the operation.
    UndefinedField,
    /// `I8`: a form that is left out: maps, packets, atomics, and calls other than to helpers.
    UnsupportedForm,
    /// `I9`: the program has more than 4096 slots. It is reported at slot 4096.
    ProgramTooLong,
}

/// Why [`crate::decode::decode`] made no program.
#[derive(Clone, Copy, Debug, Error)]
pub enum DecodeFault {
    /// The lowest slot at fault, and the first code that applies there.
    #[error("slot {slot} is refused with {code:?}")]
    Bad { slot: u16, code: DecodeCode },
    /// An allocation failed.
    #[error("out of memory")]
    NoMemory,
}

impl From<AllocError> for DecodeFault {
    ghost use Rattle.std.specs.Prelude.{◌≡◌};
    ghost use Rattle.ebpf_insn.specs.declared.fault.DecodeFault.TheVariants.{NoMemory};

    ghost from_gives = { λ _ e. e ≡ NoMemory };

    fn from(_e: AllocError) -> DecodeFault {
        DecodeFault::NoMemory
    }
}
