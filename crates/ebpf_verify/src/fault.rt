//! Why a program is refused.

ghost use Rattle.std.specs.Prelude.{◌≡◌, ◌<◌, Some};
ghost use Rattle.ebpf_insn.specs.declared.program.TheConstants.{MAX_SLOTS};
ghost use Rattle.ebpf_verify.specs.Verdict.{IsSlotFault};

use std::alloc::{AllocError, AllocFailed};
use thiserror::Error;

/// Why a slot is refused. Users see the code that begins each line. Within a slot `PathsDiffer`
/// comes first, then the codes in the order of the instruction's rule.
#[derive(Clone, Copy, Debug)]
pub enum VerifyCode {
    /// `V1`: a register is read that may be unset.
    UnsetRegister,
    /// `V2`: the frame pointer `r10` is written.
    FramePointerWritten,
    /// `V3`: a pointer is where the operation has no meaning for it.
    PointerMisused,
    /// `V4`: a pointer may be moved by an unknown sign, or more than 2^29 bytes from its base.
    MovedTooFar,
    /// `V5`: a pointer is compared.
    PointerCompared,
    /// `V6`: the access may be outside the stack.
    OutsideStack,
    /// `V7`: a byte of the stack is loaded that may be unset.
    UnsetStack,
    /// `V8`: the load may be outside the context.
    OutsideContext,
    /// `V9`: the context is written.
    ContextWritten,
    /// `V10`: the access may be outside the object.
    OutsideObject,
    /// `V11`: an answer that may be null is used before it was compared with 0.
    UntestedAnswer,
    /// `V12`: a pointer is stored or loaded other than as a whole aligned word of the stack.
    PartialPointer,
    /// `V13`: the address is a number.
    NumberAsAddress,
    /// `V14`: there is no helper of this number.
    UnknownHelper,
    /// `V15`: an argument of the helper isn't what it asks for.
    WrongArgument,
    /// `V16`: as many objects are held already as the program declares.
    TooManyHeld,
    /// `V17`: an object is held at the exit.
    HeldAtExit,
    /// `V18`: the result of the exit is no number.
    NoNumberReturned,
    /// `V19`: paths that hold different objects meet.
    PathsDiffer,
}

/// Why [`crate::verify::verify`] refused a program.
#[derive(Clone, Copy, Debug, Error)]
pub enum VerifyFault {
    /// The lowest slot that is refused, and the first code that applies there.
    #[error("slot {slot} is refused with {code:?}")]
    Refused { slot: u16, code: VerifyCode },
    /// An allocation failed.
    #[error("out of memory")]
    NoMemory,
}

impl<T: Drop> From<AllocFailed<T>> for VerifyFault {
    ghost use Rattle.ebpf_verify.specs.declared.fault.VerifyFault.TheVariants.{NoMemory};

    ghost from_gives = { λ _ e. e ≡ NoMemory };

    fn from(_e: AllocFailed<T>) -> VerifyFault {
        VerifyFault::NoMemory
    }
}

impl From<AllocError> for VerifyFault {
    ghost use Rattle.ebpf_verify.specs.declared.fault.VerifyFault.TheVariants.{NoMemory};

    ghost from_gives = { λ _ e. e ≡ NoMemory };

    fn from(_e: AllocError) -> VerifyFault {
        VerifyFault::NoMemory
    }
}

/// The refusal of a slot.
pub(crate) fn refused_at(slot: usize, code: VerifyCode) -> VerifyFault
    requires { slot < MAX_SLOTS }
    ensures { IsSlotFault slot (Some code) result }
{
    VerifyFault::Refused {
        slot: slot as u16,
        code,
    }
}
