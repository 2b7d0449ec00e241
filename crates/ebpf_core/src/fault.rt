//! Why an event is refused.

use std::alloc::AllocError;
use thiserror::Error;

/// Why an event isn't legal. Users see the code that begins each line. Of several that apply the lowest code is reported, except for an
/// event that names a kind: there `NoSuchProgramOrKind` comes first.
#[derive(Clone, Copy, Debug)]
pub enum ApplyCode {
    /// `E1`: there is no such run.
    NoSuchRun,
    /// `E2`: the run has ended.
    RunEnded,
    /// `E3`: the answered slot is in no ledger, or is owned.
    SlotNotHome,
    /// `E4`: the answered slot is home in the ledger of another kind.
    SlotOfAnotherKind,
    /// `E5`: there is an answer, and the instruction is no call of `new`.
    AnswerUnasked,
    /// `E6`: there is no answer, and the instruction is a call of `new`.
    AnswerMissing,
    /// `E7`: the slot is in a ledger already, of any kind.
    SlotInLedger,
    /// `E8`: the slot is owned, or isn't in the ledger of this kind.
    SlotNotReapable,
    /// `E9`: there is no such program, or no such kind.
    NoSuchProgramOrKind,
    /// `E10`: the context doesn't have the length that the program declares.
    WrongContext,
}

/// Why an event did not take place. The world is as it was.
#[derive(Clone, Copy, Debug, Error)]
pub enum ApplyFault {
    /// The event isn't legal.
    #[error("the event isn't legal")]
    Bad(ApplyCode),
    /// An allocation failed.
    #[error("out of memory")]
    NoMemory,
}

/// Why a list of events has no world.
#[derive(Clone, Copy, Debug, Error)]
pub enum ReplayFault {
    /// The event of this number, from 0, isn't legal; all before it are.
    #[error("event {index} isn't legal")]
    Bad { index: usize, code: ApplyCode },
    /// An allocation failed.
    #[error("out of memory")]
    NoMemory,
}

impl From<AllocError> for ReplayFault {
    ghost use Rattle.std.specs.Prelude.{◌≡◌};
    ghost use Rattle.ebpf_core.specs.declared.fault.ReplayFault.TheVariants.{NoMemory};

    ghost from_gives = { λ _ e. e ≡ NoMemory };

    fn from(_e: AllocError) -> ReplayFault {
        ReplayFault::NoMemory
    }
}
