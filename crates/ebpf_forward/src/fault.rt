//! Why no program is made of which every jump leads forward.

ghost use Rattle.std.specs.Prelude.{◌≡◌};

use ebpf_flow::fault::FlowCode;
use ebpf_verify::fault::VerifyCode;
use std::alloc::{AllocError, AllocFailed};
use thiserror::Error;

/// An edge that closes a loop.
#[derive(Clone, Copy, Debug)]
pub struct BackEdge {
    pub from: u16,
    pub to: u16,
}

/// A slot of which the rule refuses what is known there at some visit.
#[derive(Clone, Copy, Debug)]
pub struct RefusedVisit {
    pub slot: u16,
    pub code: VerifyCode,
    /// Counted from 1.
    pub visit: usize,
}

/// Why [`crate::forward::forward`] made no program.
#[derive(Clone, Copy, Debug, Error)]
pub enum ForwardFault {
    /// An edge of this slot leads to no instruction.
    #[error("slot {slot} is refused with {code:?}")]
    Flow { slot: u16, code: FlowCode },
    /// The program has no loops, but laid out it has more than `MAX_SLOTS` slots.
    #[error("the program would have more than 4096 slots")]
    Slots,
    /// The loops were walked round as far as a slot that is refused.
    #[error("{0:?} is refused")]
    Refused(RefusedVisit),
    /// This edge closes a loop, and with the turns of its loops the program has more than `MAX_SLOTS` slots.
    #[error("the turns of {0:?} have more than 4096 slots")]
    Long(BackEdge),
    /// This edge closes a loop, and the program of its turns is not accepted.
    #[error("the turns of {0:?} are not accepted")]
    Unconfirmed(BackEdge),
    /// An allocation failed.
    #[error("out of memory")]
    NoMemory,
}

impl From<AllocError> for ForwardFault {
    ghost use Rattle.ebpf_forward.specs.declared.fault.ForwardFault.TheVariants.{NoMemory};

    ghost from_gives = { λ _ e. e ≡ NoMemory };

    fn from(_e: AllocError) -> ForwardFault {
        ForwardFault::NoMemory
    }
}
