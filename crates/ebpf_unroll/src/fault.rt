//! Why a program isn't unrolled.

ghost use Rattle.std.specs.Prelude.{◌≡◌};

use ebpf_flow::fault::FlowCode;
use ebpf_verify::fault::VerifyCode;
use std::alloc::{AllocError, AllocFailed};
use thiserror::Error;

/// Why [`crate::unroll::unroll`] refused a program.
#[derive(Clone, Copy, Debug, Error)]
pub enum UnrollFault {
    /// An edge of a slot that the walk came to leads to no instruction: `JumpOutside`, `JumpIntoWide` or `FallsOffEnd`.
    #[error("slot {slot} is refused with {code:?}")]
    Flow {
        slot: u16,
        code: FlowCode,
    },
    /// What is known at this visit of the slot, counted from 1, is refused with this code.
    #[error("slot {slot} is refused with {code:?} at visit {visit}")]
    Refused {
        slot: u16,
        code: VerifyCode,
        visit: usize,
    },
    /// The copies would have more than `MAX_SLOTS` slots. The slot is that loop head which was visited most often, the lowest of
    /// these, and `visits` says how often; without loops it is slot 0.
    #[error("slot {slot} was visited {visits} times, and the program would have more than 4096 slots")]
    Long {
        slot: u16,
        visits: usize,
    },
    /// The copies were written, but aren't accepted, or lead elsewhere. It is not proved that this never comes, and no program is
    /// known of which it does.
    #[error("the copies are not accepted")]
    Unconfirmed,
    /// An allocation failed.
    #[error("out of memory")]
    NoMemory,
}

impl From<AllocError> for UnrollFault {
    ghost use Rattle.ebpf_unroll.specs.declared.fault.UnrollFault.TheVariants.{NoMemory};

    ghost from_gives = { λ _ e. e ≡ NoMemory };

    fn from(_e: AllocError) -> UnrollFault {
        UnrollFault::NoMemory
    }
}

impl<T: Drop> From<AllocFailed<T>> for UnrollFault {
    ghost use Rattle.ebpf_unroll.specs.declared.fault.UnrollFault.TheVariants.{NoMemory};

    ghost from_gives = { λ _ e. e ≡ NoMemory };

    fn from(_e: AllocFailed<T>) -> UnrollFault {
        UnrollFault::NoMemory
    }
}
