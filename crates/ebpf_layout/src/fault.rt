//! Why a program isn't laid out.

ghost use Rattle.std.specs.Prelude.{◌≡◌};

use ebpf_flow::fault::FlowCode;
use std::alloc::{AllocError, AllocFailed};
use thiserror::Error;

/// Why [`crate::layout::lay_out`] refused a program.
#[derive(Clone, Copy, Debug, Error)]
pub enum LayoutFault {
    /// An edge of a reached instruction leads to no instruction: `JumpOutside`, `JumpIntoWide` or `FallsOffEnd` at the lowest such slot.
    #[error("slot {slot} is refused with {code:?}")]
    Flow { slot: u16, code: FlowCode },
    /// Something reached leads to a slot from which a path leads back. Where there is such a loop it is reported before anything else.
    #[error("slot {from} leads back to slot {to}")]
    Loop { from: u16, to: u16 },
    /// Laid out, with the jumps that are added, the program has more than `MAX_SLOTS` slots.
    #[error("the program would have more than 4096 slots")]
    Slots,
    /// An allocation failed.
    #[error("out of memory")]
    NoMemory,
}

impl From<AllocError> for LayoutFault {
    ghost use Rattle.ebpf_layout.specs.declared.fault.LayoutFault.TheVariants.{NoMemory};

    ghost from_gives = { λ _ e. e ≡ NoMemory };

    fn from(_e: AllocError) -> LayoutFault {
        LayoutFault::NoMemory
    }
}

impl<T: Drop> From<AllocFailed<T>> for LayoutFault {
    ghost use Rattle.ebpf_layout.specs.declared.fault.LayoutFault.TheVariants.{NoMemory};

    ghost from_gives = { λ _ e. e ≡ NoMemory };

    fn from(_e: AllocFailed<T>) -> LayoutFault {
        LayoutFault::NoMemory
    }
}
