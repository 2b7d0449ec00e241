//! Why a program's flow is refused.

ghost use Rattle.std.specs.Prelude.{◌≡◌};

use std::alloc::AllocError;
use thiserror::Error;

/// Why a slot is refused. Users see the code that begins each line. Within a slot the order is that of the codes.
#[derive(Clone, Copy, Debug)]
pub enum FlowCode {
    /// `F1`: the target of the jump is below slot 0 or past the last slot.
    JumpOutside,
    /// `F2`: the target of the jump is the second half of a wide instruction.
    JumpIntoWide,
    /// `F3`: the target of the jump isn't after the jump's own slot.
    JumpBackward,
    /// `F4`: the instruction goes on to the slot after the last.
    FallsOffEnd,
    /// `F5`: no path from slot 0 reaches the instruction.
    Unreachable,
}

/// Why [`crate::check::check`] refused a program.
#[derive(Clone, Copy, Debug, Error)]
pub enum FlowFault {
    /// The lowest slot at fault, and the first code that applies there.
    #[error("slot {slot} is refused with {code:?}")]
    Bad { slot: u16, code: FlowCode },
    /// An allocation failed.
    #[error("out of memory")]
    NoMemory,
}

impl From<AllocError> for FlowFault {
    ghost use Rattle.ebpf_flow.specs.declared.fault.FlowFault.TheVariants.{NoMemory};

    ghost from_gives = { λ _ e. e ≡ NoMemory };

    fn from(_e: AllocError) -> FlowFault {
        FlowFault::NoMemory
    }
}
