//! Why a program isn't linked with its data.

ghost use Rattle.std.specs.Prelude.{◌≡◌};

use ebpf_flow::fault::FlowCode;
use std::alloc::{AllocError, AllocFailed};
use thiserror::Error;

/// Why [`crate::link::link`] or [`crate::choice::linked`] refused a program.
#[derive(Clone, Copy, Debug, Error)]
pub enum LinkFault {
    /// An edge of this slot leads to no instruction: `JumpOutside`, `JumpIntoWide` or `FallsOffEnd` at the lowest such slot. A jump into
    /// the second half of a 64-bit immediate is refused here, since an instruction is there once the immediate is an address.
    #[error("slot {slot} is refused with {code:?}")]
    Flow { slot: u16, code: FlowCode },
    /// An address is wanted at a slot where no 64-bit immediate begins.
    #[error("slot {slot} loads no 64-bit immediate")]
    NotWide { slot: u16 },
    /// The address is more than 4096 bytes from the context's first byte.
    #[error("the address of slot {slot} is too far from the context")]
    Far { slot: u16 },
    /// The program has `MAX_SLOTS` slots already, and one is added.
    #[error("the program would have more than 4096 slots")]
    Slots,
    /// The program may use each of the words of the stack that are tried. Only [`crate::choice::linked`] says so.
    #[error("no word of the stack is free for the context's pointer")]
    NoWord,
    /// An allocation failed.
    #[error("out of memory")]
    NoMemory,
}

impl From<AllocError> for LinkFault {
    ghost use Rattle.ebpf_link.specs.declared.fault.LinkFault.TheVariants.{NoMemory};

    ghost from_gives = { λ _ e. e ≡ NoMemory };

    fn from(_e: AllocError) -> LinkFault {
        LinkFault::NoMemory
    }
}

impl<T: Drop> From<AllocFailed<T>> for LinkFault {
    ghost use Rattle.ebpf_link.specs.declared.fault.LinkFault.TheVariants.{NoMemory};

    ghost from_gives = { λ _ e. e ≡ NoMemory };

    fn from(_e: AllocFailed<T>) -> LinkFault {
        LinkFault::NoMemory
    }
}
