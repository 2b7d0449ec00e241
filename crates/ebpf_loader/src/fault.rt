//! Why a function isn't linked with its data.

ghost use Rattle.std.specs.Prelude.{◌≡◌};

use ebpf_insn::fault::DecodeCode;
use ebpf_insn::program::Program;
use ebpf_link::fault::LinkFault;
use ebpf_object_file::data_parts::Data;
use std::alloc::AllocError;

/// Why [`crate::load::load`] refused a function.
#[derive(Drop)]
pub enum LoadFault {
    /// Its bytes are no program.
    Undecoded { slot: u16, code: DecodeCode },
    /// A context of this many bytes and the data have more than 4,096 bytes together.
    TooLong { context: u32, laid: Data },
    /// Its program isn't linked.
    Unlinked { program: Program, fault: LinkFault },
    /// An allocation failed.
    NoMemory,
}

impl From<AllocError> for LoadFault {
    ghost use Rattle.ebpf_loader.specs.declared.fault.LoadFault.TheVariants.{NoMemory};

    ghost from_gives = { λ _ e. e ≡ NoMemory };

    fn from(_e: AllocError) -> LoadFault {
        LoadFault::NoMemory
    }
}
