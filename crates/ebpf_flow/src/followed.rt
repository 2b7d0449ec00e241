//! Where the bytes of a program lead, or which of the two checks before the verifier refuses them.

ghost use Rattle.std.specs.Prelude.{◌≡◌, IfOk};
ghost use Rattle.ebpf_flow.specs.Followed.{IsFollowed, followed_by};
ghost use Rattle.ebpf_flow.specs.Flow.{flow_fault};

use crate::check::edges_in;
use crate::fault::{FlowCode, FlowFault};
use crate::flowed::Flowed;
use ebpf_insn::decode::decode;
use ebpf_insn::fault::{DecodeCode, DecodeFault};
use ebpf_insn::program::Program;
use std::alloc::{AllocError, Global};

/// The bytes of a program, as far as they come without the verifier. A refusal keeps what its sentence is made from.
#[derive(Drop)]
pub enum Followed {
    /// They are no program: the lowest slot at fault, and the first code that applies there.
    Undecoded {
        slot: u16,
        code: DecodeCode,
    },
    /// The flow of the program that they are is refused, at the lowest slot at fault.
    Misled {
        program: Program,
        slot: u16,
        code: FlowCode,
    },
    /// Each instruction of the program that they are leads forward.
    Flowed(Flowed),
}

/// Decodes bytes, and checks where the instructions lead.
///
/// # Errors
/// It fails only where an allocation fails.
pub fn follow(alloc: Global, bytes: &[u8]) -> Result<Followed, AllocError>
    ensures { IfOk result (IsFollowed bytes.now) }
{
    match decode(alloc, bytes) {
        Ok(program) => follow_program(alloc, program),
        Err(DecodeFault::Bad { slot, code }) => Ok(Followed::Undecoded { slot, code }),
        Err(DecodeFault::NoMemory) => Err(AllocError),
    }
}

// Checks where the instructions of a program lead.
fn follow_program(alloc: Global, program: Program) -> Result<Followed, AllocError>
    ensures { IfOk result (λ followed. followed ≡ followed_by (flow_fault program) program) }
{
    match edges_in(alloc, &program) {
        Ok(edges) => Ok(Followed::Flowed(Flowed { program, edges })),
        Err(FlowFault::Bad { slot, code }) => Ok(Followed::Misled {
            program,
            slot,
            code,
        }),
        Err(FlowFault::NoMemory) => Err(AllocError),
    }
}
