//! How far the bytes of a program come through the three checks.

ghost use Rattle.std.specs.Prelude.{◌≡◌, IfOk};
ghost use Rattle.ebpf_verify.specs.Examined.{IsExamined, examined_by};
ghost use Rattle.ebpf_verify.specs.Verdict.{AreRows, verdict};

use crate::decl::Decl;
use crate::fault::{VerifyCode, VerifyFault};
use crate::verified::Verified;
use crate::verify::{accept, walk};
use ebpf_flow::fault::FlowCode;
use ebpf_flow::flowed::Flowed;
use ebpf_flow::followed::{Followed, follow};
use ebpf_insn::fault::DecodeCode;
use ebpf_insn::program::Program;
use ebpf_state::kinds::KindRow;
use std::alloc::{AllocError, Global};

/// The bytes of a program, as far as they come. A refusal has the lowest slot at fault, the first code that applies there, and what
/// there is of the program, from which its sentence is made.
#[derive(Drop)]
pub enum Examined {
    /// They are no program.
    Undecoded {
        slot: u16,
        code: DecodeCode,
    },
    /// The flow of the program that they are is refused.
    Misled {
        program: Program,
        slot: u16,
        code: FlowCode,
    },
    /// The verifier refuses the program that they are.
    Refused {
        flowed: Flowed,
        slot: u16,
        code: VerifyCode,
    },
    /// They are a program of which no run traps.
    Accepted(Verified),
}

/// Puts bytes through the checks: they are decoded, then the flow is checked, then the program is verified for what it declares, with
/// these kinds.
///
/// # Errors
/// It fails only where an allocation fails.
pub fn examine(
    alloc: Global,
    bytes: &[u8],
    decl: Decl,
    kinds: &[KindRow],
) -> Result<Examined, AllocError>
    requires { AreRows kinds.now }
    ensures { IfOk result (IsExamined bytes.now decl kinds.now) }
{
    match follow(alloc, bytes)? {
        Followed::Undecoded { slot, code } => Ok(Examined::Undecoded { slot, code }),
        Followed::Misled {
            program,
            slot,
            code,
        } => Ok(Examined::Misled {
            program,
            slot,
            code,
        }),
        Followed::Flowed(flowed) => examine_flowed(alloc, flowed, decl, kinds),
    }
}

// Verifies a program whose flow was checked.
fn examine_flowed(
    alloc: Global,
    flowed: Flowed,
    decl: Decl,
    kinds: &[KindRow],
) -> Result<Examined, AllocError>
    requires { AreRows kinds.now }
    ensures { IfOk result (λ e. e ≡ examined_by (verdict (record { program = flowed; decl = decl; rows = kinds.now })) (record { program = flowed; decl = decl; rows = kinds.now })) }
{
    match walk(alloc, &flowed, decl, kinds) {
        Ok(()) => Ok(Examined::Accepted(accept(alloc, flowed, decl, kinds)?)),
        Err(VerifyFault::Refused { slot, code }) => Ok(Examined::Refused { flowed, slot, code }),
        Err(VerifyFault::NoMemory) => Err(AllocError),
    }
}
