//! The verdict on the bytes of a program.

ghost use Rattle.std.specs.Prelude.{◌≡◌, IfOk};
ghost use Rattle.ebpf_verify.specs.Verdict.{AreRows};
ghost use Rattle.ebpf_command.specs.Judging.{IsJudged, judged_as};

use crate::codes::RefusalCode;
use ebpf_state::kinds::KindRow;
use ebpf_verify::decl::Decl;
use ebpf_verify::examined::{Examined, examine};
use ebpf_verify::verified::Verified;
use std::alloc::{AllocError, Global};

/// What bytes are judged to be.
#[derive(Drop)]
pub enum Judged {
    /// A program of which no run traps.
    Accepted(Verified),
    /// The first check that refuses them does so with this code, at this slot.
    Refused { code: RefusalCode, slot: u16 },
}

impl Judged {
    /// What bytes that came so far are judged to be.
    pub fn of(examined: Examined) -> Judged
        ensures { result ≡ judged_as examined }
    {
        match examined {
            Examined::Undecoded { slot, code } => Judged::Refused {
                code: RefusalCode::Decode(code),
                slot,
            },
            Examined::Misled { slot, code, .. } => Judged::Refused {
                code: RefusalCode::Flow(code),
                slot,
            },
            Examined::Refused { slot, code, .. } => Judged::Refused {
                code: RefusalCode::Verify(code),
                slot,
            },
            Examined::Accepted(verified) => Judged::Accepted(verified),
        }
    }
}

/// Judges the bytes of a program, for what it declares and with these kinds. It fails only where an allocation fails.
pub fn judge(
    alloc: Global,
    bytes: &[u8],
    decl: Decl,
    kinds: &[KindRow],
) -> Result<Judged, AllocError>
    requires { AreRows kinds.now }
    ensures { IfOk result (IsJudged bytes.now decl kinds.now) }
{
    Ok(Judged::of(examine(alloc, bytes, decl, kinds)?))
}
