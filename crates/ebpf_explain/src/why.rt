//! Why the bytes of a program are refused, in a sentence.

ghost use Rattle.std.specs.Prelude.{◌≡◌, ◌++◌, string_bytes, OnOk};
ghost use Rattle.ebpf_verify.specs.Verdict.{AreRows};
ghost use Rattle.ebpf_explain.specs.Why.{why_of, why_verified};

use crate::decode_sentence::write_decode_sentence;
use crate::reason::{write_misled, write_reason};
use ebpf_flow::flowed::Flowed;
use ebpf_state::kinds::KindRow;
use ebpf_verify::decl::Decl;
use ebpf_verify::examined::Examined;
use ebpf_verify::trace::Trace;
use std::alloc::{AllocError, Global};

/// Writes after a text why the bytes of a program are refused, as a line: the sentence of the first check that refuses them, by how
/// far they came through the checks, for what is declared and with these kinds. Nothing is written of a program that is accepted. One that
/// the verifier refuses is judged once more, since a state is kept for each slot only where it is asked why.
///
/// # Errors
/// It fails only where an allocation fails, and some of the line may be written then.
pub fn write_why(
    alloc: Global,
    text: &mut String,
    bytes: &[u8],
    examined: &Examined,
    decl: Decl,
    kinds: &[KindRow],
) -> Result<(), AllocError>
    requires { AreRows kinds.now }
    ensures { OnOk result (string_bytes text.new ≡ string_bytes text.old ++ why_of bytes.now decl kinds.now examined.now) }
{
    match examined {
        Examined::Undecoded { slot, code } => {
            write_decode_sentence(text, bytes, *slot as usize, *code)
        }
        Examined::Misled {
            program,
            slot,
            code,
        } => write_misled(alloc, text, program, *slot as usize, *code),
        Examined::Refused { flowed, .. } => write_why_flowed(alloc, text, flowed, decl, kinds),
        Examined::Accepted(_) => Ok(()),
    }
}

// Writes why the verifier refuses a program whose flow has no fault.
fn write_why_flowed(
    alloc: Global,
    text: &mut String,
    flowed: &Flowed,
    decl: Decl,
    kinds: &[KindRow],
) -> Result<(), AllocError>
    requires { AreRows kinds.now }
    ensures { OnOk result (string_bytes text.new ≡ string_bytes text.old ++ why_verified (record { program = flowed.now; decl = decl; rows = kinds.now })) }
{
    let trace = Trace::of(alloc, flowed, decl, kinds)?;
    let Some((slot, code)) = trace.refusal else {
        return Ok(());
    };
    write_reason(alloc, text, &trace, slot as usize, code)
}
