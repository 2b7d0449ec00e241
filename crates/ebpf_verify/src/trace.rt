//! What the verdict rests on: what is known before each slot that was looked at.

ghost use Rattle.std.specs.Prelude.{◌≡◌, IfOk};
ghost use Rattle.std.proofs.Props.{props};
ghost use Rattle.ebpf_verify.specs.Traces.{AreLookedAt, IsTrace};
ghost use Rattle.ebpf_verify.specs.Verdict.{AreRows};

use crate::decl::Decl;
use crate::entry::EntryState;
use crate::fault::{VerifyCode, VerifyFault};
use crate::verify::{first_entries, visit};
use ebpf_flow::flowed::Flowed;
use ebpf_state::kinds::KindRow;
use std::alloc::{AllocError, Global};

/// A program whose flow was checked, what it declares, the kinds that it was judged with, and what its verdict rests on. Why a
/// slot is refused, and what is known before one, is read from it.
#[derive(Drop)]
pub struct Trace<'a> {
    pub flowed: &'a Flowed,
    pub decl: Decl,
    pub kinds: &'a [KindRow],
    /// What is known before each slot, in the order of the slots, up to the one that is refused.
    pub entries: Vec<EntryState>,
    /// The slot that is refused, and the first code that applies there.
    pub refusal: Option<(u16, VerifyCode)>,
    ghost rows: { AreRows kinds.now } by { Prim.hlevel props },
    ghost looked: { AreLookedAt (record { program = flowed.now; decl = decl; rows = kinds.now }) entries.items } by { Prim.hlevel props },
}

impl<'a> Trace<'a> {
    ghost use Rattle.ebpf_verify.specs.Traced.{subject_of};

    /// Judges a program as [`crate::verify::verify`] does, and keeps what is known before each slot that it looks at. It takes the
    /// memory of a state for each slot, and fails only where an allocation fails.
    pub fn of(
        alloc: Global,
        flowed: &'a Flowed,
        decl: Decl,
        kinds: &'a [KindRow],
    ) -> Result<Trace<'a>, AllocError>
        requires { AreRows kinds.now }
        ensures subject { IfOk result (λ t. subject_of t ≡ record { program = flowed.now; decl = decl; rows = kinds.now }) }
        ensures trace { IfOk result (λ t. IsTrace (record { program = flowed.now; decl = decl; rows = kinds.now }) t.entries.items t.refusal) }
    {
        let slots = flowed.program().slots();
        let mut arriving = first_entries(alloc, slots)?;
        let mut entries = Vec::with_capacity(alloc, slots)?;
        for slot in 0..slots {
            entries.push(arriving[slot].copy()?)?;
            match visit(flowed, decl, kinds, slot, &mut arriving) {
                Ok(()) => {}
                Err(VerifyFault::Refused { slot, code }) => {
                    return Ok(Trace {
                        flowed,
                        decl,
                        kinds,
                        entries,
                        refusal: Some((slot, code)),
                    });
                }
                Err(VerifyFault::NoMemory) => return Err(AllocError),
            }
        }
        Ok(Trace {
            flowed,
            decl,
            kinds,
            entries,
            refusal: None,
        })
    }
}
