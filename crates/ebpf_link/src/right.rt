//! Whether the word of a linked program has the context's pointer in every run, and nothing else touches it.

ghost use Rattle.std.specs.Prelude.{◌≡◌, ◌<◌, IfOk, length, true, false};
ghost use Rattle.ebpf_verify.specs.Verdict.{AreRows};
ghost use Rattle.ebpf_link.specs.Right.{IsShown, IsShownAt, IsRight, IsJudged};

use crate::apart::is_apart_at;
use crate::fetched::holds_after;
use ebpf_flow::check::check;
use ebpf_flow::fault::FlowFault;
use ebpf_insn::program::Program;
use ebpf_layout::layout::copy_of;
use ebpf_state::kinds::KindRow;
use ebpf_verify::decl::Decl;
use ebpf_verify::trace::Trace;
use ebpf_verify::verified::Verified;
use std::alloc::{AllocError, Global};

/// What comes of a program that was linked with a word.
#[derive(Clone, Copy)]
pub(crate) enum Judged {
    /// Its flow has a fault.
    Misled,
    /// The verifier refuses it.
    Refused,
    /// It is accepted, but what is known before some slot doesn't show that the word is right.
    Unshown,
    /// It is accepted, and what is known before each slot shows that the word is right.
    Shown,
}

/// Whether what is known before each slot of an accepted program shows that the word is right: every load of it by r10 gets the context's
/// pointer, and every other load or store of the stack is apart from it. It asks for no places, so it serves a program that was
/// laid out or unrolled after it was linked.
///
/// # Errors
/// It fails only where an allocation fails.
pub fn is_right(alloc: Global, verified: &Verified, word: i16) -> Result<bool, AllocError>
    ensures right { IfOk result (λ right. right ≡ true → IsRight verified.now.program word) }
    ensures shown { IfOk result (λ right. right ≡ true → IsShown verified.now.program word) }
    ensures unshown { IfOk result (λ right. right ≡ false → IsShown verified.now.program word → ⊥) }
{
    let judged = judge(
        alloc,
        verified.program(),
        verified.decl(),
        verified.rows(),
        word,
    )?;
    Ok(matches!(judged, Judged::Shown))
}

/// What the checks say of a program that was linked with a word.
pub(crate) fn judge(
    alloc: Global,
    program: &Program,
    decl: Decl,
    kinds: &[KindRow],
    word: i16,
) -> Result<Judged, AllocError>
    requires { AreRows kinds.now }
    ensures { IfOk result (IsJudged (record { program = program.now; decl = decl; rows = kinds.now }) word) }
{
    let flowed = match check(alloc, copy_of(alloc, program)?) {
        Ok(flowed) => flowed,
        Err(FlowFault::Bad { .. }) => return Ok(Judged::Misled),
        Err(FlowFault::NoMemory) => return Err(AllocError),
    };
    // Read for what it promises: the program is well formed, and its edges lead forward.
    let _ = flowed.program();
    let trace = Trace::of(alloc, &flowed, decl, kinds)?;
    if trace.refusal.is_some() {
        return Ok(Judged::Refused);
    }
    if is_shown(&trace, word) {
        Ok(Judged::Shown)
    } else {
        Ok(Judged::Unshown)
    }
}

// Whether what is known before each slot shows that the word is right.
fn is_shown(trace: &Trace, word: i16) -> bool
    requires all { length trace.now.entries.items ≡ length trace.now.flowed.now }
    ensures shown { result ≡ true → IsShown trace.now.flowed.now word }
    ensures unshown { result ≡ false → IsShown trace.now.flowed.now word → ⊥ }
{
    for slot in 0..trace.entries.len() {
        if !is_shown_at(trace, word, slot) {
            return false;
        }
    }
    true
}

// Whether it shows that of the instruction at a slot.
fn is_shown_at(trace: &Trace, word: i16, slot: usize) -> bool
    requires all { length trace.now.entries.items ≡ length trace.now.flowed.now }
    requires inside { slot < length trace.now.entries.items }
    ensures shown { result ≡ true → IsShownAt trace.now.flowed.now word slot }
    ensures unshown { result ≡ false → IsShownAt trace.now.flowed.now word slot → ⊥ }
{
    holds_after(trace, word, slot) && is_apart_at(trace, word, slot)
}
