//! A program with loops, unrolled.

ghost use Rattle.std.specs.Prelude.{◌≡◌, ◌≤◌, IfOk, IfErr, IfSome, length};
ghost use Rattle.ebpf_insn.specs.declared.program.TheConstants.{MAX_SLOTS};
ghost use Rattle.ebpf_layout.specs.Layout.{copied_in};
ghost use Rattle.ebpf_verify.specs.Subject.{Subject};
ghost use Rattle.ebpf_verify.specs.Verdict.{AreRows, IsAccepted};
ghost use Rattle.ebpf_unroll.specs.Ending.{AlwaysEnds};
ghost use Rattle.ebpf_unroll.specs.Refusal.{IsUnrollFault};
ghost use Rattle.ebpf_unroll.specs.Unrolling.{IsUnrolled};

use crate::check::is_unrolled;
use crate::copies::copies_of;
use crate::fault::UnrollFault;
use crate::order::order_of;
use crate::walk::{Looping, back_edges, longest_loop, visits_of};
use crate::writer::Writer;
use ebpf_flow::check::check;
use ebpf_flow::fault::FlowFault;
use ebpf_insn::program::{MAX_SLOTS, Program};
use ebpf_state::kinds::KindRow;
use ebpf_verify::decl::Decl;
use ebpf_verify::fault::VerifyFault;
use ebpf_verify::verified::Verified;
use ebpf_verify::verify::verify;
use std::alloc::{AllocError, Global};

/// A program that was unrolled and accepted.
#[derive(Drop)]
pub struct Unrolled {
    /// The program of the copies, which was accepted.
    pub verified: Verified,
    /// Of each of its slots the slot of the old program that it copies; none of an added jump, of the stub, and of a second half.
    pub of: Vec<Option<u16>>,
}

/// Unrolls the loops of a program, for this declaration and these kinds of object: every run of it ends, and does what the run of
/// the copies does.
///
/// A program without loops has copies too, also where it is accepted as it is: what no run comes to is left out.
///
/// # Errors
/// `Flow` and `Refused` with the slot where the walk can't go on; `Long` where the copies would have more than `MAX_SLOTS` slots;
/// `Unconfirmed` where they aren't accepted; `NoMemory` where an allocation failed. It isn't promised that a program is unrolled
/// where it could be.
pub fn unroll(
    alloc: Global,
    program: &Program,
    decl: Decl,
    kinds: &[KindRow],
) -> Result<Unrolled, UnrollFault>
    requires { AreRows kinds.now }
    ensures ends { IfOk result (λ u. AlwaysEnds program.now u.verified) }
    ensures unrolled { IfOk result (λ u. IsUnrolled program.now u.verified.program (copied_in u.of.items)) }
    ensures all { IfOk result (λ u. length u.of.items ≡ length u.verified.program) }
    ensures declared { IfOk result (λ u. u.verified.decl ≡ decl) }
    ensures kinds { IfOk result (λ u. u.verified.rows ≡ kinds.now) }
    ensures refused { IfErr result (IsUnrollFault program.now decl kinds.now) }
{
    let back = back_edges(alloc, program)?;
    let looping = Looping {
        program,
        back: &back,
        decl,
        kinds,
    };
    let visits = visits_of(alloc, looping)?;
    let order = order_of(alloc, &visits)?;
    let Some(writer) = copies_of(alloc, program, &visits, &order)? else {
        return Err(UnrollFault::Unconfirmed);
    };
    let Writer {
        mut code,
        mut of,
        count,
    } = writer;
    if code.len() > MAX_SLOTS {
        let (slot, visits) = longest_loop(&back, &visits);
        return Err(UnrollFault::Long { slot, visits });
    }
    if code.len() == 0 {
        return Err(UnrollFault::Unconfirmed);
    }
    code.reverse();
    of.reverse();
    let new = Program::new(code, count);
    if !is_unrolled(program, &new, &of) {
        return Err(UnrollFault::Unconfirmed);
    }
    match accepted(alloc, new, decl, kinds)? {
        Some(verified) => Ok(Unrolled { verified, of }),
        None => Err(UnrollFault::Unconfirmed),
    }
}

// The program with the verdict on it, if it is accepted.
fn accepted(
    alloc: Global,
    program: Program,
    decl: Decl,
    kinds: &[KindRow],
) -> Result<Option<Verified>, AllocError>
    requires { AreRows kinds.now }
    ensures kept { IfOk result (λ found. IfSome found (λ s. s ≡ record { program = program; decl = decl; rows = kinds.now })) }
    ensures accepted { IfOk result (λ found. IfSome found IsAccepted) }
{
    let flowed = match check(alloc, program) {
        Ok(flowed) => flowed,
        Err(FlowFault::Bad { .. }) => return Ok(None),
        Err(FlowFault::NoMemory) => return Err(AllocError),
    };
    let verified = match verify(alloc, flowed, decl, kinds) {
        Ok(verified) => verified,
        Err(VerifyFault::Refused { .. }) => return Ok(None),
        Err(VerifyFault::NoMemory) => return Err(AllocError),
    };
    // Read for what it promises: the program was accepted.
    let _ = verified.program();
    Ok(Some(verified))
}
