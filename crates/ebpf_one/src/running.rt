//! Runs of programs that were laid out, or whose loops were unrolled.

ghost use Rattle.std.specs.Prelude.{◌≡◌, None, IfOk, IfErr, OnOk, length};
ghost use Rattle.ebpf_machine.specs.World.{kinds_of};
ghost use Rattle.ebpf_machine.specs.Kinds.{known_kinds};
ghost use Rattle.ebpf_state.specs.Kinds.{AreKinds};
ghost use Rattle.ebpf_flow.specs.Flow.{flow_fault};
ghost use Rattle.ebpf_verify.specs.Verdict.{IsVerifyFault, verdict};
ghost use Rattle.ebpf_one.specs.RunText.{IsDeclared, IsRunOf, RunsForward, RunsJudged};

use crate::answer::answer_copied;
use crate::how::How;
use ebpf_command::answer::Answer;
use ebpf_command::codes::RefusalCode;
use ebpf_command::format::Format;
use ebpf_flow::check::check;
use ebpf_flow::fault::FlowFault;
use ebpf_forward::forward::Forward;
use ebpf_input::in_format::answer_refused;
use ebpf_insn::program::Program;
use ebpf_layout::layout::Laid;
use ebpf_state::kinds::KindRow;
use ebpf_verify::decl::Decl;
use ebpf_verify::fault::VerifyFault;
use ebpf_verify::verified::Verified;
use ebpf_verify::verify::verify;
use std::alloc::{AllocError, Global};

/// A run that is asked for: its context, and how it is done.
#[derive(Drop)]
pub(crate) struct Running<'a> {
    pub(crate) context: Vec<u8>,
    pub(crate) how: How<'a>,
}

/// The run that is asked for, if one is, on a context.
pub(crate) fn run_of(context: Vec<u8>, how: Option<How<'_>>) -> Option<Running<'_>>
    ensures { IsRunOf how.entry context.items result }
{
    match how {
        Some(how) => Some(Running { context, how }),
        None => None,
    }
}

/// The response to a program of which every jump leads forward: what its run did, or where the verifier refuses it. It fails only where an
/// allocation fails.
pub(crate) fn run_forward(
    alloc: Global,
    format: Format,
    made: Forward,
    decl: Decl,
    kinds: &[KindRow],
    run: Running<'_>,
) -> Result<Answer, AllocError>
    requires kinds { AreKinds kinds.now }
    requires made { IsDeclared decl kinds.now made }
    requires declared { decl.context ≡ length run.context.items }
    ensures { IfOk result (RunsForward format run.entry decl kinds.now made) }
{
    match made {
        Forward::LaidOut(laid) => run_laid(alloc, format, laid, decl, kinds, run),
        Forward::Unrolled(unrolled) => {
            let of = &unrolled.of;
            answer_copied(alloc, format, &unrolled.verified, of, run.context, run.how)
        }
    }
}

// The response to a program whose flow has no fault: what its run did, or where the verifier refuses it. It fails only where an allocation
// fails.
fn run_laid(
    alloc: Global,
    format: Format,
    laid: Laid,
    decl: Decl,
    kinds: &[KindRow],
    run: Running<'_>,
) -> Result<Answer, AllocError>
    requires kinds { AreKinds kinds.now }
    requires fine { flow_fault laid.program ≡ None }
    requires declared { decl.context ≡ length run.context.items }
    ensures { IfOk result (RunsJudged format run.entry (record { program = laid.program; decl = decl; rows = kinds.now }) laid.of.items) }
{
    let Laid { program, of } = laid;
    match judged(alloc, program, decl, kinds) {
        Ok(verified) => answer_copied(alloc, format, &verified, &of, run.context, run.how),
        Err(VerifyFault::Refused { slot, code }) => {
            answer_refused(alloc, format, RefusalCode::Verify(code).name(), slot)
        }
        Err(VerifyFault::NoMemory) => Err(AllocError),
    }
}

/// The verdict on a program whose flow has no fault.
///
/// # Errors
/// `Refused` where the verifier refuses it, and `NoMemory` where an allocation failed.
pub(crate) fn judged(
    alloc: Global,
    program: Program,
    decl: Decl,
    kinds: &[KindRow],
) -> Result<Verified, VerifyFault>
    requires kinds { AreKinds kinds.now }
    requires fine { flow_fault program ≡ None }
    ensures accepted { IfOk result (λ v. v ≡ record { program = program; decl = decl; rows = kinds.now }) }
    ensures fine { OnOk result (verdict (record { program = program; decl = decl; rows = kinds.now }) ≡ None) }
    ensures refused { IfErr result (IsVerifyFault (record { program = program; decl = decl; rows = kinds.now })) }
{
    match check(alloc, program) {
        Ok(flowed) => verify(alloc, flowed, decl, kinds),
        Err(FlowFault::Bad { .. }) => unreachable!(),
        Err(FlowFault::NoMemory) => Err(VerifyFault::NoMemory),
    }
}
