//! A run within a limit of instructions.

ghost use Rattle.std.specs.Prelude.{◌≡◌, ℕ, List, length, IfOk, IfErr, OnOk, OnErr};
ghost use Rattle.ebpf_machine.specs.Kinds.{known_kinds};
ghost use Rattle.ebpf_machine.specs.World.{kinds_of};
ghost use Rattle.ebpf_machine.specs.RunState.{first_state_of, seen};
ghost use Rattle.ebpf_machine.specs.Sound.{IsSound};
ghost use Rattle.ebpf_machine.specs.Turns.{IsStartFault};
ghost use Rattle.ebpf_fours.specs.Beginning.{HasBegun};
ghost use Rattle.ebpf_host.specs.Finding.{IsFound, TellsShelves};
ghost use Rattle.ebpf_host.specs.Four.{IsEndedWithin};
ghost use Rattle.ebpf_host.specs.Leaving.{IsLeft};
ghost use Rattle.ebpf_host.specs.Reports.{IsReportWithin};
ghost use Rattle.ebpf_host.specs.Whole.{whole};

use crate::program::Program;
use ebpf_machine::ended::Ended;
use ebpf_machine::objects::Objects;
use ebpf_machine::run::{Run, StartFault};
use ebpf_machine::workspace::Workspace;

/// Runs a program on a context, after which come its data, with the objects of a store, in the memory of a run that has ended, and leaves
/// there what it did. After `limit` instructions the run is given up, and what it holds goes back.
///
/// # Errors
/// `ContextLength` where the context doesn't have the declared length; `NoMemory` where an allocation failed. The memory is freed then.
#[inline(always)]
pub fn run_within<O: Objects>(
    workspace: Workspace<O::Held>,
    program: &Program,
    context: &[u8],
    objects: &mut O,
    limit: u64,
) -> Result<Ended<O::Held>, StartFault>
    requires kinds { O.store.kinds ≡ known_kinds }
    requires room { (store : O) → O.store.can_give store }
    requires tells { TellsShelves O.store }
    ensures report { IfOk result (IsReportWithin program.now.verified (whole program.now context.now) limit) }
    // The store went by the report's answers.
    ensures goes { IfOk result (λ r. O.store.goes objects.old r.answers objects.new) }
    // Of each kind as many are out as before.
    ensures outs { (k : ℕ) → O.store.outs objects.new k ≡ O.store.outs objects.old k }
    ensures found { IfOk result (λ r. IsFound O.store objects.old program.now.verified (whole program.now context.now) r) }
    ensures shelves { IfOk result (λ r. IsLeft O.store objects.old objects.new program.now.verified (whole program.now context.now) r) }
    ensures length { OnOk result (length (whole program.now context.now) ≡ program.now.verified.decl.context) }
    ensures refused { IfErr result (IsStartFault (length (whole program.now context.now)) program.now.verified.decl.context) }
    ensures unchanged { OnErr result (objects.new ≡ objects.old) }
{
    let run = start(workspace, program, context)?;
    Ok(end_within(run, objects, limit))
}

/// Goes on with a run to its end within a limit, from where it came with the store as it was at its start.
#[inline(always)]
pub(crate) fn end_within<O: Objects>(
    run: Run<'_, O::Held>,
    objects: &mut O,
    limit: u64,
) -> Ended<O::Held>
    requires kinds { O.store.kinds ≡ kinds_of run.subject.rows }
    requires room { (store : O) → O.store.can_give store }
    requires tells { TellsShelves O.store }
    requires begun { HasBegun O.store limit run objects.old }
    ensures { IsEndedWithin O.store limit run.entry.subject run.entry.context result objects.old objects.new }
{
    let mut run = run;
    let left = limit - run.executed();
    run.run(objects, left);
    run.end_in_place(objects)
}

/// A run of a program at its first instruction.
#[inline(always)]
pub(crate) fn start<'v, H>(
    workspace: Workspace<H>,
    program: &'v Program,
    context: &'v [u8],
) -> Result<Run<'v, H>, StartFault>
    ensures started { IfOk result (λ r. r ≡ first_state_of program.now.verified (whole program.now context.now)) }
    ensures sound { IfOk result (λ r. (bytes : H → List ℕ) → IsSound (seen bytes r)) }
    ensures length { OnOk result (length (whole program.now context.now) ≡ program.now.verified.decl.context) }
    ensures refused { IfErr result (IsStartFault (length (whole program.now context.now)) program.now.verified.decl.context) }
{
    Run::start_with(workspace, &program.verified, context, &program.data)
}
