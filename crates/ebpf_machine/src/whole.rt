//! A run as a whole, from its start to its exit.

ghost use Rattle.std.specs.Prelude.{◌≡◌, ℕ, length, IfOk, IfErr, OnOk, OnErr};
ghost use Rattle.ebpf_machine.specs.World.{kinds_of};
ghost use Rattle.ebpf_machine.specs.Turns.{IsStartFault};
ghost use Rattle.ebpf_machine.specs.Whole.{IsReportOf};

use crate::ended::Ended;
use crate::objects::Objects;
use crate::run::{Run, StartFault};
use crate::workspace::Workspace;
use ebpf_verify::verified::Verified;

/// Runs an accepted program on a context to its exit, with the objects of a store, in the memory of a run that has ended, and leaves there
/// what it did.
///
/// The store has to have room for an object in each of its states, since the run gives back what it took.
///
/// # Errors
/// As [`Run::start`]: `ContextLength` if the context doesn't have the declared length; `NoMemory` if an allocation of the run failed. The
/// memory is freed then. A store that has no memory answers null.
#[inline(always)]
pub fn run_in_place<O: Objects>(
    workspace: Workspace<O::Held>,
    verified: &Verified,
    context: &[u8],
    objects: &mut O,
) -> Result<Ended<O::Held>, StartFault>
    requires kinds { O.store.kinds ≡ kinds_of verified.now.rows }
    requires room { (store : O) → O.store.can_give store }
    // The report is that of the run alone with the report's answers, and it exited.
    ensures report { IfOk result (IsReportOf verified.now context.now) }
    // The store went by the report's answers.
    ensures goes { IfOk result (λ r. O.store.goes objects.old r.answers objects.new) }
    // Of each kind as many are out as before.
    ensures outs { (k : ℕ) → O.store.outs objects.new k ≡ O.store.outs objects.old k }
    ensures length { OnOk result (length context.now ≡ verified.now.decl.context) }
    ensures refused { IfErr result (IsStartFault (length context.now) verified.now.decl.context) }
    ensures unchanged { OnErr result (objects.new ≡ objects.old) }
{
    let mut run = Run::start_in(workspace, verified, context)?;
    // No program has that many instructions: it exits.
    run.run(objects, u64::MAX);
    Ok(run.end_in_place(objects))
}
