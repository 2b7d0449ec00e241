//! The end of a job's run, and its report.

ghost use Rattle.std.specs.Prelude.{◌≡◌, ◌<◌, ◌++◌, ◌∷◌, [], ℕ, List, true, is_some, vec_len, vec_capacity};
ghost use Rattle.ebpf_fours.specs.Beginning.{HasBegun};
ghost use Rattle.ebpf_machine.specs.Whole.{IsReportOf};
ghost use Rattle.ebpf_machine.specs.World.{kinds_of};
ghost use Rattle.worker_pool.specs.Ending.{HasEnded};

use ebpf_fours::whole::exit_in_place;
use ebpf_machine::ended::Ended;
use ebpf_machine::objects::Objects;
use ebpf_machine::run::Run;
use ebpf_machine::workspace::Workspace;
use ebpf_owned::Owned;
use ebpf_verify::verified::Verified;
use job_list::{JobReport, Rest};

/// Goes on with a run of a program to its exit, and keeps its report, with the spare box if its lists need one. Returns the run's memory.
///
/// Out of line: all that a run does from there is inlined here, once for runs alone and for those that went together.
#[inline(never)]
pub(crate) fn end_job<O: Objects<Held = Owned>>(
    run: Run<'_, Owned>,
    verified: &Verified,
    objects: &mut O,
    spare: &mut Option<Box<Rest>>,
    reports: &mut Vec<JobReport>,
) -> Workspace<Owned>
    requires kinds { O.store.kinds ≡ kinds_of run.subject.rows }
    requires room { (store : O) → O.store.can_give store }
    requires begun { HasBegun O.store 4096 run objects.old }
    requires program { run.subject ≡ verified.now }
    requires spare { is_some spare.old ≡ true }
    requires place { vec_len reports.old < vec_capacity reports.old }
    ensures ended { HasEnded O.store run.entry objects.old objects.new reports.old.items reports.new.items }
    // Of each kind as many are out as before.
    ensures outs { (k : ℕ) → O.store.outs objects.new k ≡ O.store.outs objects.old k }
    ensures capacity { vec_capacity reports.new ≡ vec_capacity reports.old }
{
    let ended = exit_in_place(run, objects);
    keep(verified, ended, spare, reports)
}

// Keeps the report of a run that has ended, and returns the memory of the run.
#[inline(always)]
fn keep(
    verified: &Verified,
    ended: Ended<Owned>,
    spare: &mut Option<Box<Rest>>,
    reports: &mut Vec<JobReport>,
) -> Workspace<Owned>
    requires spare { is_some spare.old ≡ true }
    requires report { (context : List ℕ) × IsReportOf verified.now context ended }
    requires room { vec_len reports.old < vec_capacity reports.old }
    ensures kept { reports.new.items ≡ reports.old.items ++ ended ∷ [] }
    ensures capacity { vec_capacity reports.new ≡ vec_capacity reports.old }
{
    // Read for what they promise: a report's numbers are small.
    let _ = (verified.program().len(), verified.decl());
    let (report, workspace) = JobReport::of(ended, spare);
    reports.push_reserved(report);
    workspace
}
