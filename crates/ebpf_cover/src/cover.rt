//! The counts of each program over jobs that were done.
//!
//! *The idea.* There is a tally for each program, as long as the program, and one walk over the jobs: each is counted in the tally of its
//! program. So the time is that of the jobs, however many programs there are.

ghost use Rattle.std.specs.Prelude.{◌≡◌, ◌<◌, ◌≤◌, ◌+◌, None, length, true, IfOk};
ghost use Rattle.ebpf_insn.specs.declared.program.TheConstants.{MAX_SLOTS};
ghost use Rattle.ebpf_insn.specs.Program.{instructions};
ghost use Rattle.ebpf_machine.specs.World.{kinds_of};
ghost use Rattle.ebpf_machine.specs.Kinds.{AreKnown, known_kinds};
ghost use Rattle.ebpf_machine.specs.Sound.{IsAlone};
ghost use Rattle.ebpf_machine.specs.Step.{seen_in};
ghost use Rattle.ebpf_machine.specs.Store.{AreOut};
ghost use Rattle.ebpf_machine.specs.Turns.{AreTurns};
ghost use Rattle.ebpf_cover.specs.Answering.{answering};
ghost use Rattle.ebpf_cover.specs.Covered.{AreAllCounts, IsRunCounted};
ghost use Rattle.ebpf_cover.specs.Stretches.{IsTally, executed_so_far, taken_so_far};
ghost use Rattle.ebpf_cover.specs.Tallies.{AreBlank, AreSums, AreTallies};

use crate::counts::Counts;
use crate::replaying::Replaying;
use crate::tally::Tally;
use ebpf_machine::ended::Ended;
use ebpf_machine::report::Reply;
use ebpf_machine::run::Run;
use ebpf_machine::workspace::Workspace;
use ebpf_shelves::object::Object;
use ebpf_verify::verified::Verified;
use job_list::{FEW_ANSWERS, JobReport, Jobs, PackedReports};
use std::alloc::{AllocError, Global};

/// Counts what the jobs of each program executed, by their reports: each is run once more, alone.
///
/// It fails only if memory runs out, or a count would not fit 64 bits.
pub fn cover(
    alloc: Global,
    accepted: &[Verified],
    jobs: &Jobs,
    reports: &PackedReports,
) -> Result<Vec<Counts>, AllocError>
    requires known { AreKnown accepted.now }
    requires all { length reports.now ≡ length jobs.now }
    ensures { IfOk result (λ all. AreAllCounts accepted.now jobs.now reports.now all.items) }
{
    let mut tallies = blank_tallies(alloc, accepted)?;
    let mut workspace = Workspace::new(alloc)?;
    let mut left = reports.iter();
    'covered: for index in 0..jobs.len() {
        let Some(report) = left.next() else {
            unreachable!()
        };
        let job = jobs.job(index);
        let program = job.program;
        if program < accepted.len() {
            let verified = &accepted[program];
            let tally = &mut tallies[program];
            workspace = count_run(alloc, workspace, verified, job.context, report, tally)?;
        }
    }
    workspace.free();
    sum_up(alloc, accepted, &tallies)
}

// A tally of nothing for each program. It fails only if an allocation fails.
fn blank_tallies(alloc: Global, accepted: &[Verified]) -> Result<Vec<Tally>, AllocError>
    ensures tallies { IfOk result (λ ts. AreTallies accepted.now ts.items) }
    ensures blank { IfOk result (λ ts. AreBlank accepted.now ts.items) }
{
    let mut tallies = Vec::new(alloc);
    'made: for program in 0..accepted.len() {
        tallies.push(Tally::none(alloc, &accepted[program])?)?;
    }
    Ok(tallies)
}

// The counts that the tallies come to. It fails only if memory runs out, or a count would not fit 64 bits.
fn sum_up(
    alloc: Global,
    accepted: &[Verified],
    tallies: &[Tally],
) -> Result<Vec<Counts>, AllocError>
    requires { AreTallies accepted.now tallies.now }
    ensures { IfOk result (λ all. AreSums accepted.now tallies.now all.items) }
{
    let mut all = Vec::new(alloc);
    'summed: for program in 0..tallies.len() {
        all.push(tallies[program].counts(alloc, &accepted[program])?)?;
    }
    Ok(all)
}

// Counts what one run executed, by its report, in the memory of another, and gives the memory back. It fails only where memory runs
// out, or a count would not fit 64 bits.
fn count_run(
    alloc: Global,
    workspace: Workspace<Object>,
    verified: &Verified,
    context: &[u8],
    report: &JobReport,
    tally: &mut Tally,
) -> Result<Workspace<Object>, AllocError>
    requires known { kinds_of verified.now.rows ≡ known_kinds }
    requires tally { IsTally verified.now.program tally.old }
    ensures tally { IsTally verified.now.program tally.new }
    ensures counted { IfOk result (λ _. IsRunCounted verified.now context.now report.now
        (executed_so_far verified.now.program tally.old) (taken_so_far tally.old)
        (executed_so_far verified.now.program tally.new) (taken_so_far tally.new)) }
{
    let mut room = [Reply::Null; FEW_ANSWERS];
    let answers = report.answers(&mut room);
    let mut store = Replaying::new(alloc, answers, report.taken());
    let Ok(mut run) = Run::start_in(workspace, verified, context) else {
        return Err(AllocError);
    };
    'counting: while run.exit().is_none() {
        let first = run.pc();
        let more = tally.straight_from(first);
        if !run_stretch(&mut run, &mut store, more as u64) {
            return Err(AllocError);
        }
        tally.note(first, first + more, run.pc())?;
    }
    let ended = run.end_in_place(&mut store);
    let same = is_done_as(&ended, report, answers);
    let workspace = ended.forget();
    if !same {
        workspace.free();
        // The store answers otherwise than the report only where its memory runs out.
        return Err(AllocError);
    }
    Ok(workspace)
}

// Does n instructions of a run that goes on, and one more, and says whether all were done.
#[inline(always)]
fn run_stretch(run: &mut Run<'_, Object>, store: &mut Replaying<'_>, more: u64) -> bool
    requires known { known_kinds ≡ kinds_of run.old.subject.rows }
    requires out { AreOut answering store.old run.old.held }
    requires alone { IsAlone (seen_in answering store.old run.old) }
    requires going { run.old.exit ≡ None }
    requires few { more < MAX_SLOTS }
    ensures turns { result ≡ true → AreTurns answering (more + 1) run.old run.new store.old store.new }
    ensures counted { result ≡ true → run.new.executed ≡ run.old.executed + more + 1 }
    ensures bounded { run.new.executed ≤ length (instructions run.new.subject.program) }
    ensures same { run.new.subject ≡ run.old.subject }
{
    // A step alone takes less time than a run of one instruction.
    if more == 0 {
        run.step(store);
        return true;
    }
    let before = run.executed();
    run.run(store, more + 1);
    run.executed() - before == more + 1
}

// Whether a run did as many instructions as the report says, and was answered what it says.
fn is_done_as(ended: &Ended<Object>, report: &JobReport, answers: &[Reply]) -> bool
    requires { answers.now ≡ report.now.answers }
    ensures executed { result ≡ true → ended.now.executed ≡ report.now.executed }
    ensures answers { result ≡ true → ended.now.answers ≡ report.now.answers }
    ensures taken { result ≡ true → ended.now.taken ≡ report.now.taken }
{
    ended.executed() == report.executed()
        && are_same_replies(ended.answers(), answers)
        && ended.taken() == report.taken()
}

// Whether two lists of replies are the same.
fn are_same_replies(replies: &[Reply], others: &[Reply]) -> bool
    ensures { result ≡ true → replies.now ≡ others.now }
{
    if replies.len() != others.len() {
        return false;
    }
    'same: for index in 0..replies.len() {
        if !is_same_reply(replies[index], others[index]) {
            return false;
        }
    }
    true
}

// Whether two replies are the same.
fn is_same_reply(reply: Reply, other: Reply) -> bool
    ensures { result ≡ true → reply ≡ other }
{
    match reply {
        Reply::Null => matches!(other, Reply::Null),
        Reply::Granted => matches!(other, Reply::Granted),
        Reply::Empty => matches!(other, Reply::Empty),
        Reply::Shelf => matches!(other, Reply::Shelf),
    }
}
