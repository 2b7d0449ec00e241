//! How a worker answers four jobs in a row that run one long program.

ghost use Rattle.std.specs.Prelude.{◌≡◌, ◌≤◌, ◌+◌, length, vec_len, vec_capacity, IfSome, OnOk, OnErr};
ghost use Rattle.worker_pool.specs.EachKind.{hands_of, IsEven};
ghost use Rattle.worker_pool.specs.Fours.{AreFourAnswered, AreOn};
ghost use Rattle.worker_pool.specs.Going.{IsUnanswered, tools_of};
ghost use Rattle.worker_pool.specs.Working.{AreReady};

use crate::bundle::begin;
use crate::ending::end_job;
use crate::gate::{Gate, Point};
use crate::ledgers::Names;
use crate::spares::Spares;
use crate::store::Store;
use crate::worker::Shared;
use ebpf_fours::memory::Memory;
use ebpf_fours::starting::{FourContexts, LONG, start_four};
use ebpf_fours::workspaces::FourWorkspaces;
use ebpf_machine::four_runs::{FourRuns, go_together};
use ebpf_owned::Owned;
use ebpf_verify::verified::Verified;
use job_list::JobReport;
use std::alloc::AllocError;
use std::sync::Wait;

/// The program of four jobs in a row, and their contexts.
#[derive(Clone, Copy)]
pub(crate) struct FourJobs<'j> {
    pub(crate) verified: &'j Verified,
    pub(crate) contexts: FourContexts<'j>,
}

/// Whether any of the programs is so long that four runs of it go together.
pub(crate) fn is_any_long(programs: &[Verified]) -> bool {
    'programs: for verified in programs {
        if verified.program().len() >= LONG {
            return true;
        }
    }
    false
}

/// The four jobs from a number on, if they run one program that is long enough to go together.
pub(crate) fn four_at<'s, 'a, L: Names, G: Gate + 'a, R: Wait + 'a>(
    shared: &'s Shared<'a, L, G, R>,
    number: u64,
) -> Option<FourJobs<'s>>
    requires ready { AreReady shared.now.programs.now shared.now.jobs.now }
    requires four { number + 4 ≤ length shared.now.jobs.now }
    ensures { IfSome result (AreOn shared.now.programs.now shared.now.jobs.now number) }
{
    let number = number as usize;
    let one = shared.jobs.job(number);
    let verified = &shared.programs[one.program];
    if verified.program().len() < LONG {
        return None;
    }
    let two = shared.jobs.job(number + 1);
    let three = shared.jobs.job(number + 2);
    let four = shared.jobs.job(number + 3);
    if two.program != one.program || three.program != one.program || four.program != one.program {
        return None;
    }
    let contexts = FourContexts {
        one: one.context,
        two: two.context,
        three: three.context,
        four: four.context,
    };
    Some(FourJobs { verified, contexts })
}

/// Does the four jobs from a number on, which go together, and keeps their reports. Each ends before the next one asks the store for
/// anything.
///
/// # Errors
/// There was no memory. No job was begun then.
#[inline(never)]
pub(crate) fn answer_four<'a, L: Names, G: Gate + 'a, R: Wait + 'a>(
    shared: &Shared<'a, L, G, R>,
    number: u64,
    jobs: &FourJobs<'_>,
    store: &mut Store<'a, L, R>,
    reports: &mut Vec<JobReport>,
    spares: &mut Spares,
    memory: &mut Memory<Owned>,
) -> Result<(), AllocError>
    requires ready { AreReady shared.now.programs.now shared.now.jobs.now }
    requires jobs { AreOn shared.now.programs.now shared.now.jobs.now number jobs.now }
    requires four { number + 4 ≤ length shared.now.jobs.now }
    requires room { vec_len reports.old + 4 ≤ vec_capacity reports.old }
    requires even { IsEven (hands_of store.old.stocks) }
    ensures even { IsEven (hands_of store.new.stocks) }
    ensures answered { OnOk result (AreFourAnswered shared.now.programs.now shared.now.jobs.now number
        (tools_of store.old.stocks store.old.client) (tools_of store.new.stocks store.new.client) reports.old.items reports.new.items) }
    ensures failed { OnErr result (IsUnanswered (tools_of store.old.stocks store.old.client) (tools_of store.new.stocks store.new.client)
        reports.old.items reports.new.items) }
    ensures capacity { vec_capacity reports.new ≡ vec_capacity reports.old }
{
    spares.have_each(shared.alloc)?;
    let workspaces = memory.take_four()?;
    let verified = jobs.verified;
    let Ok(runs) = start_four(workspaces, verified, jobs.contexts, &[]) else {
        return Err(AllocError);
    };
    let FourRuns {
        one,
        two,
        three,
        four,
    } = go_together(runs, &*store);
    begin(shared, number, store);
    let one = end_job(one, verified, store, &mut spares.one, reports);
    shared.gate.at(number, Point::Answered);
    let next = number + 1;
    begin(shared, next, store);
    let two = end_job(two, verified, store, &mut spares.two, reports);
    shared.gate.at(next, Point::Answered);
    let next = number + 2;
    begin(shared, next, store);
    let three = end_job(three, verified, store, &mut spares.three, reports);
    shared.gate.at(next, Point::Answered);
    let next = number + 3;
    begin(shared, next, store);
    let four = end_job(four, verified, store, &mut spares.four, reports);
    shared.gate.at(next, Point::Answered);
    memory.put_four(FourWorkspaces {
        one,
        two,
        three,
        four,
    });
    Ok(())
}
