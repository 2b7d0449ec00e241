//! How a worker answers the jobs of a bundle.
//!
//! It runs the program of each over its store, and keeps the reports in their order. If any program is long, four neighbouring jobs of one
//! long program go on together as far as they do the same. Otherwise no job is asked whether it could: most take little longer than asking.

ghost use Rattle.std.specs.Prelude.{◌≡◌, ◌≤◌, ◌<◌, ◌+◌, ◌-◌, ◌*◌, [], length, vec_len, vec_capacity, IfOk, OnOk, OnErr};
ghost use Rattle.worker_pool.specs.EachKind.{hands_of, IsEven};
ghost use Rattle.worker_pool.specs.Going.{AreAnswered, HasAnsweredOn, IsAnswered, IsUnanswered, tools_of};
ghost use Rattle.worker_pool.specs.Numbering.{bundles_in, many_in};
ghost use Rattle.worker_pool.specs.Working.{AreReady};

use crate::four_jobs::{answer_four, four_at};
use crate::gate::{Gate, Point};
use crate::ledgers::Names;
use crate::spares::{Spares, have};
use crate::store::Store;
use crate::worker::Shared;
use ebpf_fours::memory::Memory;
use ebpf_machine::whole::run_in_place;
use ebpf_machine::workspace::Workspace;
use ebpf_owned::Owned;
use job_list::{JobReport, Rest};
use std::alloc::AllocError;
use std::sync::Wait;

/// Does the jobs of a bundle, one after another or by fours, as far as there is memory.
pub(crate) fn answer_bundle<'a, L: Names, G: Gate + 'a, R: Wait + 'a>(
    shared: &Shared<'a, L, G, R>,
    bundle: u64,
    store: &mut Store<'a, L, R>,
    reports: &mut Vec<JobReport>,
    spares: &mut Spares,
    memory: &mut Memory<Owned>,
) -> Result<(), AllocError>
    requires ready { AreReady shared.now.programs.now shared.now.jobs.now }
    requires bundle { bundle < bundles_in shared.now.size (length shared.now.jobs.now) }
    requires none { reports.old.items ≡ [] }
    requires room { many_in shared.now.size (length shared.now.jobs.now) bundle ≤ vec_capacity reports.old }
    requires even { IsEven (hands_of store.old.stocks) }
    ensures even { IsEven (hands_of store.new.stocks) }
    ensures answered { AreAnswered shared.now.programs.now shared.now.jobs.now (bundle * shared.now.size)
        (tools_of store.old.stocks store.old.client) (tools_of store.new.stocks store.new.client) reports.new.items }
    ensures all { OnOk result (vec_len reports.new ≡ many_in shared.now.size (length shared.now.jobs.now) bundle) }
{
    if shared.long {
        return by_fours(shared, bundle, store, reports, spares, memory);
    }
    let workspace = memory.take()?;
    let workspace = one_by_one(shared, bundle, store, reports, &mut spares.one, workspace)?;
    memory.put(workspace);
    Ok(())
}

// Does the jobs of a bundle, one after another.
fn one_by_one<'a, L: Names, G: Gate + 'a, R: Wait + 'a>(
    shared: &Shared<'a, L, G, R>,
    bundle: u64,
    store: &mut Store<'a, L, R>,
    reports: &mut Vec<JobReport>,
    spare: &mut Option<Box<Rest>>,
    workspace: Workspace<Owned>,
) -> Result<Workspace<Owned>, AllocError>
    requires ready { AreReady shared.now.programs.now shared.now.jobs.now }
    requires bundle { bundle < bundles_in shared.now.size (length shared.now.jobs.now) }
    requires none { reports.old.items ≡ [] }
    requires room { many_in shared.now.size (length shared.now.jobs.now) bundle ≤ vec_capacity reports.old }
    requires even { IsEven (hands_of store.old.stocks) }
    ensures even { IsEven (hands_of store.new.stocks) }
    ensures answered { AreAnswered shared.now.programs.now shared.now.jobs.now (bundle * shared.now.size)
        (tools_of store.old.stocks store.old.client) (tools_of store.new.stocks store.new.client) reports.new.items }
    ensures all { OnOk result (vec_len reports.new ≡ many_in shared.now.size (length shared.now.jobs.now) bundle) }
{
    let first = bundle * shared.size;
    let end = (first + shared.size).min(shared.jobs.len() as u64);
    let mut workspace = workspace;
    for number in first..end {
        workspace = answer(shared, number, store, reports, spare, workspace)?;
    }
    Ok(workspace)
}

// The same, with four neighbours together if they run one long program.
fn by_fours<'a, L: Names, G: Gate + 'a, R: Wait + 'a>(
    shared: &Shared<'a, L, G, R>,
    bundle: u64,
    store: &mut Store<'a, L, R>,
    reports: &mut Vec<JobReport>,
    spares: &mut Spares,
    memory: &mut Memory<Owned>,
) -> Result<(), AllocError>
    requires ready { AreReady shared.now.programs.now shared.now.jobs.now }
    requires bundle { bundle < bundles_in shared.now.size (length shared.now.jobs.now) }
    requires none { reports.old.items ≡ [] }
    requires room { many_in shared.now.size (length shared.now.jobs.now) bundle ≤ vec_capacity reports.old }
    requires even { IsEven (hands_of store.old.stocks) }
    ensures even { IsEven (hands_of store.new.stocks) }
    ensures answered { AreAnswered shared.now.programs.now shared.now.jobs.now (bundle * shared.now.size)
        (tools_of store.old.stocks store.old.client) (tools_of store.new.stocks store.new.client) reports.new.items }
    ensures all { OnOk result (vec_len reports.new ≡ many_in shared.now.size (length shared.now.jobs.now) bundle) }
{
    let first = bundle * shared.size;
    let end = (first + shared.size).min(shared.jobs.len() as u64);
    let mut number = first;
    'jobs: while number < end {
        number += answer_next(shared, number, end, store, reports, spares, memory)?;
    }
    Ok(())
}

// Does the job of a number, or the four from there on if they go together, and keeps the reports. It returns how many it did.
fn answer_next<'a, L: Names, G: Gate + 'a, R: Wait + 'a>(
    shared: &Shared<'a, L, G, R>,
    number: u64,
    end: u64,
    store: &mut Store<'a, L, R>,
    reports: &mut Vec<JobReport>,
    spares: &mut Spares,
    memory: &mut Memory<Owned>,
) -> Result<u64, AllocError>
    requires ready { AreReady shared.now.programs.now shared.now.jobs.now }
    requires some { number < end }
    requires end { end ≤ length shared.now.jobs.now }
    requires room { vec_len reports.old + (end - number) ≤ vec_capacity reports.old }
    requires even { IsEven (hands_of store.old.stocks) }
    ensures even { IsEven (hands_of store.new.stocks) }
    ensures answered { HasAnsweredOn shared.now.programs.now shared.now.jobs.now number
        (tools_of store.old.stocks store.old.client) (tools_of store.new.stocks store.new.client) reports.old.items reports.new.items }
    ensures more { IfOk result (λ done. (vec_len reports.new ≡ vec_len reports.old + done) × (0 < done) × (done ≤ end - number)) }
    ensures capacity { vec_capacity reports.new ≡ vec_capacity reports.old }
{
    if end - number >= 4 {
        if let Some(jobs) = four_at(shared, number) {
            answer_four(shared, number, &jobs, store, reports, spares, memory)?;
            return Ok(4);
        }
    }
    let workspace = memory.take()?;
    let workspace = answer(shared, number, store, reports, &mut spares.one, workspace)?;
    memory.put(workspace);
    Ok(1)
}

// Does the job of a number, and keeps its report.
#[inline(always)]
fn answer<'a, L: Names, G: Gate + 'a, R: Wait + 'a>(
    shared: &Shared<'a, L, G, R>,
    number: u64,
    store: &mut Store<'a, L, R>,
    reports: &mut Vec<JobReport>,
    spare: &mut Option<Box<Rest>>,
    workspace: Workspace<Owned>,
) -> Result<Workspace<Owned>, AllocError>
    requires ready { AreReady shared.now.programs.now shared.now.jobs.now }
    requires number { number < length shared.now.jobs.now }
    requires room { vec_len reports.old < vec_capacity reports.old }
    requires even { IsEven (hands_of store.old.stocks) }
    ensures even { IsEven (hands_of store.new.stocks) }
    ensures answered { OnOk result (IsAnswered shared.now.programs.now shared.now.jobs.now number
        (tools_of store.old.stocks store.old.client) (tools_of store.new.stocks store.new.client) reports.old.items reports.new.items) }
    ensures failed { OnErr result (IsUnanswered (tools_of store.old.stocks store.old.client) (tools_of store.new.stocks store.new.client)
        reports.old.items reports.new.items) }
    ensures capacity { vec_capacity reports.new ≡ vec_capacity reports.old }
{
    let job = shared.jobs.job(number as usize);
    let Ok(()) = have(shared.alloc, spare) else {
        workspace.free();
        return Err(AllocError);
    };
    begin(shared, number, store);
    let verified = &shared.programs[job.program];
    let Ok(ended) = run_in_place(workspace, verified, job.context, store) else {
        return Err(AllocError);
    };
    // Read for what they promise: a report's numbers are small.
    let _ = (verified.program().len(), verified.decl());
    let (report, workspace) = JobReport::of(ended, spare);
    reports.push_reserved(report);
    shared.gate.at(number, Point::Answered);
    Ok(workspace)
}

/// Has the store claim what it takes for the job of a number from here on.
#[inline(always)]
pub(crate) fn begin<'a, L: Names, G: Gate + 'a, R: Wait + 'a>(
    shared: &Shared<'a, L, G, R>,
    number: u64,
    store: &mut Store<'a, L, R>,
)
    requires ready { AreReady shared.now.programs.now shared.now.jobs.now }
    requires number { number < length shared.now.jobs.now }
    ensures { tools_of store.new.stocks store.new.client ≡ tools_of store.old.stocks store.old.client }
{
    shared.gate.at(number, Point::Begin);
    store.client.job = number as u32;
}
