//! Jobs, each done once.
//!
//! *The idea.* All memory is reserved first, then the supplies are opened, and workers are made of their hands, the seats and lists
//! for reports. The workers do the jobs, with the reaper beside them. Then they are taken apart again, the supplies are closed over
//! their hands, what the shelves hold goes back, and the reports of each bundle go to its place.
//!
//! *The reason.* What all workers drew are all bundles of neighbouring jobs, each once: so each job has one report. What a worker's
//! hands took and got is what its reports say, clashes and strays aside, so the same holds of the sums.

ghost use Rattle.std.specs.Prelude.{◌≡◌, ◌≤◌, ◌<◌, [], None, All, length, vec_len, vec_capacity, IfOk, IfErr, OnOk};
ghost use Rattle.ebpf_machine.specs.Kinds.{AreKnown};
ghost use Rattle.owners_table.specs.declared.owners.TheConstants.{ARENA_SLOTS};
ghost use Rattle.worker_pool.specs.EachKind.{AreAllFor};
ghost use Rattle.worker_pool.specs.Admission.{pool_fault};
ghost use Rattle.worker_pool.specs.Bundles.{IsBundleSize};
ghost use Rattle.worker_pool.specs.Numbering.{bundles_in};
ghost use Rattle.worker_pool.specs.Crews.{AreFresh};
ghost use Rattle.worker_pool.specs.Settling.{Settles};
ghost use Rattle.worker_pool.specs.Sharing.{AreLeftIn, AreServedIn};
ghost use Rattle.worker_pool.specs.Outcomes.{IsIdle, IsOutcome, AreIdleAgain, IsFaultOf};
ghost use Rattle.worker_pool.specs.Working.{AreReady};

use crate::admission::{PoolFault, pool_fault};
use crate::crew::{Done, Parts, dismiss, recruit, work_and_reap};
use crate::each_kind::{Blanks, Supplies};
use crate::four_jobs::is_any_long;
use crate::gate::Gate;
use crate::ledgers::Names;
use crate::outcome::{Host, Outcome};
use crate::place::{count_all, gather};
use crate::setup::{Room, Setup};
use crate::supply::Closing;
use crate::worker::{Ending, Shared, Worker};
use job_list::{JobReport, Jobs, PackedReports};
use owners_table::owners::{OwnerSeat, Owners};
use std::alloc::{AllocError, Global};
use std::marker::Brand;
use std::sync::Wait;
use std::thread::Threads;

// What jobs are done with, beside seats and the memory of books. There is a word for each slot of any arena.
#[derive(Drop)]
struct Given<'a, G: Gate, R: Wait> {
    rt: &'a R,
    alloc: Global,
    host: &'a Host,
    owners: &'a Owners,
    jobs: &'a Jobs,
    reaps: u32,
    gate: &'a G,
    ghost slots: { ARENA_SLOTS ≤ owners.now.slots },
}

/// Does each job once, by a worker a seat, with the reaper beside them, and gives the seats back.
///
/// Which worker does a job is open, and which calls of `new` are answered null where objects run out. Of many jobs a worker does up to
/// 512 neighbours, one after another, before it looks for more. The gate learns how far each job and the reaper are. A worker that can't
/// be started leaves its jobs to the others, or to the calling thread, and so does one that finds no memory to begin with; a reaper that
/// can't be started makes no pass.
///
/// # Errors
/// The faults of [`PoolFault`], in its order.
pub fn run_job_list<G: Gate + Sync, R: Threads + Wait + Sync>(
    rt: &R,
    alloc: Global,
    host: &Host,
    owners: &Owners,
    seats: Vec<OwnerSeat>,
    jobs: &Jobs,
    reaps: u32,
    gate: &G,
) -> (Vec<OwnerSeat>, Result<Outcome<PackedReports>, PoolFault>)
    // A program can be run only if it was verified against the kinds that the caches have.
    requires known { AreKnown host.now.programs.items }
    // There is a word for each slot of any arena.
    requires slots { ARENA_SLOTS ≤ owners.now.slots }
    requires seats { All (IsIdle owners.now) seats.items }
    ensures done { IfOk result.1 (IsOutcome host.now.programs.items jobs.now seats.items result.0.items) }
    ensures due { OnOk result.1 (pool_fault host.now (vec_len seats) jobs.now ≡ None) }
    ensures refused { IfErr result.1 (IsFaultOf (pool_fault host.now (vec_len seats) jobs.now)) }
    ensures seats { AreIdleAgain owners.now seats.items result.0.items }
{
    if let Some(fault) = pool_fault(host, seats.len(), jobs) {
        return (seats, Err(fault));
    }
    let given = Given {
        rt,
        alloc,
        host,
        owners,
        jobs,
        reaps,
        gate,
    };
    let (seats, done) = run_in::<Brand, G, R>(&given, seats, Blanks::new());
    match done {
        Ok(outcome) => (seats, Ok(outcome)),
        Err(_) => (seats, Err(PoolFault::NoMemory)),
    }
}

// The same with new ledgers, one for each book of a cache, where there is no fault.
fn run_in<L: Names + Send + Sync, G: Gate + Sync, R: Threads + Wait + Sync>(
    given: &Given<G, R>,
    seats: Vec<OwnerSeat>,
    blanks: Blanks,
) -> (Vec<OwnerSeat>, Result<Outcome<PackedReports>, AllocError>)
    requires blanks { AreAllFor L.outs L.ins L.puts L.gets blanks }
    requires known { AreKnown given.now.host.now.programs.items }
    requires seats { All (IsIdle given.now.owners.now) seats.items }
    requires fine { pool_fault given.now.host.now (vec_len seats) given.now.jobs.now ≡ None }
    ensures done { IfOk result.1 (IsOutcome given.now.host.now.programs.items given.now.jobs.now seats.items result.0.items) }
    ensures seats { AreIdleAgain given.now.owners.now seats.items result.0.items }
{
    let Ok(setup) = Setup::<L>::new(
        given.rt,
        given.alloc,
        given.host.pages,
        seats.len(),
        given.jobs.len(),
        is_any_long(&given.host.programs),
        blanks,
    ) else {
        return (seats, Err(AllocError));
    };
    let Setup {
        room,
        drawers,
        answered,
        places,
        mut workers,
        supplies,
        hands,
    } = setup;
    let mut parts = Parts {
        hands,
        seats,
        drawers,
        answered,
    };
    let done = serve_all(given, &room, &supplies, &mut parts, &mut workers);
    workers.destroy_empty();
    settle(given, room, supplies, parts, places, done)
}

// Makes workers of the parts, lets them do all jobs, and takes them apart.
fn serve_all<L: Names + Send + Sync, G: Gate + Sync, R: Threads + Wait + Sync>(
    given: &Given<G, R>,
    room: &Room,
    supplies: &Supplies<L>,
    parts: &mut Parts<L>,
    workers: &mut Vec<Worker<L>>,
) -> Done
    requires ready { AreReady given.now.host.now.programs.items given.now.jobs.now }
    requires size { IsBundleSize room.now.size }
    requires limit { room.now.tickets.limit ≡ bundles_in room.now.size (length given.now.jobs.now) }
    requires some { (0 < length parts.old.seats.items) × (length parts.old.seats.items ≤ 64) }
    requires fresh { AreFresh given.now.owners.now room.now.tickets (length parts.old.seats.items) parts.old }
    requires none { workers.old.items ≡ [] }
    requires room { length parts.old.seats.items ≤ vec_capacity workers.old }
    ensures none { workers.new.items ≡ [] }
    ensures served { AreServedIn given.now.host.now given.now.jobs.now given.now.owners.now room.now parts.old.seats.items parts.new result }
{
    let shared = Shared {
        rt: given.rt,
        alloc: given.alloc,
        arena: &room.arena,
        owners: given.owners,
        supplies,
        programs: &given.host.programs,
        jobs: given.jobs,
        long: room.long,
        size: room.size,
        tickets: &room.tickets,
        gate: given.gate,
    };
    recruit(&shared, parts, workers);
    work_and_reap(&shared, given.reaps, workers.as_mut_slice());
    dismiss(workers, parts)
}

// Takes apart what the jobs were done with, and puts the reports of each bundle in its place.
fn settle<L: Names, G: Gate, R: Wait>(
    given: &Given<G, R>,
    mut room: Room,
    supplies: Supplies<L>,
    parts: Parts<L>,
    places: Vec<Vec<JobReport>>,
    done: Done,
) -> (Vec<OwnerSeat>, Result<Outcome<PackedReports>, AllocError>)
    requires left { AreLeftIn given.now.host.now given.now.jobs.now given.now.owners.now room supplies parts places done }
    ensures { Settles given.now.host.now.programs.items given.now.jobs.now given.now.owners.now room supplies parts places done result.0.items result.1 }
{
    let Parts {
        hands,
        mut seats,
        drawers,
        answered,
    } = parts;
    let closing = Closing {
        rt: given.rt,
        arena: &room.arena,
        owners: given.owners,
    };
    let (shelves, totals) = supplies.close(&closing, hands, &mut seats);
    room.tickets.close(drawers);
    if !matches!(done.ending, Ending::Through) {
        return (seats, Err(AllocError));
    }
    count_all(&answered, &mut room.jobs_done);
    let bundles = (given.jobs.len() as u64).div_ceil(room.size) as usize;
    let lists = gather(given.alloc, bundles, places, answered);
    let outcome = Outcome {
        reports: PackedReports::of(lists, given.jobs.len()),
        totals,
        clashes: done.clashes,
        shelves,
        strays: done.strays,
        jobs_done: room.jobs_done,
    };
    (seats, Ok(outcome))
}
