//! Jobs as a host has them: each with a context of its own, and for each a report with lists of its own.
//!
//! The jobs are copied into one list, which workers read faster, and done as that one; then the reports are unpacked.

ghost use Rattle.std.specs.Prelude.{◌≡◌, ◌≤◌, None, All, vec_len, IfOk, IfErr, OnOk};
ghost use Rattle.ebpf_machine.specs.Kinds.{AreKnown};
ghost use Rattle.owners_table.specs.declared.owners.TheConstants.{ARENA_SLOTS};
ghost use Rattle.worker_pool.specs.Admission.{pool_fault};
ghost use Rattle.worker_pool.specs.Outcomes.{IsIdle, IsOutcome, AreIdleAgain, IsFaultOf};

use crate::admission::{PoolFault, pool_fault};
use crate::gate::Gate;
use crate::outcome::{Host, Outcome};
use crate::pool::run_job_list;
use job_list::{Job, JobSlice, Jobs, PackedReports, Reports};
use owners_table::owners::{OwnerSeat, Owners};
use std::alloc::{AllocError, Global};
use std::sync::Wait;
use std::thread::Threads;

/// Does each job once, by a worker a seat, with the reaper beside them, and gives the seats back. The same as [`run_job_list`], for a
/// host that has its jobs in a slice and wants each report by itself; that one takes less memory and time.
///
/// # Errors
/// The faults of [`PoolFault`], in its order.
pub fn run_jobs<G: Gate + Sync, R: Threads + Wait + Sync>(
    rt: &R,
    alloc: Global,
    host: &Host,
    owners: &Owners,
    seats: Vec<OwnerSeat>,
    jobs: &[Job],
    reaps: u32,
    gate: &G,
) -> (Vec<OwnerSeat>, Result<Outcome, PoolFault>)
    // A program can be run only if it was verified against the kinds that the caches have.
    requires known { AreKnown host.now.programs.items }
    // There is a word for each slot of any arena.
    requires slots { ARENA_SLOTS ≤ owners.now.slots }
    requires seats { All (IsIdle owners.now) seats.items }
    ensures done { IfOk result.1 (IsOutcome host.now.programs.items jobs.now seats.items result.0.items) }
    ensures due { OnOk result.1 (pool_fault host.now (vec_len seats) jobs.now ≡ None) }
    ensures refused { IfErr result.1 (IsFaultOf (pool_fault host.now (vec_len seats) jobs.now)) }
    ensures seats { AreIdleAgain owners.now seats.items result.0.items }
{
    if let Some(fault) = pool_fault(host, seats.len(), &JobSlice { jobs }) {
        return (seats, Err(fault));
    }
    let Ok(list) = Jobs::of(alloc, jobs) else {
        return (seats, Err(PoolFault::NoMemory));
    };
    let (seats, done) = run_job_list(rt, alloc, host, owners, seats, &list, reaps, gate);
    let Ok(outcome) = done else {
        return (seats, Err(PoolFault::NoMemory));
    };
    match unpacked(alloc, outcome) {
        Ok(outcome) => (seats, Ok(outcome)),
        Err(_) => (seats, Err(PoolFault::NoMemory)),
    }
}

// The same outcome, with its reports unpacked.
fn unpacked(alloc: Global, outcome: Outcome<PackedReports>) -> Result<Outcome, AllocError>
    ensures { IfOk result (λ unpacked. unpacked ≡ outcome) }
{
    let Outcome {
        reports,
        totals,
        clashes,
        shelves,
        strays,
        jobs_done,
    } = outcome;
    Ok(Outcome {
        reports: Reports::of(alloc, &reports)?,
        totals,
        clashes,
        shelves,
        strays,
        jobs_done,
    })
}
