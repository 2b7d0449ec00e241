//! Runs of one program in turn, in one memory: each on the next of the contexts, which are one after another.

ghost use Rattle.std.specs.Prelude.{◌≡◌, ◌≤◌, ◌<◌, ℕ, IfOk, IfErr, length, slice_get};
ghost use Rattle.ebpf_machine.specs.Kinds.{known_kinds};
ghost use Rattle.ebpf_host.specs.Finding.{TellsShelves};
ghost use Rattle.shared_store.specs.Tools.{HoldNothing};
ghost use Rattle.ebpf_host_c.specs.InTurn.{AreContexts, AreRun, AreRunBy, AreRunFrom, AreRunOn};

use crate::by_fours::run_by_fours;
use crate::reported::{Reported, write_at};
use ebpf_fours::memory::Memory;
use ebpf_host::contexts::context_at;
use ebpf_host::machine::Machine;
use ebpf_host::program::Program;
use ebpf_host::within::run_within;
use ebpf_host::worker::Worker;
use ebpf_machine::objects::Objects;
use ebpf_machine::workspace::Workspace;
use ebpf_object::Object;

/// Runs a program on as many contexts as there are reports, from one with a number on, with the objects of a store, and writes each report. The
/// numbers of output of a run are written to `output`, over those of the run before it. Returns the memory of the runs, for the next.
///
/// # Errors
/// A run found no memory: how many were run before it. The memory of the runs is freed then.
pub(crate) fn run_each<O: Objects>(
    workspace: Workspace<O::Held>,
    program: &Program,
    contexts: &[u8],
    objects: &mut O,
    limit: u64,
    from: usize,
    output: &mut [u64],
    reports: &mut [Reported],
) -> Result<Workspace<O::Held>, usize>
    requires kinds { O.store.kinds ≡ known_kinds }
    requires room { (store : O) → O.store.can_give store }
    requires tells { TellsShelves O.store }
    requires contexts { AreContexts program.now (length reports.old) contexts.now }
    requires from { from ≤ length reports.old }
    ensures all { IfOk result (λ _. AreRunFrom O.store program.now contexts.now limit from (length reports.old) reports.old reports.new (objects.old, output.old) (objects.new, output.new)) }
    ensures some { IfErr result (λ n. AreRunFrom O.store program.now contexts.now limit from n reports.old reports.new (objects.old, output.old) (objects.new, output.new)) }
    ensures outs { (k : ℕ) → O.store.outs objects.new k ≡ O.store.outs objects.old k }
    ensures fewer { IfErr result (λ n. (from ≤ n) × (n < length reports.old)) }
    ensures unmade { IfErr result (λ n. (k : ℕ) → n ≤ k → slice_get reports.new k ≡ slice_get reports.old k) }
{
    let mut workspace = workspace;
    'runs: for number in from..reports.len() {
        let context = context_at(program, contexts, number);
        match run_within(workspace, program, context, objects, limit) {
            Ok(ended) => {
                write_at(&ended, number, output, reports);
                workspace = ended.forget();
            }
            Err(_) => return Err(number),
        }
    }
    Ok(workspace)
}

/// Does the same in memory that is kept from one run to the next. Returns how many were run: all, or those before one that found no memory.
pub(crate) fn run_all<O: Objects<Held = Object>>(
    memory: &mut Memory<Object>,
    program: &Program,
    contexts: &[u8],
    objects: &mut O,
    limit: u64,
    output: &mut [u64],
    reports: &mut [Reported],
) -> usize
    requires kinds { O.store.kinds ≡ known_kinds }
    requires room { (store : O) → O.store.can_give store }
    requires tells { TellsShelves O.store }
    requires contexts { AreContexts program.now (length reports.old) contexts.now }
    ensures ran { AreRun O.store program.now contexts.now limit result reports.new (objects.old, output.old) (objects.new, output.new) }
    ensures outs { (k : ℕ) → O.store.outs objects.new k ≡ O.store.outs objects.old k }
    ensures most { result ≤ length reports.old }
    ensures unmade { (k : ℕ) → result ≤ k → slice_get reports.new k ≡ slice_get reports.old k }
{
    let done = run_by_fours(memory, program, contexts, objects, limit, output, reports);
    if done == reports.len() {
        return done;
    }
    let Ok(workspace) = memory.take() else {
        return done;
    };
    match run_each(
        workspace, program, contexts, objects, limit, done, output, reports,
    ) {
        Ok(workspace) => {
            memory.put(workspace);
            reports.len()
        }
        Err(done) => done,
    }
}

/// Does the same on a machine.
pub(crate) fn run_on(
    machine: &mut Machine,
    program: &Program,
    contexts: &[u8],
    limit: u64,
    output: &mut [u64],
    reports: &mut [Reported],
) -> usize
    requires { AreContexts program.now (length reports.old) contexts.now }
    ensures ran { AreRunOn program.now contexts.now limit result reports.new (machine.old, output.old) (machine.new, output.new) }
    ensures most { result ≤ length reports.old }
    ensures unmade { (k : ℕ) → result ≤ k → slice_get reports.new k ≡ slice_get reports.old k }
    ensures pages { machine.new.arena.pages ≡ machine.old.arena.pages }
{
    let stocks = &mut *machine.stocks;
    let memory = &mut machine.memory;
    run_all(memory, program, contexts, stocks, limit, output, reports)
}

/// Does the same by a worker.
pub(crate) fn run_by(
    worker: &mut Worker,
    program: &Program,
    contexts: &[u8],
    limit: u64,
    output: &mut [u64],
    reports: &mut [Reported],
) -> usize
    requires { AreContexts program.now (length reports.old) contexts.now }
    ensures ran { AreRunBy program.now contexts.now limit result reports.new (worker.old, output.old) (worker.new, output.new) }
    ensures none { HoldNothing worker.new }
    ensures most { result ≤ length reports.old }
    ensures unmade { (k : ℕ) → result ≤ k → slice_get reports.new k ≡ slice_get reports.old k }
{
    let store = &mut *worker.store;
    let memory = &mut worker.memory;
    run_all(memory, program, contexts, store, limit, output, reports)
}
