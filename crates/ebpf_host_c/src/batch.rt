//! Batches of runs: C has a program run on many contexts by one call.

ghost use Rattle.std.specs.Prelude.{◌≡◌, ◌⊎◌, ◌<◌, ◌≤◌, ℕ, true, false, [], length, slice_get};
ghost use base.Fml.{Lft, Share, flft};
ghost use types.Logic.{sem};
ghost use denote.Struct.Lending.{lent_at};
ghost use Rattle.std.specs.Arc.{arc_value};
ghost use Rattle.std.specs.Option.{MatchOption};
ghost use Rattle.ebpf_handle.specs.declared.view.ProgramView.{ProgramView};
ghost use Rattle.ebpf_handle.specs.contracts.view.ProgramView.{the_row as view_row};
ghost use Rattle.ebpf_host_c.specs.Handles.{AreRunsReported, MachineGoes, PagesStay};
ghost use Rattle.ebpf_host_c.specs.InTurn.{AreContexts, AreRunOn};
ghost use Rattle.ebpf_host_c.specs.declared.status.TheConstants.{CONTEXT, DONE, EMPTY, NO_MEMORY};

use crate::in_turn::run_on;
use crate::reported::Reported;
use crate::status::{CONTEXT, DONE, EMPTY, NO_MEMORY};
use ebpf_handle::machine::MachineHandle;
use ebpf_handle::program::ProgramHandle;
use ebpf_handle::view::ProgramView;
use ebpf_host::machine::Machine;
use ebpf_host::program::Program;

/// Runs a program on as many contexts as there are reports, as [`crate::machine::ebpf_machine_run`] runs it on each. The contexts are one
/// after another in `contexts`. `done` is how many were run: if a run finds no memory, those before it. No output is written: a report says
/// how many numbers there were.
///
/// # Safety
/// As for [`crate::machine::ebpf_machine_run`].
#[unsafe(no_mangle)]
pub unsafe extern "C" fn ebpf_machine_run_batch(
    machine: &mut MachineHandle,
    program: *const ProgramHandle,
    contexts: &[u8],
    limit: u64,
    reports: &mut [Reported],
    done: &mut usize,
) -> u32
    // For how long the handle is lent, what shows that this lasts, and what the handle is.
    ghost loan: { Lft × Share × ProgramView }
    requires* lasts { sem 𝓛 (flft loan.0 loan.1) }
    requires* lent { sem 𝓛 (lent_at view_row program loan.2 loan.0) }
    ensures* lasts { sem 𝓛 (flft loan.0 loan.1) }
    ensures runs { (result ≡ DONE) ⊎ (result ≡ NO_MEMORY) → AreRunsReported loan.2.value machine.old.value machine.new.value contexts.now limit done.new reports.new }
    ensures all { result ≡ DONE → done.new ≡ length reports.old }
    ensures fewer { result ≡ NO_MEMORY → done.new < length reports.old }
    ensures unmade { (result ≡ DONE) ⊎ (result ≡ NO_MEMORY) → (k : ℕ) → done.new ≤ k → slice_get reports.new k ≡ slice_get reports.old k }
    ensures pages { MachineGoes PagesStay machine.old.value machine.new.value }
    ensures unchanged { (result ≡ CONTEXT) ⊎ (result ≡ EMPTY) → (machine.new.value ≡ machine.old.value) × (reports.new ≡ reports.old) × (done.new ≡ done.old) }
    ensures context { result ≡ CONTEXT → MatchOption loan.2.value ⊥ (λ p. AreContexts (arc_value p) (length reports.old) contexts.now → ⊥) }
    ensures fits { (result ≡ DONE) ⊎ (result ≡ NO_MEMORY) → MatchOption loan.2.value ⊥ (λ p. AreContexts (arc_value p) (length reports.old) contexts.now) }
    ensures empty { MatchOption machine.old.value (result ≡ EMPTY) (λ _. MatchOption loan.2.value (result ≡ EMPTY) (λ _. (result ≡ DONE) ⊎ (result ≡ CONTEXT) ⊎ (result ≡ NO_MEMORY))) }
{
    batch_shown(
        machine,
        unsafe { &*(program as *const ProgramView) },
        contexts,
        limit,
        reports,
        done,
    )
}

// The same with a program's handle that is shown.
fn batch_shown(
    machine: &mut MachineHandle,
    program: &ProgramView,
    contexts: &[u8],
    limit: u64,
    reports: &mut [Reported],
    done: &mut usize,
) -> u32
    ensures runs { (result ≡ DONE) ⊎ (result ≡ NO_MEMORY) → AreRunsReported program.now.value machine.old.value machine.new.value contexts.now limit done.new reports.new }
    ensures all { result ≡ DONE → done.new ≡ length reports.old }
    ensures fewer { result ≡ NO_MEMORY → done.new < length reports.old }
    ensures unmade { (result ≡ DONE) ⊎ (result ≡ NO_MEMORY) → (k : ℕ) → done.new ≤ k → slice_get reports.new k ≡ slice_get reports.old k }
    ensures pages { MachineGoes PagesStay machine.old.value machine.new.value }
    ensures unchanged { (result ≡ CONTEXT) ⊎ (result ≡ EMPTY) → (machine.new.value ≡ machine.old.value) × (reports.new ≡ reports.old) × (done.new ≡ done.old) }
    ensures context { result ≡ CONTEXT → MatchOption program.now.value ⊥ (λ p. AreContexts (arc_value p) (length reports.old) contexts.now → ⊥) }
    ensures fits { (result ≡ DONE) ⊎ (result ≡ NO_MEMORY) → MatchOption program.now.value ⊥ (λ p. AreContexts (arc_value p) (length reports.old) contexts.now) }
    ensures empty { MatchOption machine.old.value (result ≡ EMPTY) (λ _.
        MatchOption program.now.value (result ≡ EMPTY) (λ _. (result ≡ DONE) ⊎ (result ≡ CONTEXT) ⊎ (result ≡ NO_MEMORY))) }
{
    let Some(held) = machine.get_mut() else {
        return EMPTY;
    };
    let Some(loaded) = program.get() else {
        return EMPTY;
    };
    batch_held(held, loaded, contexts, limit, reports, done)
}

// The same with what the handles hold.
fn batch_held(
    machine: &mut Machine,
    program: &Program,
    contexts: &[u8],
    limit: u64,
    reports: &mut [Reported],
    done: &mut usize,
) -> u32
    ensures runs { (result ≡ DONE) ⊎ (result ≡ NO_MEMORY) → AreRunOn program.now contexts.now limit done.new reports.new (machine.old, []) (machine.new, []) }
    ensures all { result ≡ DONE → done.new ≡ length reports.old }
    ensures fewer { result ≡ NO_MEMORY → done.new < length reports.old }
    ensures unmade { (result ≡ DONE) ⊎ (result ≡ NO_MEMORY) → (k : ℕ) → done.new ≤ k → slice_get reports.new k ≡ slice_get reports.old k }
    ensures pages { machine.new.arena.pages ≡ machine.old.arena.pages }
    ensures unchanged { (result ≡ CONTEXT) ⊎ (result ≡ EMPTY) → (machine.new ≡ machine.old) × (reports.new ≡ reports.old) × (done.new ≡ done.old) }
    ensures context { result ≡ CONTEXT → AreContexts program.now (length reports.old) contexts.now → ⊥ }
    ensures fits { (result ≡ DONE) ⊎ (result ≡ NO_MEMORY) → AreContexts program.now (length reports.old) contexts.now }
    ensures statuses { (result ≡ DONE) ⊎ (result ≡ CONTEXT) ⊎ (result ≡ NO_MEMORY) }
{
    if !are_contexts(program, reports.len(), contexts) {
        return CONTEXT;
    }
    let count = reports.len();
    *done = run_on(machine, program, contexts, limit, &mut [], reports);
    if *done == count { DONE } else { NO_MEMORY }
}

/// Whether these bytes are that many contexts of a program.
pub(crate) fn are_contexts(program: &Program, count: usize, contexts: &[u8]) -> bool
    ensures yes { result ≡ true → AreContexts program.now count contexts.now }
    ensures no { result ≡ false → AreContexts program.now count contexts.now → ⊥ }
{
    match count.checked_mul(program.context() as usize) {
        Some(bytes) => contexts.len() == bytes,
        None => false,
    }
}
