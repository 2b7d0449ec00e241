//! Workers, by which C runs programs over caches and shelves that all share.

ghost use Rattle.std.specs.Prelude.{◌≡◌, ◌≢◌, ◌⊎◌, None, length};
ghost use base.Fml.{Lft, Share, flft};
ghost use types.Logic.{sem};
ghost use denote.Struct.Lending.{lent_at};
ghost use Rattle.std.specs.Arc.{arc_value};
ghost use Rattle.std.specs.Option.{MatchOption};
ghost use Rattle.ebpf_host.specs.Whole.{whole};
ghost use Rattle.ebpf_handle.specs.declared.view.ProgramView.{ProgramView};
ghost use Rattle.ebpf_handle.specs.contracts.view.ProgramView.{the_row as view_row};
ghost use Rattle.shared_store.specs.Tools.{HoldNothing};
ghost use Rattle.ebpf_host_c.specs.Handles.{IsRunAnsweredTo};
ghost use Rattle.ebpf_host_c.specs.InTurn.{IsRunAnswered};
ghost use Rattle.ebpf_host_c.specs.declared.status.TheConstants.{CONTEXT, DONE, EMPTY, NO_MEMORY};

use crate::reported::{Reported, write_report};
use crate::status::{CONTEXT, DONE, EMPTY, NO_MEMORY};
use ebpf_handle::program::ProgramHandle;
use ebpf_handle::view::ProgramView;
use ebpf_handle::worker::WorkerHandle;
use ebpf_host::program::Program;
use ebpf_host::worker::Worker;
use ebpf_machine::run::StartFault;
use std::alloc::Global;

/// Runs a program on a context, as [`crate::machine::ebpf_machine_run`] does, over what the workers share. It writes the word of neither handle,
/// and only reads that of the program.
///
/// # Safety
/// As for [`crate::machine::ebpf_machine_run`].
#[unsafe(no_mangle)]
pub unsafe extern "C" fn ebpf_worker_run(
    worker: &mut WorkerHandle,
    program: *const ProgramHandle,
    context: &[u8],
    limit: u64,
    output: &mut [u64],
    report: &mut Reported,
) -> u32
    // For how long the handle is lent, what shows that this lasts, and what the handle is.
    ghost loan: { Lft × Share × ProgramView }
    requires* lasts { sem 𝓛 (flft loan.0 loan.1) }
    requires* lent { sem 𝓛 (lent_at view_row program loan.2 loan.0) }
    ensures* lasts { sem 𝓛 (flft loan.0 loan.1) }
    ensures report { result ≡ DONE → IsRunAnsweredTo loan.2.value worker.old.value worker.new.value context.now limit output.old output.new report.new }
    ensures none { result ≡ DONE → MatchOption worker.new.value ⊥ HoldNothing }
    ensures unchanged { result ≢ 0 → worker.new.value ≡ worker.old.value }
    ensures unmade { result ≢ 0 → (output.new ≡ output.old) × (report.new ≡ report.old) }
    ensures context { result ≡ CONTEXT → MatchOption loan.2.value ⊥ (λ p. length (whole (arc_value p) context.now) ≢ (arc_value p).verified.decl.context) }
    ensures memory { result ≡ NO_MEMORY → MatchOption loan.2.value ⊥ (λ p. length (whole (arc_value p) context.now) ≡ (arc_value p).verified.decl.context) }
    ensures empty { MatchOption worker.old.value (result ≡ EMPTY) (λ _. MatchOption loan.2.value (result ≡ EMPTY) (λ _. (result ≡ DONE) ⊎ (result ≡ CONTEXT) ⊎ (result ≡ NO_MEMORY))) }
{
    run_shown(
        worker,
        unsafe { &*(program as *const ProgramView) },
        context,
        limit,
        output,
        report,
    )
}

// The same with a program's handle that is shown.
fn run_shown(
    worker: &mut WorkerHandle,
    program: &ProgramView,
    context: &[u8],
    limit: u64,
    output: &mut [u64],
    report: &mut Reported,
) -> u32
    ensures report { result ≡ DONE → IsRunAnsweredTo program.now.value worker.old.value worker.new.value context.now limit output.old output.new report.new }
    ensures none { result ≡ DONE → MatchOption worker.new.value ⊥ HoldNothing }
    ensures unchanged { result ≢ 0 → worker.new.value ≡ worker.old.value }
    ensures unmade { result ≢ 0 → (output.new ≡ output.old) × (report.new ≡ report.old) }
    ensures context { result ≡ CONTEXT → MatchOption program.now.value ⊥ (λ p. length (whole (arc_value p) context.now) ≢ (arc_value p).verified.decl.context) }
    ensures memory { result ≡ NO_MEMORY → MatchOption program.now.value ⊥ (λ p. length (whole (arc_value p) context.now) ≡ (arc_value p).verified.decl.context) }
    ensures empty { MatchOption worker.old.value (result ≡ EMPTY) (λ _.
        MatchOption program.now.value (result ≡ EMPTY) (λ _. (result ≡ DONE) ⊎ (result ≡ CONTEXT) ⊎ (result ≡ NO_MEMORY))) }
{
    let Some(held) = worker.get_mut() else {
        return EMPTY;
    };
    let Some(loaded) = program.get() else {
        return EMPTY;
    };
    run_held(held, loaded, context, limit, output, report)
}

// The same with what the handles hold.
fn run_held(
    worker: &mut Worker,
    program: &Program,
    context: &[u8],
    limit: u64,
    output: &mut [u64],
    report: &mut Reported,
) -> u32
    ensures report { result ≡ DONE → IsRunAnswered worker.old worker.new program.now.verified (whole program.now context.now) limit output.old output.new report.new }
    ensures none { result ≡ DONE → HoldNothing worker.new }
    ensures unchanged { result ≢ 0 → worker.new ≡ worker.old }
    ensures unmade { result ≢ 0 → (output.new ≡ output.old) × (report.new ≡ report.old) }
    ensures context { result ≡ CONTEXT → length (whole program.now context.now) ≢ program.now.verified.decl.context }
    ensures memory { result ≡ NO_MEMORY → length (whole program.now context.now) ≡ program.now.verified.decl.context }
    ensures statuses { (result ≡ DONE) ⊎ (result ≡ CONTEXT) ⊎ (result ≡ NO_MEMORY) }
{
    match worker.run_in_place(program, context, limit) {
        Ok(ended) => {
            write_report(&ended, output, report);
            worker.keep(ended);
            DONE
        }
        Err(StartFault::ContextLength) => CONTEXT,
        Err(StartFault::NoMemory) => NO_MEMORY,
    }
}

/// Closes a worker. The handle holds nothing then, and may be closed again.
#[unsafe(no_mangle)]
pub extern "C" fn ebpf_worker_close(alloc: Global, worker: &mut WorkerHandle)
    ensures { worker.new.value ≡ None }
{
    drop(worker.take(alloc));
}
