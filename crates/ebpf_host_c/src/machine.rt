//! Machines, as C makes them, runs programs on them, and frees them.

ghost use Rattle.std.specs.Prelude.{◌≡◌, ◌≢◌, ◌⊎◌, ◌<◌, ◌↔◌, ℕ, None, length};
ghost use base.Fml.{Lft, Share, flft};
ghost use types.Logic.{sem};
ghost use denote.Struct.Lending.{lent_at};
ghost use Rattle.std.specs.Arc.{arc_value};
ghost use Rattle.std.specs.Option.{MatchOption};
ghost use Rattle.vmem_arena.specs.declared.arena.TheConstants.{MAX_PAGES};
ghost use Rattle.ebpf_host.specs.Stocks.{stock_of};
ghost use Rattle.ebpf_host.specs.Whole.{whole};
ghost use Rattle.ebpf_handle.specs.declared.view.ProgramView.{ProgramView};
ghost use Rattle.ebpf_handle.specs.contracts.view.ProgramView.{the_row as view_row};
ghost use Rattle.ebpf_host.specs.Shelving.{ShelvesStay};
ghost use Rattle.ebpf_host_c.specs.Handles.{IsRunReported, MachineGoes, PagesStay};
ghost use Rattle.ebpf_host_c.specs.Reported.{IsReportWritten};
ghost use Rattle.ebpf_host_c.specs.declared.status.TheConstants.{CONTEXT, DONE, EMPTY, NO_MEMORY, PAGES};

use crate::reported::{Reported, write_report};
use crate::status::{CONTEXT, DONE, EMPTY, NO_MEMORY, PAGES};
use ebpf_handle::machine::MachineHandle;
use ebpf_handle::program::ProgramHandle;
use ebpf_handle::view::ProgramView;
use ebpf_host::machine::Machine;
use ebpf_host::program::Program;
use ebpf_machine::run::StartFault;
use std::alloc::Global;
use vmem_arena::ArenaFault;

/// Makes a machine whose objects lie on up to n pages, and frees what the handle held before.
#[unsafe(no_mangle)]
pub extern "C" fn ebpf_machine_new(alloc: Global, machine: &mut MachineHandle, pages: u32) -> u32
    ensures made { result ≡ DONE → MatchOption machine.new.value ⊥ (λ m. (m.arena.pages ≡ pages) × ((kind : ℕ) → (stock_of m kind).shelf ≡ None)) }
    ensures pages { (result ≡ PAGES) ↔ ((pages ≡ 0) ⊎ (MAX_PAGES < pages)) }
    ensures statuses { (result ≡ DONE) ⊎ (result ≡ PAGES) ⊎ (result ≡ NO_MEMORY) }
    ensures kept { result ≢ 0 → machine.new.value ≡ machine.old.value }
{
    match Machine::new(alloc, pages) {
        Ok(made) => match Box::new(alloc, made) {
            Ok(boxed) => {
                machine.put(alloc, boxed);
                DONE
            }
            Err(_) => NO_MEMORY,
        },
        Err(ArenaFault::Pages) => PAGES,
        Err(ArenaFault::NoMemory) => NO_MEMORY,
    }
}

/// Frees a machine with all its objects. The handle holds nothing then, and may be freed again.
#[unsafe(no_mangle)]
pub extern "C" fn ebpf_machine_free(alloc: Global, machine: &mut MachineHandle)
    ensures { machine.new.value ≡ None }
{
    drop(machine.take(alloc));
}

/// Gives the pages of a machine on which there is no object that is held or is on a shelf back to its arena.
#[unsafe(no_mangle)]
pub extern "C" fn ebpf_machine_reap(machine: &mut MachineHandle) -> u32
    ensures status { MatchOption machine.old.value (result ≡ EMPTY) (λ _. result ≡ DONE) }
    ensures shelves { MachineGoes ShelvesStay machine.old.value machine.new.value }
    ensures pages { MachineGoes PagesStay machine.old.value machine.new.value }
{
    match machine.get_mut() {
        None => EMPTY,
        Some(held) => {
            held.reap();
            DONE
        }
    }
}

/// Runs a program on a context, `limit` instructions at most, and reports what it did: by `report`, and its output by `output`, as far as
/// there is room. It writes the word of neither handle, so that handles may lie side by side, and only reads that of the program.
///
/// # Safety
/// The program's handle is lent for as long as the call lasts: others may read it meanwhile, as calls on other threads do, and none may
/// write it.
#[unsafe(no_mangle)]
pub unsafe extern "C" fn ebpf_machine_run(
    machine: &mut MachineHandle,
    program: *const ProgramHandle,
    context: &[u8],
    limit: u64,
    output: &mut [u64],
    report: &mut Reported,
) -> u32
    // For how long the handle is lent, what shows that this lasts, and what the handle is.
    ghost loan: { Lft × Share × ProgramView }
    requires* lasts { sem 𝓛 (flft loan.0 loan.1) }
    requires* lent { sem 𝓛 (lent_at view_row program loan.2 loan.0) }
    ensures* lasts { sem 𝓛 (flft loan.0 loan.1) }
    ensures report { result ≡ DONE → IsRunReported loan.2.value machine.old.value machine.new.value context.now limit output.old output.new report.new }
    ensures pages { MachineGoes PagesStay machine.old.value machine.new.value }
    ensures unchanged { result ≢ 0 → machine.new.value ≡ machine.old.value }
    ensures unmade { result ≢ 0 → (output.new ≡ output.old) × (report.new ≡ report.old) }
    ensures context { result ≡ CONTEXT → MatchOption loan.2.value ⊥ (λ p. length (whole (arc_value p) context.now) ≢ (arc_value p).verified.decl.context) }
    ensures memory { result ≡ NO_MEMORY → MatchOption loan.2.value ⊥ (λ p. length (whole (arc_value p) context.now) ≡ (arc_value p).verified.decl.context) }
    ensures empty { MatchOption machine.old.value (result ≡ EMPTY) (λ _. MatchOption loan.2.value (result ≡ EMPTY) (λ _. (result ≡ DONE) ⊎ (result ≡ CONTEXT) ⊎ (result ≡ NO_MEMORY))) }
{
    run_shown(
        machine,
        unsafe { &*(program as *const ProgramView) },
        context,
        limit,
        output,
        report,
    )
}

// The same with a program's handle that is shown.
fn run_shown(
    machine: &mut MachineHandle,
    program: &ProgramView,
    context: &[u8],
    limit: u64,
    output: &mut [u64],
    report: &mut Reported,
) -> u32
    ensures report { result ≡ DONE → IsRunReported program.now.value machine.old.value machine.new.value context.now limit output.old output.new report.new }
    ensures pages { MachineGoes PagesStay machine.old.value machine.new.value }
    ensures unchanged { result ≢ 0 → machine.new.value ≡ machine.old.value }
    ensures unmade { result ≢ 0 → (output.new ≡ output.old) × (report.new ≡ report.old) }
    ensures context { result ≡ CONTEXT → MatchOption program.now.value ⊥ (λ p. length (whole (arc_value p) context.now) ≢ (arc_value p).verified.decl.context) }
    ensures memory { result ≡ NO_MEMORY → MatchOption program.now.value ⊥ (λ p. length (whole (arc_value p) context.now) ≡ (arc_value p).verified.decl.context) }
    ensures empty { MatchOption machine.old.value (result ≡ EMPTY) (λ _.
        MatchOption program.now.value (result ≡ EMPTY) (λ _. (result ≡ DONE) ⊎ (result ≡ CONTEXT) ⊎ (result ≡ NO_MEMORY))) }
{
    let Some(held) = machine.get_mut() else {
        return EMPTY;
    };
    let Some(loaded) = program.get() else {
        return EMPTY;
    };
    run_held(held, loaded, context, limit, output, report)
}

// The same with what the handles hold.
fn run_held(
    machine: &mut Machine,
    program: &Program,
    context: &[u8],
    limit: u64,
    output: &mut [u64],
    report: &mut Reported,
) -> u32
    ensures report { result ≡ DONE → IsReportWritten machine.old machine.new program.now.verified (whole program.now context.now) limit output.old output.new report.new }
    ensures pages { machine.new.arena.pages ≡ machine.old.arena.pages }
    ensures unchanged { result ≢ 0 → machine.new ≡ machine.old }
    ensures unmade { result ≢ 0 → (output.new ≡ output.old) × (report.new ≡ report.old) }
    ensures context { result ≡ CONTEXT → length (whole program.now context.now) ≢ program.now.verified.decl.context }
    ensures memory { result ≡ NO_MEMORY → length (whole program.now context.now) ≡ program.now.verified.decl.context }
    ensures statuses { (result ≡ DONE) ⊎ (result ≡ CONTEXT) ⊎ (result ≡ NO_MEMORY) }
{
    match machine.run_in_place(program, context, limit) {
        Ok(ended) => {
            write_report(&ended, output, report);
            machine.keep(ended);
            DONE
        }
        Err(StartFault::ContextLength) => CONTEXT,
        Err(StartFault::NoMemory) => NO_MEMORY,
    }
}
