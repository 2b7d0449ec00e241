//! A program in a handle, and a second handle of it.

ghost use Rattle.std.specs.Prelude.{◌≡◌, ◌≢◌, ◌⊎◌};
ghost use base.Fml.{Lft, Share, flft};
ghost use types.Logic.{sem};
ghost use denote.Struct.Lending.{lent_at};
ghost use Rattle.std.specs.Arc.{arc_value};
ghost use Rattle.std.specs.Option.{MatchOption};
ghost use Rattle.ebpf_handle.specs.declared.view.ProgramView.{ProgramView};
ghost use Rattle.ebpf_handle.specs.contracts.view.ProgramView.{the_row as view_row};
ghost use Rattle.ebpf_host_c.specs.Handles.{HoldTheSame};
ghost use Rattle.ebpf_host_c.specs.declared.status.TheConstants.{DONE, EMPTY, NO_MEMORY};

use crate::status::{DONE, EMPTY, NO_MEMORY};
use ebpf_handle::program::ProgramHandle;
use ebpf_handle::view::ProgramView;
use ebpf_host::program::Program;
use std::alloc::Global;
use std::sync::Arc;

/// Puts a loaded program into a handle, and frees what the handle held before.
pub(crate) fn keep(alloc: Global, program: &mut ProgramHandle, loaded: Program) -> u32
    ensures kept { result ≡ DONE → MatchOption program.new.value ⊥ (λ p. arc_value p ≡ loaded) }
    ensures statuses { (result ≡ DONE) ⊎ (result ≡ NO_MEMORY) }
    ensures unchanged { result ≢ 0 → program.new.value ≡ program.old.value }
{
    match Arc::new(alloc, loaded) {
        Ok(shared) => put_share(alloc, program, shared),
        Err(_) => NO_MEMORY,
    }
}

/// Lets `other` hold the program of `program` too, without verifying it again, and frees what `other` held before. Each of the two
/// handles is then freed by itself, on any thread, and the last one frees the program. It only reads the word of `program`.
///
/// # Safety
/// As for [`crate::machine::ebpf_machine_run`].
#[unsafe(no_mangle)]
pub unsafe extern "C" fn ebpf_program_share(
    alloc: Global,
    other: &mut ProgramHandle,
    program: *const ProgramHandle,
) -> u32
    ghost loan: { Lft × Share × ProgramView }
    requires* lasts { sem 𝓛 (flft loan.0 loan.1) }
    requires* lent { sem 𝓛 (lent_at view_row program loan.2 loan.0) }
    ensures* lasts { sem 𝓛 (flft loan.0 loan.1) }
    ensures shared { result ≡ DONE → HoldTheSame loan.2.value other.new.value }
    ensures statuses { MatchOption loan.2.value (result ≡ EMPTY) (λ _. (result ≡ DONE) ⊎ (result ≡ NO_MEMORY)) }
    ensures unchanged { result ≢ 0 → other.new.value ≡ other.old.value }
{
    share_shown(alloc, other, unsafe { &*(program as *const ProgramView) })
}

// The same with a handle that is shown.
fn share_shown(alloc: Global, other: &mut ProgramHandle, program: &ProgramView) -> u32
    ensures shared { result ≡ DONE → HoldTheSame program.now.value other.new.value }
    ensures statuses { MatchOption program.now.value (result ≡ EMPTY) (λ _. (result ≡ DONE) ⊎ (result ≡ NO_MEMORY)) }
    ensures unchanged { result ≢ 0 → other.new.value ≡ other.old.value }
{
    match program.get() {
        None => EMPTY,
        Some(held) => share_held(alloc, other, held),
    }
}

// The same with what the handle holds.
fn share_held(alloc: Global, other: &mut ProgramHandle, held: &Arc<Program>) -> u32
    ensures shared { result ≡ DONE → MatchOption other.new.value ⊥ (λ o. arc_value o ≡ arc_value held.now) }
    ensures statuses { (result ≡ DONE) ⊎ (result ≡ NO_MEMORY) }
    ensures unchanged { result ≢ 0 → other.new.value ≡ other.old.value }
{
    match Arc::try_clone(held) {
        Ok(shared) => put_share(alloc, other, shared),
        Err(_) => NO_MEMORY,
    }
}

// Puts a share of a program into a handle.
fn put_share(alloc: Global, program: &mut ProgramHandle, shared: Arc<Program>) -> u32
    ensures put { result ≡ DONE → MatchOption program.new.value ⊥ (λ p. arc_value p ≡ arc_value shared) }
    ensures statuses { (result ≡ DONE) ⊎ (result ≡ NO_MEMORY) }
    ensures unchanged { result ≢ 0 → program.new.value ≡ program.old.value }
{
    match Box::new(alloc, shared) {
        Ok(boxed) => {
            program.put(alloc, boxed);
            DONE
        }
        Err(_) => NO_MEMORY,
    }
}
