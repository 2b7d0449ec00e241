//! What a program in a handle is: what was declared of it, and how long it is. An empty handle is answered 0.

ghost use base.Fml.{Lft, Share, flft};
ghost use types.Logic.{sem};
ghost use denote.Struct.Lending.{lent_at};
ghost use Rattle.ebpf_handle.specs.declared.view.ProgramView.{ProgramView};
ghost use Rattle.ebpf_handle.specs.contracts.view.ProgramView.{the_row as view_row};
ghost use Rattle.ebpf_host_c.specs.About.{AreSlotsOf, IsContextOf, IsHeldOf};

use ebpf_handle::program::ProgramHandle;
use ebpf_handle::view::ProgramView;

/// How many bytes of context the host gives to a run of the program: those that were declared, without the program's data.
///
/// # Safety
/// As for [`crate::machine::ebpf_machine_run`], and the same holds of the other two.
#[unsafe(no_mangle)]
pub unsafe extern "C" fn ebpf_program_context(program: *const ProgramHandle) -> u32
    ghost loan: { Lft × Share × ProgramView }
    requires* lasts { sem 𝓛 (flft loan.0 loan.1) }
    requires* lent { sem 𝓛 (lent_at view_row program loan.2 loan.0) }
    ensures* lasts { sem 𝓛 (flft loan.0 loan.1) }
    ensures context { IsContextOf loan.2.value result }
{
    context_shown(unsafe { &*(program as *const ProgramView) })
}

// The same of a handle that is shown.
fn context_shown(program: &ProgramView) -> u32
    ensures { IsContextOf program.now.value result }
{
    match program.get() {
        None => 0,
        Some(held) => held.context(),
    }
}

/// How many objects a run of the program may hold at one time, as was declared.
///
/// # Safety
/// As for [`ebpf_program_context`].
#[unsafe(no_mangle)]
pub unsafe extern "C" fn ebpf_program_held(program: *const ProgramHandle) -> u32
    ghost loan: { Lft × Share × ProgramView }
    requires* lasts { sem 𝓛 (flft loan.0 loan.1) }
    requires* lent { sem 𝓛 (lent_at view_row program loan.2 loan.0) }
    ensures* lasts { sem 𝓛 (flft loan.0 loan.1) }
    ensures held { IsHeldOf loan.2.value result }
{
    held_shown(unsafe { &*(program as *const ProgramView) })
}

// The same of a handle that is shown.
fn held_shown(program: &ProgramView) -> u32
    ensures { IsHeldOf program.now.value result }
{
    match program.get() {
        None => 0,
        Some(held) => held.verified().decl().held as u32,
    }
}

/// How many slots the program has, as it is run: with its loops unrolled, and with the slot in front that a link with data adds.
///
/// # Safety
/// As for [`ebpf_program_context`].
#[unsafe(no_mangle)]
pub unsafe extern "C" fn ebpf_program_slots(program: *const ProgramHandle) -> u32
    ghost loan: { Lft × Share × ProgramView }
    requires* lasts { sem 𝓛 (flft loan.0 loan.1) }
    requires* lent { sem 𝓛 (lent_at view_row program loan.2 loan.0) }
    ensures* lasts { sem 𝓛 (flft loan.0 loan.1) }
    ensures slots { AreSlotsOf loan.2.value result }
{
    slots_shown(unsafe { &*(program as *const ProgramView) })
}

// The same of a handle that is shown.
fn slots_shown(program: &ProgramView) -> u32
    ensures { AreSlotsOf program.now.value result }
{
    match program.get() {
        None => 0,
        Some(held) => held.verified().program().slots() as u32,
    }
}
