//! A program laid out anew.

ghost use Rattle.std.specs.Prelude.{◌≡◌, ◌≢◌, IfOk, IfErr, None, length, true, false};
ghost use Rattle.ebpf_flow.specs.Flow.{flow_fault};
ghost use Rattle.ebpf_layout.specs.Layout.{IsLaidAs, IsLaidOut, copied_in};
ghost use Rattle.ebpf_layout.specs.Running.{RunAlike};
ghost use Rattle.ebpf_layout.specs.Refusal.{IsLayoutFault};
ghost use Rattle.ebpf_layout.specs.declared.fault.LayoutFault.{LayoutFault};

use crate::copied::{copied_slots, own_slots};
use crate::fault::LayoutFault;
use crate::placing::place;
use crate::refusal::check_edges;
use crate::search::order_of;
use crate::writer::{Writer, write};
use ebpf_flow::check::check;
use ebpf_flow::fault::FlowFault;
use ebpf_insn::program::{MAX_SLOTS, Program};
use std::alloc::{AllocError, Global};

/// A program that was laid out.
#[derive(Drop)]
pub struct Laid {
    /// The new program.
    pub program: Program,
    /// Of each of its slots the slot of the old program that it copies; none of an added jump, and of a second half.
    pub of: Vec<Option<u16>>,
}

/// The program with its reached instructions in an order in which each comes before those that it leads to. What an instruction
/// falls to comes right after it; or, after a branch whose target is in between, a jump there.
///
/// # Errors
/// `Loop` where no such order is; `Flow` where an edge of something reached leads to no instruction; `Slots` where, laid out, it has
/// more than `MAX_SLOTS` slots; `NoMemory` where an allocation failed.
pub fn lay_out(alloc: Global, program: &Program) -> Result<Laid, LayoutFault>
    ensures laid_as { IfOk result (λ l. IsLaidAs program.now l.program (copied_in l.of.items)) }
    ensures all { IfOk result (λ l. length l.of.items ≡ length l.program) }
    ensures laid_out { IfOk result (λ l. IsLaidOut program.now l.program) }
    ensures fine { IfOk result (λ l. flow_fault l.program ≡ None) }
    ensures alike { IfOk result (λ l. RunAlike program.now l.program) }
    ensures refused { IfErr result (IsLayoutFault program.now) }
    // A program whose flow has no fault stays as it is.
    ensures same { IfOk result (λ l. flow_fault program.now ≡ None → l.program ≡ program.now) }
    ensures kept { IfErr result (λ e. flow_fault program.now ≡ None → e ≡ LayoutFault.NoMemory) }
{
    if is_in_order(alloc, program)? {
        return Ok(as_it_is(alloc, program)?);
    }
    let found = order_of(alloc, program)?;
    check_edges(program, &found)?;
    let order = place(alloc, program, &found)?;
    let Writer {
        mut code,
        count,
        places,
    } = write(alloc, program, &order)?;
    if code.len() > MAX_SLOTS {
        return Err(LayoutFault::Slots);
    }
    let mut of = copied_slots(alloc, &order.slots, &places, code.len())?;
    code.reverse();
    of.reverse();
    Ok(Laid {
        program: Program::new(code, count),
        of,
    })
}

// A program whose flow has no fault, laid out.
fn as_it_is(alloc: Global, program: &Program) -> Result<Laid, AllocError>
    requires { flow_fault program.now ≡ None }
    ensures laid_as { IfOk result (λ l. IsLaidAs program.now l.program (copied_in l.of.items)) }
    ensures all { IfOk result (λ l. length l.of.items ≡ length l.program) }
    ensures same { IfOk result (λ l. l.program ≡ program.now) }
{
    // Read for what it promises: the program is well formed.
    let _ = program.slots();
    Ok(Laid {
        program: copy_of(alloc, program)?,
        of: own_slots(alloc, program)?,
    })
}

// Whether the flow of a program has no fault.
fn is_in_order(alloc: Global, program: &Program) -> Result<bool, AllocError>
    ensures yes { IfOk result (λ b. b ≡ true → flow_fault program.now ≡ None) }
    ensures no { IfOk result (λ b. b ≡ false → flow_fault program.now ≢ None) }
{
    match check(alloc, copy_of(alloc, program)?) {
        Ok(_) => Ok(true),
        Err(FlowFault::Bad { .. }) => Ok(false),
        Err(FlowFault::NoMemory) => Err(AllocError),
    }
}

/// The same program once more.
///
/// # Errors
/// It fails only where an allocation fails.
pub fn copy_of(alloc: Global, program: &Program) -> Result<Program, AllocError>
    ensures { IfOk result (λ q. q ≡ program.now) }
{
    let slots = program.slots();
    let mut code = Vec::with_capacity(alloc, slots)?;
    for slot in 0..slots {
        code.push_reserved(program.at(slot).copied());
    }
    Ok(Program::new(code, program.len()))
}
