//! The rules of calls: what refuses one, and what is known after it (RFC 9669, section 4.3.1).

ghost use Rattle.std.specs.Prelude.{◌≡◌, ◌≤◌, ◌<◌, IfErr, OnOk, Some, None, length};
ghost use Rattle.ebpf_insn.specs.declared.program.TheConstants.{MAX_SLOTS};
ghost use Rattle.ebpf_insn.specs.declared.register.Reg.{Reg};
ghost use Rattle.ebpf_range.specs.Interval.{constant};
ghost use Rattle.ebpf_state.specs.declared.value.Abs.{Abs};
ghost use Rattle.ebpf_state.specs.States.{register_of};
ghost use Rattle.ebpf_operation.specs.Helpers.{helper_of};
ghost use Rattle.ebpf_verify.specs.Calls.{new_refusal, free_refusal, emit_refusal, is_that, swap_refusal, call_refusal, with_result, after_new};
ghost use Rattle.ebpf_verify.specs.Calls.{after_free, after_swap, after_call};
ghost use Rattle.ebpf_verify.specs.Verdict.{IsSlotFault};

use crate::decl::Decl;
use crate::fault::{VerifyCode, VerifyFault, refused_at};
use ebpf_insn::register::Reg;
use ebpf_operation::helper::{Helper, helper_of};
use ebpf_range::range::Range;
use ebpf_state::kinds::KindRow;
use ebpf_state::state::State;
use ebpf_state::value::Abs;

/// Says in the state what is known after the call of a helper at a slot, or says why that can't be called.
// It is kept apart from what most slots do.
#[inline(never)]
pub(crate) fn call(
    decl: Decl,
    kinds: &[KindRow],
    number: i32,
    slot: usize,
    state: &mut State,
) -> Result<(), VerifyFault>
    requires inside { slot < MAX_SLOTS }
    requires few { length kinds.now ≤ 8 }
    ensures fine { OnOk result (call_refusal decl kinds.now (helper_of number) state.old ≡ None) }
    ensures known { OnOk result (after_call slot (helper_of number) state.old ≡ Some state.new) }
    ensures refused { IfErr result (IsSlotFault slot (call_refusal decl kinds.now (helper_of number) state.old)) }
{
    match helper_of(number) {
        Some(Helper::New) => call_new(decl, kinds.len(), slot, state),
        Some(Helper::Free) => call_free(slot, state),
        Some(Helper::Emit) => call_emit(slot, state),
        Some(Helper::Swap) => call_swap(decl, kinds.len(), slot, state),
        None => Err(refused_at(slot, VerifyCode::UnknownHelper)),
    }
}

// A call that asks for an object. Until its answer is compared with null, one may be held.
fn call_new(decl: Decl, kinds: usize, slot: usize, state: &mut State) -> Result<(), VerifyFault>
    requires inside { slot < MAX_SLOTS }
    requires few { kinds ≤ 8 }
    ensures fine { OnOk result (new_refusal decl kinds (length state.old.held) (register_of state.old Reg.R1) ≡ None) }
    ensures known { OnOk result (after_new slot (register_of state.old Reg.R1) state.old ≡ Some state.new) }
    ensures refused { IfErr result (IsSlotFault slot (new_refusal decl kinds (length state.old.held) (register_of state.old Reg.R1))) }
{
    match state.reg(Reg::R1) {
        Abs::Unset => Err(refused_at(slot, VerifyCode::UnsetRegister)),
        Abs::Num(kind) if kind.lo == kind.hi && kind.lo < kinds as u64 => {
            if state.held() >= decl.held as usize {
                return Err(refused_at(slot, VerifyCode::TooManyHeld));
            }
            state.hold(slot as u16, kind.lo as u8)?;
            set_result(state, Abs::May(slot as u16));
            Ok(())
        }
        _ => Err(refused_at(slot, VerifyCode::WrongArgument)),
    }
}

// A call that gives an object back: no copy of the pointer to it is known any more.
fn call_free(slot: usize, state: &mut State) -> Result<(), VerifyFault>
    requires inside { slot < MAX_SLOTS }
    ensures fine { OnOk result (free_refusal (register_of state.old Reg.R1) ≡ None) }
    ensures known { OnOk result (after_free (register_of state.old Reg.R1) state.old ≡ Some state.new) }
    ensures refused { IfErr result (IsSlotFault slot (free_refusal (register_of state.old Reg.R1))) }
{
    match state.reg(Reg::R1) {
        Abs::Unset => Err(refused_at(slot, VerifyCode::UnsetRegister)),
        Abs::May(_) => Err(refused_at(slot, VerifyCode::UntestedAnswer)),
        Abs::Ob(call, 0, 0) => {
            state.forget(call);
            set_result(state, Abs::Num(Range::constant(0)));
            Ok(())
        }
        _ => Err(refused_at(slot, VerifyCode::WrongArgument)),
    }
}

// A call that adds a number to the output.
fn call_emit(slot: usize, state: &mut State) -> Result<(), VerifyFault>
    requires inside { slot < MAX_SLOTS }
    ensures fine { OnOk result (emit_refusal (register_of state.old Reg.R1) ≡ None) }
    ensures known { OnOk result (with_result (Abs.Num (constant 0)) state.old ≡ state.new) }
    ensures refused { IfErr result (IsSlotFault slot (emit_refusal (register_of state.old Reg.R1))) }
{
    match state.reg(Reg::R1) {
        Abs::Unset => Err(refused_at(slot, VerifyCode::UnsetRegister)),
        Abs::Num(_) => {
            set_result(state, Abs::Num(Range::constant(0)));
            Ok(())
        }
        _ => Err(refused_at(slot, VerifyCode::WrongArgument)),
    }
}

// A call that exchanges what is on a shelf for an object of its kind, or for nothing.
fn call_swap(decl: Decl, kinds: usize, slot: usize, state: &mut State) -> Result<(), VerifyFault>
    requires inside { slot < MAX_SLOTS }
    requires few { kinds ≤ 8 }
    ensures fine { OnOk result (swap_refusal decl kinds state.old (register_of state.old Reg.R1) (register_of state.old Reg.R2) ≡ None) }
    ensures known { OnOk result (after_swap slot (register_of state.old Reg.R1) (register_of state.old Reg.R2) state.old ≡ Some state.new) }
    ensures refused { IfErr result (IsSlotFault slot (swap_refusal decl kinds state.old (register_of state.old Reg.R1) (register_of state.old Reg.R2))) }
{
    let shelf = match (state.reg(Reg::R1), state.reg(Reg::R2)) {
        (Abs::Unset, _) | (_, Abs::Unset) => return Err(refused_at(
            slot,
            VerifyCode::UnsetRegister,
        )),
        (_, Abs::May(_)) => return Err(refused_at(slot, VerifyCode::UntestedAnswer)),
        (Abs::Num(shelf), _) if shelf.lo == shelf.hi && shelf.lo < kinds as u64 => shelf.lo as u8,
        _ => return Err(refused_at(slot, VerifyCode::WrongArgument)),
    };
    match state.reg(Reg::R2) {
        Abs::Num(given) if given.lo == 0 && given.hi == 0 => {}
        Abs::Ob(call, 0, 0) if is_kind(state.kind(call), shelf) => state.forget(call),
        _ => return Err(refused_at(slot, VerifyCode::WrongArgument)),
    }
    if state.held() >= decl.held as usize {
        return Err(refused_at(slot, VerifyCode::TooManyHeld));
    }
    state.hold(slot as u16, shelf)?;
    set_result(state, Abs::May(slot as u16));
    Ok(())
}

// Says what is known of the result of a call, and that r1 to r5 are lost.
fn set_result(state: &mut State, value: Abs)
    ensures { state.new ≡ with_result value state.old }
{
    state.set(Reg::R1, Abs::Unset);
    state.set(Reg::R2, Abs::Unset);
    state.set(Reg::R3, Abs::Unset);
    state.set(Reg::R4, Abs::Unset);
    state.set(Reg::R5, Abs::Unset);
    state.set(Reg::R0, value);
}

// The kind that is held is this one.
fn is_kind(held: Option<u8>, kind: u8) -> bool
    ensures { result ≡ is_that kind held }
{
    match held {
        Some(held) => held == kind,
        None => false,
    }
}
