//! The rules of arithmetic: what refuses an operation, or else what is known of its result (RFC 9669, sections 4.1 and 4.2).

ghost use Rattle.std.specs.Prelude.{◌≡◌, ◌≤◌, OnOk, IfOk, IfErr, IfSome, Some, None, unwrap_or};
ghost use Rattle.ebpf_range.specs.Interval.{constant};
ghost use Rattle.ebpf_state.specs.declared.value.Abs.{Abs};
ghost use Rattle.ebpf_state.specs.States.{register_of};
ghost use Rattle.ebpf_verify.specs.Operations.{is_frame_pointer, constant_refusal, mov64_refusal, unary_refusal, binary_refusal};
ghost use Rattle.ebpf_verify.specs.Operations.{makes_stack_offset_vary, moving_refusal, add64_refusal, sub64_refusal, alu_refusal};
ghost use Rattle.ebpf_verify.specs.Operations.{binary_value, result_of};
ghost use Rattle.ebpf_verify.specs.Pointers.{sum_value, difference_value};

use crate::fault::VerifyCode;
use crate::pointer::{difference_value, sum_value};
use ebpf_insn::insn::{AluOp, Width};
use ebpf_insn::register::Reg;
use ebpf_range::range::Range;
use ebpf_range::results::{alu, low};
use ebpf_state::state::State;
use ebpf_state::value::Abs;

/// What is known of the result of an operation on a register and another operand, or the first code that refuses it. `mov`
/// doesn't read the register.
pub(crate) fn alu_value(
    width: Width,
    op: AluOp,
    dst: Reg,
    right: Abs,
    state: &State,
) -> Result<Abs, VerifyCode>
    ensures fine { OnOk result (alu_refusal width op (register_of state.now dst) right dst ≡ None) }
    ensures value { IfOk result (λ value. value ≡ result_of width op (register_of state.now dst) right) }
    ensures refused { IfErr result (λ code. alu_refusal width op (register_of state.now dst) right dst ≡ Some code) }
{
    match (width, op) {
        (Width::W64, AluOp::Mov) => mov64(right, dst),
        (Width::W32, AluOp::Mov) => Ok(Abs::Num(low(one_number(right, dst)?))),
        (Width::W64, AluOp::Add) => add64(state.reg(dst), right, dst),
        (Width::W64, AluOp::Sub) => sub64(state.reg(dst), right, dst),
        _ => binary(op, width, state.reg(dst), right, dst),
    }
}

/// A number that an instruction has in itself, or the code that refuses the instruction.
pub(crate) fn constant_value(value: u64, dst: Reg) -> Result<Abs, VerifyCode>
    ensures fine { OnOk result (constant_refusal dst ≡ None) }
    ensures value { IfOk result (λ known. known ≡ Abs.Num (constant value)) }
    ensures refused { IfErr result (λ code. constant_refusal dst ≡ Some code) }
{
    if is_frame_pointer(dst) {
        Err(VerifyCode::FramePointerWritten)
    } else {
        Ok(Abs::Num(Range::constant(value)))
    }
}

// `mov` at 64 bits copies any value, pointers too.
fn mov64(src: Abs, dst: Reg) -> Result<Abs, VerifyCode>
    ensures fine { OnOk result (mov64_refusal src dst ≡ None) }
    ensures value { IfOk result (λ value. value ≡ src) }
    ensures refused { IfErr result (λ code. mov64_refusal src dst ≡ Some code) }
{
    if src.is_unset() {
        Err(VerifyCode::UnsetRegister)
    } else if is_frame_pointer(dst) {
        Err(VerifyCode::FramePointerWritten)
    } else {
        Ok(src)
    }
}

/// The operand of an operation on one number, `mov` at 32 bits, `movsx`, `neg` and `end`, or the first code that refuses it.
pub(crate) fn one_number(src: Abs, dst: Reg) -> Result<Range, VerifyCode>
    ensures fine { OnOk result (unary_refusal src dst ≡ None) }
    ensures value { IfOk result (λ a. src ≡ Abs.Num a) }
    ensures refused { IfErr result (λ code. unary_refusal src dst ≡ Some code) }
{
    match src {
        Abs::Unset => Err(VerifyCode::UnsetRegister),
        _ if is_frame_pointer(dst) => Err(VerifyCode::FramePointerWritten),
        Abs::Num(a) => Ok(a),
        Abs::May(_) => Err(VerifyCode::UntestedAnswer),
        _ => Err(VerifyCode::PointerMisused),
    }
}

// An operation on two numbers, which most operands are.
fn binary(op: AluOp, width: Width, left: Abs, right: Abs, dst: Reg) -> Result<Abs, VerifyCode>
    ensures fine { OnOk result (binary_refusal left right dst ≡ None) }
    ensures value { IfOk result (λ value. value ≡ binary_value op width left right) }
    ensures refused { IfErr result (λ code. binary_refusal left right dst ≡ Some code) }
{
    if let (Abs::Num(a), Abs::Num(b)) = (left, right) {
        return if is_frame_pointer(dst) {
            Err(VerifyCode::FramePointerWritten)
        } else {
            Ok(Abs::Num(alu(op, width, a, b)))
        };
    }
    match (left, right) {
        (Abs::Unset, _) | (_, Abs::Unset) => Err(VerifyCode::UnsetRegister),
        _ if is_frame_pointer(dst) => Err(VerifyCode::FramePointerWritten),
        (Abs::May(_), _) | (_, Abs::May(_)) => Err(VerifyCode::UntestedAnswer),
        _ => Err(VerifyCode::PointerMisused),
    }
}

// `add` at 64 bits adds two numbers, or moves a pointer by a number. Two numbers come first, since they are most of what is
// added.
fn add64(left: Abs, right: Abs, dst: Reg) -> Result<Abs, VerifyCode>
    ensures fine { OnOk result (add64_refusal left right dst ≡ None) }
    ensures value { IfOk result (λ value. value ≡ unwrap_or (sum_value left right) Abs.Unset) }
    ensures refused { IfErr result (λ code. add64_refusal left right dst ≡ Some code) }
{
    match (left, right) {
        (Abs::Num(a), Abs::Num(b)) if !is_frame_pointer(dst) => {
            Ok(Abs::Num(alu(AluOp::Add, Width::W64, a, b)))
        }
        _ => moving(
            left,
            right,
            dst,
            left.is_pointer() && right.is_pointer(),
            makes_stack_offset_vary(left, right) || makes_stack_offset_vary(right, left),
            sum_value(left, right),
        ),
    }
}

// `sub` at 64 bits takes a number from a number, or moves a pointer back by a number. Two numbers come first here too.
fn sub64(left: Abs, right: Abs, dst: Reg) -> Result<Abs, VerifyCode>
    ensures fine { OnOk result (sub64_refusal left right dst ≡ None) }
    ensures value { IfOk result (λ value. value ≡ unwrap_or (difference_value left right) Abs.Unset) }
    ensures refused { IfErr result (λ code. sub64_refusal left right dst ≡ Some code) }
{
    match (left, right) {
        (Abs::Num(a), Abs::Num(b)) if !is_frame_pointer(dst) => {
            Ok(Abs::Num(alu(AluOp::Sub, Width::W64, a, b)))
        }
        _ => moving(
            left,
            right,
            dst,
            right.is_pointer(),
            makes_stack_offset_vary(left, right),
            difference_value(left, right),
        ),
    }
}

// The sum or the difference of any two values, or the first code that refuses it.
fn moving(
    left: Abs,
    right: Abs,
    dst: Reg,
    moves_by_pointer: bool,
    moves_stack_by_unknown: bool,
    value: Option<Abs>,
) -> Result<Abs, VerifyCode>
    ensures fine { OnOk result (moving_refusal left right dst moves_by_pointer moves_stack_by_unknown value ≡ None) }
    ensures value { IfOk result (λ known. known ≡ unwrap_or value Abs.Unset) }
    ensures refused { IfErr result (λ code. moving_refusal left right dst moves_by_pointer moves_stack_by_unknown value ≡ Some code) }
{
    if left.is_unset() || right.is_unset() {
        Err(VerifyCode::UnsetRegister)
    } else if is_frame_pointer(dst) {
        Err(VerifyCode::FramePointerWritten)
    } else if left.is_may() || right.is_may() {
        Err(VerifyCode::UntestedAnswer)
    } else if moves_by_pointer || moves_stack_by_unknown {
        Err(VerifyCode::PointerMisused)
    } else {
        value.ok_or(VerifyCode::MovedTooFar)
    }
}

/// The register is the read-only frame pointer.
pub(crate) fn is_frame_pointer(register: Reg) -> bool
    ensures { result ≡ is_frame_pointer register }
{
    matches!(register, Reg::R10)
}

// A pointer to the stack would be moved by a number that isn't known exactly.
fn makes_stack_offset_vary(pointer: Abs, by: Abs) -> bool
    ensures { result ≡ makes_stack_offset_vary pointer by }
{
    match (pointer, by) {
        (Abs::Stk(_), Abs::Num(by)) => by.lo != by.hi,
        _ => false,
    }
}
