//! The rules of branches: what refuses one, and what is known on each of its edges (RFC 9669, section 4.3).

ghost use Rattle.std.specs.Prelude.{◌≡◌, ◌≤◌, OnOk, IfOk, IfErr, Some, None};
ghost use Rattle.ebpf_state.specs.declared.value.Abs.{Abs};
ghost use Rattle.ebpf_verify.specs.Branches.{operand, null_test, comparison_refusal, with_operands, is_null_where};

use crate::fault::VerifyCode;
use ebpf_insn::insn::{Cond, Source, Width};
use ebpf_insn::register::Reg;
use ebpf_range::range::Range;
use ebpf_state::state::State;
use ebpf_state::value::Abs;

/// What a branch compares, and how.
#[derive(Clone, Copy)]
pub(crate) struct Branch {
    pub(crate) width: Width,
    pub(crate) cond: Cond,
    pub(crate) left: Reg,
    pub(crate) right: Source,
}

impl Branch {
    pub(crate) fn new(width: Width, cond: Cond, left: Reg, right: Source) -> Branch
        ensures { result ≡ record { width = width; cond = cond; left = left; right = right } }
    {
        Branch {
            width,
            cond,
            left,
            right,
        }
    }
}

/// What is known of a second operand.
pub(crate) fn operand(state: &State, width: Width, source: Source) -> Abs
    ensures { result ≡ operand state.now width source }
{
    match source {
        Source::Register(register) => state.reg(register),
        Source::Imm(imm) => Abs::Num(Range::constant(width.immediate(imm))),
    }
}

/// The call whose answer a branch compares with null, which `jeq` and `jne` with the immediate 0 do at 64 bits.
pub(crate) fn null_test(width: Width, cond: Cond, left: Abs, right: Source) -> Option<u16>
    ensures { result ≡ null_test width cond left right }
{
    match (width, cond, right, left) {
        (Width::W64, Cond::Eq | Cond::Ne, Source::Imm(0), Abs::May(call)) => Some(call),
        _ => None,
    }
}

/// The operands of a comparison that is no null test, which are two numbers, or the first code that refuses it.
pub(crate) fn compared(left: Abs, right: Abs) -> Result<(Range, Range), VerifyCode>
    ensures fine { OnOk result (comparison_refusal left right ≡ None) }
    ensures left { IfOk result (λ p. left ≡ Abs.Num p.0) }
    ensures right { IfOk result (λ p. right ≡ Abs.Num p.1) }
    ensures refused { IfErr result (λ code. comparison_refusal left right ≡ Some code) }
{
    match (left, right) {
        (Abs::Num(a), Abs::Num(b)) => Ok((a, b)),
        (Abs::Unset, _) | (_, Abs::Unset) => Err(VerifyCode::UnsetRegister),
        _ => Err(VerifyCode::PointerCompared),
    }
}

/// Says in the state what is known of both operands from now on. The left register is written first.
pub(crate) fn set_operands(state: &mut State, left: Reg, right: Source, known: (Range, Range))
    ensures { with_operands left right (Some known) state.old ≡ Some state.new }
{
    state.set(left, Abs::Num(known.0));
    if let Source::Register(register) = right {
        state.set(register, Abs::Num(known.1));
    }
}

/// An answer is null where `jeq` is taken, and where `jne` is not.
pub(crate) fn is_null_where(cond: Cond, taken: bool) -> bool
    ensures { result ≡ is_null_where cond taken }
{
    match cond {
        Cond::Eq => taken,
        _ => !taken,
    }
}
