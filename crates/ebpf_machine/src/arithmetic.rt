//! Arithmetic on values (RFC 9669, section 4.1).

ghost use Rattle.std.specs.Prelude.{◌≡◌, Some, Ok};
ghost use Rattle.ebpf_machine.specs.Effect.{binary, moved_on_left};
ghost use Rattle.ebpf_machine.specs.Flows.{IsResult, IsMoved};

use crate::value::Value;
use ebpf_insn::insn::{AluOp, Width};
use ebpf_range::arithmetic::compute;

/// An operation on two values (section 4.1): on two numbers, or one that moves a pointer by the signed reading of a number.
#[inline(always)]
pub(crate) fn binary(
    width: Width,
    op: AluOp,
    left: Option<Value<u16>>,
    right: Option<Value<u16>>,
) -> Value<u16>
    requires { IsResult (binary width op left right) }
    ensures { binary width op left right ≡ Ok result }
{
    match (left, right) {
        (Some(Value::Number(a)), Some(Value::Number(b))) => Value::Number(compute(op, width, a, b)),
        (Some(Value::Pointer { base, offset }), Some(Value::Number(n))) => Value::Pointer {
            base,
            offset: moved(op, offset, n),
        },
        (Some(Value::Number(n)), Some(Value::Pointer { base, offset })) => Value::Pointer {
            base,
            offset: offset + n.cast_signed(),
        },
        _ => unreachable!(),
    }
}

// The offset of a pointer that a sum or a difference of 64 bits moves.
fn moved(op: AluOp, offset: i64, by: u64) -> i64
    requires { IsMoved (moved_on_left Width.W64 op offset by) }
    ensures { moved_on_left Width.W64 op offset by ≡ Some result }
{
    match op {
        AluOp::Add => offset + by.cast_signed(),
        AluOp::Sub => offset - by.cast_signed(),
        _ => unreachable!(),
    }
}
