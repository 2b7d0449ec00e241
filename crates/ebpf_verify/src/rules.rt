//! The rules of the instructions: what refuses one, or else what it writes.

ghost use Rattle.std.specs.Prelude.{◌≡◌, ◌≤◌, OnOk, IfOk, IfErr, IsSome, Some, None, List};
ghost use Rattle.ebpf_insn.specs.declared.insn.AluOp.{AluOp};
ghost use Rattle.ebpf_insn.specs.declared.insn.Source.{Source};
ghost use Rattle.ebpf_insn.specs.declared.insn.Width.{Width};
ghost use Rattle.ebpf_insn.specs.declared.register.Reg.{Reg};
ghost use Rattle.ebpf_state.specs.declared.value.Abs.{Abs};
ghost use Rattle.ebpf_state.specs.States.{register_of, with_register};
ghost use Rattle.ebpf_verify.specs.Branches.{operand};
ghost use Rattle.ebpf_verify.specs.Operations.{unary_refusal, alu_refusal, result_of};
ghost use Rattle.ebpf_verify.specs.Rules.{ChangesNumber, exit_refusal, refusal, after_operation};
ghost use Rattle.ebpf_verify.specs.declared.decl.Decl.{Decl};
ghost use Rattle.ebpf_state.specs.declared.kinds.KindRow.{KindRow};

use crate::branches::operand;
use crate::decl::Decl;
use crate::fault::VerifyCode;
use crate::memory::{Load, load_value};
use crate::operations::{alu_value, constant_value, one_number};
use ebpf_insn::insn::{AluOp, Insn, Source, Width};
use ebpf_insn::register::Reg;
use ebpf_range::range::Range;
use ebpf_range::results::{neg, sext, swap};
use ebpf_state::kinds::KindRow;
use ebpf_state::state::State;
use ebpf_state::value::Abs;

/// Says in the state what is known after an operation on a register and another operand, or says which code refuses it. Most
/// instructions are such, so it takes few arguments and is no part of a larger function.
#[inline(never)]
pub(crate) fn compute(
    width: Width,
    op: AluOp,
    dst: Reg,
    src: &Source,
    state: &mut State,
) -> Result<(), VerifyCode>
    ensures fine { OnOk result (alu_refusal width op (register_of state.old dst) (operand state.old width src.now) dst ≡ None) }
    ensures known { OnOk result (state.new ≡ with_register state.old dst (result_of width op (register_of state.old dst) (operand state.old width src.now))) }
    ensures refused { IfErr result (λ code. alu_refusal width op (register_of state.old dst) (operand state.old width src.now) dst ≡ Some code) }
{
    let right = operand(state, width, *src);
    let value = alu_value(width, op, dst, right, state)?;
    state.set(dst, value);
    Ok(())
}

/// The register that a load or an instruction with one operand writes and what is known of it afterwards, or the first code that
/// refuses the instruction. Its operands are read once for both.
pub(crate) fn operation(
    decl: Decl,
    kinds: &[KindRow],
    insn: &Insn,
    state: &State,
) -> Result<(Reg, Abs), VerifyCode>
    requires writes { IsSome (after_operation insn.now state.now) }
    requires other { (width : Width) (op : AluOp) (dst : Reg) (src : Source) → insn.now ≡ Insn.Alu width op dst src → ⊥ }
    ensures fine { OnOk result (refusal decl kinds.now insn.now state.now ≡ None) }
    ensures value { IfOk result (λ written. after_operation insn.now state.now ≡ Some (with_register state.now written.0 written.1)) }
    ensures refused { IfErr result (λ code. refusal decl kinds.now insn.now state.now ≡ Some code) }
{
    match *insn {
        Insn::Load {
            size,
            signed,
            dst,
            base,
            offset,
        } => {
            let load = Load::new(size, signed, dst, offset);
            let value = load_value(decl.context, kinds, load, state.reg(base), state)?;
            Ok((dst, value))
        }
        Insn::Wide { dst, value } => Ok((dst, constant_value(value, dst)?)),
        _ => {
            let (dst, value) = changed(insn, state)?;
            Ok((dst, Abs::Num(value)))
        }
    }
}

// The register that `movsx`, `neg` or `end` writes and the range of what it writes, or the first code that refuses it.
fn changed(insn: &Insn, state: &State) -> Result<(Reg, Range), VerifyCode>
    requires { ChangesNumber insn.now }
    ensures fine { OnOk result ((decl : Decl) (rows : List KindRow) → refusal decl rows insn.now state.now ≡ None) }
    ensures value { IfOk result (λ written. after_operation insn.now state.now ≡ Some (with_register state.now written.0 (Abs.Num written.1))) }
    ensures refused { IfErr result (λ code. (decl : Decl) (rows : List KindRow) → refusal decl rows insn.now state.now ≡ Some code) }
{
    match *insn {
        Insn::Sext {
            width,
            bits,
            dst,
            src,
        } => Ok((dst, sext(width, bits, number(state, src, dst)?))),
        Insn::Neg { width, dst } => Ok((dst, neg(width, number(state, dst, dst)?))),
        Insn::Swap { order, bits, dst } => Ok((dst, swap(order, bits, number(state, dst, dst)?))),
        _ => unreachable!(),
    }
}

// The number that `movsx`, `neg` and `end` read, or the first code that refuses them.
fn number(state: &State, src: Reg, dst: Reg) -> Result<Range, VerifyCode>
    ensures fine { OnOk result (unary_refusal (register_of state.now src) dst ≡ None) }
    ensures value { IfOk result (λ a. register_of state.now src ≡ Abs.Num a) }
    ensures refused { IfErr result (λ code. unary_refusal (register_of state.now src) dst ≡ Some code) }
{
    one_number(state.reg(src), dst)
}

/// `exit` returns a number, with no object held (RFC 9669, section 4.3).
pub(crate) fn exit_refusal(result_value: Abs, held: usize) -> Option<VerifyCode>
    ensures { result ≡ exit_refusal result_value held }
{
    if result_value.is_unset() {
        Some(VerifyCode::UnsetRegister)
    } else if held > 0 {
        Some(VerifyCode::HeldAtExit)
    } else if result_value.is_pointer() || result_value.is_may() {
        Some(VerifyCode::NoNumberReturned)
    } else {
        None
    }
}
