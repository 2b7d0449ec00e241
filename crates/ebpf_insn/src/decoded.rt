//! The instruction of a slot that has no fault.

ghost use Rattle.std.specs.Prelude.{◌≡◌, None, true};
ghost use Rattle.ebpf_insn.specs.Fields.{has_defined_fields};
ghost use Rattle.ebpf_insn.specs.Decoded.{insn_at_slot, upper_half, alu_at, signed_by, source_at};
ghost use Rattle.ebpf_insn.specs.declared.opcode.Form.TheVariants as form;

use crate::insn::{AluOp, Cond, Insn, Source, Width};
use crate::opcode::{Form, Operand};
use crate::register::Reg;
use crate::slot::Slot;

// The instruction of a slot, whose form and registers these are; a wide one takes its upper half from the slot after it.
#[inline(always)]
pub(crate) fn insn_at_slot(form: Form, slot: Slot, second: Option<Slot>, dst: Reg, src: Reg) -> Insn
    requires { has_defined_fields form slot ≡ true }
    ensures { result ≡ insn_at_slot form slot second dst src }
{
    let offset = slot.offset.cast_signed();
    let number = slot.imm.cast_signed();
    match form {
        Form::Alu { width, op, operand } => alu_at(width, op, operand, slot, dst, src),
        Form::Neg { width } => Insn::Neg { width, dst },
        Form::Swap { order } => Insn::Swap {
            order,
            bits: slot.imm as u8,
            dst,
        },
        Form::Wide => Insn::Wide {
            dst,
            value: (1 << 32) * upper_half(second) as u64 + slot.imm as u64,
        },
        Form::Load { size, signed } => Insn::Load {
            size,
            signed,
            dst,
            base: src,
            offset,
        },
        Form::Store { size, operand } => Insn::Store {
            size,
            base: dst,
            offset,
            src: source_at(operand, slot, src),
        },
        Form::Jump => Insn::Jump { offset },
        Form::JumpFar => Insn::JumpFar { offset: number },
        Form::Branch {
            width,
            cond,
            operand,
        } => branch_at(width, cond, operand, slot, dst, src),
        Form::Call => Insn::Call { number },
        Form::Exit => Insn::Exit,
    }
}

// A branch.
#[inline(always)]
fn branch_at(width: Width, cond: Cond, operand: Operand, slot: Slot, left: Reg, src: Reg) -> Insn
    ensures { result ≡ insn_at_slot (form.Branch width cond operand) slot None left src }
{
    Insn::Branch {
        width,
        cond,
        left,
        right: source_at(operand, slot, src),
        offset: slot.offset.cast_signed(),
    }
}

// The upper half of a wide instruction's value.
#[inline(always)]
fn upper_half(second: Option<Slot>) -> u32
    ensures { result ≡ upper_half second }
{
    match second {
        Some(second) => second.imm,
        None => 0,
    }
}

// An arithmetic instruction, whose offset may choose a signed operation or a sign-extending move.
#[inline(always)]
fn alu_at(width: Width, op: AluOp, operand: Operand, slot: Slot, dst: Reg, src: Reg) -> Insn
    requires { has_defined_fields (form.Alu width op operand) slot ≡ true }
    ensures { result ≡ alu_at width op operand slot dst src }
{
    if slot.offset == 0 {
        return Insn::Alu {
            width,
            op,
            dst,
            src: source_at(operand, slot, src),
        };
    }
    match (op, operand) {
        (AluOp::Mov, Operand::Register) => Insn::Sext {
            width,
            bits: slot.offset as u8,
            dst,
            src,
        },
        _ => Insn::Alu {
            width,
            op: signed_by(slot.offset, op),
            dst,
            src: source_at(operand, slot, src),
        },
    }
}

// The signed operation, where the offset says so.
#[inline(always)]
fn signed_by(offset: u16, op: AluOp) -> AluOp
    ensures { result ≡ signed_by offset op }
{
    match op {
        AluOp::Div if offset != 0 => AluOp::SDiv,
        AluOp::Rem if offset != 0 => AluOp::SRem,
        _ => op,
    }
}

// The second operand.
#[inline(always)]
fn source_at(operand: Operand, slot: Slot, src: Reg) -> Source
    ensures { result ≡ source_at operand slot src }
{
    match operand {
        Operand::Immediate => Source::Imm(slot.imm.cast_signed()),
        Operand::Register => Source::Register(src),
    }
}
