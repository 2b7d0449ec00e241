//! From a program to its bytes.

ghost use Rattle.std.specs.Prelude.{◌≡◌, ◌++◌, ◌<◌, ◌+◌, Some, IfOk, OnOk, ℕ};
ghost use Rattle.ebpf_insn.specs.declared.opcode.Form.{Form};
ghost use Rattle.ebpf_insn.specs.Slot.{bytes_of_slot, listed};
ghost use Rattle.ebpf_insn.specs.Opcodes.{opcode_of, form_of};
ghost use Rattle.ebpf_insn.specs.Encoding.{unsigned_of, form_of_insn, operand_of, source_register, source_imm, sign_offset};
ghost use Rattle.ebpf_insn.specs.Encoding.{slot_with, first_slot, later_slots, encoding, IsDefined, IsProgram};

use crate::insn::{AluOp, Insn, Source};
use crate::opcode::{Form, Operand, opcode_of};
use crate::program::Program;
use crate::slot::{Slot, push_slot};
use std::alloc::{AllocError, Global};

/// The bytes that encode a program: it has these and no others.
///
/// # Errors
/// An allocation failed.
pub fn encode(alloc: Global, program: &Program) -> Result<Vec<u8>, AllocError>
    ensures { IfOk result (λ bytes. IsProgram bytes.items program.now) }
{
    let mut bytes = Vec::new(alloc);
    for slot in 0..program.slots() {
        match program.at(slot) {
            Some(insn) => push_insn(&mut bytes, *insn)?,
            None => {}
        }
    }
    Ok(bytes)
}

// Writes the bytes of an instruction after the others.
fn push_insn(bytes: &mut Vec<u8>, insn: Insn) -> Result<(), AllocError>
    requires { IsDefined insn }
    ensures { OnOk result (bytes.new.items ≡ bytes.old.items ++ encoding insn) }
{
    push_slot(bytes, first_slot(insn))?;
    if let Some(slot) = later_slot(insn) {
        push_slot(bytes, slot)?;
    }
    Ok(())
}

// The first slot of an instruction.
fn first_slot(insn: Insn) -> Slot
    requires { IsDefined insn }
    ensures { result ≡ first_slot insn }
{
    Slot {
        opcode: opcode_of(form_of_insn(insn)),
        dst: dst_of(insn) as u8,
        src: src_of(insn) as u8,
        offset: offset_of(insn),
        imm: imm_of(insn),
    }
}

// What is in the field dst: the number of a register, or 0.
fn dst_of(insn: Insn) -> usize
    ensures value { result ≡ (first_slot insn).dst }
    ensures bound { result < 16 }
{
    match insn {
        Insn::Alu { dst, .. }
        | Insn::Sext { dst, .. }
        | Insn::Neg { dst, .. }
        | Insn::Swap { dst, .. }
        | Insn::Wide { dst, .. }
        | Insn::Load { dst, .. } => dst.number(),
        Insn::Store { base, .. } => base.number(),
        Insn::Branch { left, .. } => left.number(),
        _ => 0,
    }
}

// What is in the field src: the number of a register, or 0.
fn src_of(insn: Insn) -> usize
    ensures value { result ≡ (first_slot insn).src }
    ensures bound { result < 16 }
{
    match insn {
        Insn::Alu { src, .. } | Insn::Store { src, .. } => source_register(src),
        Insn::Branch { right, .. } => source_register(right),
        Insn::Sext { src, .. } => src.number(),
        Insn::Load { base, .. } => base.number(),
        _ => 0,
    }
}

// What is in the field offset.
fn offset_of(insn: Insn) -> u16
    ensures { result ≡ (first_slot insn).offset }
{
    match insn {
        Insn::Alu { op, .. } => sign_offset(op),
        Insn::Sext { bits, .. } => bits as u16,
        Insn::Load { offset, .. } => offset.cast_unsigned(),
        Insn::Store { offset, .. } => offset.cast_unsigned(),
        Insn::Jump { offset } => offset.cast_unsigned(),
        Insn::Branch { offset, .. } => offset.cast_unsigned(),
        _ => 0,
    }
}

// What is in the field imm.
fn imm_of(insn: Insn) -> u32
    ensures { result ≡ (first_slot insn).imm }
{
    match insn {
        Insn::Alu { src, .. } | Insn::Store { src, .. } => source_imm(src),
        Insn::Branch { right, .. } => source_imm(right),
        Insn::Swap { bits, .. } => bits as u32,
        Insn::Wide { value, .. } => (value % (1 << 32)) as u32,
        Insn::JumpFar { offset } => offset.cast_unsigned(),
        Insn::Call { number } => number.cast_unsigned(),
        _ => 0,
    }
}

// The slot after it, which a wide instruction has.
fn later_slot(insn: Insn) -> Option<Slot>
    ensures { listed result ≡ later_slots insn }
{
    match insn {
        Insn::Wide { value, .. } => Some(Slot {
            opcode: 0,
            dst: 0,
            src: 0,
            offset: 0,
            imm: (value / (1 << 32)) as u32,
        }),
        _ => None,
    }
}

// The form of the first slot.
fn form_of_insn(insn: Insn) -> Form
    ensures { result ≡ form_of_insn insn }
{
    match insn {
        Insn::Alu { width, op, src, .. } => Form::Alu {
            width,
            op: unsigned_of(op),
            operand: operand_of(src),
        },
        Insn::Sext { width, .. } => Form::Alu {
            width,
            op: AluOp::Mov,
            operand: Operand::Register,
        },
        Insn::Neg { width, .. } => Form::Neg { width },
        Insn::Swap { order, .. } => Form::Swap { order },
        Insn::Wide { .. } => Form::Wide,
        Insn::Load { size, signed, .. } => Form::Load { size, signed },
        Insn::Store { size, src, .. } => Form::Store {
            size,
            operand: operand_of(src),
        },
        Insn::Jump { .. } => Form::Jump,
        Insn::JumpFar { .. } => Form::JumpFar,
        Insn::Branch {
            width,
            cond,
            right,
            ..
        } => Form::Branch {
            width,
            cond,
            operand: operand_of(right),
        },
        Insn::Call { .. } => Form::Call,
        Insn::Exit => Form::Exit,
    }
}

// The operation that has the opcode: a signed one has that of the unsigned one.
fn unsigned_of(op: AluOp) -> AluOp
    ensures { result ≡ unsigned_of op }
{
    match op {
        AluOp::SDiv => AluOp::Div,
        AluOp::SRem => AluOp::Rem,
        _ => op,
    }
}

// The offset that makes an operation a signed one.
fn sign_offset(op: AluOp) -> u16
    ensures { result ≡ sign_offset op }
{
    match op {
        AluOp::SDiv | AluOp::SRem => 1,
        _ => 0,
    }
}

// Where a second operand is in a slot, and the fields that hold it.
fn operand_of(source: Source) -> Operand
    ensures { result ≡ operand_of source }
{
    match source {
        Source::Imm(_) => Operand::Immediate,
        Source::Register(_) => Operand::Register,
    }
}

fn source_register(source: Source) -> usize
    ensures value { result ≡ source_register source }
    ensures bound { result < 16 }
{
    match source {
        Source::Imm(_) => 0,
        Source::Register(register) => register.number(),
    }
}

fn source_imm(source: Source) -> u32
    ensures { result ≡ source_imm source }
{
    match source {
        Source::Imm(imm) => imm.cast_unsigned(),
        Source::Register(_) => 0,
    }
}
