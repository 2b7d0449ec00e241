//! Which fields of its slot an instruction uses, and what they may hold (RFC 9669, sections 3 to 5).

ghost use Rattle.std.specs.Prelude.{◌≡◌, not, ◌==◌, ◌&&◌, ◌||◌};
ghost use Rattle.ebpf_insn.specs.Fields.{takes_register, leaves_unused_zero, offset_chooses, has_left_out_source, has_defined_fields};
ghost use Rattle.ebpf_insn.specs.Fields.{is_move_of, is_swap_of, lacks_second, has_bad_second, is_blank};

use crate::insn::{AluOp, Width};
use crate::opcode::{Form, Operand};
use crate::slot::Slot;

// Whether the offset chooses among operations: the sign of a division or a remainder, and how far a move extends one.
#[inline(always)]
fn offset_chooses(op: AluOp, operand: Operand) -> bool
    ensures { result ≡ offset_chooses op operand }
{
    match op {
        AluOp::Div | AluOp::Rem => true,
        AluOp::Mov => matches!(operand, Operand::Register),
        _ => false,
    }
}

// Whether the fields that a form doesn't use are zero in the slot.
#[inline(always)]
pub(crate) fn leaves_unused_zero(form: Form, slot: Slot) -> bool
    ensures { result ≡ leaves_unused_zero form slot }
{
    match form {
        Form::Alu { op, operand, .. } => {
            leaves_source_zero(operand, slot) && (slot.offset == 0 || offset_chooses(op, operand))
        }
        Form::Store { operand, .. } | Form::Branch { operand, .. } => {
            leaves_source_zero(operand, slot)
        }
        Form::Load { .. } => slot.imm == 0,
        Form::Swap { .. } | Form::Wide => slot.src == 0 && slot.offset == 0,
        Form::Neg { .. } => slot.src == 0 && slot.offset == 0 && slot.imm == 0,
        Form::Jump => slot.dst == 0 && slot.src == 0 && slot.imm == 0,
        Form::JumpFar | Form::Call => slot.dst == 0 && slot.src == 0 && slot.offset == 0,
        Form::Exit => slot.dst == 0 && slot.src == 0 && slot.offset == 0 && slot.imm == 0,
    }
}

// Whether of src and the immediate the one is zero that isn't the second operand.
#[inline(always)]
fn leaves_source_zero(operand: Operand, slot: Slot) -> bool
    ensures { result ≡ ((takes_register operand || slot.src == 0) && (not (takes_register operand) || slot.imm == 0)) }
{
    match operand {
        Operand::Immediate => slot.src == 0,
        Operand::Register => slot.imm == 0,
    }
}

// Whether src makes a call or a wide load one of the forms that are left out: calls within a program and by the numbers of
// BTF, and loads of a map, a variable or code.
#[inline(always)]
pub(crate) fn has_left_out_source(form: Form, src: u8) -> bool
    ensures { result ≡ has_left_out_source form src }
{
    match form {
        Form::Call => 1 <= src && src <= 2,
        Form::Wide => 1 <= src && src <= 6,
        _ => false,
    }
}

// Whether the offset and the immediate are ones that the operation has.
#[inline(always)]
pub(crate) fn has_defined_fields(form: Form, slot: Slot) -> bool
    ensures { result ≡ has_defined_fields form slot }
{
    match form {
        Form::Alu { .. } if slot.offset == 0 => true,
        Form::Alu {
            op: AluOp::Div | AluOp::Rem,
            ..
        } => slot.offset == 1,
        Form::Alu {
            width,
            op: AluOp::Mov,
            operand: Operand::Register,
        } => is_move_of(width, slot.offset),
        Form::Swap { .. } => is_swap_of(slot.imm),
        _ => true,
    }
}

// Whether there is a sign-extending move of n bits.
#[inline(always)]
fn is_move_of(width: Width, bits: u16) -> bool
    ensures { result ≡ is_move_of width bits }
{
    bits == 8 || bits == 16 || (bits == 32 && matches!(width, Width::W64))
}

// Whether there is a byte swap of n bits.
#[inline(always)]
fn is_swap_of(bits: u32) -> bool
    ensures { result ≡ is_swap_of bits }
{
    bits == 16 || bits == 32 || bits == 64
}

// Whether the slot is of a wide instruction, and no slot follows.
#[inline(always)]
pub(crate) fn lacks_second(form: Form, second: Option<Slot>) -> bool
    ensures { result ≡ lacks_second form second }
{
    matches!(form, Form::Wide) && second.is_none()
}

// Whether the slot is of a wide instruction, and the one that follows holds more than an immediate.
#[inline(always)]
pub(crate) fn has_bad_second(form: Form, second: Option<Slot>) -> bool
    ensures { result ≡ has_bad_second form second }
{
    match (form, second) {
        (Form::Wide, Some(second)) => !is_blank(second),
        _ => false,
    }
}

// Whether a slot holds nothing but its immediate, as the second half of a wide instruction does.
#[inline(always)]
fn is_blank(slot: Slot) -> bool
    ensures { result ≡ is_blank slot }
{
    slot.opcode == 0 && slot.dst == 0 && slot.src == 0 && slot.offset == 0
}
