//! From bytes to a program.

ghost use Rattle.std.specs.Prelude.{◌≡◌, ◌≤◌, ◌<◌, ◌+◌, ◌*◌, ◌%◌, [], ◌∷◌, ℕ, take, drop, None, Some, false, List, Option, length, IfOk, IfErr};
ghost use Rattle.std.specs.Prelude.{OnOk, MatchResult};
ghost use Rattle.ebpf_insn.specs.declared.insn.Insn.{Insn};
ghost use Rattle.ebpf_insn.specs.declared.fault.DecodeFault.TheVariants.{Bad, NoMemory};
ghost use Rattle.ebpf_insn.specs.declared.program.TheConstants.{MAX_SLOTS};
ghost use Rattle.ebpf_insn.specs.Program.{slots_in};
ghost use Rattle.ebpf_insn.specs.Encoding.{slots_of, encoding, program_bytes, IsDefined, IsWellFormed, IsProgram};
ghost use Rattle.ebpf_insn.specs.Decoding.{slot_fault, place_fault, decode_fault, second_at, second_of, is_second_half, IsDecodeFault};
ghost use Rattle.ebpf_insn.specs.Opcodes.{form_of, alu_class, jump_class, operand_bit};
ghost use Rattle.ebpf_insn.specs.Slot.{listed};

use crate::decoded::insn_at_slot;
use crate::fault::{DecodeCode, DecodeFault};
use crate::fields::{
    has_bad_second, has_defined_fields, has_left_out_source, lacks_second, leaves_unused_zero,
};
use crate::insn::{Insn, Width};
use crate::opcode::{
    Form, Operand, alu_op, condition, is_left_out, leaving_form, load_form, lone_form, store_form,
    wide_form,
};
use crate::program::{MAX_SLOTS, Program};
use crate::register::Reg;
use crate::slot::{Slot, read_slot};
use std::alloc::Global;

/// The program that the bytes encode.
///
/// # Errors
/// `Bad` with the lowest slot that has a fault, and the first code that applies there; `NoMemory` where an
/// allocation failed.
pub fn decode(alloc: Global, bytes: &[u8]) -> Result<Program, DecodeFault>
    // What is decoded is a program, encoded by the bytes.
    ensures found { IfOk result (IsProgram bytes.now) }
    ensures fine { OnOk result (decode_fault bytes.now ≡ None) }
    // Which fault it is.
    ensures refused { IfErr result (IsDecodeFault bytes.now) }
    // The bytes of a program are decoded to it, unless memory runs out.
    ensures only { (p : List (Option Insn)) → IsProgram bytes.now p → MatchResult result (λ q. q ≡ p) (λ e. e ≡ NoMemory) }
{
    if bytes.is_empty() || bytes.len() % 8 != 0 {
        return Err(bad(0, DecodeCode::WrongLength));
    }
    let count = bytes.len() / 8;
    let mut slots = Vec::with_capacity(alloc, count.min(MAX_SLOTS))?;
    let mut len = 0;
    let mut is_second_half = false;
    for slot in 0..count {
        if slot == MAX_SLOTS {
            return Err(bad(MAX_SLOTS, DecodeCode::ProgramTooLong));
        }
        if is_second_half {
            slots.push_reserved(None);
            is_second_half = false;
            continue;
        }
        match decode_at(bytes, slot) {
            Ok(insn) => {
                slots.push_reserved(Some(insn));
                is_second_half = insn.slots() == 2;
            }
            Err(code) => return Err(bad(slot, code)),
        }
        len += 1;
    }
    Ok(Program::new(slots, len))
}

// The fault of a slot.
fn bad(slot: usize, code: DecodeCode) -> DecodeFault
    requires { slot ≤ MAX_SLOTS }
    ensures { result ≡ Bad slot code }
{
    DecodeFault::Bad {
        slot: slot as u16,
        code,
    }
}

// The instruction that begins at a place in the bytes, or the first code that applies there.
fn decode_at(bytes: &[u8], slot: usize) -> Result<Insn, DecodeCode>
    requires room { 8 * slot + 8 ≤ length bytes.now }
    requires first { is_second_half bytes.now slot ≡ false }
    ensures found { IfOk result (λ i. IsDefined i × (encoding i ≡ take (8 * slots_in i) (drop (8 * slot) bytes.now))) }
    ensures fault { MatchResult result (λ _. place_fault bytes.now slot ≡ None) (λ code. place_fault bytes.now slot ≡ Some code) }
{
    let rest = &bytes[8 * slot..];
    decode_slot(read_slot(rest), rest)
}

// The instruction of the slot that the bytes begin with and, where it is a wide one, of the slot after it, or the first code
// that applies: `UnknownOpcode`, `UnsupportedForm`, then `UnknownRegister` to `UndefinedField` in the order of their codes.
#[inline(always)]
fn decode_slot(slot: Slot, bytes: &[u8]) -> Result<Insn, DecodeCode>
    ensures found { IfOk result (λ i. IsDefined i × (slots_of i ≡ take (slots_in i) (slot ∷ listed (second_at bytes.now)))) }
    ensures fault { MatchResult result (λ _. slot_fault slot (second_at bytes.now) ≡ None) (λ code. slot_fault slot (second_at bytes.now) ≡ Some code) }
{
    let code = slot.opcode;
    // The low four bits are the class, and of arithmetic and jumps the kind of second operand too.
    match code % 16 {
        0 | 8 => decode_form(wide_form(code), slot, bytes),
        1 | 9 => decode_form(load_form(code), slot, bytes),
        2 | 10 => decode_form(store_form(code, Operand::Immediate), slot, bytes),
        3 | 11 => decode_form(store_form(code, Operand::Register), slot, bytes),
        4 => decode_alu(Width::W32, Operand::Immediate, slot, bytes),
        5 => decode_jump(Width::W64, Operand::Immediate, slot, bytes),
        6 => decode_jump(Width::W32, Operand::Immediate, slot, bytes),
        7 => decode_alu(Width::W64, Operand::Immediate, slot, bytes),
        12 => decode_alu(Width::W32, Operand::Register, slot, bytes),
        13 => decode_jump(Width::W64, Operand::Register, slot, bytes),
        14 => decode_jump(Width::W32, Operand::Register, slot, bytes),
        _ => decode_alu(Width::W64, Operand::Register, slot, bytes),
    }
}

// The same for arithmetic at a width, with this second operand.
#[inline(always)]
fn decode_alu(width: Width, operand: Operand, slot: Slot, bytes: &[u8]) -> Result<Insn, DecodeCode>
    requires { slot.opcode % 16 ≡ alu_class width + 8 * operand_bit operand }
    ensures found { IfOk result (λ i. IsDefined i × (slots_of i ≡ take (slots_in i) (slot ∷ listed (second_at bytes.now)))) }
    ensures fault { MatchResult result (λ _. slot_fault slot (second_at bytes.now) ≡ None) (λ code. slot_fault slot (second_at bytes.now) ≡ Some code) }
{
    match alu_op(slot.opcode / 16) {
        Some(op) => decode_form(Some(Form::Alu { width, op, operand }), slot, bytes),
        None => decode_form(lone_form(slot.opcode, width), slot, bytes),
    }
}

// The same for jumps at a width, with this second operand.
#[inline(always)]
fn decode_jump(width: Width, operand: Operand, slot: Slot, bytes: &[u8]) -> Result<Insn, DecodeCode>
    requires { slot.opcode % 16 ≡ jump_class width + 8 * operand_bit operand }
    ensures found { IfOk result (λ i. IsDefined i × (slots_of i ≡ take (slots_in i) (slot ∷ listed (second_at bytes.now)))) }
    ensures fault { MatchResult result (λ _. slot_fault slot (second_at bytes.now) ≡ None) (λ code. slot_fault slot (second_at bytes.now) ≡ Some code) }
{
    match condition(slot.opcode / 16) {
        Some(cond) => decode_form(
            Some(Form::Branch {
                width,
                cond,
                operand,
            }),
            slot,
            bytes,
        ),
        None => decode_form(leaving_form(slot.opcode, width), slot, bytes),
    }
}

// The same, where this is the opcode's form. Each caller has its own copy, in which little is left to tell apart.
#[inline(always)]
fn decode_form(form: Option<Form>, slot: Slot, bytes: &[u8]) -> Result<Insn, DecodeCode>
    requires { form ≡ form_of slot.opcode }
    ensures found { IfOk result (λ i. IsDefined i × (slots_of i ≡ take (slots_in i) (slot ∷ listed (second_at bytes.now)))) }
    ensures fault { MatchResult result (λ _. slot_fault slot (second_at bytes.now) ≡ None) (λ code. slot_fault slot (second_at bytes.now) ≡ Some code) }
{
    let Some(form) = form else {
        return Err(if is_left_out(slot.opcode) {
            DecodeCode::UnsupportedForm
        } else {
            DecodeCode::UnknownOpcode
        });
    };
    if has_left_out_source(form, slot.src) {
        return Err(DecodeCode::UnsupportedForm);
    }
    let (Some(dst), Some(src)) = (Reg::new(slot.dst), Reg::new(slot.src)) else {
        return Err(DecodeCode::UnknownRegister);
    };
    if !leaves_unused_zero(form, slot) {
        return Err(DecodeCode::UnusedFieldSet);
    }
    let second = second_of(form, bytes);
    if lacks_second(form, second) {
        return Err(DecodeCode::MissingSecondSlot);
    }
    if has_bad_second(form, second) {
        return Err(DecodeCode::BadSecondSlot);
    }
    if !has_defined_fields(form, slot) {
        return Err(DecodeCode::UndefinedField);
    }
    Ok(insn_at_slot(form, slot, second, dst, src))
}

// The slot after the one that the bytes begin with, where a form takes two. It is read only there, as few do.
#[inline(always)]
fn second_of(form: Form, bytes: &[u8]) -> Option<Slot>
    ensures { result ≡ second_of form bytes.now }
{
    match form {
        Form::Wide if bytes.len() >= 16 => Some(read_slot(&bytes[8..])),
        _ => None,
    }
}

/// The laws of decoding, whatever memory there is: bytes encode one program at most, those of a program have no fault, and
/// each program has its bytes.
pub fn bytes_encode_one_program()
    ensures one { (bytes : List ℕ) (p q : List (Option Insn)) → IsProgram bytes p → IsProgram bytes q → p ≡ q }
    ensures fine { (bytes : List ℕ) (p : List (Option Insn)) → IsProgram bytes p → decode_fault bytes ≡ None }
    ensures back { (p q : List (Option Insn)) → IsWellFormed p → IsProgram (program_bytes p) q → q ≡ p }
{}
