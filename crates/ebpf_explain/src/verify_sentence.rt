//! Why the verifier refuses a slot, in one sentence.

ghost use Rattle.std.specs.Prelude.{◌≡◌, ◌++◌, string_bytes, OnOk};
ghost use Rattle.ebpf_explain.specs.VerifySentences.{name_or_register, unset_register, answer_text, unknown_answer, fault, verify_sentence};

use crate::accesses::access_of;
use crate::call_faults::{
    write_call_with, write_held_at_exit, write_no_helper, write_no_number_at_exit,
    write_too_many_held,
};
use crate::memory_faults::{
    write_access_with, write_context_written, write_number_as_address, write_outside,
    write_outside_object,
};
use crate::mending::{number_called, write_mending};
use crate::reads::{answers_read, first_answer, first_unset, registers_read, write_with_reads};
use ebpf_insn::insn::Insn;
use ebpf_insn::register::Reg;
use ebpf_state::kinds::KindRow;
use ebpf_state::state::State;
use ebpf_verify::decl::Decl;
use ebpf_verify::fault::VerifyCode;
use std::alloc::AllocError;

/// Writes after a text why the instruction at a slot is refused, where this is known before it and this code is the reason:
/// what it does that it may not, and what would mend it. It is a line, which begins with two blanks. The rows have the sizes
/// and the names of the kinds.
///
/// # Errors
/// It fails only where an allocation fails, and a part of the line may be written then.
pub fn write_verify_sentence(
    text: &mut String,
    slot: usize,
    insn: &Insn,
    state: &State,
    code: VerifyCode,
    decl: Decl,
    kinds: &[KindRow],
) -> Result<(), AllocError>
    ensures { OnOk result (string_bytes text.new ≡ string_bytes text.old ++ verify_sentence slot insn.now state.now code decl kinds.now) }
{
    write!(text, "  slot {slot} ")?;
    write_fault(text, insn, state, code, decl, kinds)?;
    text.push_str(": ")?;
    write_mending(text, insn, state, code, decl, kinds)?;
    text.push_str("\n")
}

// What the instruction does that it may not, with what is known.
fn write_fault(
    text: &mut String,
    insn: &Insn,
    state: &State,
    code: VerifyCode,
    decl: Decl,
    kinds: &[KindRow],
) -> Result<(), AllocError>
    ensures { OnOk result (string_bytes text.new ≡ string_bytes text.old ++ fault insn.now state.now code decl kinds.now) }
{
    match code {
        VerifyCode::UnsetRegister => write_unset_register(
            text,
            first_unset(state, registers_read(insn)),
        ),
        VerifyCode::FramePointerWritten => text.push_str("writes r10, the frame pointer"),
        VerifyCode::PointerMisused => {
            write_with_reads(text, "is not defined for these operands", state, insn)
        }
        VerifyCode::MovedTooFar => write_with_reads(
            text,
            "moves a pointer too far, or by a number that may have either sign",
            state,
            insn,
        ),
        VerifyCode::PointerCompared => write_with_reads(
            text,
            "compares something that is not a number",
            state,
            insn,
        ),
        VerifyCode::OutsideStack => write_access_with(
            text,
            access_of(insn),
            state,
            ", but the stack is the 512 bytes below r10",
        ),
        VerifyCode::UnsetStack => write_access_with(
            text,
            access_of(insn),
            state,
            ", some of which are not set on every path here",
        ),
        VerifyCode::OutsideContext => write_outside(
            text,
            access_of(insn),
            state,
            ", but the context has ",
            Some(decl.context),
        ),
        VerifyCode::ContextWritten => write_context_written(text, access_of(insn)),
        VerifyCode::OutsideObject => write_outside_object(
            text,
            access_of(insn),
            state,
            ", but the object has ",
            kinds,
        ),
        VerifyCode::UntestedAnswer => write_unknown_answer(
            text,
            first_answer(state, answers_read(insn)),
        ),
        VerifyCode::PartialPointer => write_with_reads(
            text,
            "moves a pointer or an answer as something other than an aligned 8-byte word of the stack",
            state,
            insn,
        ),
        VerifyCode::NumberAsAddress => write_number_as_address(text, access_of(insn), state),
        VerifyCode::UnknownHelper => write_no_helper(text, number_called(insn)),
        VerifyCode::WrongArgument => write_call_with(
            text,
            " with arguments that it does not accept",
            state,
            insn,
        ),
        VerifyCode::TooManyHeld => write_too_many_held(text, state.held()),
        VerifyCode::HeldAtExit => write_held_at_exit(text, state.references(), kinds),
        VerifyCode::NoNumberReturned => write_no_number_at_exit(text, state),
        VerifyCode::PathsDiffer => text.push_str(
            "is where paths meet that hold different objects, or of which only one has compared an answer",
        ),
    }
}

// A register is read that may be unset.
fn write_unset_register(text: &mut String, register: Option<Reg>) -> Result<(), AllocError>
    ensures { OnOk result (string_bytes text.new ≡ string_bytes text.old ++ unset_register register) }
{
    text.push_str("reads ")?;
    write_name(text, register)?;
    text.push_str(", which is not set on every path here")
}

// The name of a register, where it is known which.
fn write_name(text: &mut String, register: Option<Reg>) -> Result<(), AllocError>
    ensures { OnOk result (string_bytes text.new ≡ string_bytes text.old ++ name_or_register register) }
{
    match register {
        None => text.push_str("a register"),
        Some(register) => write!(text, "r{}", register.number()),
    }
}

// An answer that may be null is used before it was compared with 0.
fn write_unknown_answer(text: &mut String, call: Option<u16>) -> Result<(), AllocError>
    ensures { OnOk result (string_bytes text.new ≡ string_bytes text.old ++ unknown_answer call) }
{
    text.push_str("uses ")?;
    write_answer(text, call)?;
    text.push_str(", which has not been compared with 0")
}

// The call that answered, where it is known which.
fn write_answer(text: &mut String, call: Option<u16>) -> Result<(), AllocError>
    ensures { OnOk result (string_bytes text.new ≡ string_bytes text.old ++ answer_text call) }
{
    match call {
        None => text.push_str("an answer"),
        Some(call) => write!(text, "the answer of slot {call}"),
    }
}
