//! What would mend a refused slot, in words. Writing fails only where an allocation fails.

ghost use Rattle.std.specs.Prelude.{◌≡◌, ◌++◌, string_bytes, OnOk};
ghost use Rattle.ebpf_explain.specs.Mendings.{number_called, asked_of, plain_mending, ends_of, within_object, mending};

use crate::accesses::{Access, access_of};
use crate::memory_faults::size_behind;
use crate::rooms::{Ends, write_within};
use ebpf_insn::insn::Insn;
use ebpf_operation::helper::{Helper, helper_of};
use ebpf_state::kinds::KindRow;
use ebpf_state::state::State;
use ebpf_verify::decl::{Decl, MAX_CONTEXT};
use ebpf_verify::fault::VerifyCode;
use std::alloc::AllocError;

// The bytes of the stack, from the frame pointer.
const STACK: Ends = Ends { low: -512, high: 0 };

// Writes after a text what would mend a slot: of an access that may be outside of something, by what is known of its base.
pub(crate) fn write_mending(
    text: &mut String,
    insn: &Insn,
    state: &State,
    code: VerifyCode,
    decl: Decl,
    kinds: &[KindRow],
) -> Result<(), AllocError>
    ensures { OnOk result (string_bytes text.new ≡ string_bytes text.old ++ mending insn.now state.now code decl kinds.now) }
{
    match code {
        VerifyCode::OutsideStack => write_within(text, access_of(insn), state, STACK, 0),
        VerifyCode::OutsideContext => {
            let context = ends_of(decl.context);
            write_within(text, access_of(insn), state, context, MAX_CONTEXT)
        }
        VerifyCode::OutsideObject => write_within_object(text, access_of(insn), state, kinds),
        _ => text.push_str(plain_mending(insn, code)),
    }
}

// What mends an access that may be outside of an object.
fn write_within_object(
    text: &mut String,
    access: Access,
    state: &State,
    kinds: &[KindRow],
) -> Result<(), AllocError>
    ensures { OnOk result (string_bytes text.new ≡ string_bytes text.old ++ within_object access state.now kinds.now) }
{
    let size = size_behind(kinds, state, state.reg(access.base)).unwrap_or(0);
    write_within(text, access, state, ends_of(size), 0)
}

// So many bytes, from the first of them.
fn ends_of(size: u32) -> Ends
    ensures { result ≡ ends_of size }
{
    Ends {
        low: 0,
        high: size as i64,
    }
}

// What would mend a slot that is refused with a code. Only of arguments does it depend on the instruction.
fn plain_mending(insn: &Insn, code: VerifyCode) -> &'static str
    ensures { result.now ≡ plain_mending insn.now code }
{
    match code {
        VerifyCode::UnsetRegister =>
            "set it first (a call unsets r1 to r5, and free unsets every pointer to its object)",
        VerifyCode::FramePointerWritten => "copy it to another register first",
        VerifyCode::PointerMisused => {
            "move pointers with add64 or sub64 by a number, and a stack pointer by a constant"
        }
        VerifyCode::MovedTooFar => "bound the number, and stay within 2^29 bytes of the base",
        VerifyCode::PointerCompared =>
            "compare only numbers, or an answer with 0 by jeq64 or jne64",
        VerifyCode::OutsideStack | VerifyCode::OutsideContext | VerifyCode::OutsideObject =>
            "keep within it",
        VerifyCode::UnsetStack => "store to each of them first",
        VerifyCode::ContextWritten => "copy it to the stack first",
        VerifyCode::UntestedAnswer => "compare it first, and use it only where it is not 0",
        VerifyCode::PartialPointer =>
            "store it as 8 bytes at a multiple of 8 from r10, and load it the same way",
        VerifyCode::NumberAsAddress =>
            "load and store through r10, the context, an object, or a pointer derived from one of these",
        VerifyCode::UnknownHelper => "call 1 (new), 2 (free), 3 (emit) or 4 (swap)",
        VerifyCode::WrongArgument => asked_of(helper_of(number_called(insn))),
        VerifyCode::TooManyHeld => "free one, put one on a shelf, or declare more",
        VerifyCode::HeldAtExit => "free each, or put it on a shelf, on every path here",
        VerifyCode::NoNumberReturned => "return a number",
        VerifyCode::PathsDiffer => "before they meet, free what only one of them holds",
    }
}

// The number of the helper that is called. The codes of calls refuse no other instruction; any other has the number 0.
pub(crate) fn number_called(insn: &Insn) -> i32
    ensures { result ≡ number_called insn.now }
{
    match *insn {
        Insn::Call { number } => number,
        _ => 0,
    }
}

// What a helper asks of its arguments.
fn asked_of(helper: Option<Helper>) -> &'static str
    ensures { result.now ≡ asked_of helper }
{
    match helper {
        Some(Helper::New) => "r1 must be the constant 0, 1 or 2",
        Some(Helper::Free) => "r1 must point to the first byte of an object",
        Some(Helper::Emit) => "r1 must be a number",
        Some(Helper::Swap) => {
            "r1 must be the constant 0, 1 or 2, and r2 must be 0 or point to the first byte of an object of that kind"
        }
        None => "check its arguments",
    }
}
