//! What a call of `one` or of `list` asks for.

ghost use Rattle.std.specs.Prelude.{◌≡◌, IfOk, IfErr, OnOk, None, length};
ghost use Rattle.ebpf_command.specs.Stops.{IsStop};
ghost use Rattle.ebpf_input.specs.Asked.{bytes_in, input_fault, fault_of, asked_for};

use crate::form::Form;
use crate::program_text::spelled;
use ebpf_command::done::{FaultCode, Stop};
use ebpf_command::hex_text::hex_or_dash;
use ebpf_command::input::MAX_INPUT;
use ebpf_verify::decl::{Decl, MAX_CONTEXT, MAX_HELD};
use std::alloc::Global;

/// A program's bytes, the context that it is to run on, and what it declares: the context's length and the most objects
/// that it may hold at one time.
#[derive(Drop)]
pub struct Request {
    pub bytes: Vec<u8>,
    pub context: Vec<u8>,
    pub decl: Decl,
}

/// The bytes of the program that an input gives, whatever they are.
///
/// # Errors
/// `Fault` with `InputTooLong` where the input is too long and `BadHex` where it isn't readable, which raw bytes always are; `NoMemory`
/// where an allocation failed.
pub fn given_bytes(alloc: Global, form: Form, input: &[u8]) -> Result<Vec<u8>, Stop>
    ensures fine { OnOk result (input_fault form input.now ≡ None) }
    ensures bytes { IfOk result (λ bytes. bytes.items ≡ bytes_in form input.now) }
    ensures refused { IfErr result (IsStop (input_fault form input.now)) }
{
    if input.len() > MAX_INPUT {
        return Err(Stop::Fault(FaultCode::InputTooLong));
    }
    let Some(bytes) = spelled(alloc, form, input)? else {
        return Err(Stop::Fault(FaultCode::BadHex));
    };
    Ok(bytes)
}

/// The request that an input makes with the options `--context` and `--held`.
///
/// # Errors
/// `Fault` with the first code that applies, the input's before the options'; `NoMemory` where an allocation failed.
pub fn requested(
    alloc: Global,
    form: Form,
    input: &[u8],
    context: &str,
    held: u8,
) -> Result<Request, Stop>
    ensures fine { OnOk result (fault_of form input.now context.now held ≡ None) }
    ensures bytes { IfOk result (λ r. r.bytes.items ≡ (asked_for form input.now context.now held).bytes) }
    ensures context { IfOk result (λ r. r.context.items ≡ (asked_for form input.now context.now held).context) }
    ensures declared { IfOk result (λ r. (r.decl.context ≡ length r.context.items) × (r.decl.held ≡ held)) }
    ensures refused { IfErr result (IsStop (fault_of form input.now context.now held)) }
{
    let bytes = given_bytes(alloc, form, input)?;
    if held > MAX_HELD {
        return Err(Stop::Fault(FaultCode::BadNumber));
    }
    let Some(context) = hex_or_dash(alloc, context.as_bytes())? else {
        return Err(Stop::Fault(FaultCode::BadHex));
    };
    if context.len() > MAX_CONTEXT as usize {
        return Err(Stop::Fault(FaultCode::BadNumber));
    }
    let decl = Decl::new(context.len() as u32, held).unwrap();
    Ok(Request {
        bytes,
        context,
        decl,
    })
}
