//! Why no request is made of a function that reads data of its object file, in a format.

ghost use Rattle.std.specs.Prelude.{◌≡◌, ◌++◌, IfOk, OnOk, string_bytes};
ghost use Rattle.ebpf_command.specs.Response.{refused_response};
ghost use Rattle.ebpf_loader.specs.Sentences.{HasNames};
ghost use Rattle.ebpf_input.specs.NoRequest.{CanBeNamed, RespondsNoRequest, RespondsUnloaded, load_fault_lines, load_line, load_slot, no_word_line};
ghost use Rattle.ebpf_input.specs.NoRequest.{no_word_response, unloaded_response};

use crate::ask::Ask;
use crate::data_request::NoRequest;
use crate::form::Form;
use crate::input_faults::{answer_misled, answer_undecoded, answer_unused};
use crate::object::{answer_object_fault, fault_text};
use crate::under::{InFile, SlotAnswer, with_line};
use ebpf_command::answer::Answer;
use ebpf_command::done::Done;
use ebpf_command::format::Format;
use ebpf_link::fault::LinkFault;
use ebpf_loader::fault::LoadFault;
use ebpf_loader::sentence::{write_sentence, write_unlinked};
use ebpf_object_file::data_function::DataFunction;
use std::alloc::{AllocError, Global};

// The code of a function that can't be linked with the data that it reads.
const UNLINKED: &str = "O5";

/// The answer to a function of a file of which no request is made, with the line of C that holds at a slot of which it speaks. It fails only
/// where an allocation fails, or failed there.
pub fn answer_no_request(
    alloc: Global,
    ask: &Ask<'_>,
    file: &[u8],
    fault: NoRequest<'_>,
) -> Result<Answer, AllocError>
    requires { CanBeNamed file.now fault }
    ensures { IfOk result (RespondsNoRequest ask.now file.now fault.entry) }
{
    match fault {
        NoRequest::Object(fault) => answer_object_fault(alloc, ask.format, file, fault),
        NoRequest::Unused { function, code } => answer_unused(
            alloc,
            ask.format,
            ask,
            Form::Raw,
            function.function.code,
            code,
        ),
        NoRequest::Unloaded { function, fault } => {
            answer_unloaded(alloc, ask.format, file, &function, &fault)
        }
        NoRequest::NoMemory => Err(AllocError),
    }
}

/// The answer to a function that is linked with its data, if its program, laid out or unrolled, isn't certain to keep the context's pointer
/// in the word that was taken for it. It fails only where an allocation fails.
pub fn answer_no_word(alloc: Global, format: Format) -> Result<Answer, AllocError>
    ensures { IfOk result (λ answer. answer ≡ no_word_response format) }
{
    let mut why = String::new(alloc);
    write_no_word(&mut why)?;
    Ok(Answer {
        text: fault_text(alloc, format, UNLINKED, &why)?,
        done: Done::Refused,
    })
}

// Writes that no word keeps the pointer, as a line.
fn write_no_word(text: &mut String) -> Result<(), AllocError>
    ensures { OnOk result (string_bytes text.new ≡ string_bytes text.old ++ no_word_line) }
{
    text.push_str("  ")?;
    write_unlinked(text, LinkFault::NoWord)?;
    text.push_str("\n")
}

// The answer to a function that isn't linked with its data.
fn answer_unloaded(
    alloc: Global,
    format: Format,
    file: &[u8],
    function: &DataFunction<'_>,
    fault: &LoadFault,
) -> Result<Answer, AllocError>
    requires { HasNames file.now fault.now }
    ensures { IfOk result (RespondsUnloaded format file.now function.now fault.now) }
{
    let place = function.function.place;
    let slot = slot_of(fault);
    let answer = say_unloaded(alloc, format, file, function.function.code, fault)?;
    with_line(
        format,
        SlotAnswer { answer, slot },
        Some(InFile { file, place }),
    )
}

// The slot of which a fault speaks, if it does of one.
fn slot_of(fault: &LoadFault) -> Option<u16>
    ensures { result ≡ load_slot fault.now }
{
    match fault {
        LoadFault::Undecoded { slot, .. } => Some(*slot),
        LoadFault::Unlinked { fault, .. } => match fault {
            LinkFault::Flow { slot, .. } | LinkFault::NotWide { slot } | LinkFault::Far { slot } =>
                { Some(*slot) }
            LinkFault::Slots | LinkFault::NoWord | LinkFault::NoMemory => None,
        },
        LoadFault::TooLong { .. } | LoadFault::NoMemory => None,
    }
}

// What is said of a function that isn't linked.
fn say_unloaded(
    alloc: Global,
    format: Format,
    file: &[u8],
    code: &[u8],
    fault: &LoadFault,
) -> Result<Answer, AllocError>
    requires { HasNames file.now fault.now }
    ensures { IfOk result (λ answer. answer ≡ unloaded_response format file.now code.now fault.now) }
{
    match fault {
        LoadFault::Undecoded { slot, code: why } => {
            answer_undecoded(alloc, format, code, *slot, *why)
        }
        LoadFault::Unlinked {
            program,
            fault: unlinked,
        } => match unlinked {
            LinkFault::Flow { slot, code: why } => {
                answer_misled(alloc, format, program, *slot, *why)
            }
            _ => answer_load_fault(alloc, format, file, fault),
        },
        LoadFault::TooLong { .. } => answer_load_fault(alloc, format, file, fault),
        LoadFault::NoMemory => Err(AllocError),
    }
}

// The answer with the line of a fault, and its sentence.
fn answer_load_fault(
    alloc: Global,
    format: Format,
    file: &[u8],
    fault: &LoadFault,
) -> Result<Answer, AllocError>
    requires { HasNames file.now fault.now }
    ensures { IfOk result (λ answer. answer ≡ refused_response (load_fault_lines format file.now fault.now)) }
{
    let mut why = String::new(alloc);
    write_line(&mut why, file, fault)?;
    Ok(Answer {
        text: fault_text(alloc, format, UNLINKED, &why)?,
        done: Done::Refused,
    })
}

// Writes the sentence of a fault as a line.
fn write_line(text: &mut String, file: &[u8], fault: &LoadFault) -> Result<(), AllocError>
    requires { HasNames file.now fault.now }
    ensures { OnOk result (string_bytes text.new ≡ string_bytes text.old ++ load_line file.now fault.now) }
{
    text.push_str("  ")?;
    write_sentence(text, file, fault)?;
    text.push_str("\n")
}
