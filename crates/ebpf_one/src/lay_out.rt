//! The command `lay-out`: one program with its instructions in an order in which every jump leads forward.

ghost use Rattle.std.specs.Prelude.{◌≡◌, IfOk, string_bytes};
ghost use Rattle.ebpf_insn.specs.Decoding.{decode_fault};
ghost use Rattle.ebpf_command.specs.Writing.{Performs};
ghost use Rattle.ebpf_one.specs.Alike.{WritesInputAsHex};
ghost use Rattle.ebpf_one.specs.LayOutLinked.{LaysOutInput};
ghost use Rattle.ebpf_one.specs.LayOutText.{hex_in, LaysOut, LaysOutDecoded, LaysOutProgram, IsHexOf};

use crate::lay_out_linked::lay_out_with_data;
use ebpf_command::answer::{Answer, answer_fault_in, write_answer};
use ebpf_command::done::{Done, EngineFault, Stop};
use ebpf_command::format::Format;
use ebpf_command::input::read_input;
use ebpf_forward::why_not::why_not_laid;
use ebpf_input::ask::{Ask, Input};
use ebpf_input::form::Form;
use ebpf_input::input_faults::answer_undecoded;
use ebpf_input::object::taken;
use ebpf_input::request::given_bytes;
use ebpf_input::why_not::answer_why_not;
use ebpf_insn::decode::decode;
use ebpf_insn::encode::encode;
use ebpf_insn::fault::DecodeFault;
use ebpf_insn::program::Program;
use ebpf_layout::layout::lay_out as lay_out_program;
use std::alloc::{AllocError, Global};
use std::io::{Read, Write};

/// Reads a program and writes it in a format as hex with its instructions in an order in which every jump leads forward, without those that
/// are not reached; or which edge closes a loop, or why the program can't be laid out otherwise.
///
/// A function that reads data of its object file is linked with it first, for the context and the objects that are asked for; nothing else is
/// judged by them. Then the data is written too, as [`crate::unroll::unroll`] does, and the program is refused if the verifier refuses it, or if it
/// isn't certain to keep the context's pointer in the word of the stack that was taken for it.
///
/// # Errors
/// `Input` where a read failed and `NoMemory` where an allocation failed: nothing was written then. `Output` where a write
/// failed or took nothing.
pub fn lay_out<R: Read, W: Write>(
    alloc: Global,
    reader: &mut R,
    writer: &mut W,
    ask: &Ask<'_>,
) -> Result<Done, EngineFault>
    ensures done { Performs (LaysOutInput ask.now) (R.remaining reader.old) (R.remaining reader.new)
        (W.contents writer.old) (W.contents writer.new) writer.old writer.new result }
    // Where the input is raw bytes, it is the text of each hex text of them.
    ensures as_hex { WritesInputAsHex (LaysOut ask.now.format) ask.now.input (R.remaining reader.old) (W.contents writer.old) (W.contents writer.new) result }
{
    respond(alloc, reader, writer, ask)
}

// Reads the input, answers it, and writes the answer.
fn respond<R: Read, W: Write>(
    alloc: Global,
    reader: &mut R,
    writer: &mut W,
    ask: &Ask<'_>,
) -> Result<Done, EngineFault>
    ensures { Performs (LaysOutInput ask.now) (R.remaining reader.old) (R.remaining reader.new)
        (W.contents writer.old) (W.contents writer.new) writer.old writer.new result }
{
    let input = read_input(alloc, reader)?;
    let answer = lay_out_asked(alloc, ask, &input)?;
    write_answer(writer, answer)
}

// The response to an input, by what it is.
fn lay_out_asked(alloc: Global, ask: &Ask<'_>, input: &[u8]) -> Result<Answer, AllocError>
    ensures { IfOk result (LaysOutInput ask.now input.now) }
{
    match ask.input {
        Input::Program(form) => lay_out_input(alloc, ask.format, form, input),
        Input::Object(name) => match taken(name, input) {
            Ok(bytes) => lay_out_input(alloc, ask.format, Form::Raw, bytes),
            Err(_) => lay_out_with_data(alloc, ask, name, input),
        },
    }
}

// The response to a program in a form.
fn lay_out_input(
    alloc: Global,
    format: Format,
    form: Form,
    input: &[u8],
) -> Result<Answer, AllocError>
    ensures { IfOk result (LaysOut format form input.now) }
{
    match given_bytes(alloc, form, input) {
        Ok(bytes) => lay_out_bytes(alloc, format, &bytes),
        Err(Stop::Fault(code)) => answer_fault_in(alloc, format, code, 0),
        Err(Stop::NoMemory) => Err(AllocError),
    }
}

// The response to the bytes that it gives.
fn lay_out_bytes(alloc: Global, format: Format, bytes: &[u8]) -> Result<Answer, AllocError>
    ensures { IfOk result (LaysOutDecoded format (decode_fault bytes.now) bytes.now) }
{
    match decode(alloc, bytes) {
        Ok(program) => answer_program(alloc, format, &program),
        Err(DecodeFault::Bad { slot, code }) => {
            answer_undecoded(alloc, format, bytes, slot, code)
        },
        Err(DecodeFault::NoMemory) => Err(AllocError),
    }
}

// The response to a program.
fn answer_program(alloc: Global, format: Format, program: &Program) -> Result<Answer, AllocError>
    ensures { IfOk result (LaysOutProgram format program.now) }
{
    match lay_out_program(alloc, program) {
        Ok(laid) => answer_laid(alloc, format, &laid.program),
        Err(fault) => {
            let why = why_not_laid(alloc, program, fault)?;
            answer_why_not(alloc, format, &why)
        }
    }
}

// The answer with a program that was laid out: its bytes as hex, on one line. It fails only where an allocation fails.
fn answer_laid(alloc: Global, format: Format, laid: &Program) -> Result<Answer, AllocError>
    ensures { IfOk result (IsHexOf format laid.now) }
{
    let bytes = encode(alloc, laid)?;
    let text = hex_text(alloc, format, &bytes)?;
    Ok(Answer {
        text,
        done: Done::Clean,
    })
}

// Bytes as hex, on one line.
fn hex_text(alloc: Global, format: Format, bytes: &[u8]) -> Result<String, AllocError>
    ensures { IfOk result (λ text. string_bytes text ≡ hex_in format bytes.now) }
{
    let mut digits = hex::encode(alloc, bytes)?;
    match format {
        Format::Text => {
            digits.push_str("\n")?;
            Ok(digits)
        }
        Format::Json => format!(in alloc; "{{\"hex\":\"{digits}\"}}\n"),
    }
}
