//! Why an input or an option can't be used, and why bytes are no program: the sentences, and the answers with them.

ghost use Rattle.std.specs.Prelude.{◌≡◌, ◌++◌, length, filter, string_bytes, IfOk, OnOk};
ghost use Rattle.hex.specs.Hex.{is_hex_digit};
ghost use Rattle.ebpf_command.specs.declared.codes.RefusalCode.TheVariants.{Decode};
ghost use Rattle.ebpf_command.specs.Codes.{refusal_name};
ghost use Rattle.ebpf_command.specs.Response.{refused_response};
ghost use Rattle.ebpf_input.specs.Formats.{fault_why_in, misled_response, refused_why_in};
ghost use Rattle.ebpf_input.specs.InputFaults.{part_name, may_stand, place_of_other, shown_byte, mending_of, other_byte};
ghost use Rattle.ebpf_input.specs.InputFaults.{unread, is_object, unread_of, undecoded_sentence, slot_size, too_much, fault_words, fault_sentence};

use crate::ask::Ask;
use crate::form::Form;
use crate::in_format::{answer_fault_why, answer_refused_why};
use crate::program_text::{is_blank, spelled};
use ebpf_command::answer::Answer;
use ebpf_command::codes::RefusalCode;
use ebpf_command::done::FaultCode;
use ebpf_command::format::Format;
use ebpf_command::hex_text::hex_or_dash;
use ebpf_explain::decode_sentence::write_decode_sentence;
use ebpf_explain::reason::write_misled;
use ebpf_flow::fault::FlowCode;
use ebpf_insn::fault::DecodeCode;
use ebpf_insn::program::Program;
use ebpf_verify::decl::MAX_HELD;
use std::alloc::{AllocError, Global};

// What is said of an object file.
const OBJECT_WORDS: &str = "the input is an object file: --elf reads a function from it";

/// What is read as hex.
#[derive(Clone, Copy)]
pub(crate) enum Part {
    /// The text of the program.
    Input,
    /// The context that the option gives.
    Context,
}

/// The answer in `format` to an input and options that can't be used, by the first code that applies to them. It fails only where an
/// allocation fails.
pub fn answer_unused(
    alloc: Global,
    format: Format,
    ask: &Ask<'_>,
    form: Form,
    input: &[u8],
    code: FaultCode,
) -> Result<Answer, AllocError>
    ensures { IfOk result (λ answer. answer ≡
        refused_response (fault_why_in format code 0 (fault_sentence form input.now ask.now.context.now ask.now.held code))) }
{
    let mut why = String::new(alloc);
    write_fault_sentence(alloc, &mut why, ask, form, input, code)?;
    answer_fault_why(alloc, format, code, &why)
}

/// The answer to bytes that are no program. It fails only where an allocation fails.
pub fn answer_undecoded(
    alloc: Global,
    format: Format,
    bytes: &[u8],
    slot: u16,
    code: DecodeCode,
) -> Result<Answer, AllocError>
    ensures { IfOk result (λ answer. answer ≡
        refused_response (refused_why_in format (refusal_name (Decode code)) slot (undecoded_sentence bytes.now slot code))) }
{
    let mut why = String::new(alloc);
    write_undecoded(&mut why, bytes, slot as usize, code)?;
    answer_refused_why(alloc, format, RefusalCode::Decode(code).name(), slot, &why)
}

/// The answer to a program of which an edge leads to no instruction. It fails only where an allocation fails.
pub fn answer_misled(
    alloc: Global,
    format: Format,
    program: &Program,
    slot: u16,
    code: FlowCode,
) -> Result<Answer, AllocError>
    ensures { IfOk result (λ answer. answer ≡ misled_response format program.now slot code) }
{
    let mut why = String::new(alloc);
    write_misled(alloc, &mut why, program, slot as usize, code)?;
    answer_refused_why(alloc, format, RefusalCode::Flow(code).name(), slot, &why)
}

// Writes after a text why an input or an option can't be used, as a line: which of them it is, what is there, and what is
// expected. The code is the first that applies to them.
fn write_fault_sentence(
    alloc: Global,
    text: &mut String,
    ask: &Ask<'_>,
    form: Form,
    input: &[u8],
    code: FaultCode,
) -> Result<(), AllocError>
    ensures { OnOk result (string_bytes text.new ≡ string_bytes text.old ++ fault_sentence form input.now ask.now.context.now ask.now.held code) }
{
    text.push_str("  ")?;
    write_words(alloc, text, ask, form, input, code)?;
    text.push_str("\n")
}

// What is wrong, by the code.
fn write_words(
    alloc: Global,
    text: &mut String,
    ask: &Ask<'_>,
    form: Form,
    input: &[u8],
    code: FaultCode,
) -> Result<(), AllocError>
    ensures { OnOk result (string_bytes text.new ≡ string_bytes text.old ++ fault_words form input.now ask.now.context.now ask.now.held code) }
{
    match code {
        FaultCode::InputTooLong => {
            text.push_str(
                "the input has more than 1048576 bytes: a program has at most 4096 slots, each of ",
            )?;
            text.push_str(slot_size(form))
        }
        FaultCode::BadNumber => write_too_much(alloc, text, ask.context, ask.held),
        FaultCode::BadHex => write_unread_of(alloc, text, form, input, ask.context),
        _ => Ok(()),
    }
}

// What a slot takes of the input.
fn slot_size(form: Form) -> &'static str
    ensures { result.now ≡ slot_size form }
{
    match form {
        Form::Hex => "16 hex digits",
        Form::Raw => "8 bytes",
    }
}

// What is declared that is too much.
fn write_too_much(
    alloc: Global,
    text: &mut String,
    context: &str,
    held: u8,
) -> Result<(), AllocError>
    ensures { OnOk result (string_bytes text.new ≡ string_bytes text.old ++ too_much context.now held) }
{
    if held > MAX_HELD {
        return write!(
            text,
            "{held} objects are to be held: at most 64 can be declared"
        );
    }
    let bytes = hex_or_dash(alloc, context.as_bytes())?.unwrap_or(Vec::new(alloc));
    let len = bytes.len();
    write!(
        text,
        "the context has {len} bytes: at most 4096 can be declared"
    )
}

// Which of the two can't be read as hex, and why.
fn write_unread_of(
    alloc: Global,
    text: &mut String,
    form: Form,
    input: &[u8],
    context: &str,
) -> Result<(), AllocError>
    ensures { OnOk result (string_bytes text.new ≡ string_bytes text.old ++ unread_of form input.now context.now) }
{
    match spelled(alloc, form, input)? {
        Some(_) => write_unread(text, Part::Context, context.as_bytes()),
        None if is_object(input) => text.push_str(OBJECT_WORDS),
        None => write_unread(text, Part::Input, input),
    }
}

// Whether bytes begin as an object file does.
fn is_object(bytes: &[u8]) -> bool
    ensures { result ≡ is_object bytes.now }
{
    bytes.starts_with(b"\x7fELF")
}

// Writes why bytes are no program, as a line.
fn write_undecoded(
    text: &mut String,
    bytes: &[u8],
    slot: usize,
    code: DecodeCode,
) -> Result<(), AllocError>
    ensures { OnOk result (string_bytes text.new ≡ string_bytes text.old ++ undecoded_sentence bytes.now slot code) }
{
    if is_object(bytes) {
        return write!(text, "  {OBJECT_WORDS}\n");
    }
    write_decode_sentence(text, bytes, slot, code)
}

// Why one of them is no hex.
fn write_unread(text: &mut String, part: Part, bytes: &[u8]) -> Result<(), AllocError>
    ensures { OnOk result (string_bytes text.new ≡ string_bytes text.old ++ unread part bytes.now) }
{
    let place = place_of_other(part, bytes);
    match bytes.get(place) {
        Some(byte) => write_other_byte(text, part, place, *byte),
        None => {
            let name = part.name();
            let digits = digits_in(bytes);
            write!(
                text,
                "the {name} has an odd number of hex digits, {digits}: two make a byte"
            )
        }
    }
}

// What the first byte is that may not be there, and how it is mended.
fn write_other_byte(text: &mut String, part: Part, place: usize, byte: u8) -> Result<(), AllocError>
    ensures { OnOk result (string_bytes text.new ≡ string_bytes text.old ++ other_byte part place byte) }
{
    let name = part.name();
    write!(text, "byte {place} of the {name} is ")?;
    write_byte(text, byte)?;
    text.push_str(", not a hex digit: ")?;
    text.push_str(part.mending_of(byte))
}

// A byte that prints as itself, any other by its hex digits.
fn write_byte(text: &mut String, byte: u8) -> Result<(), AllocError>
    ensures { OnOk result (string_bytes text.new ≡ string_bytes text.old ++ shown_byte byte) }
{
    if byte.is_ascii_graphic() {
        text.push(byte as char)
    } else {
        write!(text, "0x{byte:02x}")
    }
}

// Where the first byte is that may not be there; the length, where each may.
fn place_of_other(part: Part, bytes: &[u8]) -> usize
    ensures { result ≡ place_of_other part bytes.now }
{
    for place in 0..bytes.len() {
        if !part.may_stand(bytes[place]) {
            return place;
        }
    }
    bytes.len()
}

// How many hex digits there are.
fn digits_in(bytes: &[u8]) -> usize
    ensures { result ≡ length (filter is_hex_digit bytes.now) }
{
    let mut count = 0;
    for byte in bytes {
        if is_hex_digit(*byte) {
            count += 1;
        }
    }
    count
}

// A hex digit, in upper or lower case.
fn is_hex_digit(byte: u8) -> bool
    ensures { result ≡ is_hex_digit byte }
{
    byte.is_ascii_hexdigit()
}

impl Part {
    // What it is called.
    fn name(self) -> &'static str
        ensures { result.now ≡ part_name self }
    {
        match self {
            Part::Input => "input",
            Part::Context => "context",
        }
    }

    // Whether a byte may be there: blanks may in the input.
    fn may_stand(self, byte: u8) -> bool
        ensures { result ≡ may_stand self byte }
    {
        match self {
            Part::Input => is_hex_digit(byte) || is_blank(byte),
            Part::Context => is_hex_digit(byte),
        }
    }

    // How a byte is mended that may not.
    fn mending_of(self, byte: u8) -> &'static str
        ensures { result.now ≡ mending_of self byte }
    {
        match self {
            Part::Context => "leave out 0x, commas and blanks",
            Part::Input if byte.is_ascii_graphic() => "leave out 0x and commas",
            Part::Input => "use --raw for raw bytes, or xxd -p to turn them into hex",
        }
    }
}
