//! Why a script can't be read, in a sentence. Writing fails only where an allocation fails.

ghost use Rattle.std.specs.Prelude.{◌≡◌, ◌<◌, ◌++◌, map, take, string_bytes, OnOk};
ghost use Rattle.ebpf_script.specs.ScriptFaults.{shown_byte, shown_line, expected, line_sentence, numbered_line, script_fault_sentence};

use ebpf_command::done::FaultCode;
use ebpf_reader::script::ScriptFault;
use std::alloc::AllocError;

// How many bytes of a line are shown.
const SHOWN: usize = 60;

/// Writes after a text why a script can't be read, as a line: the script's line as it is, and what is expected.
pub(crate) fn write_script_fault(
    text: &mut String,
    script: &[u8],
    fault: ScriptFault,
) -> Result<(), AllocError>
    ensures { OnOk result (string_bytes text.new ≡ string_bytes text.old ++ script_fault_sentence script.now fault.line fault.code) }
{
    let line = fault.line;
    match fault.code {
        FaultCode::InputTooLong => text.push_str("  the script has more than 1048576 bytes\n"),
        code => write_line_fault(text, numbered_line(script, line), line, code),
    }
}

// Why a line of this number can't be read.
fn write_line_fault(
    text: &mut String,
    line: &[u8],
    number: usize,
    code: FaultCode,
) -> Result<(), AllocError>
    ensures { OnOk result (string_bytes text.new ≡ string_bytes text.old ++ line_sentence line.now number code) }
{
    write!(text, "  line {number} is ")?;
    write_shown_line(text, line)?;
    text.push_str(": ")?;
    text.push_str(expected(code))?;
    text.push_str("\n")
}

// A line, or the first bytes of one that is longer.
fn write_shown_line(text: &mut String, line: &[u8]) -> Result<(), AllocError>
    ensures { OnOk result (string_bytes text.new ≡ string_bytes text.old ++ shown_line line.now) }
{
    write_shown(text, beginning(line))?;
    if line.len() > SHOWN {
        text.push_str("...")
    } else {
        Ok(())
    }
}

// The first bytes of a line.
fn beginning(line: &[u8]) -> &[u8]
    ensures { result.now ≡ take 60 line.now }
{
    if line.len() > SHOWN {
        &line[..SHOWN]
    } else {
        line
    }
}

// These bytes, each as it is shown.
fn write_shown(text: &mut String, bytes: &[u8]) -> Result<(), AllocError>
    ensures { OnOk result (string_bytes text.new ≡ string_bytes text.old ++ map shown_byte bytes.now) }
{
    for byte in bytes {
        text.push(shown_byte(*byte) as char)?;
    }
    Ok(())
}

// A byte that prints, or a space; a question mark for any other.
fn shown_byte(byte: u8) -> u8
    ensures shown { result ≡ shown_byte byte }
    ensures ascii { result < 128 }
{
    if byte >= 32 && byte <= 126 {
        byte
    } else {
        b'?'
    }
}

// The line of a number, from 1; nothing after the last.
fn numbered_line(script: &[u8], number: usize) -> &[u8]
    ensures { result.now ≡ numbered_line script.now number }
{
    let index = number.saturating_sub(1);
    let mut place = 0;
    for line in script.split(|c| *c == b'\n') {
        if place == index {
            return line;
        }
        place += 1;
    }
    b""
}

// What is expected of a line, by the code of its fault. A script that is too long has no such line.
fn expected(code: FaultCode) -> &'static str
    ensures { result.now ≡ expected code }
{
    match code {
        FaultCode::InputTooLong => "",
        FaultCode::UnprintableByte => "a line may have only printable ASCII and tabs",
        FaultCode::UnknownLine => "no line of this command has this first word and this many words",
        FaultCode::BadNumber => "a number is out of range, or is not all digits",
        FaultCode::BadHex => "hex must be an even number of digits, or -",
        FaultCode::BadName =>
            "a name must have 1 to 32 letters, digits, _ or -, and only one program line",
        FaultCode::UndefinedName => "its program line must come before it",
        FaultCode::SecondArena => "there may be only one arena line",
        FaultCode::WrongContextLength => "the context must be as long as its program declares",
    }
}
