//! The program's bytes, from its text.

ghost use Rattle.std.specs.Prelude.{◌≡◌, not, filter, IfOk, option_map};
ghost use Rattle.ebpf_input.specs.ProgramText.{is_blank, program_bytes, spelled};

use crate::form::Form;
use ebpf_command::hex_text::hex_bytes;
use std::alloc::{AllocError, Global};

/// The program's bytes, as the form spells them.
pub(crate) fn spelled(
    alloc: Global,
    form: Form,
    input: &[u8],
) -> Result<Option<Vec<u8>>, AllocError>
    ensures { IfOk result (λ r. option_map (λ v. v.items) r ≡ spelled form input.now) }
{
    match form {
        Form::Hex => program_bytes(alloc, input),
        Form::Raw => Ok(Some(input.to_vec(alloc)?)),
    }
}

// The bytes of a text of hex digits.
fn program_bytes(alloc: Global, input: &[u8]) -> Result<Option<Vec<u8>>, AllocError>
    ensures { IfOk result (λ r. option_map (λ v. v.items) r ≡ program_bytes input.now) }
{
    // Where it is decoded as it is, it holds no blank, and no copy without them is needed.
    let bytes = hex_bytes(alloc, without_last_newline(input))?;
    if bytes.is_some() {
        return Ok(bytes);
    }
    let digits = without_blanks(alloc, input)?;
    hex_bytes(alloc, &digits)
}

// The text without the newline that it may end in.
fn without_last_newline(text: &[u8]) -> &[u8]
    ensures { filter (λ c. not (is_blank c)) result.now ≡ filter (λ c. not (is_blank c)) text.now }
{
    match text {
        [line @ .., b'\n'] => line,
        _ => text,
    }
}

// The text without its blanks.
fn without_blanks(alloc: Global, text: &[u8]) -> Result<Vec<u8>, AllocError>
    ensures { IfOk result (λ v. v.items ≡ filter (λ c. not (is_blank c)) text.now) }
{
    let mut digits = Vec::with_capacity(alloc, text.len())?;
    for c in text {
        if !is_blank(*c) {
            digits.push_reserved(*c);
        }
    }
    Ok(digits)
}

/// A tab, a newline, a carriage return or a space.
pub(crate) fn is_blank(c: u8) -> bool
    ensures { result ≡ is_blank c }
{
    c == b'\t' || c == b'\n' || c == b'\r' || c == b' '
}
