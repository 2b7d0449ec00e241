//! Bytes that are written as hex digits.

ghost use Rattle.std.specs.Prelude.{◌≡◌, ◌%◌, if◌then◌else◌, IfOk, OnErr, None, Some, option_map, length};
ghost use Rattle.ebpf_command.specs.HexText.{hex_bytes, hex_or_dash, is_dash};

use hex::FromHexError;
use std::alloc::{AllocError, Global};

/// The bytes that a text of hex digits means, in upper or lower case; `None` where it isn't readable. It fails only where
/// an allocation fails.
pub fn hex_bytes(alloc: Global, text: &[u8]) -> Result<Option<Vec<u8>>, AllocError>
    ensures value { IfOk result (λ r. option_map (λ v. v.items) r ≡ hex_bytes text.now) }
    // A text of an odd length takes no memory.
    ensures even { OnErr result (length text.now % 2 ≡ 0) }
{
    match hex::decode(alloc, text) {
        Ok(bytes) => Ok(Some(bytes)),
        Err(FromHexError::OutOfMemory) => Err(AllocError),
        Err(_) => Ok(None),
    }
}

/// The same, where a lone `-` means no bytes. It fails only where an allocation fails.
pub fn hex_or_dash(alloc: Global, text: &[u8]) -> Result<Option<Vec<u8>>, AllocError>
    ensures { IfOk result (λ r. option_map (λ v. v.items) r ≡ hex_or_dash text.now) }
{
    if is_dash(text) {
        return Ok(Some(Vec::new(alloc)));
    }
    hex_bytes(alloc, text)
}

/// The same in memory that is lent: what it had is gone, and the answer is whether the text is readable. It fails only where an
/// allocation fails.
#[inline]
pub fn hex_or_dash_in(bytes: &mut Vec<u8>, text: &[u8]) -> Result<bool, AllocError>
    ensures { IfOk result (λ is_readable. (if is_readable then Some bytes.new.items else None) ≡ hex_or_dash text.now) }
{
    bytes.clear();
    if is_dash(text) {
        return Ok(true);
    }
    bytes.resize(text.len() / 2, 0)?;
    Ok(hex::decode_to_slice(text, bytes.as_mut_slice()).is_ok())
}

// A lone `-`.
fn is_dash(text: &[u8]) -> bool
    ensures { result ≡ is_dash text.now }
{
    match text {
        [c] => *c == b'-',
        _ => false,
    }
}
