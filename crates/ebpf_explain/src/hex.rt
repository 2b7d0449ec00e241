//! Bytes in hexadecimal digits, each written after a text. Writing fails only where an allocation fails.

ghost use Rattle.std.specs.Prelude.{◌≡◌, ◌<◌, ◌++◌, string_bytes, OnOk};
ghost use Rattle.ebpf_explain.specs.Hex.{slot_byte, byte_digits, eight_digits};

use std::alloc::AllocError;

// The eight bytes of a slot, or of the one after it, which begins at its ninth byte.
pub(crate) fn write_eight(
    text: &mut String,
    bytes: &[u8],
    slot: usize,
    first: usize,
) -> Result<(), AllocError>
    requires { first < 9 }
    ensures { OnOk result (string_bytes text.new ≡ string_bytes text.old ++ eight_digits bytes.now slot first) }
{
    for number in 0..8 {
        write_byte(text, bytes, slot, first + number)?;
    }
    Ok(())
}

// A byte of a slot, or of the one after it.
pub(crate) fn write_byte(
    text: &mut String,
    bytes: &[u8],
    slot: usize,
    number: usize,
) -> Result<(), AllocError>
    requires { number < 16 }
    ensures { OnOk result (string_bytes text.new ≡ string_bytes text.old ++ byte_digits bytes.now slot number) }
{
    let byte = byte_of(bytes, slot, number);
    write!(text, "{byte:02x}")
}

// The same byte. Before it is looked for, its slot is: the place of one far past the bytes may be no number.
fn byte_of(bytes: &[u8], slot: usize, number: usize) -> u8
    requires { number < 16 }
    ensures { result ≡ slot_byte bytes.now slot number }
{
    if slot > bytes.len() / 8 {
        return 0;
    }
    match bytes.get(8 * slot + number) {
        Some(byte) => *byte,
        None => 0,
    }
}
