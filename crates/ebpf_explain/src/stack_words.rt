//! What is known of the stack, in words, each written after a text. Writing fails only where an allocation fails.

ghost use Rattle.std.specs.Prelude.{◌≡◌, ◌<◌, ◌++◌, string_bytes, OnOk};
ghost use Rattle.ebpf_explain.specs.StackWords.{texts_below, place_text, byte_text, set_text, bytes_word, stack_word, known_word};

use crate::values::write_value;
use ebpf_state::state::State;
use ebpf_state::word::Word;
use std::alloc::AllocError;

// The words of the stack of which something is known, in the order of their numbers.
pub(crate) fn write_stack(text: &mut String, state: &State) -> Result<(), AllocError>
    ensures { OnOk result (string_bytes text.new ≡ string_bytes text.old ++ texts_below 64 (known_word state.now.words)) }
{
    for number in 0..64 {
        write_word(text, number, state.word(number))?;
    }
    Ok(())
}

// What is known of a word, where anything is.
fn write_word(text: &mut String, number: usize, word: Word) -> Result<(), AllocError>
    requires { number < 64 }
    ensures { OnOk result (string_bytes text.new ≡ string_bytes text.old ++ stack_word number word) }
{
    match word {
        Word::Spill(value) => {
            write_place(text, number)?;
            write_value(text, value)
        }
        Word::Bytes(mask) => write_bytes(text, number, mask),
    }
}

// Where a word begins, from the frame pointer.
fn write_place(text: &mut String, number: usize) -> Result<(), AllocError>
    requires { number < 64 }
    ensures { OnOk result (string_bytes text.new ≡ string_bytes text.old ++ place_text number) }
{
    write!(text, "  [r10-{}] ", 512 - 8 * number)
}

// Which bytes of a word are set, where any is.
fn write_bytes(text: &mut String, number: usize, mask: u8) -> Result<(), AllocError>
    requires { number < 64 }
    ensures { OnOk result (string_bytes text.new ≡ string_bytes text.old ++ bytes_word number mask) }
{
    if mask == 0 {
        return Ok(());
    }
    write_place(text, number)?;
    text.push_str("set")?;
    write_set(text, mask)
}

// The numbers of the bytes that are set, where not all are.
fn write_set(text: &mut String, mask: u8) -> Result<(), AllocError>
    ensures { OnOk result (string_bytes text.new ≡ string_bytes text.old ++ set_text mask) }
{
    if mask == 255 {
        return Ok(());
    }
    write_numbers(text, mask)
}

// The numbers of the bytes that are set.
fn write_numbers(text: &mut String, mask: u8) -> Result<(), AllocError>
    ensures { OnOk result (string_bytes text.new ≡ string_bytes text.old ++ texts_below 8 (byte_text mask)) }
{
    for byte in 0..8 {
        write_byte(text, mask, byte)?;
    }
    Ok(())
}

// The number of a byte that is set.
fn write_byte(text: &mut String, mask: u8, byte: u8) -> Result<(), AllocError>
    requires { byte < 8 }
    ensures { OnOk result (string_bytes text.new ≡ string_bytes text.old ++ byte_text mask byte) }
{
    if (mask >> byte) % 2 == 1 {
        write!(text, " {byte}")
    } else {
        Ok(())
    }
}
