//! The text of a context.

ghost use Rattle.std.specs.Prelude.{◌≡◌, ◌≢◌, IfOk, IfErr, IfSome, Some, drop, option_map, string_bytes};
ghost use Rattle.hex.specs.Hex.{encode_lower};
ghost use Rattle.ebpf_command.specs.HexText.{hex_or_dash};
ghost use Rattle.ebpf_command.specs.declared.done.EngineFault.TheVariants.{Output};
ghost use Rattle.ebpf_context.specs.ContextText.{context_of, most_read, text_of, text_of_text, text_of_input};

use ebpf_command::done::EngineFault;
use ebpf_command::hex_text::hex_or_dash;
use ebpf_command::input::read_at_most;
use ebpf_verify::decl::MAX_CONTEXT;
use std::alloc::{AllocError, Global};
use std::io::Read;

/// The text of a context of the declared length, with the bytes that a text gives as hex and zeros after them; a lone `-` gives no bytes.
/// `None` where it gives more than are declared. A text that isn't readable is its own, so that a command says what is wrong with it. It
/// fails only where an allocation fails.
pub fn fill_context(alloc: Global, text: &str, declared: u32) -> Result<Option<String>, AllocError>
    ensures { IfOk result (λ filled. option_map string_bytes filled ≡ text_of_text text.now declared) }
{
    match hex_or_dash(alloc, text.as_bytes())? {
        Some(given) => context_text(alloc, given, Some(declared)),
        None => Ok(Some(text.to_owned(alloc)?)),
    }
}

/// The same with the bytes of an input. Where no length is declared, it is the text of all bytes: of one more than a context may have, if the
/// input is longer, so that a command refuses it. At most one byte more is read than a context may have, or than are declared.
///
/// # Errors
/// `Input` where a read failed, and `NoMemory` where an allocation failed.
pub fn read_context<R: Read>(
    alloc: Global,
    reader: &mut R,
    declared: Option<u32>,
) -> Result<Option<String>, EngineFault>
    ensures read { IfOk result (λ text. IfSome (R.remaining reader.old) (λ input. option_map string_bytes text ≡ text_of_input input declared)) }
    ensures consumed { IfOk result (λ _. IfSome (R.remaining reader.old) (λ input. R.remaining reader.new ≡ Some (drop (most_read declared) input))) }
    ensures err { IfErr result (λ e. e ≢ Output) }
{
    let most = declared.unwrap_or(MAX_CONTEXT) as usize;
    let given = read_at_most(alloc, reader, most + 1)?;
    Ok(context_text(alloc, given, declared)?)
}

// The text of the context that has these bytes and, where a length is declared, zeros after them. `None` where more are given than are
// declared. It fails only where an allocation fails.
fn context_text(
    alloc: Global,
    given: Vec<u8>,
    declared: Option<u32>,
) -> Result<Option<String>, AllocError>
    ensures text { IfOk result (λ text. option_map string_bytes text ≡ text_of given.items declared) }
    // What a command reads of it.
    ensures read { IfOk result (λ text. IfSome text (λ t. hex_or_dash (string_bytes t) ≡ context_of given.items declared)) }
{
    let mut bytes = given;
    if let Some(length) = declared {
        let length = length as usize;
        if bytes.len() > length {
            return Ok(None);
        }
        bytes.resize(length, 0)?;
    }
    Ok(Some(hex_text(alloc, bytes.as_slice())?))
}

// The hex of some bytes.
fn hex_text(alloc: Global, bytes: &[u8]) -> Result<String, AllocError>
    ensures text { IfOk result (λ text. string_bytes text ≡ encode_lower bytes.now) }
    ensures read { IfOk result (λ text. hex_or_dash (string_bytes text) ≡ Some bytes.now) }
{
    hex::encode(alloc, bytes)
}
