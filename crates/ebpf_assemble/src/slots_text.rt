//! The slots of a program, as text.

ghost use Rattle.std.specs.Prelude.{◌≡◌, IfOk, string_bytes};
ghost use Rattle.ebpf_assemble.specs.SlotsText.{slot_lines};

use std::alloc::{AllocError, Global};

// The hex of each slot, as a line.
pub(crate) fn slots_text(alloc: Global, bytes: &[u8]) -> Result<String, AllocError>
    ensures { IfOk result (λ text. string_bytes text ≡ slot_lines bytes.now) }
{
    let mut text = String::new(alloc);
    for slot in bytes.chunks(8) {
        let digits = hex::encode(alloc, slot)?;
        text.push_str(&digits)?;
        text.push_str("\n")?;
    }
    Ok(text)
}
