//! The references that are held, in words, each written after a text. Writing fails only where an allocation fails.

ghost use Rattle.std.specs.Prelude.{◌≡◌, ◌++◌, string_bytes, OnOk};
ghost use Rattle.std.specs.List.{flat_map};
ghost use Rattle.ebpf_explain.specs.Held.{held_text, held_word, kind_text};

use ebpf_state::held::Held;
use ebpf_state::kinds::KindRow;
use std::alloc::AllocError;

// The words of these references, in their order.
pub(crate) fn write_references(
    text: &mut String,
    references: &[Held],
    kinds: &[KindRow],
) -> Result<(), AllocError>
    ensures { OnOk result (string_bytes text.new ≡ string_bytes text.old ++ flat_map (held_word kinds.now) references.now) }
{
    for reference in references {
        write_reference(text, *reference, kinds)?;
    }
    Ok(())
}

// The word of a reference.
fn write_reference(text: &mut String, reference: Held, kinds: &[KindRow]) -> Result<(), AllocError>
    ensures { OnOk result (string_bytes text.new ≡ string_bytes text.old ++ held_word kinds.now reference) }
{
    text.push_str("  ")?;
    write_held(text, reference, kinds)
}

// What a reference holds. One that was not compared with null yet may be of no object.
pub(crate) fn write_held(
    text: &mut String,
    reference: Held,
    kinds: &[KindRow],
) -> Result<(), AllocError>
    ensures { OnOk result (string_bytes text.new ≡ string_bytes text.old ++ held_text kinds.now reference) }
{
    if reference.tested {
        text.push_str("holds ")?;
    } else {
        text.push_str("may hold ")?;
    }
    write!(text, "{} (", reference.call)?;
    write_kind(text, reference.kind, kinds)?;
    text.push_str(")")
}

// The name of a kind, or its number where there is no row for it.
fn write_kind(text: &mut String, kind: u8, kinds: &[KindRow]) -> Result<(), AllocError>
    ensures { OnOk result (string_bytes text.new ≡ string_bytes text.old ++ kind_text kinds.now kind) }
{
    match kinds.get(kind as usize) {
        Some(row) => text.push_str(row.name),
        None => write!(text, "{kind}"),
    }
}
