//! Which slot of another program a slot copies, as a row, and what is at that slot.

ghost use Rattle.std.specs.Prelude.{◌≡◌, ◌++◌, None, IfOk, OnOk, map, slice_index_or, string_bytes, suc, take};
ghost use Rattle.ebpf_insn.specs.Program.{insn_at};
ghost use Rattle.ebpf_show.specs.Copies.{added_row, copy_row, copy_row_if, is_of, item_at, linked_slots, visit_row, visit_of};

use ebpf_command::format::Format;
use ebpf_insn::program::Program;
use std::alloc::{AllocError, Global};

// The most slots that a program may have.
const MOST_SLOTS: u16 = 4096;

/// Of each slot of a program the slot of another one that it copies, if it does.
#[derive(Clone, Copy)]
pub(crate) struct Copies<'a> {
    pub of: &'a [Option<u16>],
}

/// Writes which slot a slot copies, if a program copies any and an instruction begins there. It fails only where an allocation fails.
pub(crate) fn write_copy_at(
    format: Format,
    text: &mut String,
    program: &Program,
    copies: Option<Copies<'_>>,
    slot: usize,
) -> Result<(), AllocError>
    ensures { OnOk result (string_bytes text.new ≡ string_bytes text.old ++ copy_row_if format copies.entry slot (insn_at program.now slot)) }
{
    match (copies, program.at(slot)) {
        (Some(copies), Some(_)) => write_copy(format, text, copies.of, slot),
        _ => Ok(()),
    }
}

// Writes which slot a slot copies, or that it was added.
fn write_copy(
    format: Format,
    text: &mut String,
    of: &[Option<u16>],
    slot: usize,
) -> Result<(), AllocError>
    ensures { OnOk result (string_bytes text.new ≡ string_bytes text.old ++ copy_row format of.now slot) }
{
    match slot_of(of, slot) {
        Some(copied) => write_visit(format, text, copied, visit_of(up_to(of, slot), copied)),
        None => write_added(format, text),
    }
}

// The slot that a slot copies.
fn slot_of(of: &[Option<u16>], slot: usize) -> Option<u16>
    ensures { result ≡ slice_index_or of.now slot None }
{
    if slot < of.len() { of[slot] } else { None }
}

// The slots that are copied as far as a slot.
fn up_to(of: &[Option<u16>], slot: usize) -> &[Option<u16>]
    ensures { result.now ≡ take (suc slot) of.now }
{
    if slot < of.len() { &of[..slot + 1] } else { of }
}

// Writes that a slot was added.
fn write_added(format: Format, text: &mut String) -> Result<(), AllocError>
    ensures { OnOk result (string_bytes text.new ≡ string_bytes text.old ++ added_row format) }
{
    match format {
        Format::Text => text.push_str("  added\n"),
        Format::Json => text.push_str("{\"of\":null}\n"),
    }
}

// Writes the visit of a slot.
fn write_visit(format: Format, text: &mut String, slot: u16, visit: usize) -> Result<(), AllocError>
    ensures { OnOk result (string_bytes text.new ≡ string_bytes text.old ++ visit_row format slot visit) }
{
    match format {
        Format::Text => write!(text, "  slot {slot}, visit {visit}\n"),
        Format::Json => write!(text, "{{\"of\":{slot},\"visit\":{visit}}}\n"),
    }
}

// How often a slot is copied.
fn visit_of(of: &[Option<u16>], slot: u16) -> usize
    ensures { result ≡ visit_of of.now slot }
{
    let mut visits = 0;
    for copied in of {
        if is_of(*copied, slot) {
            visits += 1;
        }
    }
    visits
}

// Whether a slot is copied.
fn is_of(copied: Option<u16>, slot: u16) -> bool
    ensures { result ≡ is_of slot copied }
{
    match copied {
        Some(copied) => copied == slot,
        None => false,
    }
}

/// Of each slot of a program that copies slots what is at the slot that it copies: the line of C that holds there, or the slot of a third
/// program that it copies. It fails only where an allocation fails.
pub(crate) fn copied_items<T: Copy>(
    alloc: Global,
    of: &[Option<u16>],
    items: &[Option<T>],
) -> Result<Vec<Option<T>>, AllocError>
    ensures { IfOk result (λ copied. copied.items ≡ map (item_at items.now) of.now) }
{
    let mut copied = Vec::new(alloc);
    for slot in of {
        copied.push(item_at(items, *slot))?;
    }
    Ok(copied)
}

// What is at a slot that is copied.
fn item_at<T: Copy>(items: &[Option<T>], copied: Option<u16>) -> Option<T>
    ensures { result ≡ item_at items.now copied }
{
    match copied {
        Some(slot) if (slot as usize) < items.len() => items[slot as usize],
        _ => None,
    }
}

/// Of each slot of a program that was linked with its data the slot of the function that it copies: the first was added, and each of the
/// others is one later than that which it copies. It fails only where an allocation fails.
pub(crate) fn linked_slots(alloc: Global) -> Result<Vec<Option<u16>>, AllocError>
    ensures { IfOk result (λ of. of.items ≡ linked_slots) }
{
    let mut of = Vec::new(alloc);
    of.push(None)?;
    for slot in 0..MOST_SLOTS {
        of.push(Some(slot))?;
    }
    Ok(of)
}
