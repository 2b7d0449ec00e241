//! The lines of C beside the slots of a program.

ghost use Rattle.std.specs.Prelude.{◌≡◌, ◌++◌, IfOk, OnOk, map, string_bytes};
ghost use Rattle.ebpf_one.specs.Headed.{AreLinkedLines, heading_after, line_copied, line_held};

use ebpf_command::format::Format;
use ebpf_input::source_line::{held_at, held_lines, write_heading};
use ebpf_object_file::function::Function;
use ebpf_object_file::lines::{Line, Lines};
use std::alloc::{AllocError, Global};

/// The lines of C of a function, and the one that holds at each of its slots.
#[derive(Clone, Copy)]
pub(crate) struct Headed<'a> {
    pub(crate) lines: Lines<'a>,
    pub(crate) holding: &'a [Option<Line>],
}

/// Writes the line of C that holds at a slot, unless it is the one that holds at the slot where a run was before. It fails only where an
/// allocation fails.
pub(crate) fn write_heading_after(
    format: Format,
    text: &mut String,
    source: Option<Headed<'_>>,
    before: Option<usize>,
    slot: usize,
) -> Result<(), AllocError>
    ensures { OnOk result (string_bytes text.new ≡ string_bytes text.old ++ heading_after format source.entry before slot) }
{
    let Some(headed) = source else {
        return Ok(());
    };
    let last = line_held(headed, before);
    write_heading(
        format,
        text,
        headed.lines,
        last,
        held_at(headed.holding, slot),
    )
}

// The line that holds at a slot, if it is one.
fn line_held(headed: Headed<'_>, slot: Option<usize>) -> Option<Line>
    ensures { result ≡ line_held headed.entry slot }
{
    match slot {
        Some(slot) => held_at(headed.holding, slot),
        None => None,
    }
}

/// The line that holds at each slot of a program that copies slots. It fails only where an allocation fails.
pub(crate) fn copied_lines(
    alloc: Global,
    of: &[Option<u16>],
    holding: &[Option<Line>],
) -> Result<Vec<Option<Line>>, AllocError>
    ensures { IfOk result (λ copied. copied.items ≡ map (line_copied holding.now) of.now) }
{
    let mut copied = Vec::new(alloc);
    for slot in of {
        copied.push(line_copied(holding, *slot))?;
    }
    Ok(copied)
}

// The line that holds at a slot that is copied.
fn line_copied(holding: &[Option<Line>], copied: Option<u16>) -> Option<Line>
    ensures { result ≡ line_copied holding.now copied }
{
    match copied {
        Some(slot) => held_at(holding, slot as usize),
        None => None,
    }
}

/// The line that holds at each slot of a program that was linked with its data: it has one slot more than the function, in front, where none
/// holds. It fails only where an allocation fails.
pub(crate) fn linked_lines(
    alloc: Global,
    lines: Lines<'_>,
    function: Function<'_>,
) -> Result<Vec<Option<Line>>, AllocError>
    ensures { IfOk result (λ holding. AreLinkedLines lines.entry function.entry holding.items) }
{
    let own = held_lines(alloc, lines, function.place.from, function.code.len() / 8)?;
    let mut holding = Vec::new(alloc);
    holding.push(None)?;
    holding.extend_from_slice(&own)?;
    Ok(holding)
}
