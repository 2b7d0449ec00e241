//! Why a function isn't linked with its data, in a sentence.

ghost use Rattle.std.specs.Prelude.{◌≡◌, ◌<◌, ◌++◌, OnOk, string_bytes};
ghost use Rattle.ebpf_object_file.specs.DataParts.{HasParts};
ghost use Rattle.ebpf_object_file.specs.File.{IsOpen};
ghost use Rattle.ebpf_object_file.specs.Section.{sections_in};
ghost use Rattle.ebpf_loader.specs.Sentences.{AreInside, HasNames};
ghost use Rattle.ebpf_loader.specs.Sentences.{link_sentence, load_sentence, later_part, later_parts, part_words, parts_words, sizes_words, too_long};

use crate::fault::LoadFault;
use ebpf_link::fault::LinkFault;
use ebpf_object_file::data_parts::{Data, Part};
use std::alloc::AllocError;

/// Writes after a text why a function of a file isn't linked with its data, without a newline; nothing, where its bytes are no program
/// or its flow has a fault, which are refusals of the program itself.
///
/// # Errors
/// It fails only where an allocation fails, and some of the words may be written then.
pub fn write_sentence(text: &mut String, file: &[u8], fault: &LoadFault) -> Result<(), AllocError>
    requires { HasNames file.now fault.now }
    ensures { OnOk result (string_bytes text.new ≡ string_bytes text.old ++ load_sentence file.now fault.now) }
{
    match fault {
        LoadFault::TooLong { context, laid } => write_too_long(text, file, *context, laid),
        LoadFault::Unlinked { fault, .. } => write_unlinked(text, *fault),
        LoadFault::Undecoded { .. } | LoadFault::NoMemory => Ok(()),
    }
}

/// Writes after a text why a program isn't linked, without a newline; nothing, where its flow has a fault, which is a refusal of the program
/// itself.
///
/// # Errors
/// It fails only where an allocation fails, and some of the words may be written then.
pub fn write_unlinked(text: &mut String, fault: LinkFault) -> Result<(), AllocError>
    ensures { OnOk result (string_bytes text.new ≡ string_bytes text.old ++ link_sentence fault) }
{
    match fault {
        LinkFault::NotWide { slot } => {
            write!(
                text,
                "slot {slot} loads no 64-bit immediate, which an address takes the place of"
            )
        }
        LinkFault::Far { slot } => {
            write!(
                text,
                "slot {slot} has an address more than 4096 bytes away from the context's first byte"
            )
        }
        LinkFault::Slots => {
            text.push_str(
                "with the slot in front, which saves the context's pointer, the program would have more than 4096 slots",
            )
        }
        LinkFault::NoWord => {
            text.push_str(
                "no word of the stack is certain to keep the context's pointer: use less than 512 bytes of the stack",
            )
        }
        LinkFault::Flow { .. } | LinkFault::NoMemory => Ok(()),
    }
}

// Writes how many bytes the context and the data have.
fn write_too_long(
    text: &mut String,
    file: &[u8],
    context: u32,
    laid: &Data,
) -> Result<(), AllocError>
    requires { HasParts file.now laid.now }
    ensures { OnOk result (string_bytes text.new ≡ string_bytes text.old ++ too_long file.now context laid.now) }
{
    write_sizes(text, context, laid.size)?;
    write_parts(text, file, &laid.parts)
}

// Writes how many bytes both have.
fn write_sizes(text: &mut String, context: u32, size: u64) -> Result<(), AllocError>
    ensures { OnOk result (string_bytes text.new ≡ string_bytes text.old ++ sizes_words context size) }
{
    write!(
        text,
        "the context has {context} bytes and the data {size}, more than 4096 together: "
    )
}

// Writes how many bytes each section has.
fn write_parts(text: &mut String, file: &[u8], parts: &[Part]) -> Result<(), AllocError>
    requires { AreInside file.now parts.now }
    ensures { OnOk result (string_bytes text.new ≡ string_bytes text.old ++ parts_words file.now parts.now) }
{
    let Some((first, later)) = parts.split_first() else {
        return Ok(());
    };
    write_part(text, file, first)?;
    write_later_parts(text, file, later)
}

// Writes how many bytes each section has, a comma before each.
fn write_later_parts(text: &mut String, file: &[u8], parts: &[Part]) -> Result<(), AllocError>
    requires { AreInside file.now parts.now }
    ensures { OnOk result (string_bytes text.new ≡ string_bytes text.old ++ later_parts file.now parts.now) }
{
    for part in parts {
        write_later_part(text, file, part)?;
    }
    Ok(())
}

// Writes a comma, and how many bytes a section has.
fn write_later_part(text: &mut String, file: &[u8], part: &Part) -> Result<(), AllocError>
    requires file { IsOpen file.now }
    requires section { part.now.section < sections_in file.now }
    ensures { OnOk result (string_bytes text.new ≡ string_bytes text.old ++ later_part file.now part.now) }
{
    text.push_str(", ")?;
    write_part(text, file, part)
}

// Writes how many bytes a section has.
#[tactic(auto, unfolding(crate::specs::Sentences::part_words))]
fn write_part(text: &mut String, file: &[u8], part: &Part) -> Result<(), AllocError>
    requires file { IsOpen file.now }
    requires section { part.now.section < sections_in file.now }
    ensures { OnOk result (string_bytes text.new ≡ string_bytes text.old ++ part_words file.now part.now) }
{
    let name = part.name(file);
    let size = part.size;
    write!(text, "{name} has {size}")
}
