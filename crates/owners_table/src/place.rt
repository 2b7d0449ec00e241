//! Which word of the table each slot has.
//!
//! *The idea.* Slots come in blocks of 65,536, as many as an arena has. Within a block a slot's word is found by a turn of sixteen bits:
//! the upper four bits of the slot's number become the lower four of the word's. So neighbours have words 128 bytes apart.
//!
//! *The reason.* Slabs serve one object at a time, so neighbours go to different workers. Each worker writes the word of its object at
//! every claim and release. A line of the processor's cache has eight words, and lines may be fetched in pairs.
//!
//! *What it costs.* A table of few slots has sixteen words for each; one of 4,096 slots or more has at most 65,536 words for a block.

ghost use Rattle.std.specs.Prelude.{◌≡◌};
ghost use Rattle.owners_table.specs.Place.{place, slot_at, words_in};

/// The word of a slot. No two slots have one: `back` says which slot has it.
pub(crate) fn place(slot: u32) -> usize
    ensures is { result ≡ place slot }
    ensures back { slot_at result ≡ slot }
{
    // Sixteen bits are turned by one instruction.
    let low = (slot % 65_536) as u16;
    let turned = low % 4096 * 16 + low / 4096;
    (slot - u32::from(low) + u32::from(turned)) as usize
}

/// How many words a table of this many slots has: those of its slots, those between them, and one more that is no slot's.
pub(crate) fn words_in(slots: u32) -> usize
    ensures { result ≡ words_in slots }
{
    (slots - slots % 65_536) as usize + (slots % 65_536 * 16).min(65_536) as usize + 1
}
