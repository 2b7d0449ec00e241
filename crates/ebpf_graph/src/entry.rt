//! What is known before a block, written after a text. Writing fails only where an allocation fails.

ghost use Rattle.std.specs.Prelude.{◌≡◌, ◌++◌, string_bytes, slice_get, OnOk};
ghost use Rattle.ebpf_graph.specs.Graph.{entry_text, known_before};

use ebpf_explain::known::write_known;
use ebpf_state::kinds::KindRow;
use ebpf_verify::entry::EntryState;
use std::alloc::AllocError;

// What is known before a slot, where that is asked for and the slot was looked at.
pub(crate) fn write_known_before(
    text: &mut String,
    asked: bool,
    entries: &[EntryState],
    kinds: &[KindRow],
    slot: usize,
) -> Result<(), AllocError>
    ensures { OnOk result (string_bytes text.new ≡ string_bytes text.old ++ known_before asked kinds.now (slice_get entries.now slot)) }
{
    if !asked {
        return Ok(());
    }
    match entries.get(slot) {
        None => Ok(()),
        Some(entry) => write_entry(text, entry, kinds),
    }
}

// What is known of the runs that come there.
fn write_entry(text: &mut String, entry: &EntryState, kinds: &[KindRow]) -> Result<(), AllocError>
    ensures { OnOk result (string_bytes text.new ≡ string_bytes text.old ++ entry_text kinds.now entry.now) }
{
    match entry {
        EntryState::Known(state) => {
            write_known(text, state, kinds)?;
            text.push_str("\\l")
        }
        EntryState::Unreached => text.push_str("  never entered\\l"),
        EntryState::Conflict => text.push_str("  paths meet that hold different objects\\l"),
    }
}
