//! What is known before a slot.

ghost use Rattle.std.specs.Prelude.{◌≡◌, ◌<◌, length};
ghost use Rattle.ebpf_verify.specs.Entry.{entry_of};

use ebpf_verify::entry::EntryState;
use ebpf_verify::trace::Trace;

/// What is known before a slot that was looked at.
pub(crate) fn known_at<'t>(trace: &'t Trace, slot: usize) -> &'t EntryState
    requires inside { slot < length trace.now.entries.items }
    ensures { result.now ≡ entry_of trace.now.flowed.now slot }
{
    &trace.entries[slot]
}
