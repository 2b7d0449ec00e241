//! What a load or a store does that it may not, in words, each written after a text. Writing fails only where an allocation
//! fails.

ghost use Rattle.std.specs.Prelude.{◌≡◌, ◌++◌, string_bytes, OnOk};
ghost use Rattle.ebpf_explain.specs.MemoryFaults.{access_with, size_text, outside, size_of_kind, size_behind, outside_object};
ghost use Rattle.ebpf_explain.specs.MemoryFaults.{context_written, number_as_address};

use crate::accesses::{Access, write_access, write_byte_count, write_place, write_reach};
use ebpf_state::kinds::KindRow;
use ebpf_state::state::State;
use ebpf_state::value::Abs;
use std::alloc::AllocError;

// An access, and what is wrong with it.
pub(crate) fn write_access_with(
    text: &mut String,
    access: Access,
    state: &State,
    fault: &str,
) -> Result<(), AllocError>
    ensures { OnOk result (string_bytes text.new ≡ string_bytes text.old ++ access_with access state.now fault.now) }
{
    write_access(text, access, state)?;
    text.push_str(fault)
}

// An access, and how many bytes there are.
pub(crate) fn write_outside(
    text: &mut String,
    access: Access,
    state: &State,
    fault: &str,
    size: Option<u32>,
) -> Result<(), AllocError>
    ensures { OnOk result (string_bytes text.new ≡ string_bytes text.old ++ outside access state.now fault.now size) }
{
    write_access(text, access, state)?;
    text.push_str(fault)?;
    write_size(text, size)
}

// So many bytes, or some where that is not known.
fn write_size(text: &mut String, size: Option<u32>) -> Result<(), AllocError>
    ensures { OnOk result (string_bytes text.new ≡ string_bytes text.old ++ size_text size) }
{
    match size {
        Some(size) => write_byte_count(text, size as usize),
        None => text.push_str("fewer bytes"),
    }
}

// An access, and how many bytes the object has.
pub(crate) fn write_outside_object(
    text: &mut String,
    access: Access,
    state: &State,
    fault: &str,
    kinds: &[KindRow],
) -> Result<(), AllocError>
    ensures { OnOk result (string_bytes text.new ≡ string_bytes text.old ++ outside_object access state.now fault.now kinds.now) }
{
    let size = size_behind(kinds, state, state.reg(access.base));
    write_outside(text, access, state, fault, size)
}

// How many bytes the object has that a value points to, where that is known.
pub(crate) fn size_behind(kinds: &[KindRow], state: &State, value: Abs) -> Option<u32>
    ensures { result ≡ size_behind kinds.now state.now value }
{
    match value {
        Abs::Ob(call, _, _) => size_of_kind(kinds, state.kind(call)),
        _ => None,
    }
}

// How many bytes an object of a kind has, where there is a row for it.
fn size_of_kind(kinds: &[KindRow], kind: Option<u8>) -> Option<u32>
    ensures { result ≡ size_of_kind kinds.now kind }
{
    match kinds.get(kind? as usize) {
        Some(row) => Some(row.size),
        None => None,
    }
}

// The context is written.
pub(crate) fn write_context_written(text: &mut String, access: Access) -> Result<(), AllocError>
    ensures { OnOk result (string_bytes text.new ≡ string_bytes text.old ++ context_written access) }
{
    text.push_str("writes to the context at ")?;
    write_place(text, access.base, access.offset)
}

// The address is a number.
pub(crate) fn write_number_as_address(
    text: &mut String,
    access: Access,
    state: &State,
) -> Result<(), AllocError>
    ensures { OnOk result (string_bytes text.new ≡ string_bytes text.old ++ number_as_address access state.now) }
{
    text.push_str("accesses memory at ")?;
    write_reach(text, access, state)?;
    text.push_str(", which is a number")
}
