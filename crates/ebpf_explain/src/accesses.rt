//! What a load or a store does to memory, in words, each written after a text. Writing fails only where an allocation fails.

ghost use Rattle.std.specs.Prelude.{◌≡◌, ◌++◌, string_bytes, OnOk};
ghost use Rattle.ebpf_text.specs.Operands.{place_text};
ghost use Rattle.ebpf_explain.specs.Accesses.{access_of, bytes_text, done_text, reach_text, access_text};

use crate::registers::write_register;
use crate::values::write_offset;
use ebpf_insn::insn::{Insn, Size};
use ebpf_insn::register::Reg;
use ebpf_state::stack::bytes_in;
use ebpf_state::state::State;
use std::alloc::AllocError;

/// What a load or a store does: whether it writes, how many bytes, and where.
#[derive(Clone, Copy)]
pub(crate) struct Access {
    pub(crate) writes: bool,
    pub(crate) size: Size,
    pub(crate) base: Reg,
    pub(crate) offset: i16,
}

// What a load or a store does. The codes of memory refuse no other instruction; for any other it is a byte that is read at r10.
pub(crate) fn access_of(insn: &Insn) -> Access
    ensures { result ≡ access_of insn.now }
{
    match *insn {
        Insn::Load {
            size,
            base,
            offset,
            ..
        } => Access {
            writes: false,
            size,
            base,
            offset,
        },
        Insn::Store {
            size,
            base,
            offset,
            ..
        } => Access {
            writes: true,
            size,
            base,
            offset,
        },
        _ => Access {
            writes: false,
            size: Size::B,
            base: Reg::R10,
            offset: 0,
        },
    }
}

// What is done, where, and what is known of the base.
pub(crate) fn write_access(
    text: &mut String,
    access: Access,
    state: &State,
) -> Result<(), AllocError>
    ensures { OnOk result (string_bytes text.new ≡ string_bytes text.old ++ access_text access state.now) }
{
    write_done(text, access)?;
    text.push_str(" at ")?;
    write_reach(text, access, state)
}

// What is done, and to how many bytes.
fn write_done(text: &mut String, access: Access) -> Result<(), AllocError>
    ensures { OnOk result (string_bytes text.new ≡ string_bytes text.old ++ done_text access) }
{
    if access.writes {
        text.push_str("writes ")?;
    } else {
        text.push_str("reads ")?;
    }
    write_byte_count(text, bytes_in(access.size))
}

// So many bytes.
pub(crate) fn write_byte_count(text: &mut String, count: usize) -> Result<(), AllocError>
    ensures { OnOk result (string_bytes text.new ≡ string_bytes text.old ++ bytes_text count) }
{
    if count == 1 {
        write!(text, "{count} byte")
    } else {
        write!(text, "{count} bytes")
    }
}

// Where it is done, and what is known of the base.
pub(crate) fn write_reach(
    text: &mut String,
    access: Access,
    state: &State,
) -> Result<(), AllocError>
    ensures { OnOk result (string_bytes text.new ≡ string_bytes text.old ++ reach_text access state.now) }
{
    write_place(text, access.base, access.offset)?;
    text.push_str(",")?;
    write_register(text, access.base, state.reg(access.base))
}

// A place in memory, as a listing has it.
pub(crate) fn write_place(text: &mut String, base: Reg, offset: i16) -> Result<(), AllocError>
    ensures { OnOk result (string_bytes text.new ≡ string_bytes text.old ++ place_text base offset) }
{
    write!(text, "[r{}", base.number())?;
    write_offset(text, offset as i64)?;
    text.push_str("]")
}
