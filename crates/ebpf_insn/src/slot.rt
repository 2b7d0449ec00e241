//! A slot of eight bytes, and its fields.

ghost use Rattle.std.specs.Prelude.{◌≡◌, ◌≤◌, ◌<◌, ◌++◌, OnErr, OnOk, length};
ghost use Rattle.ebpf_insn.specs.Slot.{slot_at, bytes_of_slot};

use byteorder::{ByteOrder, LittleEndian};
use std::alloc::AllocError;

// The fields of a slot, as unsigned numbers (RFC 9669, section 3.1). The registers are the nibbles as they are, 0 to
// 15; a signed field is cast where an instruction is made of it.
#[derive(Clone, Copy)]
pub(crate) struct Slot {
    pub opcode: u8,
    pub dst: u8,
    pub src: u8,
    pub offset: u16,
    pub imm: u32,
}

// Reads the slot that the bytes begin with.
pub(crate) fn read_slot(bytes: &[u8]) -> Slot
    requires { 8 ≤ length bytes.now }
    ensures { result ≡ slot_at bytes.now }
{
    let registers = bytes[1];
    Slot {
        opcode: bytes[0],
        dst: registers % 16,
        src: registers / 16,
        offset: LittleEndian::read_u16(&bytes[2..]),
        imm: LittleEndian::read_u32(&bytes[4..]),
    }
}

// Writes the bytes of a slot after the others. It fails only where an allocation fails.
pub(crate) fn push_slot(bytes: &mut Vec<u8>, slot: Slot) -> Result<(), AllocError>
    requires dst { slot.dst < 16 }
    requires src { slot.src < 16 }
    ensures written { OnOk result (bytes.new.items ≡ bytes.old.items ++ bytes_of_slot slot) }
    ensures unchanged { OnErr result (bytes.new.items ≡ bytes.old.items) }
{
    let mut fields = [0; 8];
    fields[0] = slot.opcode;
    fields[1] = slot.dst + 16 * slot.src;
    LittleEndian::write_u16(&mut fields[2..], slot.offset);
    LittleEndian::write_u32(&mut fields[4..], slot.imm);
    bytes.extend_from_slice(&fields)
}
