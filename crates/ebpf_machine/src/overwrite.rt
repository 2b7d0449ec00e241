//! Stores to objects (RFC 9669, section 5.1).

ghost use Rattle.std.specs.Prelude.{◌≡◌, ◌+◌, ℕ};
ghost use Rattle.byteorder.specs.Endian.{little_bytes};
ghost use Rattle.ebpf_machine.specs.declared.fixed.Fixed.{Fixed};
ghost use Rattle.ebpf_machine.specs.Burst.{IsWriting, IsOverwritten};

use crate::holding::place_of;
use crate::memory::byte_place;
use crate::number::low_bytes;
use crate::objects::Objects;
use crate::parts::Parts;
use ebpf_insn::insn::Size;
use ebpf_state::stack::bytes_in;

/// Low bytes of a number, which are to be written to an object.
#[derive(Clone, Copy)]
pub(crate) struct Written {
    /// The slot of the call that was granted the object.
    pub(crate) call: u16,
    /// Where the pointer is, counted from the first byte of the object.
    pub(crate) from: i64,
    /// Where the bytes are, counted from the pointer.
    pub(crate) offset: i16,
    pub(crate) size: Size,
    pub(crate) number: u64,
}

/// Does a store to an object. The run's pc and its count are left.
#[inline(always)]
pub(crate) fn overwrite<O: Objects>(parts: &mut Parts<O::Held>, write: Written, objects: &mut O)
    requires { (fixed : Fixed) × (pc : ℕ) × (done : ℕ) × IsWriting O.store fixed write pc done parts.old objects.old }
    ensures { IsOverwritten O.store write parts.old parts.new objects.old objects.new }
{
    let bytes = low_bytes(write.number);
    let at = byte_place(write.from, write.offset);
    let place = place_of(&parts.held, write.call);
    objects.write(
        &mut parts.held[place].object,
        at,
        &bytes[..bytes_in(write.size)],
    );
}
