//! Relocations: where an address is to be written once it is known.

ghost use Rattle.std.specs.Prelude.{◌≡◌, ◌≤◌, ◌<◌, ◌+◌, ◌*◌, ◌/◌, length, ℕ};
ghost use Rattle.ebpf_object_file.specs.First.{Finds};
ghost use Rattle.ebpf_object_file.specs.Relocation.{relocation_of as nth_relocation, room, reaches};

use crate::field::{u32_at, u64_at};

/// A relocation without an addend (ELF, "Relocation").
#[derive(Clone, Copy)]
pub(crate) struct Relocation {
    /// `r_offset`: where it is, in bytes from the first of the section that it is for.
    pub offset: u64,
    /// The low half of `r_info`: its type.
    pub kind: u32,
    /// The high half of `r_info`: its symbol's number.
    pub symbol: u32,
}

// The relocation of a number.
pub(crate) fn relocation_of(table: &[u8], index: usize) -> Relocation
    requires { index < length table.now / 16 }
    ensures { result ≡ nth_relocation table.now index }
{
    let at = 16 * index;
    Relocation {
        offset: u64_at(table, at),
        kind: u32_at(table, at + 8),
        symbol: u32_at(table, at + 12),
    }
}

impl Relocation {
    // How many bytes it may write, from its place on: both slots of a 64-bit immediate, else one.
    fn room(&self) -> u64
        ensures { result ≡ room self.now }
    {
        if self.kind == 1 { 16 } else { 8 }
    }

    // Whether it may write one of `size` bytes from an offset on.
    pub(crate) fn reaches(&self, from: u64, size: u64) -> bool
        ensures { result ≡ reaches from size self.now }
    {
        if self.offset < from {
            from - self.offset < self.room()
        } else {
            self.offset - from < size
        }
    }
}

// The first relocation of a table that may write one of `size` bytes from an offset on.
pub(crate) fn find_relocation(table: &[u8], from: u64, size: u64) -> Option<usize>
    ensures { Finds (λ k. reaches from size (nth_relocation table.now k)) (length table.now / 16) result }
{
    for index in 0..table.len() / 16 {
        if relocation_of(table, index).reaches(from, size) {
            return Some(index);
        }
    }
    None
}
