//! Calls of other functions of the file, which no relocation marks where they are in the same section.

ghost use Rattle.std.specs.Prelude.{◌≡◌, ◌≤◌, ◌<◌, ◌+◌, ◌*◌, ◌/◌, length};
ghost use Rattle.ebpf_object_file.specs.First.{Finds};
ghost use Rattle.ebpf_object_file.specs.Symbol.{symbol_of as nth_symbol};
ghost use Rattle.ebpf_object_file.specs.Call.{is_call, called_at, is_called};

use crate::field::u32_at;
use crate::symbol::{Symbol, symbol_of};

// What is added to a place in bytes, so that one before the section's first is no negative number: 8 * 2^31.
const BIAS: u128 = 0x4_0000_0000;

// Whether the slot of a number is a call of a function by its place: opcode 0x85 with source 1, `BPF_PSEUDO_CALL`.
fn is_call(code: &[u8], slot: usize) -> bool
    requires { slot < length code.now / 8 }
    ensures { result ≡ is_call code.now slot }
{
    code[8 * slot] == 0x85 && code[8 * slot + 1] / 16 == 1
}

// The first slot that is a call of a function by its place.
pub(crate) fn find_call(code: &[u8]) -> Option<usize>
    ensures { Finds (is_call code.now) (length code.now / 8) result }
{
    for slot in 0..code.len() / 8 {
        if is_call(code, slot) {
            return Some(slot);
        }
    }
    None
}

// The place that a call leads to, in bytes from the section's first, with the bias.
pub(crate) fn called_at(code: &[u8], from: u64, slot: usize) -> u128
    requires { slot < length code.now / 8 }
    ensures { result ≡ called_at code.now from slot }
{
    let distance = u32_at(code, 8 * slot + 4).wrapping_add(0x8000_0000);
    from as u128 + 8 * (slot as u128 + 1) + 8 * distance as u128
}

impl Symbol {
    // Whether it is a function that begins at such a place of a section.
    fn is_called(&self, sections: u16, section: u16, at: u128) -> bool
        ensures { result ≡ is_called sections section at self.now }
    {
        self.is_function(sections) && self.section == section && self.value as u128 + BIAS == at
    }
}

// The first function that begins at such a place of a section.
pub(crate) fn find_called(table: &[u8], sections: u16, section: u16, at: u128) -> Option<usize>
    ensures { Finds (λ k. is_called sections section at (nth_symbol table.now k)) (length table.now / 24) result }
{
    for index in 0..table.len() / 24 {
        if symbol_of(table, index).is_called(sections, section, at) {
            return Some(index);
        }
    }
    None
}
