//! Which words of the stack a program may use for something of its own.

ghost use Rattle.std.specs.Prelude.{◌≡◌, ◌≤ℤ◌, pos, negsuc, true, false};
ghost use Rattle.ebpf_insn.specs.Program.{insn_at};
ghost use Rattle.ebpf_state.specs.Stack.{bytes_in};
ghost use Rattle.ebpf_link.specs.Apart.{IsApart};
ghost use Rattle.ebpf_link.specs.Words.{IsFree, IsFreeAt};

use ebpf_insn::insn::{Insn, Size};
use ebpf_insn::program::Program;
use ebpf_insn::register::Reg;
use ebpf_state::stack::bytes_in;

/// Whether no load and no store of the program by r10 itself touches the word of the stack that begins that many bytes from r10. One
/// by another register may still touch it: [`crate::right::is_right`] says whether one does.
pub fn is_free(program: &Program, word: i16) -> bool
    ensures free { result ≡ true → IsFree program.now word }
    ensures used { result ≡ false → IsFree program.now word → ⊥ }
{
    for slot in 0..program.slots() {
        if !is_free_at(program, word, slot) {
            return false;
        }
    }
    true
}

// Whether what is at a slot is no load or store by r10 that touches the word.
fn is_free_at(program: &Program, word: i16, slot: usize) -> bool
    ensures free { result ≡ true → IsFreeAt program.now word slot }
    ensures used { result ≡ false → IsFreeAt program.now word slot → ⊥ }
{
    match program.at(slot) {
        Some(
            Insn::Load {
                size,
                base: Reg::R10,
                offset,
                ..
            },
        ) => is_apart(*offset as i64, *size, word),
        Some(
            Insn::Store {
                size,
                base: Reg::R10,
                offset,
                ..
            },
        ) => is_apart(*offset as i64, *size, word),
        _ => true,
    }
}

/// Whether the bytes that are moved at a place of the stack, counted from r10, are all below the word's eight or all above them.
pub(crate) fn is_apart(at: i64, size: Size, word: i16) -> bool
    requires low { negsuc 262143 ≤ℤ at }
    requires high { at ≤ℤ pos 262143 }
    ensures apart { result ≡ true → IsApart at (bytes_in size) word }
    ensures touches { result ≡ false → IsApart at (bytes_in size) word → ⊥ }
{
    at + bytes_in(size) as i64 <= word as i64 || word as i64 + 8 <= at
}
