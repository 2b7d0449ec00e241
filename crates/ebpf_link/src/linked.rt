//! A program that was linked with its data.

ghost use Rattle.std.specs.Prelude.{◌≡◌};

use ebpf_insn::program::Program;

/// A program that was linked with its data.
#[derive(Drop)]
pub struct Linked {
    /// The linked program.
    pub program: Program,
    /// Where the word of the stack begins that has the context's pointer, in bytes from r10: -512 to -8, a multiple of 8.
    pub word: i16,
}
