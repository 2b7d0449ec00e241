//! What is asked of a command over one program.

use crate::form::Form;
use ebpf_command::format::Format;

/// What an input is.
#[derive(Clone, Copy)]
pub enum Input<'a> {
    /// The bytes of a program, in this form.
    Program(Form),
    /// An object file, of which the function of this name is taken, or its only one if the name is empty.
    Object(&'a str),
}

/// What is asked of a command that judges a program.
#[derive(Clone, Copy)]
pub struct Ask<'a> {
    /// What the input is.
    pub input: Input<'a>,
    /// How the answer is written.
    pub format: Format,
    /// The context as hex, or `-` for the empty one. The program is verified for a context of its length.
    pub context: &'a str,
    /// The most objects that the program may hold at one time, 0 to 64.
    pub held: u8,
}
