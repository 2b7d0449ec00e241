//! Why a file has no program of the name that was asked for, in a sentence.

ghost use Rattle.std.specs.Prelude.{◌≡◌};
ghost use Rattle.ebpf_object_file.specs.Sentences.{object_code, verb, mending};

use crate::fault::FileFault;
use crate::functions::Functions;
use crate::outside::{Outside, Target};
use std::fmt;

/// Why a function of a file is no program by itself, or why there is no such function.
#[derive(Clone, Copy)]
pub enum ObjectFault<'a> {
    /// The file can't be read, or the function isn't in it as it must be.
    File(FileFault),
    /// No function has the name. The sentence lists those that there are.
    NoFunction(Functions<'a>),
    /// No name was given, and there are more functions than one.
    SeveralFunctions(Functions<'a>),
    /// The function needs another part of the file.
    Outside(Outside<'a>),
}

impl ObjectFault<'_> {
    /// The code of the fault, as a command or a host reports it.
    pub fn code(self) -> &'static str
        ensures { result.now ≡ object_code self.entry }
    {
        match self {
            ObjectFault::File(_) => "O1",
            ObjectFault::NoFunction(_) => "O2",
            ObjectFault::SeveralFunctions(_) => "O3",
            ObjectFault::Outside(_) => "O4",
        }
    }
}

impl fmt::Display for ObjectFault<'_> {
    ghost use Rattle.std.specs.Prelude.{Some};
    ghost use Rattle.ebpf_object_file.specs.Sentences.{object_sentence};

    ghost output = { λ fault. Some (object_sentence fault) };

    fn fmt<W: fmt::Write>(&self, f: &mut fmt::Formatter<W>) -> fmt::Result {
        match self {
            ObjectFault::File(fault) => write!(f, "{fault}"),
            ObjectFault::NoFunction(functions) => {
                write!(
                    f,
                    "the file has no function of that name; it has {functions}"
                )
            }
            ObjectFault::SeveralFunctions(functions) => {
                write!(
                    f,
                    "the file has more than one function: name one of {functions}"
                )
            }
            ObjectFault::Outside(outside) => write!(f, "{outside}"),
        }
    }
}

// What the slot does with the symbol.
fn verb(target: Target) -> &'static str
    ensures { result.now ≡ verb target }
{
    match target {
        Target::Function => "calls",
        _ => "uses",
    }
}

// What the symbol is, and what mends it.
fn mending(target: Target) -> &'static str
    ensures { result.now ≡ mending target }
{
    match target {
        Target::Map => "a map: pass what it has in the context, or keep an object on a shelf",
        Target::Function => {
            "a function of the file: make it static inline, and compile with -O2"
        }
        Target::Variable =>
            "a variable outside the function: pass it in the context; if it is constant, declare it const and leave volatile out",
        Target::StringLiteral => {
            "a string: compare byte by byte, as starts_with of ebpf_program.h does"
        }
        Target::Scalar =>
            "a constant of the size of a number: make it a macro or an enum, or pack a table of that size into a number",
        Target::Table =>
            "a table outside the function: pass it in the context, or pack it into a number",
        Target::Addresses => {
            "a table of addresses: keep numbers in it, such as offsets, or use a switch"
        }
        Target::Unplaced =>
            "whose place in the file is not certain: make the table static, or compile with -fdata-sections",
        Target::Unloaded => {
            "which is not read-only data that can be loaded: pass it in the context"
        }
        Target::External => {
            "which is not in the file: define it as static inline, and compile with -O2"
        }
    }
}

/// The slot, the symbol, and what mends it.
impl fmt::Display for Outside<'_> {
    ghost use Rattle.std.specs.Prelude.{Some};
    ghost use Rattle.ebpf_object_file.specs.Sentences.{outside_sentence};

    ghost output = { λ outside. Some (outside_sentence outside) };

    fn fmt<W: fmt::Write>(&self, f: &mut fmt::Formatter<W>) -> fmt::Result {
        let slot = self.slot;
        let name = self.name;
        let verb = verb(self.target);
        let mending = mending(self.target);
        write!(f, "slot {slot} {verb} {name}, {mending}")
    }
}
