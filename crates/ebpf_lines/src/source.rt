//! An object file, and the lines of C of a program that has the bytes of one of its functions.

ghost use Rattle.std.specs.Prelude.{◌≡◌, ◌⊎◌, length, IfOk, IfErr, MatchOption};
ghost use Rattle.ebpf_object_file.specs.File.{IsOpenFault, IsTableFault};
ghost use Rattle.ebpf_object_file.specs.Shown.{AreHolding};
ghost use Rattle.ebpf_lines.specs.Sources.{AreLinesAt, HasNoLinesAt, IsObjectFile, IsSourceOf};

use ebpf_object_file::coded::Coded;
use ebpf_object_file::fault::FileFault;
use ebpf_object_file::functions::{Functions, Name, functions_of};
use ebpf_object_file::lines::{Line, Lines};
use ebpf_object_file::source::lines_of;
use std::alloc::{AllocError, Global};

/// An object file, and its functions.
#[derive(Clone, Copy)]
pub struct ObjectFile<'a> {
    pub(crate) file: &'a [u8],
    pub(crate) functions: Functions<'a>,
}

/// The lines of C of a program.
#[derive(Drop)]
pub struct Source<'a> {
    pub(crate) function: Name<'a>,
    pub(crate) lines: Lines<'a>,
    // The line that holds at each slot.
    pub(crate) holding: Vec<Option<Line>>,
}

impl<'a> ObjectFile<'a> {
    /// An object file by its bytes.
    ///
    /// # Errors
    /// The first fault of the file's header, sections and symbol table.
    pub fn read(file: &'a [u8]) -> Result<ObjectFile<'a>, FileFault>
        ensures found { IfOk result (IsObjectFile file.now) }
        ensures refused { IfErr result (λ e. IsOpenFault file.now e ⊎ IsTableFault file.now e) }
    {
        match functions_of(file) {
            Ok(functions) => Ok(ObjectFile { file, functions }),
            Err(fault) => Err(fault),
        }
    }

    /// The lines of a program of these bytes: those of the first function that has them. There are none if no function does, and if the file
    /// has no lines of it that can be read. It fails only if an allocation fails.
    pub fn source_of(&self, alloc: Global, code: &[u8]) -> Result<Option<Source<'a>>, AllocError>
        requires { IsObjectFile self.now.file.now self.now }
        ensures { IfOk result (IsSourceOf self.now code.now) }
    {
        match self.functions.with_code(code) {
            Some(coded) => lines_at(alloc, self.file, code.len() / 8, coded),
            None => Ok(None),
        }
    }
}

// The lines of that many slots of a function of a file.
fn lines_at<'a>(
    alloc: Global,
    file: &'a [u8],
    slots: usize,
    coded: Coded<'a>,
) -> Result<Option<Source<'a>>, AllocError>
    ensures { IfOk result (λ r. MatchOption r (HasNoLinesAt file.now coded.entry.place)
        (λ s. (s.function.bytes.now ≡ coded.entry.name.bytes.now) × AreLinesAt file.now slots coded.entry.place s)) }
{
    match lines_of(file, coded.place.section) {
        Ok(Some(lines)) => {
            let holding = held_lines(alloc, lines, coded.place.from, slots)?;
            Ok(Some(Source {
                function: coded.name,
                lines,
                holding,
            }))
        }
        Ok(None) => Ok(None),
        Err(_) => Ok(None),
    }
}

// The line that holds at each of that many slots of a function that begins at a byte of its section.
fn held_lines(
    alloc: Global,
    lines: Lines<'_>,
    from: u64,
    slots: usize,
) -> Result<Vec<Option<Line>>, AllocError>
    ensures whole { IfOk result (λ holding. length holding.items ≡ slots) }
    ensures held { IfOk result (λ holding. AreHolding lines.entry from holding.items) }
{
    let mut holding: Vec<Option<Line>> = vec![in alloc; None; slots]?;
    lines.at_slots(from, &mut holding);
    Ok(holding)
}
