//! The functions that a file has.

ghost use Rattle.std.specs.Prelude.{◌≡◌, ◌≤◌, ◌<◌, ◌+◌, ◌/◌, ◌⊎◌, length, IfOk, IfErr, MatchOption};
ghost use Rattle.ebpf_object_file.specs.Sentences.{shown_byte};
ghost use Rattle.ebpf_object_file.specs.First.{IsFirst, NoneBelow};
ghost use Rattle.ebpf_object_file.specs.Header.{header_of};
ghost use Rattle.ebpf_object_file.specs.Section.{sections_in};
ghost use Rattle.ebpf_object_file.specs.Symbol.{symbol_of as nth_symbol, function_from};
ghost use Rattle.ebpf_object_file.specs.Text.{text_at};
ghost use Rattle.ebpf_object_file.specs.File.{IsOpen, IsTable, IsOpenFault, IsTableFault, AreFunctions, name_limit};

use crate::fault::FileFault;
use crate::header::{Header, read_header};
use crate::section::{Count, Wanted, bytes_of, count_sections, first_outside, section_of};
use crate::symbol::{next_function, symbol_of};
use crate::text::text_at;
use std::fmt;

// The most bytes of a name.
pub(crate) const MOST_NAME: usize = 255;

// How many names a sentence lists at most.
const MOST_NAMES: usize = 16;

/// The functions of a file: the symbols of type `STT_FUNC` that are in one of its sections.
#[derive(Clone, Copy)]
pub struct Functions<'a> {
    pub(crate) file: &'a [u8],
    pub(crate) header: Header,
    pub(crate) symbols: &'a [u8],
    pub(crate) strings: &'a [u8],
}

/// A name as a file has it: any bytes, 255 at most.
#[derive(Clone, Copy)]
pub struct Name<'a> {
    pub bytes: &'a [u8],
}

/// A function of the symbol table.
#[derive(Clone, Copy)]
pub struct Named<'a> {
    /// Its number in the table, from 0, which the null symbol has.
    pub number: usize,
    pub name: Name<'a>,
}

// The header of a file whose sections are in it.
pub(crate) fn open(file: &[u8]) -> Result<Header, FileFault>
    ensures found { IfOk result (λ h. IsOpen file.now × (h ≡ header_of file.now)) }
    ensures refused { IfErr result (λ e. IsOpenFault file.now e) }
{
    let header = match read_header(file) {
        Ok(header) => header,
        Err(fault) => return Err(fault),
    };
    match first_outside(file, header) {
        None => Ok(header),
        Some(_) => Err(FileFault::ContentsOutside),
    }
}

// The number of the only symbol table.
fn symbol_table(file: &[u8], header: Header) -> Result<u16, FileFault>
    requires file { IsOpen file.now }
    requires header { header ≡ header_of file.now }
    ensures found { IfOk result (λ i. IsTable file.now i) }
    ensures refused { IfErr result (λ e. IsTableFault file.now e) }
{
    let table = match count_sections(file, header, Wanted::Symbols) {
        Count::One(table) => table,
        Count::NoSuch => return Err(FileFault::NoSymbols),
        Count::Several => return Err(FileFault::SymbolsTwice),
    };
    if section_of(file, header, table).link >= header.sections as u32 {
        return Err(FileFault::NoStrings);
    }
    Ok(table)
}

/// The functions of a file.
///
/// # Errors
/// The first fault of the file's header, sections and symbol table, in the order of [`FileFault`].
pub fn functions_of(file: &[u8]) -> Result<Functions<'_>, FileFault>
    ensures found { IfOk result (λ f. AreFunctions file.now f) }
    ensures refused { IfErr result (λ e. IsOpenFault file.now e ⊎ IsTableFault file.now e) }
{
    let header = match open(file) {
        Ok(header) => header,
        Err(fault) => return Err(fault),
    };
    let table = match symbol_table(file, header) {
        Ok(table) => table,
        Err(fault) => return Err(fault),
    };
    let link = section_of(file, header, table).link as u16;
    Ok(Functions {
        file,
        header,
        symbols: bytes_of(file, header, table),
        strings: bytes_of(file, header, link),
    })
}

impl<'a> Functions<'a> {
    /// The first function at a number of the symbol table or after it, in the order of the table. A name that is longer than
    /// 255 bytes is cut.
    pub fn next(&self, from: usize) -> Option<Named<'a>>
        ensures { MatchOption result
            (NoneBelow (function_from self.now.header.sections self.now.symbols.now from) (length self.now.symbols.now / 24))
            (λ n. IsFirst (function_from self.now.header.sections self.now.symbols.now from) (length self.now.symbols.now / 24) n.number
            × (n.name.bytes.now ≡ text_at self.now.strings.now (nth_symbol self.now.symbols.now n.number).name name_limit)) }
    {
        match next_function(self.symbols, self.header.sections, from) {
            None => None,
            Some(number) => {
                let name = symbol_of(self.symbols, number).name;
                Some(Named {
                    number,
                    name: Name {
                        bytes: text_at(self.strings, name as usize, MOST_NAME),
                    },
                })
            }
        }
    }
}

/// A name with a `?` for each byte that is no visible character.
impl fmt::Display for Name<'_> {
    ghost use Rattle.std.specs.Prelude.{Some};
    ghost use Rattle.ebpf_object_file.specs.Sentences.{shown_name};

    ghost output = { λ name. Some (shown_name name.bytes.now) };

    fn fmt<W: fmt::Write>(&self, f: &mut fmt::Formatter<W>) -> fmt::Result {
        if self.bytes.is_empty() {
            return f.write_str("(no name)");
        }
        for byte in self.bytes {
            f.write_char(shown_byte(*byte) as char)?;
        }
        Ok(())
    }
}

// The byte, where it is a visible character.
fn shown_byte(byte: u8) -> u8
    ensures shown { result ≡ shown_byte byte }
    ensures ascii { result < 128 }
{
    if byte.is_ascii_graphic() { byte } else { b'?' }
}

// A function's name after those of `count` others.
#[derive(Clone, Copy)]
struct Listed<'a> {
    count: usize,
    name: Name<'a>,
}

impl fmt::Display for Listed<'_> {
    ghost use Rattle.std.specs.Prelude.{Some};
    ghost use Rattle.ebpf_object_file.specs.Sentences.{name_after};

    ghost output = { λ l. Some (name_after l.count l.name.bytes.now) };

    fn fmt<W: fmt::Write>(&self, f: &mut fmt::Formatter<W>) -> fmt::Result {
        let name = self.name;
        if self.count == 0 {
            write!(f, "{name}")
        } else if self.count < MOST_NAMES {
            write!(f, ", {name}")
        } else if self.count == MOST_NAMES {
            f.write_str(", ..")
        } else {
            Ok(())
        }
    }
}

/// The names, 16 at most: where there are more, `..` is after them. Where there is no function, `none`.
impl fmt::Display for Functions<'_> {
    ghost use Rattle.std.specs.Prelude.{Some};
    ghost use Rattle.ebpf_object_file.specs.Sentences.{names_of};

    ghost output = { λ f. Some (names_of f) };

    fn fmt<W: fmt::Write>(&self, f: &mut fmt::Formatter<W>) -> fmt::Result {
        let mut count = 0;
        for number in 0..self.symbols.len() / 24 {
            let symbol = symbol_of(self.symbols, number);
            if symbol.is_function(self.header.sections) {
                let bytes = text_at(self.strings, symbol.name as usize, MOST_NAME);
                let name = Name { bytes };
                let listed = Listed { count, name };
                write!(f, "{listed}")?;
                count += 1;
            }
        }
        if count == 0 {
            return f.write_str("none");
        }
        Ok(())
    }
}
