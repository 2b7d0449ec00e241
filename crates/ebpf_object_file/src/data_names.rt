//! The names of the data that a function reads.
//!
//! The data is whole sections. A compiler often gives a table a section of its own, such as `.rodata.cst16`, or `.rodata.NAME` with
//! `-fdata-sections`. The table's name then says more than the section's. One pass over the symbols finds all such tables.

ghost use Rattle.std.specs.Prelude.{◌≡◌, ◌<◌, IfOk};
ghost use Rattle.ebpf_object_file.specs.Header.{header_of};
ghost use Rattle.ebpf_object_file.specs.Section.{sections_in};
ghost use Rattle.ebpf_object_file.specs.File.{AreFunctions, IsOpen};
ghost use Rattle.ebpf_object_file.specs.DataNames.{AreNames, AreWhole, data_name, is_whole};

use crate::data_function::DataFunction;
use crate::data_parts::Part;
use crate::functions::{Functions, MOST_NAME, Name};
use crate::header::Header;
use crate::section::bytes_of;
use crate::symbol::{Symbol, symbol_of};
use crate::text::text_at;
use std::alloc::{AllocError, Global};

/// What a file says of the names of its data.
#[derive(Drop)]
pub struct DataNames<'a> {
    functions: Functions<'a>,
    // Of each section the number of the last symbol that has all of its bytes.
    whole: Vec<Option<usize>>,
}

impl Symbol {
    // Whether it is data that has all bytes of its section.
    fn is_whole(&self, file: &[u8], header: Header) -> bool
        requires file { IsOpen file.now }
        requires header { header ≡ header_of file.now }
        ensures { result ≡ is_whole file.now self.now }
    {
        self.info % 16 == 1
            && self.is_in_file(header.sections)
            && self.value == 0
            && self.size == bytes_of(file, header, self.section).len() as u64
    }
}

// Of each section the last symbol that has all of its bytes: one pass over the symbols.
fn whole_symbols(alloc: Global, functions: Functions<'_>) -> Result<Vec<Option<usize>>, AllocError>
    requires { AreFunctions functions.file.now functions }
    ensures { IfOk result (λ w. AreWhole functions.entry.file.now functions.entry.symbols.now w.items) }
{
    let Functions {
        file,
        header,
        symbols,
        ..
    } = functions;
    let mut whole: Vec<Option<usize>> = vec![in alloc; None; header.sections as usize]?;
    for number in 0..symbols.len() / 24 {
        let symbol = symbol_of(symbols, number);
        if symbol.is_whole(file, header) {
            whole[symbol.section as usize] = Some(number);
        }
    }
    Ok(whole)
}

impl<'a> DataFunction<'a> {
    /// The names of the data that the function uses. The time is linear in the symbols and the sections. It fails only if an allocation fails.
    pub fn names(&self, alloc: Global) -> Result<DataNames<'a>, AllocError>
        requires { AreFunctions self.now.functions.file.now self.now.functions }
        ensures names { IfOk result (λ n. AreNames n) }
        ensures same { IfOk result (λ n. n.functions ≡ self.now.functions) }
    {
        let functions = self.functions;
        Ok(DataNames {
            functions,
            whole: whole_symbols(alloc, functions)?,
        })
    }
}

impl<'a> DataNames<'a> {
    /// The name of a part: that of the symbol of data that has all of its bytes, the last one if there are several, or else that of
    /// the section. At most 255 bytes of it are given.
    pub fn name(&self, part: Part) -> Name<'a>
        requires names { AreNames self.now }
        requires section { part.section < sections_in self.now.functions.file.now }
        ensures { result.bytes.now ≡ data_name self.now.functions part.section }
    {
        let Functions {
            file,
            symbols,
            strings,
            ..
        } = self.functions;
        match self.whole[part.section as usize] {
            None => part.name(file),
            Some(number) => {
                let at = symbol_of(symbols, number).name as usize;
                Name {
                    bytes: text_at(strings, at, MOST_NAME),
                }
            }
        }
    }
}
