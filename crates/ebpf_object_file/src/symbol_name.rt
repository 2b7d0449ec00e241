//! The name of what a relocation refers to.

ghost use Rattle.std.specs.Prelude.{◌≡◌, ◌<◌, ◌/◌, length, MatchOption};
ghost use Rattle.ebpf_object_file.specs.First.{Finds};
ghost use Rattle.ebpf_object_file.specs.Symbol.{symbol_of as nth_symbol};
ghost use Rattle.ebpf_object_file.specs.File.{AreFunctions};
ghost use Rattle.ebpf_object_file.specs.Naming.{addend_at, is_data_at, name_of, size_of, IsDataOf};

use crate::field::{is_inside, u32_at};
use crate::functions::{Functions, MOST_NAME};
use crate::section::{bytes_of, section_of};
use crate::symbol::{Symbol, symbol_of};
use crate::text::text_at;

// The immediate of the slot at a place of a section, 0 where there is no slot.
pub(crate) fn addend_at(bytes: &[u8], offset: u64) -> u32
    ensures { result ≡ addend_at bytes.now offset }
{
    if !is_inside(bytes, offset, 8) {
        return 0;
    }
    u32_at(bytes, offset as usize + 4)
}

impl Symbol {
    // Whether it is data of a section that has the byte of a number.
    fn is_data_at(&self, section: u16, at: u32) -> bool
        ensures { result ≡ is_data_at section at self.now }
    {
        self.info % 16 == 1
            && self.section == section
            && self.value <= at as u64
            && at as u64 - self.value < self.size
    }
}

// The first symbol of data that has the byte of a number of a section.
fn find_data(table: &[u8], section: u16, at: u32) -> Option<usize>
    ensures { Finds (λ k. is_data_at section at (nth_symbol table.now k)) (length table.now / 24) result }
{
    for index in 0..table.len() / 24 {
        if symbol_of(table, index).is_data_at(section, at) {
            return Some(index);
        }
    }
    None
}

// The number of the data that a symbol means: of the symbol of a section, the first data there at the addend.
pub(crate) fn data_of(functions: Functions<'_>, symbol: Symbol, addend: u32) -> Option<usize>
    requires functions { AreFunctions functions.file.now functions }
    ensures { IsDataOf functions.entry.file.now functions.entry.symbols.now symbol addend result }
{
    if !symbol.is_of_section(functions.header.sections) {
        return None;
    }
    find_data(functions.symbols, symbol.section, addend)
}

// How many bytes that data has, or else the symbol.
pub(crate) fn size_of(table: &[u8], symbol: Symbol, meant: Option<usize>) -> u64
    requires { MatchOption meant Unit (λ k. k < length table.now / 24) }
    ensures { result ≡ size_of table.now symbol meant }
{
    match meant {
        None => symbol.size,
        Some(number) => symbol_of(table, number).size,
    }
}

// The name of that data, or else of the symbol.
pub(crate) fn name_of<'a>(
    functions: Functions<'a>,
    symbol: Symbol,
    meant: Option<usize>,
) -> &'a [u8]
    requires functions { AreFunctions functions.file.now functions }
    requires meant { MatchOption meant Unit (λ k. k < length functions.symbols.now / 24) }
    ensures { result.now ≡ name_of functions.entry.file.now functions.entry.symbols.now functions.entry.strings.now symbol meant }
{
    let Functions {
        file,
        header,
        symbols,
        strings,
    } = functions;
    if let Some(number) = meant {
        return text_at(strings, symbol_of(symbols, number).name as usize, MOST_NAME);
    }
    if !symbol.is_of_section(header.sections) {
        return text_at(strings, symbol.name as usize, MOST_NAME);
    }
    let names = bytes_of(file, header, header.names);
    let section = section_of(file, header, symbol.section);
    text_at(names, section.name as usize, MOST_NAME)
}
