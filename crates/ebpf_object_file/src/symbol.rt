//! The symbol table, and the functions in it.

ghost use Rattle.std.specs.Prelude.{◌≡◌, ◌≤◌, ◌<◌, ◌+◌, ◌*◌, ◌/◌, length, ℕ};
ghost use Rattle.ebpf_object_file.specs.First.{Finds};
ghost use Rattle.ebpf_object_file.specs.Symbol.{symbol_of as nth_symbol, symbol_or_null, is_in_file, is_of_section, is_function, is_function_named};
ghost use Rattle.ebpf_object_file.specs.Symbol.{function_from};

use crate::field::{u16_at, u32_at, u64_at};
use crate::text::is_named;

/// A symbol (ELF, "Symbol Table").
#[derive(Clone, Copy)]
pub(crate) struct Symbol {
    /// `st_name`: where its name begins in the strings of the symbol table.
    pub name: u32,
    /// `st_info`: its type in the low four bits, its binding in the high four.
    pub info: u8,
    /// `st_shndx`: its section; 0 where the file doesn't define it.
    pub section: u16,
    /// `st_value`: where it begins, in bytes from the section's first.
    pub value: u64,
    /// `st_size`: how many bytes it has.
    pub size: u64,
}

// The symbol of a number.
pub(crate) fn symbol_of(table: &[u8], index: usize) -> Symbol
    requires { index < length table.now / 24 }
    ensures { result ≡ nth_symbol table.now index }
{
    let at = 24 * index;
    Symbol {
        name: u32_at(table, at),
        info: table[at + 4],
        section: u16_at(table, at + 6),
        value: u64_at(table, at + 8),
        size: u64_at(table, at + 16),
    }
}

// The symbol of a number, or the null symbol where the table has none.
pub(crate) fn symbol_or_null(table: &[u8], index: usize) -> Symbol
    ensures { result ≡ symbol_or_null table.now index }
{
    if index < table.len() / 24 {
        return symbol_of(table, index);
    }
    Symbol {
        name: 0,
        info: 0,
        section: 0,
        value: 0,
        size: 0,
    }
}

impl Symbol {
    // Whether it is in a section of a file that has `sections` of them.
    pub(crate) fn is_in_file(&self, sections: u16) -> bool
        ensures { result ≡ is_in_file sections self.now }
    {
        self.section >= 1 && self.section < sections
    }

    // Whether it is the symbol of a section of such a file.
    pub(crate) fn is_of_section(&self, sections: u16) -> bool
        ensures { result ≡ is_of_section sections self.now }
    {
        self.info % 16 == 3 && self.is_in_file(sections)
    }

    // Whether it is a function in a section of such a file.
    pub(crate) fn is_function(&self, sections: u16) -> bool
        ensures { result ≡ is_function sections self.now }
    {
        self.info % 16 == 2 && self.is_in_file(sections)
    }

    // Whether it is a function of that name.
    fn is_function_named(&self, sections: u16, strings: &[u8], name: &[u8]) -> bool
        ensures { result ≡ is_function_named sections strings.now name.now self.now }
    {
        self.is_function(sections) && is_named(strings, self.name as usize, name)
    }
}

// The first function of a name.
pub(crate) fn find_function(
    table: &[u8],
    sections: u16,
    strings: &[u8],
    name: &[u8],
) -> Option<usize>
    ensures { Finds (λ k. is_function_named sections strings.now name.now (nth_symbol table.now k)) (length table.now / 24) result }
{
    for index in 0..table.len() / 24 {
        if symbol_of(table, index).is_function_named(sections, strings, name) {
            return Some(index);
        }
    }
    None
}

// The first function of a number, or after it.
pub(crate) fn next_function(table: &[u8], sections: u16, from: usize) -> Option<usize>
    ensures { Finds (function_from sections table.now from) (length table.now / 24) result }
{
    for index in from..table.len() / 24 {
        if symbol_of(table, index).is_function(sections) {
            return Some(index);
        }
    }
    None
}
