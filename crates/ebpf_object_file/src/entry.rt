//! The functions of a file as a list has them.

ghost use Rattle.std.specs.Prelude.{◌≡◌, ◌<◌, ◌/◌, length};
ghost use Rattle.ebpf_object_file.specs.Entries.{IsEntryAt, symbols_in};
ghost use Rattle.ebpf_object_file.specs.File.{AreFunctions};

use crate::functions::{Functions, MOST_NAME, Name};
use crate::section::{bytes_of, section_of};
use crate::symbol::symbol_of;
use crate::text::text_at;

/// What a list says of a function.
#[derive(Clone, Copy)]
pub struct Entry<'a> {
    pub name: Name<'a>,
    /// The name of its section.
    pub section: Name<'a>,
    /// How many slots of eight bytes it has. Whether its bytes are whole slots isn't asked.
    pub slots: u64,
}

impl<'a> Functions<'a> {
    /// How many symbols the table has, of which some are functions.
    pub fn symbol_count(&self) -> usize
        ensures { result ≡ symbols_in self.now }
    {
        self.symbols.len() / 24
    }

    /// The function that is the symbol of a number, if that is one. Names that are longer than 255 bytes are cut.
    pub fn entry(&self, number: usize) -> Option<Entry<'a>>
        requires functions { AreFunctions self.now.file.now self.now }
        requires number { number < symbols_in self.now }
        ensures { IsEntryAt self.now number result }
    {
        let Functions {
            file,
            header,
            symbols,
            strings,
        } = *self;
        let symbol = symbol_of(symbols, number);
        if !symbol.is_function(header.sections) {
            return None;
        }
        let names = bytes_of(file, header, header.names);
        let section = section_of(file, header, symbol.section);
        Some(Entry {
            name: Name {
                bytes: text_at(strings, symbol.name as usize, MOST_NAME),
            },
            section: Name {
                bytes: text_at(names, section.name as usize, MOST_NAME),
            },
            slots: symbol.size / 8,
        })
    }
}
