//! The function of a file that has given bytes.

ghost use Rattle.std.specs.Prelude.{◌≡◌, ◌<◌, ◌/◌, length, MatchOption};
ghost use Rattle.ebpf_object_file.specs.Coded.{has_code, place_of};
ghost use Rattle.ebpf_object_file.specs.File.{AreFunctions, name_limit};
ghost use Rattle.ebpf_object_file.specs.First.{IsFirst, NoneBelow};
ghost use Rattle.ebpf_object_file.specs.Symbol.{symbol_of as nth_symbol};
ghost use Rattle.ebpf_object_file.specs.Text.{text_at};

use crate::function::read_function;
use crate::functions::{Functions, MOST_NAME, Name};
use crate::outside::Place;
use crate::symbol::symbol_of;
use crate::text::text_at;

/// A function that was found by its bytes.
#[derive(Clone, Copy)]
pub struct Coded<'a> {
    /// Its number in the symbol table.
    pub number: usize,
    pub name: Name<'a>,
    pub place: Place,
}

impl<'a> Functions<'a> {
    /// The first function that has exactly these bytes, in the order of the symbol table. Whether it is a program by itself isn't asked.
    pub fn with_code(&self, code: &[u8]) -> Option<Coded<'a>>
        requires { AreFunctions self.now.file.now self.now }
        ensures { MatchOption result (NoneBelow (has_code self.now code.now) (length self.now.symbols.now / 24))
            (λ c. IsFirst (has_code self.now code.now) (length self.now.symbols.now / 24) c.number
            × (c.place ≡ place_of (nth_symbol self.now.symbols.now c.number))
            × (c.name.bytes.now ≡ text_at self.now.strings.now (nth_symbol self.now.symbols.now c.number).name name_limit)) }
    {
        for number in 0..self.symbols.len() / 24 {
            if self.has_code(number, code) {
                return Some(self.coded(number));
            }
        }
        None
    }

    // Whether the symbol of a number is a function that has these bytes.
    fn has_code(&self, number: usize, code: &[u8]) -> bool
        requires functions { AreFunctions self.now.file.now self.now }
        requires number { number < length self.now.symbols.now / 24 }
        ensures { result ≡ has_code self.now code.now number }
    {
        if !symbol_of(self.symbols, number).is_function(self.header.sections) {
            return false;
        }
        match read_function(self.file, self.header, self.symbols, number) {
            Ok(function) => function.code == code,
            Err(_) => false,
        }
    }

    // The name and the place of the symbol of a number.
    fn coded(&self, number: usize) -> Coded<'a>
        requires { number < length self.now.symbols.now / 24 }
        ensures number { result.number ≡ number }
        ensures place { result.place ≡ place_of (nth_symbol self.now.symbols.now number) }
        ensures name { result.name.bytes.now ≡ text_at self.now.strings.now (nth_symbol self.now.symbols.now number).name name_limit }
    {
        let symbol = symbol_of(self.symbols, number);
        let name = Name {
            bytes: text_at(self.strings, symbol.name as usize, MOST_NAME),
        };
        Coded {
            number,
            name,
            place: Place {
                section: symbol.section,
                from: symbol.value,
                size: symbol.size,
            },
        }
    }
}
