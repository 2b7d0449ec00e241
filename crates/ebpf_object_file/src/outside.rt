//! What a function's bytes refer to outside of them.

ghost use Rattle.std.specs.Prelude.{◌≡◌, ◌≤◌, ◌<◌, ◌+◌, ◌/◌, length, IfOk, IfErr, MatchOption};
ghost use Rattle.ebpf_object_file.specs.First.{IsFirst};
ghost use Rattle.ebpf_object_file.specs.Header.{header_of};
ghost use Rattle.ebpf_object_file.specs.Section.{sections_in};
ghost use Rattle.ebpf_object_file.specs.Call.{is_call};
ghost use Rattle.ebpf_object_file.specs.File.{IsOpen, AreFunctions};
ghost use Rattle.ebpf_object_file.specs.Outside.{is_maps, target_by, target_of, AreRelocations, IsReachedFirst, HasNone, IsRelocationFault};
ghost use Rattle.ebpf_object_file.specs.Outside.{IsReferred, IsCalling};

use crate::call::{called_at, find_called};
use crate::fault::FileFault;
use crate::functions::{Functions, MOST_NAME, Name};
use crate::header::Header;
use crate::relocation::{Relocation, find_relocation, relocation_of};
use crate::section::{Count, Wanted, bytes_of, count_sections, section_of};
use crate::symbol::{Symbol, symbol_of, symbol_or_null};
use crate::symbol_name::{addend_at, data_of, name_of, size_of};
use crate::text::{is_named, text_at};

/// Where a function is.
#[derive(Clone, Copy)]
pub struct Place {
    /// The number of its section, from 1.
    pub section: u16,
    /// Where it begins, in bytes from the section's first: a multiple of 8.
    pub from: u64,
    /// How many bytes it has: a multiple of 8, and not 0.
    pub size: u64,
}

/// What a symbol is, by the section that it is in. The order is that in which the tests are made, but for the last four.
#[derive(Clone, Copy)]
pub enum Target {
    /// A map, as programs for the kernel define it: in the section `.maps` or `maps`.
    Map,
    /// A function (`SHF_EXECINSTR`).
    Function,
    /// Data that may be written (`SHF_WRITE`): a global or static variable.
    Variable,
    /// A string literal, which compilers put among others (`SHF_STRINGS`).
    StringLiteral,
    /// A constant as large as a number: 1, 2, 4 or 8 bytes.
    Scalar,
    /// Other data that isn't written: a constant table.
    Table,
    /// Data with relocations of its own: a table of addresses. This and the next two are reported only of a function that is taken with
    /// its data.
    Addresses,
    /// Other data whose address can't be loaded: it isn't loaded with a program, the slot isn't a 64-bit immediate, or its offset is more
    /// than 32 bits.
    Unloaded,
    /// Data whose offset in its section isn't certain: global data after the first of its section, from a compiler that writes sums.
    Unplaced,
    /// What the file doesn't define.
    External,
}

/// A slot that needs another part of the file.
#[derive(Clone, Copy)]
pub struct Outside<'a> {
    /// Where the function is that the slot is in.
    pub place: Place,
    /// Where the slot is, in bytes from the section's first.
    pub at: u64,
    /// The slot, from the function's first.
    pub slot: u64,
    pub target: Target,
    /// The symbol's name. Where it is the symbol of a section, as for static data, the name of the data there, or else of the section.
    pub name: Name<'a>,
}

// Whether a section is one of maps.
pub(crate) fn is_maps(file: &[u8], header: Header, index: u16) -> bool
    requires file { IsOpen file.now }
    requires header { header ≡ header_of file.now }
    requires index { index < sections_in file.now }
    ensures { result ≡ is_maps file.now index }
{
    let names = bytes_of(file, header, header.names);
    let name = section_of(file, header, index).name as usize;
    is_named(names, name, b".maps") || is_named(names, name, b"maps")
}

// What data of that many bytes is, by the flags of its section.
fn target_by(flags: u64, size: u64) -> Target
    ensures { result ≡ target_by flags size }
{
    if flags / 4 % 2 == 1 {
        Target::Function
    } else if flags % 2 == 1 {
        Target::Variable
    } else if flags / 32 % 2 == 1 {
        Target::StringLiteral
    } else if size == 1 || size == 2 || size == 4 || size == 8 {
        Target::Scalar
    } else {
        Target::Table
    }
}

// What a symbol is, which means the data of a number, if there is such.
fn target_of(functions: Functions<'_>, symbol: Symbol, meant: Option<usize>) -> Target
    requires functions { AreFunctions functions.file.now functions }
    requires meant { MatchOption meant Unit (λ k. k < length functions.symbols.now / 24) }
    ensures { result ≡ target_of functions.entry.file.now functions.entry.symbols.now symbol meant }
{
    let Functions { file, header, .. } = functions;
    if !symbol.is_in_file(header.sections) {
        return Target::External;
    }
    if is_maps(file, header, symbol.section) {
        return Target::Map;
    }
    let flags = section_of(file, header, symbol.section).flags;
    target_by(flags, size_of(functions.symbols, symbol, meant))
}

// The relocations for a place's section: no bytes where no section has them.
pub(crate) fn relocations_for(file: &[u8], header: Header, place: Place) -> Result<&[u8], FileFault>
    requires file { IsOpen file.now }
    requires header { header ≡ header_of file.now }
    ensures found { IfOk result (λ t. AreRelocations file.now place t.now) }
    ensures refused { IfErr result (λ e. IsRelocationFault file.now place e) }
{
    match count_sections(file, header, Wanted::AddendsFor(place.section)) {
        Count::NoSuch => {}
        Count::One(_) => return Err(FileFault::Addends),
        Count::Several => return Err(FileFault::Addends),
    }
    match count_sections(file, header, Wanted::RelocationsFor(place.section)) {
        Count::NoSuch => Ok(&[]),
        Count::One(table) => Ok(bytes_of(file, header, table)),
        Count::Several => Err(FileFault::RelocationsTwice),
    }
}

// The first relocation that reaches a place, `None` where none does.
pub(crate) fn relocation_in(
    file: &[u8],
    header: Header,
    place: Place,
) -> Result<Option<Relocation>, FileFault>
    requires file { IsOpen file.now }
    requires header { header ≡ header_of file.now }
    ensures found { IfOk result (λ r. MatchOption r (HasNone file.now place) (λ r. IsReachedFirst file.now place r)) }
    ensures refused { IfErr result (λ e. IsRelocationFault file.now place e) }
{
    let relocations = match relocations_for(file, header, place) {
        Ok(relocations) => relocations,
        Err(fault) => return Err(fault),
    };
    match find_relocation(relocations, place.from, place.size) {
        None => Ok(None),
        Some(number) => Ok(Some(relocation_of(relocations, number))),
    }
}

// What a relocation refers to, for a function at a place. What its symbol is can be known already.
pub(crate) fn referred<'a>(
    functions: Functions<'a>,
    place: Place,
    relocation: Relocation,
    known: Option<Target>,
) -> Outside<'a>
    requires functions { AreFunctions functions.file.now functions }
    requires section { place.section < sections_in functions.file.now }
    ensures { IsReferred functions.entry.file.now functions.entry.symbols.now functions.entry.strings.now place relocation known result }
{
    let Functions { file, header, .. } = functions;
    let symbol = symbol_or_null(functions.symbols, relocation.symbol as usize);
    let addend = addend_at(bytes_of(file, header, place.section), relocation.offset);
    let meant = data_of(functions, symbol, addend);
    Outside {
        place,
        at: relocation.offset,
        slot: relocation.offset.saturating_sub(place.from) / 8,
        target: known.unwrap_or(target_of(functions, symbol, meant)),
        name: Name {
            bytes: name_of(functions, symbol, meant),
        },
    }
}

// What a call by its place refers to.
pub(crate) fn calling<'a>(
    functions: Functions<'a>,
    place: Place,
    code: &[u8],
    slot: usize,
) -> Outside<'a>
    requires functions { AreFunctions functions.file.now functions }
    requires slot { IsFirst (is_call code.now) (length code.now / 8) slot }
    requires inside { place.from + length code.now ≤ length functions.file.now }
    ensures { IsCalling functions.entry.symbols.now functions.entry.strings.now functions.entry.header.sections place code.now result }
{
    let at = called_at(code, place.from, slot);
    let called = find_called(
        functions.symbols,
        functions.header.sections,
        place.section,
        at,
    );
    let bytes: &[u8] = match called {
        None => &[],
        Some(number) => {
            let name = symbol_of(functions.symbols, number).name;
            text_at(functions.strings, name as usize, MOST_NAME)
        }
    };
    Outside {
        place,
        at: place.from + 8 * slot as u64,
        slot: slot as u64,
        target: Target::Function,
        name: Name { bytes },
    }
}
