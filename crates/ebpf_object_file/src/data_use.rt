//! The read-only data whose address a slot loads, as a relocation names it.

ghost use Rattle.std.specs.Prelude.{◌≡◌, ◌<◌, ◌+◌, ◌/◌, length, None, Some, MatchResult};
ghost use Rattle.ebpf_object_file.specs.Section.{sections_in};
ghost use Rattle.ebpf_object_file.specs.Data.{section_fault, is_wide, wide_immediate, meant_offset, offset_fault, data_fault, use_of};
ghost use Rattle.ebpf_object_file.specs.Data.{offset_at, load_fault};
ghost use Rattle.ebpf_object_file.specs.Reading.{IsReading};

use crate::field::u32_at;
use crate::function::Function;
use crate::functions::Functions;
use crate::outside::{Target, is_maps};
use crate::relocation::Relocation;
use crate::section::section_of;
use crate::symbol::{Symbol, symbol_or_null};

/// Read-only data whose address a slot loads.
#[derive(Clone, Copy)]
pub struct DataUse {
    /// The number of its section, from 1.
    pub section: u16,
    /// In bytes from the section's first. It can be outside of the section, since compilers write `(table - 4)[i]`.
    pub offset: i32,
}

/// What is known of a file and of a function before its relocations are read.
#[derive(Clone, Copy)]
pub(crate) struct Reading<'a, 'm> {
    pub functions: Functions<'a>,
    pub function: Function<'a>,
    /// Of each section, whether it has relocations of its own.
    pub marks: &'m [bool],
    /// Whether the file is gcc's.
    pub comment: bool,
}

// Whether a relocation is for the 64-bit immediate of an instruction of a function.
fn is_wide(function: Function<'_>, relocation: Relocation) -> bool
    ensures { result ≡ is_wide function.entry relocation }
{
    let from = function.place.from;
    if relocation.kind != 1 || relocation.offset < from || (relocation.offset - from) % 8 != 0 {
        return false;
    }
    let slot = (relocation.offset - from) as usize / 8;
    slot + 1 < function.code.len() / 8 && function.code[8 * slot] == 0x18
}

// The 64-bit immediate of a slot and the next one.
fn wide_immediate(code: &[u8], slot: usize) -> u64
    requires { slot + 1 < length code.now / 8 }
    ensures { result ≡ wide_immediate code.now slot }
{
    let low = u32_at(code, 8 * slot + 4) as u64;
    low + 0x1_0000_0000 * u32_at(code, 8 * slot + 12) as u64
}

// A number as an offset, where it fits one.
fn near(offset: i64) -> Result<i32, Target>
    ensures { MatchResult result (λ o. (offset_fault (Some offset) ≡ None) × (o ≡ offset)) (λ t. offset_fault (Some offset) ≡ Some t) }
{
    match i32::try_from(offset) {
        Ok(offset) => Ok(offset),
        Err(_) => Err(Target::Unloaded),
    }
}

// The offset that a symbol and an immediate mean, in a file with that many sections that is gcc's or isn't.
fn meant_offset(sections: u16, comment: bool, symbol: Symbol, immediate: u64) -> Result<i32, Target>
    ensures { MatchResult result
        (λ o. (offset_fault (meant_offset sections comment symbol immediate) ≡ None) × (meant_offset sections comment symbol immediate ≡ Some o))
        (λ t. offset_fault (meant_offset sections comment symbol immediate) ≡ Some t) }
{
    if symbol.is_of_section(sections) || symbol.value == 0 {
        return near(immediate.cast_signed());
    }
    if immediate != 0 || comment {
        return Err(Target::Unplaced);
    }
    if symbol.value > 0x7fff_ffff {
        return Err(Target::Unloaded);
    }
    Ok(symbol.value as i32)
}

impl Reading<'_, '_> {
    // Why what is in a section isn't data that can be loaded.
    fn section_fault(self, index: u16) -> Option<Target>
        requires reading { IsReading self }
        requires index { index < sections_in self.functions.file.now }
        ensures { result ≡ section_fault self.entry.functions.file.now index }
    {
        let Functions { file, header, .. } = self.functions;
        let section = section_of(file, header, index);
        if is_maps(file, header, index) {
            Some(Target::Map)
        } else if section.flags / 4 % 2 != 0 {
            Some(Target::Function)
        } else if section.flags % 2 != 0 {
            Some(Target::Variable)
        } else if self.marks[index as usize] {
            Some(Target::Addresses)
        } else if section.flags / 2 % 2 != 1 || section.kind != 1 {
            Some(Target::Unloaded)
        } else {
            None
        }
    }

    // The offset of the data that a relocation means.
    fn offset_at(self, symbol: Symbol, relocation: Relocation) -> Result<i32, Target>
        requires reading { IsReading self }
        ensures { MatchResult result
            (λ o. (load_fault self.entry.functions.file.now self.entry.function symbol relocation ≡ None)
            × (offset_at self.entry.functions.file.now self.entry.function symbol relocation ≡ Some o))
            (λ t. load_fault self.entry.functions.file.now self.entry.function symbol relocation ≡ Some t) }
    {
        let function = self.function;
        if !is_wide(function, relocation) {
            return Err(Target::Unloaded);
        }
        let slot = (relocation.offset - function.place.from) as usize / 8;
        let immediate = wide_immediate(function.code, slot);
        let sections = self.functions.header.sections;
        meant_offset(sections, self.comment, symbol, immediate)
    }

    // The data whose address a relocation has a slot load, or what its symbol is if there is none.
    pub(crate) fn data_use(self, relocation: Relocation) -> Result<DataUse, Target>
        requires reading { IsReading self }
        ensures { MatchResult result
            (λ u. (data_fault self.entry.functions.file.now self.entry.functions.symbols.now self.entry.function relocation ≡ None)
            × (u ≡ use_of self.entry.functions.file.now self.entry.functions.symbols.now self.entry.function relocation))
            (λ t. data_fault self.entry.functions.file.now self.entry.functions.symbols.now self.entry.function relocation ≡ Some t) }
    {
        let symbol = symbol_or_null(self.functions.symbols, relocation.symbol as usize);
        if !symbol.is_in_file(self.functions.header.sections) {
            return Err(Target::External);
        }
        if let Some(target) = self.section_fault(symbol.section) {
            return Err(target);
        }
        match self.offset_at(symbol, relocation) {
            Err(target) => Err(target),
            Ok(offset) => Ok(DataUse {
                section: symbol.section,
                offset,
            }),
        }
    }
}
