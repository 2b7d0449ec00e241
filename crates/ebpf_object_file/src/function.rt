//! A function of a file that is a program by itself.

ghost use Rattle.std.specs.Prelude.{◌≡◌, ◌<◌, ◌≤◌, ◌+◌, ◌/◌, length, true, IfOk, IfErr};
ghost use Rattle.ebpf_object_file.specs.Section.{sections_in, bytes_of as bytes_in};
ghost use Rattle.ebpf_object_file.specs.Header.{header_of};
ghost use Rattle.ebpf_object_file.specs.Symbol.{symbol_of as nth_symbol, is_function};
ghost use Rattle.ebpf_object_file.specs.File.{IsOpen, AreFunctions};
ghost use Rattle.ebpf_object_file.specs.Function.{is_code, code_of, IsAt, IsAlone, IsNamed, IsOnlyOne, IsCodeFault, IsFunctionFault, IsNamedFault};
ghost use Rattle.ebpf_object_file.specs.Function.{IsOnlyFault, IsWanted, IsWantedFault};

use crate::call::find_call;
use crate::fault::FileFault;
use crate::field::is_inside;
use crate::functions::{Functions, MOST_NAME, functions_of};
use crate::header::Header;
use crate::object_fault::ObjectFault;
use crate::outside::{Place, calling, referred, relocation_in};
use crate::section::bytes_of;
use crate::symbol::{Symbol, find_function, symbol_of};

/// A function of an object file: its place, and its bytes, eight for each slot.
#[derive(Clone, Copy)]
pub struct Function<'a> {
    pub place: Place,
    pub code: &'a [u8],
}

// Whether a symbol's bytes are whole slots of its section, one at least.
fn is_code(file: &[u8], header: Header, symbol: Symbol) -> bool
    requires file { IsOpen file.now }
    requires header { header ≡ header_of file.now }
    requires section { symbol.section < sections_in file.now }
    ensures { result ≡ is_code file.now symbol }
{
    let bytes = bytes_of(file, header, symbol.section);
    is_inside(bytes, symbol.value, symbol.size)
        && symbol.value % 8 == 0
        && symbol.size % 8 == 0
        && symbol.size >= 1
}

// The bytes of a place.
fn code_of(file: &[u8], header: Header, place: Place) -> &[u8]
    requires file { IsOpen file.now }
    requires header { header ≡ header_of file.now }
    requires section { place.section < sections_in file.now }
    requires inside { place.from + place.size ≤ length (bytes_in file.now place.section) }
    ensures { result.now ≡ code_of file.now place }
{
    let from = place.from as usize;
    &bytes_of(file, header, place.section)[from..from + place.size as usize]
}

// The place and the bytes of the function that is the symbol of a number.
pub(crate) fn read_function<'a>(
    file: &'a [u8],
    header: Header,
    symbols: &[u8],
    number: usize,
) -> Result<Function<'a>, FileFault>
    requires file { IsOpen file.now }
    requires header { header ≡ header_of file.now }
    requires number { number < length symbols.now / 24 }
    requires function { is_function header.sections (nth_symbol symbols.now number) ≡ true }
    ensures found { IfOk result (λ f. IsAt file.now symbols.now number f) }
    ensures refused { IfErr result (λ e. IsCodeFault file.now symbols.now number e) }
{
    let symbol = symbol_of(symbols, number);
    if !is_code(file, header, symbol) {
        return Err(FileFault::NotCode);
    }
    let place = Place {
        section: symbol.section,
        from: symbol.value,
        size: symbol.size,
    };
    Ok(Function {
        place,
        code: code_of(file, header, place),
    })
}

// The function that is the symbol of a number, where it is a program by itself.
fn function_at<'a>(functions: Functions<'a>, number: usize) -> Result<Function<'a>, ObjectFault<'a>>
    requires functions { AreFunctions functions.file.now functions }
    requires number { number < length functions.symbols.now / 24 }
    requires function { is_function functions.header.sections (nth_symbol functions.symbols.now number) ≡ true }
    ensures found { IfOk result (λ f. IsAt functions.entry.file.now functions.entry.symbols.now number f × IsAlone functions.entry.file.now f) }
    ensures refused { IfErr result (λ e. IsFunctionFault functions.entry number e) }
{
    let Functions {
        file,
        header,
        symbols,
        ..
    } = functions;
    let function = match read_function(file, header, symbols, number) {
        Ok(function) => function,
        Err(fault) => return Err(ObjectFault::File(fault)),
    };
    match relocation_in(file, header, function.place) {
        Err(fault) => return Err(ObjectFault::File(fault)),
        Ok(None) => {}
        Ok(Some(relocation)) => {
            let outside = referred(functions, function.place, relocation, None);
            return Err(ObjectFault::Outside(outside));
        }
    }
    match find_call(function.code) {
        None => Ok(function),
        Some(slot) => {
            let outside = calling(functions, function.place, function.code, slot);
            Err(ObjectFault::Outside(outside))
        }
    }
}

/// The function of a name: the first of the symbol table that has it.
///
/// # Errors
/// The first fault: a name of more than 255 bytes, then those of [`functions_of`], no such function, and those of the
/// function itself. These are bytes that aren't whole slots, the faults of its relocations, the first relocation that reaches it, and
/// the first call of another function.
pub fn function_named<'a>(file: &'a [u8], name: &[u8]) -> Result<Function<'a>, ObjectFault<'a>>
    ensures found { IfOk result (λ f. IsNamed file.now name.now f × IsAlone file.now f) }
    ensures refused { IfErr result (λ e. IsNamedFault file.now name.now e) }
{
    if name.len() > MOST_NAME {
        return Err(ObjectFault::File(FileFault::LongName));
    }
    let functions = match functions_of(file) {
        Ok(functions) => functions,
        Err(fault) => return Err(ObjectFault::File(fault)),
    };
    let sections = functions.header.sections;
    match find_function(functions.symbols, sections, functions.strings, name) {
        None => Err(ObjectFault::NoFunction(functions)),
        Some(number) => function_at(functions, number),
    }
}

/// The file's only function.
///
/// # Errors
/// As those of [`function_named`], with no function, or more than one, in place of a name's.
pub fn only_function(file: &[u8]) -> Result<Function<'_>, ObjectFault<'_>>
    ensures found { IfOk result (λ f. IsOnlyOne file.now f × IsAlone file.now f) }
    ensures refused { IfErr result (λ e. IsOnlyFault file.now e) }
{
    let functions = match functions_of(file) {
        Ok(functions) => functions,
        Err(fault) => return Err(ObjectFault::File(fault)),
    };
    let first = match functions.next(0) {
        None => return Err(ObjectFault::File(FileFault::NoFunctions)),
        Some(first) => first.number,
    };
    match functions.next(first + 1) {
        None => function_at(functions, first),
        Some(_) => Err(ObjectFault::SeveralFunctions(functions)),
    }
}

/// The function of a name, or the file's only one where the name is empty.
///
/// # Errors
/// Those of [`function_named`] or of [`only_function`].
pub fn wanted_function<'a>(file: &'a [u8], name: &[u8]) -> Result<Function<'a>, ObjectFault<'a>>
    ensures found { IfOk result (λ f. IsWanted file.now name.now f) }
    ensures refused { IfErr result (λ e. IsWantedFault file.now name.now e) }
{
    if name.is_empty() {
        only_function(file)
    } else {
        function_named(file, name)
    }
}
