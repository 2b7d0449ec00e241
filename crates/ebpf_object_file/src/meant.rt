//! The function that a name means, before its code is looked at.

ghost use Rattle.std.specs.Prelude.{IfOk, IfErr, ◌≢◌, []};
ghost use Rattle.ebpf_object_file.specs.Meant.{IsMeant, IsNoneMeant};

use crate::fault::FileFault;
use crate::functions::{Functions, MOST_NAME, functions_of};
use crate::object_fault::ObjectFault;
use crate::symbol::find_function;

/// A function of a file.
#[derive(Clone, Copy)]
pub(crate) struct Meant<'a> {
    pub functions: Functions<'a>,
    /// The number of its symbol.
    pub number: usize,
}

// The first function of a name.
fn named<'a>(file: &'a [u8], name: &[u8]) -> Result<Meant<'a>, ObjectFault<'a>>
    requires { name.now ≢ [] }
    ensures found { IfOk result (λ m. IsMeant file.now name.now m) }
    ensures refused { IfErr result (λ e. IsNoneMeant file.now name.now e) }
{
    if name.len() > MOST_NAME {
        return Err(ObjectFault::File(FileFault::LongName));
    }
    let functions = match functions_of(file) {
        Ok(functions) => functions,
        Err(fault) => return Err(ObjectFault::File(fault)),
    };
    let sections = functions.header.sections;
    match find_function(functions.symbols, sections, functions.strings, name) {
        None => Err(ObjectFault::NoFunction(functions)),
        Some(number) => Ok(Meant { functions, number }),
    }
}

// The only function.
fn only(file: &[u8]) -> Result<Meant<'_>, ObjectFault<'_>>
    ensures found { IfOk result (λ m. IsMeant file.now [] m) }
    ensures refused { IfErr result (λ e. IsNoneMeant file.now [] e) }
{
    let functions = match functions_of(file) {
        Ok(functions) => functions,
        Err(fault) => return Err(ObjectFault::File(fault)),
    };
    let number = match functions.next(0) {
        None => return Err(ObjectFault::File(FileFault::NoFunctions)),
        Some(first) => first.number,
    };
    match functions.next(number + 1) {
        None => Ok(Meant { functions, number }),
        Some(_) => Err(ObjectFault::SeveralFunctions(functions)),
    }
}

// The function of a name, or the only one if the name is empty.
pub(crate) fn find_meant<'a>(file: &'a [u8], name: &[u8]) -> Result<Meant<'a>, ObjectFault<'a>>
    ensures found { IfOk result (λ m. IsMeant file.now name.now m) }
    ensures refused { IfErr result (λ e. IsNoneMeant file.now name.now e) }
{
    if name.is_empty() {
        only(file)
    } else {
        named(file, name)
    }
}
