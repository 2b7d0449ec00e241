//! What the input of a command over one program is: the program's bytes, or an object file.

use clap::{Arg, ArgAction, ArgMatches};
use ebpf_input::ask::Input;
use ebpf_input::form::Form;
use std::alloc::{AllocError, Global};

/// The option of raw bytes.
pub fn raw_option<'a>(alloc: Global) -> Arg<'a> {
    Arg::new(alloc, "raw")
        .long("raw")
        .action(ArgAction::SetTrue)
        .help("Reads the program as raw bytes instead of hex")
}

/// The option of object files.
pub fn elf_option<'a>(alloc: Global) -> Result<Arg<'a>, AllocError> {
    Arg::new(alloc, "elf")
        .long("elf")
        .action(ArgAction::SetTrue)
        .help("Reads a compiled object file, and takes a function from it")
        .conflicts_with("raw")
}

/// The option of a function's name.
pub fn function_option<'a>(alloc: Global) -> Result<Arg<'a>, AllocError> {
    Arg::new(alloc, "function")
        .long("function")
        .value_name("NAME")
        .help("The function to take, where the object file has more than one")
        .requires_arg("elf")
}

/// The option of an object file whose lines of C are counted.
pub fn object_option<'a>(alloc: Global) -> Result<Arg<'a>, AllocError> {
    Arg::new(alloc, "elf")
        .long("elf")
        .value_name("OBJECT")
        .help("Counts lines of C in place of the instructions of a function of this object file")
        .requires_arg("covered")
}

/// The option of lines of C.
pub fn lines_option<'a>(alloc: Global) -> Result<Arg<'a>, AllocError> {
    Arg::new(alloc, "source")
        .long("source")
        .action(ArgAction::SetTrue)
        .help("Writes each line of C before its instructions, where the object file has lines")
        .requires_arg("elf")
}

/// What the options say that the input is.
pub fn input_of<'a>(given: &ArgMatches<'a>) -> Input<'a> {
    if given.get_flag("elf") {
        Input::Object(given.get_str("function").unwrap_or(""))
    } else if given.get_flag("raw") {
        Input::Program(Form::Raw)
    } else {
        Input::Program(Form::Hex)
    }
}
