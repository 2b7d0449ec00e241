//! How the context of a program is given: as hex or as the bytes of a file, and perhaps with zeros after them.

use clap::{Arg, ArgMatches, Command, value_parser};
use std::alloc::{AllocError, Global};

/// Where the bytes of a context are, and how many are declared where zeros may follow them.
#[derive(Clone, Copy)]
pub enum Context<'a> {
    /// On the command line, as hex.
    Hex(&'a str),
    /// On the command line, and zeros follow.
    Filled(&'a str, u32),
    /// In the file of this name.
    File(&'a str, Option<u32>),
    /// On standard input.
    Input(Option<u32>),
    /// On standard input, from which the program is read too.
    InputOfProgram,
}

/// With the options of a context.
pub fn with_context<'a>(alloc: Global, command: Command<'a>) -> Result<Command<'a>, AllocError> {
    command
        .arg(hex_option(alloc))?
        .arg(file_option(alloc)?)?
        .arg(at_most_option(alloc))
}

fn hex_option<'a>(alloc: Global) -> Arg<'a> {
    Arg::new(alloc, "context")
        .long("context")
        .value_name("HEX")
        .default_value("-")
        .help("The context as hex digits, or - for none")
}

fn file_option<'a>(alloc: Global) -> Result<Arg<'a>, AllocError> {
    Arg::new(alloc, "context-file")
        .long("context-file")
        .value_name("FILE")
        .help("The file whose bytes are the context; standard input if it is -")
        .conflicts_with("context")
}

fn at_most_option<'a>(alloc: Global) -> Arg<'a> {
    Arg::new(alloc, "context-at-most")
        .long("context-at-most")
        .value_name("N")
        .value_parser(value_parser!(u32).range(0..=4096))
        .help("Declares a context of N bytes, 0 to 4096: zeros follow those that are given")
}

/// What the words of the command line say of a context: that it has no bytes, if the command takes none. The program is on standard input
/// where its file isn't named, or is a dash.
pub fn context_of<'a>(matches: &ArgMatches<'a>) -> Context<'a> {
    let Some((_, given)) = matches.subcommand() else {
        return Context::Hex("-");
    };
    let declared = given.get_one::<u32>("context-at-most");
    match (given.get_str("context-file"), given.get_str("file")) {
        (None, _) => hex_context(given.get_str("context").unwrap_or("-"), declared),
        (Some("-"), None | Some("-")) => Context::InputOfProgram,
        (Some("-"), Some(_)) => Context::Input(declared),
        (Some(path), _) => Context::File(path, declared),
    }
}

fn hex_context(text: &str, declared: Option<u32>) -> Context<'_> {
    match declared {
        Some(length) => Context::Filled(text, length),
        None => Context::Hex(text),
    }
}
