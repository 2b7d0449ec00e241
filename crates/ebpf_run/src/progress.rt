//! Whether and how `stream` tells on standard error how far it has come.

use clap::{Arg, ArgAction, ArgMatches};
use ebpf_command::done::{Done, EngineFault};
use ebpf_command::format::Format;
use ebpf_progress::counted::CountedWriter;
use ebpf_progress::teller::Teller;
use ebpf_stream::stream::stream;
use std::alloc::{AllocError, Global};
use std::io::{Read, Write};
use std::rt::Clock;

/// Which of the streams that are written are terminals.
#[derive(Clone, Copy)]
pub struct Terminals {
    pub output: bool,
    pub errors: bool,
}

/// The options of `stream`.
#[derive(Clone, Copy)]
pub struct StreamOptions {
    /// How the answers are written.
    pub format: Format,
    /// Whether somebody is told how many lines are written, if that is said.
    pub progress: Option<bool>,
}

/// The option that asks for it.
pub fn progress_option<'a>(alloc: Global) -> Arg<'a> {
    Arg::new(alloc, "progress")
        .long("progress")
        .action(ArgAction::SetTrue)
        .help("Writes to standard error, about once a second, how many lines it has written")
}

/// The option that asks for none.
pub fn no_progress_option<'a>(alloc: Global) -> Result<Arg<'a>, AllocError> {
    Arg::new(alloc, "no-progress")
        .long("no-progress")
        .action(ArgAction::SetTrue)
        .help("Doesn't, not even where only standard error is a terminal")
        .conflicts_with("progress")
}

/// What the options say of it.
pub fn progress_of(given: &ArgMatches<'_>) -> Option<bool> {
    match (given.get_flag("progress"), given.get_flag("no-progress")) {
        (true, _) => Some(true),
        (false, true) => Some(false),
        (false, false) => None,
    }
}

/// Does the jobs of standard input with the programs of a script. If it isn't said, somebody is told how many lines are written where standard
/// error is a terminal, and standard output none, on which they would be seen.
pub fn stream_on<R: AllocGlobal + Clock + Eprint + Input, I: Read, W: Write>(
    rt: &R,
    script: &mut I,
    writer: &mut W,
    options: StreamOptions,
    terminals: Terminals,
) -> Result<Done, EngineFault> {
    let StreamOptions { format, progress } = options;
    if !progress.unwrap_or(terminals.errors && !terminals.output) {
        return stream(rt.alloc(), script, &mut rt.reader(), writer, format);
    }
    let mut counted = CountedWriter::new(writer, Teller::start(rt, terminals.errors));
    let done = stream(rt.alloc(), script, &mut rt.reader(), &mut counted, format);
    let (_, teller) = counted.into_parts();
    teller.end();
    done
}
