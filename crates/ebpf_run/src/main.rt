//! Runs small eBPF programs from the command line.
//!
//! This crate reads the command line, opens the files that are named and has the standard streams. A context that is a file's bytes, or
//! that zeros follow, is made a text of hex first: [`ebpf_context::text`]. What a command writes is a function of what it reads and of its
//! options, errors included, and it writes nothing else. That is the contract of [`one`] and [`list`], which read hex and write plain text;
//! of [`ebpf_one::one::one`], [`ebpf_one::list::list`], [`ebpf_show::explain::explain`], [`ebpf_show::graph::graph`] and
//! [`ebpf_one::lay_out::lay_out`]; of [`ebpf_assemble::assemble::assemble`], [`ebpf_script::check_script::check_script`] and
//! [`ebpf_script::replay_script::replay_script`].
//!
//! Where loops are unrolled, what is said of a loop that can't be is not promised word for word: [`ebpf_one::unroll::unroll`],
//! [`ebpf_one::unroll::one_unrolled`], [`ebpf_show::explain::explain_unrolled`] and [`ebpf_show::graph::graph_unrolled`].
//!
//! What `run` writes is such a text for some outcome of the jobs, since threads decide which requests for objects are granted and what is
//! found on a shelf: that is the contract of [`ebpf_script::run_script::run_script`]. `stream` answers each line of its input, and has its
//! own contract: [`ebpf_stream::stream::stream`]; how far it has come is told by [`ebpf_progress`], through which all that it writes goes
//! unchanged. These are all that it calls.
#![tactic(auto)]

mod command;
mod context;
mod format;
mod input;
mod plain;
mod programs;
mod progress;
mod trace;

use crate::command::{Request, RunOptions, Task, command, is_json_tracefile, request_of};
use crate::context::{Context, context_of};
pub use crate::plain::{list, one};
use crate::programs::{perform_explain, perform_graph, perform_list, perform_one};
use crate::progress::{Terminals, stream_on};
use clap::error::ErrorKind;
use clap::{ArgMatches, Error};
use ebpf_assemble::assemble::assemble;
use ebpf_command::done::{Done, EngineFault};
use ebpf_command::input::{MAX_INPUT, read_input};
use ebpf_context::text::{fill_context, read_context};
use ebpf_one::lay_out::lay_out;
use ebpf_one::unroll::unroll;
use ebpf_report::meter::{Meter, MissMeter};
use ebpf_report::watch::{TABLE_BYTES, Watch};
use ebpf_script::check_script::check_script;
use ebpf_script::replay_script::replay_script;
use ebpf_script::run_script::run_script;
use std::alloc::Global;
use std::fs::{File, OpenFile};
use std::io::{IsTerminal, Read, Write};
use std::process::ExitCode;
use std::rt::{Clock, Env, Files};
use std::sync::Wait;
use std::thread::Threads;
use std::{env, io};

// The command could not be done.
const FAILED: u8 = 1;

// The command line can't be read, or asks for nothing that there is.
const MISTAKEN: u8 = 2;

// What is read of a script that is too long: one byte more than one may have.
const MOST_READ: u64 = MAX_INPUT as u64 + 1;

// Why a command line is refused.
const NOT_UTF8: &str = "invalid UTF-8 was detected in one or more arguments";

const INPUT_TWICE: &str =
    "the context and the program can't both be read from standard input: name a file for one of them";

const TOO_MANY_BYTES: &str =
    "the context has more bytes than '--context-at-most <N>' declares: give a greater N, or fewer bytes";

const JSON_TRACEFILE: &str = "the argument '--covered=lcov' cannot be used with '--json'";

fn main(rt: HostRuntime) -> ExitCode {
    let terminals = Terminals {
        output: rt.stdout().is_terminal(),
        errors: rt.stderr().is_terminal(),
    };
    match run(&rt, terminals) {
        Ok(status) => ExitCode::from(status),
        Err(fault) => {
            // Nobody is left to tell where standard error is closed too.
            let _ = eprintln!(rt; "ebpf_run: {fault}");
            ExitCode::from(FAILED)
        }
    }
}

// Does what the command line asks for, and gives the exit status.
fn run<R: AllocGlobal + Clock + Env + Eprint + Files + Input + Print + Threads + Wait + Sync>(
    rt: &R,
    terminals: Terminals,
) -> Result<u8, EngineFault> {
    let alloc = rt.alloc();
    let words = match env::args(rt) {
        Ok(words) => words,
        Err(error) => return tell_unread(rt, error.kind()),
    };
    let Ok(words): Result<Vec<String>, _> = words.collect(alloc) else {
        return Err(EngineFault::NoMemory);
    };
    let matches = match command(alloc)?.try_get_matches_from(words.as_slice()) {
        Ok(matches) => matches,
        Err(error) => return tell(rt, &error),
    };
    answer(rt, &matches, terminals)
}

// Does what the command line asks for, on the context that it says, and gives the exit status.
fn answer<R: AllocGlobal + Clock + Eprint + Files + Input + Print + Threads + Wait + Sync>(
    rt: &R,
    matches: &ArgMatches<'_>,
    terminals: Terminals,
) -> Result<u8, EngineFault> {
    match context_of(matches) {
        Context::Hex(text) => answer_on(rt, matches, Some(text), terminals),
        Context::Filled(text, declared) => {
            let made = fill_context(rt.alloc(), text, declared)?;
            answer_on(rt, matches, made.as_deref(), terminals)
        }
        Context::File(path, declared) => match open(rt, path) {
            Ok(file) => {
                let mut file = file;
                let made = read_context(rt.alloc(), &mut file, declared)?;
                answer_on(rt, matches, made.as_deref(), terminals)
            }
            Err(error) => tell_unopened(rt, path, &error),
        },
        Context::Input(declared) => {
            let made = read_context(rt.alloc(), &mut rt.reader(), declared)?;
            answer_on(rt, matches, made.as_deref(), terminals)
        }
        Context::InputOfProgram => tell_mistaken(rt, ErrorKind::ArgumentConflict, INPUT_TWICE),
    }
}

// Does what the command line asks for, on this text of a context, and gives the exit status. There is no text where more bytes are given
// than are declared.
fn answer_on<R: AllocGlobal + Clock + Eprint + Files + Input + Print + Threads + Wait + Sync>(
    rt: &R,
    matches: &ArgMatches<'_>,
    context: Option<&str>,
    terminals: Terminals,
) -> Result<u8, EngineFault> {
    let Some(context) = context else {
        return tell_mistaken(rt, ErrorKind::ValueValidation, TOO_MANY_BYTES);
    };
    if is_json_tracefile(matches) {
        return tell_mistaken(rt, ErrorKind::ArgumentConflict, JSON_TRACEFILE);
    }
    match request_of(matches, context) {
        Some(request) => serve(rt, request, terminals),
        None => Ok(MISTAKEN),
    }
}

// Does what is asked for, on the file that is named or on standard input, and gives the exit status.
fn serve<R: AllocGlobal + Clock + Eprint + Files + Input + Print + Threads + Wait + Sync>(
    rt: &R,
    request: Request<'_>,
    terminals: Terminals,
) -> Result<u8, EngineFault> {
    let Some(path) = request.file else {
        return perform(rt, &mut rt.reader(), request.task, terminals);
    };
    match open(rt, path) {
        Ok(file) => {
            let mut file = file;
            perform(rt, &mut file, request.task, terminals)
        }
        Err(error) => tell_unopened(rt, path, &error),
    }
}

// Opens a file to read. If standard input is closed, the system gives its number to the next file that is opened, and `stream` would
// read its script as its input; a copy gets a number above those of the standard streams.
fn open<R: Files>(rt: &R, path: &str) -> io::Result<R::File> {
    let file = File::open(rt, path)?;
    file.try_clone()
}

// Does a task on an input and standard output, and gives the exit status.
fn perform<
    R: AllocGlobal + Clock + Eprint + Files + Input + Print + Threads + Wait + Sync,
    I: Read,
>(rt: &R, reader: &mut I, task: Task<'_>, terminals: Terminals) -> Result<u8, EngineFault> {
    let alloc = rt.alloc();
    let mut writer = io::writer(rt);
    let done = match task {
        Task::One(options) => perform_one(alloc, reader, &mut writer, options),
        Task::List(options) => perform_list(alloc, reader, &mut writer, options),
        Task::Explain(options) => perform_explain(alloc, reader, &mut writer, options),
        Task::Graph(options) => perform_graph(alloc, reader, &mut writer, options),
        Task::LayOut(ask) => lay_out(alloc, reader, &mut writer, &ask),
        Task::Unroll(ask) => unroll(alloc, reader, &mut writer, &ask),
        Task::Assemble => assemble(alloc, reader, &mut writer),
        Task::Check(options) => {
            check_script(alloc, reader, &mut writer, options.format, options.explain)
        }
        Task::Replay(format) => replay_script(alloc, reader, &mut writer, format),
        Task::Run(options) => return run_on(rt, reader, &mut writer, options),
        Task::Stream(options) => stream_on(rt, reader, &mut writer, options, terminals),
    }?;
    Ok(status_of(done))
}

fn status_of(done: Done) -> u8 {
    match done {
        Done::Clean => 0,
        Done::Refused => 2,
    }
}

// Does the jobs of a script, on the object file that is named, and gives the exit status.
fn run_on<R: AllocGlobal + Clock + Eprint + Files + Threads + Wait + Sync, I: Read, W: Write>(
    rt: &R,
    reader: &mut I,
    writer: &mut W,
    options: RunOptions<'_>,
) -> Result<u8, EngineFault> {
    let Some(path) = options.object else {
        return Ok(status_of(run_or_advise(rt, reader, writer, options, None)?));
    };
    match open(rt, path) {
        Ok(file) => {
            let mut file = file;
            let object = read_input(rt.alloc(), &mut file)?;
            let done = run_or_advise(rt, reader, writer, options, Some(&object))?;
            Ok(status_of(done))
        }
        Err(error) => tell_unopened(rt, path, &error),
    }
}

// Does the jobs of a script, and prints advice where there is some: what takes a script that is refused because it is too long (S1),
// and that workers missed an object which another had taken off a shelf.
fn run_or_advise<R: AllocGlobal + Clock + Eprint + Threads + Wait + Sync, I: Read, W: Write>(
    rt: &R,
    reader: &mut I,
    writer: &mut W,
    options: RunOptions<'_>,
    object: Option<&[u8]>,
) -> Result<Done, EngineFault> {
    let workers = options.ask.workers;
    let mut input = reader.take(MOST_READ);
    let (done, misses) = run_jobs(rt, &mut input, writer, options, object)?;
    // The text is written; nobody is left to tell where standard error is closed.
    if input.limit() == 0 {
        let _ = eprintln!(rt;
            "ebpf_run: the script has more than {MAX_INPUT} bytes: run-many cuts such a script, and runs the parts"
        );
    }
    if workers > 1 && misses > 0 {
        let _ = eprintln!(rt;
            "ebpf_run: {misses} calls of swap got nothing from a shelf that had been filled: another job of the {workers} workers may have held the object"
        );
    }
    Ok(done)
}

// Does the jobs of a script, and prints what the caches and the workers did where that is asked for. Beside what was done it gives
// how often a shelf that had been filled was found empty.
fn run_jobs<R: AllocGlobal + Clock + Eprint + Threads + Wait + Sync, I: Read, W: Write>(
    rt: &R,
    reader: &mut I,
    writer: &mut W,
    options: RunOptions<'_>,
    object: Option<&[u8]>,
) -> Result<(Done, u128), EngineFault> {
    if !options.stats {
        let mut meter = MissMeter { misses: 0 };
        let done = run_with(rt, reader, writer, options, object, &mut meter)?;
        return Ok((done, meter.misses));
    }
    // Room for the table comes first, so that where there is none nothing is run.
    let mut table = String::with_capacity(rt.alloc(), TABLE_BYTES)?;
    let mut watch = Watch::start(rt);
    let done = run_with(rt, reader, writer, options, object, &mut watch)?;
    watch.write_table(options.ask.format, &mut table)?;
    if eprint!(rt; "{table}").is_err() {
        return Err(EngineFault::Output);
    }
    Ok((done, watch.misses()))
}

// Does the jobs of a script, with a meter.
fn run_with<R: AllocGlobal + Threads + Wait + Sync, I: Read, W: Write, M: Meter>(
    rt: &R,
    reader: &mut I,
    writer: &mut W,
    options: RunOptions<'_>,
    object: Option<&[u8]>,
    meter: &mut M,
) -> Result<Done, EngineFault> {
    run_script(rt, rt.alloc(), reader, writer, options.ask, object, meter)
}

// Prints why a file can't be opened, and gives the exit status.
fn tell_unopened<R: Eprint>(rt: &R, path: &str, error: &io::Error) -> Result<u8, EngineFault> {
    if error.kind() == io::ErrorKind::OutOfMemory {
        return Err(EngineFault::NoMemory);
    }
    // Nobody is left to tell where standard error is closed too.
    let _ = eprintln!(rt; "ebpf_run: {path}: {error}");
    Ok(FAILED)
}

// Prints why the words of the command line can't be read, and gives the exit status.
fn tell_unread<R: AllocGlobal + Eprint + Print>(
    rt: &R,
    kind: io::ErrorKind,
) -> Result<u8, EngineFault> {
    if kind != io::ErrorKind::InvalidData {
        return Err(EngineFault::NoMemory);
    }
    tell_mistaken(rt, ErrorKind::ValueValidation, NOT_UTF8)
}

// Prints why the command line is refused, and gives the exit status.
fn tell_mistaken<R: AllocGlobal + Eprint + Print>(
    rt: &R,
    kind: ErrorKind,
    why: &str,
) -> Result<u8, EngineFault> {
    let mut commands = command(rt.alloc())?;
    let error = commands.error(kind, why)?;
    tell(rt, &error)
}

// Prints what clap says of the command line, the help too that it asks for, and gives the exit status.
fn tell<R: Eprint + Print>(rt: &R, error: &Error) -> Result<u8, EngineFault> {
    if error.kind() == ErrorKind::OutOfMemory {
        return Err(EngineFault::NoMemory);
    }
    if error.print(rt).is_err() {
        return Err(EngineFault::Output);
    }
    Ok(if error.exit_code() == 0 { 0 } else { MISTAKEN })
}
