//! The command line.

use crate::context::with_context;
use crate::format::{format_of, json_option};
use crate::input::{
    elf_option, function_option, input_of, lines_option, object_option, raw_option,
};
use crate::progress::{StreamOptions, no_progress_option, progress_of, progress_option};
use crate::trace::{shown_of, with_trace};
use clap::{Arg, ArgAction, ArgMatches, Command, value_parser};
use ebpf_command::format::Format;
use ebpf_input::ask::{Ask, Input};
use ebpf_one::how::How;
use ebpf_script::run_ask::{Coverage, RunAsk};
use std::alloc::{AllocError, Global};

// After the help of the program and of `one`.
const ONE_EXAMPLE: &str = "Example: echo 'b700000007000000 9500000000000000' | ebpf_run one";

// After the help of `list`.
const LIST_EXAMPLE: &str = "Example: echo 'b700000007000000 9500000000000000' | ebpf_run list";

// After the help of `explain`.
const EXPLAIN_EXAMPLE: &str =
    "Example: echo 'b700000007000000 9500000000000000' | ebpf_run explain";

// After the help of `graph`.
const GRAPH_EXAMPLE: &str = "Example: echo 'b700000007000000 9500000000000000' | ebpf_run graph";

// After the help of `lay-out`.
const LAY_OUT_EXAMPLE: &str =
    "Example: echo '05000100000000009500000000000000b7000000070000000500fdff00000000' | ebpf_run lay-out";

// After the help of `unroll`.
const UNROLL_EXAMPLE: &str =
    "Example: printf 'mov64 r0, 5\\nagain: sub64 r0, 1\\njne64 r0, 0, again\\nexit\\n' | ebpf_run assemble | ebpf_run unroll";

// After the help of `assemble`.
const ASSEMBLE_EXAMPLE: &str =
    "Example: printf 'mov64 r0, 7\\nexit\\n' | ebpf_run assemble | ebpf_run one";

// After the help of `check`.
const CHECK_EXAMPLE: &str =
    "Example: printf '%s\\n' 'program p 0 0 b7000000070000009500000000000000' 'run p -' | ebpf_run check";

// After the help of `replay`.
const REPLAY_EXAMPLE: &str =
    "Example: printf '%s\\n' 'program p 0 0 b7000000070000009500000000000000' 'start p -' 'exec 0' | ebpf_run replay";

// After the help of `run`.
const RUN_EXAMPLE: &str =
    "Example: printf '%s\\n' 'program p 0 0 b7000000070000009500000000000000' 'run p -' | ebpf_run run";

// After the help of `stream`.
const STREAM_EXAMPLE: &str =
    "Example: echo 'program p 0 0 b7000000070000009500000000000000' >programs; echo 'run p -' | ebpf_run stream programs";

// The most workers, and the most passes of the reaper that an option asks for.
const MAX_WORKERS: u32 = 64;

const MAX_REAPS: u32 = 1000;

// The forms in which counts are written: lines after the reports, and a tracefile of lcov.
const FORMS: [&str; 2] = ["counts", "lcov"];

/// What the command line asks for.
#[derive(Clone, Copy)]
pub struct Request<'a> {
    pub task: Task<'a>,
    /// The file to read; standard input where there is none, or for a script beside a stream a file of that name.
    pub file: Option<&'a str>,
}

/// A command with its options.
#[derive(Clone, Copy)]
pub enum Task<'a> {
    One(OneOptions<'a>),
    List(ListOptions<'a>),
    Explain(ExplainOptions<'a>),
    Graph(GraphOptions<'a>),
    LayOut(Ask<'a>),
    Unroll(Ask<'a>),
    Assemble,
    Check(CheckOptions),
    Replay(Format),
    Run(RunOptions<'a>),
    Stream(StreamOptions),
}

/// The options of `one`.
#[derive(Clone, Copy)]
pub struct OneOptions<'a> {
    /// The program, and how it is judged and answered.
    pub ask: Ask<'a>,
    /// How the program is run.
    pub how: How<'a>,
    /// Whether the loops of the program are unrolled first.
    pub unroll: bool,
}

/// The options of `explain`.
#[derive(Clone, Copy)]
pub struct ExplainOptions<'a> {
    /// The program, and how it is judged and answered.
    pub ask: Ask<'a>,
    /// Whether the lines of C of an object file are listed too.
    pub lines: bool,
    /// Whether the loops of the program are unrolled first.
    pub unroll: bool,
}

/// The options of `graph`.
#[derive(Clone, Copy)]
pub struct GraphOptions<'a> {
    /// The program, and how it is judged. The answer is a text.
    pub ask: Ask<'a>,
    /// Whether what is known before each block is written too.
    pub states: bool,
    /// Whether the loops of the program are unrolled first.
    pub unroll: bool,
}

/// The options of `list`.
#[derive(Clone, Copy)]
pub struct ListOptions<'a> {
    /// What the input is.
    pub input: Input<'a>,
    /// Whether the lines of C of an object file are written too.
    pub lines: bool,
    /// How the answer is written.
    pub format: Format,
}

/// The options of `check`.
#[derive(Clone, Copy)]
pub struct CheckOptions {
    /// How the answer is written.
    pub format: Format,
    /// Whether it says why each refused program is.
    pub explain: bool,
}

/// The options of `run`.
#[derive(Clone, Copy)]
pub struct RunOptions<'a> {
    /// What is asked of it.
    pub ask: RunAsk,
    /// The object file whose lines of C are counted, if there is one.
    pub object: Option<&'a str>,
    /// Whether a table of what the caches and the workers did is printed, in the format of the answer.
    pub stats: bool,
}

// The commands, in the order in which the help has them.
#[derive(Clone, Copy)]
enum Name {
    One,
    List,
    Explain,
    Graph,
    LayOut,
    Unroll,
    Assemble,
    Check,
    Replay,
    Run,
    Stream,
}

const NAMES: [Name; 11] = [
    Name::One,
    Name::List,
    Name::Explain,
    Name::Graph,
    Name::LayOut,
    Name::Unroll,
    Name::Assemble,
    Name::Check,
    Name::Replay,
    Name::Run,
    Name::Stream,
];

/// The commands with their options.
pub fn command<'a>(alloc: Global) -> Result<Command<'a>, AllocError> {
    let mut all = Command::new(alloc, "ebpf_run")
        .about("Runs small eBPF programs")
        .version("0.1.0")
        .after_help(ONE_EXAMPLE)
        .subcommand_required(true)
        .arg_required_else_help(true);
    'names: for name in NAMES {
        all = all.subcommand(command_of(alloc, name)?)?;
    }
    Ok(all)
}

fn command_of<'a>(alloc: Global, name: Name) -> Result<Command<'a>, AllocError> {
    match name {
        Name::One => one_command(alloc),
        Name::List => list_command(alloc),
        Name::Explain => explain_command(alloc),
        Name::Graph => graph_command(alloc),
        Name::LayOut => lay_out_command(alloc),
        Name::Unroll => unroll_command(alloc),
        Name::Assemble => assemble_command(alloc),
        Name::Check => check_command(alloc),
        Name::Replay => replay_command(alloc),
        Name::Run => run_command(alloc),
        Name::Stream => stream_command(alloc),
    }
}

fn one_command<'a>(alloc: Global) -> Result<Command<'a>, AllocError> {
    let one = Command::new(alloc, "one")
        .about("Runs a program once")
        .after_help(ONE_EXAMPLE)
        .arg(json_option(alloc))?
        .arg(nulls_option(alloc))?;
    let one = with_trace(alloc, one)?
        .arg(lines_option(alloc)?.requires_arg("trace")?)?
        .arg(unroll_option(alloc))?;
    with_judged_program(alloc, one)
}

fn explain_command<'a>(alloc: Global) -> Result<Command<'a>, AllocError> {
    let explain = Command::new(alloc, "explain")
        .about(
            "Describes what is known before each instruction of a program, and why it is refused",
        )
        .after_help(EXPLAIN_EXAMPLE)
        .arg(json_option(alloc))?
        .arg(lines_option(alloc)?)?
        .arg(unroll_option(alloc))?;
    with_judged_program(alloc, explain)
}

fn graph_command<'a>(alloc: Global) -> Result<Command<'a>, AllocError> {
    let graph = Command::new(alloc, "graph")
        .about("Writes the basic blocks of a program as a graph for dot")
        .after_help(GRAPH_EXAMPLE)
        .arg(states_option(alloc))?
        .arg(unroll_option(alloc))?;
    with_judged_program(alloc, graph)
}

fn states_option<'a>(alloc: Global) -> Arg<'a> {
    Arg::new(alloc, "states")
        .long("states")
        .action(ArgAction::SetTrue)
        .help("Writes what is known before each block")
}

// With a program, and what it is judged by.
fn with_judged_program<'a>(alloc: Global, command: Command<'a>) -> Result<Command<'a>, AllocError> {
    let command = with_context(alloc, command)?.arg(held_option(alloc))?;
    with_program(alloc, command)
}

// With the file of a program, and the options that say what it is.
fn with_program<'a>(alloc: Global, command: Command<'a>) -> Result<Command<'a>, AllocError> {
    command
        .arg(raw_option(alloc))?
        .arg(elf_option(alloc)?)?
        .arg(function_option(alloc)?)?
        .arg(file_argument(alloc))
}

fn file_argument<'a>(alloc: Global) -> Arg<'a> {
    Arg::new(alloc, "file")
        .value_name("FILE")
        .help("The file to read; standard input if it is - or not given")
}

fn held_option<'a>(alloc: Global) -> Arg<'a> {
    Arg::new(alloc, "held")
        .long("held")
        .value_name("N")
        .value_parser(value_parser!(u8).range(0..=64))
        .default_value("0")
        .help("How many objects the program may hold at one time, 0 to 64")
}

fn nulls_option<'a>(alloc: Global) -> Arg<'a> {
    Arg::new(alloc, "nulls")
        .long("nulls")
        .action(ArgAction::SetTrue)
        .help("Answers each call of new with null")
}

fn unroll_option<'a>(alloc: Global) -> Arg<'a> {
    Arg::new(alloc, "unroll")
        .long("unroll")
        .action(ArgAction::SetTrue)
        .help("Unrolls the loops of the program first")
}

fn list_command<'a>(alloc: Global) -> Result<Command<'a>, AllocError> {
    let list = Command::new(alloc, "list")
        .about("Lists the instructions of a program")
        .after_help(LIST_EXAMPLE)
        .arg(json_option(alloc))?
        .arg(lines_option(alloc)?)?;
    with_program(alloc, list)
}

fn lay_out_command<'a>(alloc: Global) -> Result<Command<'a>, AllocError> {
    let lay_out = Command::new(alloc, "lay-out")
        .about("Reorders the instructions of a program so that every jump goes forward")
        .after_help(LAY_OUT_EXAMPLE)
        .arg(json_option(alloc))?;
    with_judged_program(alloc, lay_out)
}

fn unroll_command<'a>(alloc: Global) -> Result<Command<'a>, AllocError> {
    let unroll = Command::new(alloc, "unroll")
        .about("Unrolls the loops of a program, where each of its runs ends")
        .after_help(UNROLL_EXAMPLE)
        .arg(json_option(alloc))?;
    with_judged_program(alloc, unroll)
}

fn assemble_command<'a>(alloc: Global) -> Result<Command<'a>, AllocError> {
    Command::new(alloc, "assemble")
        .about("Assembles instructions, in the words that list writes, to hex")
        .after_help(ASSEMBLE_EXAMPLE)
        .arg(file_argument(alloc))
}

fn check_command<'a>(alloc: Global) -> Result<Command<'a>, AllocError> {
    Command::new(alloc, "check")
        .about("Checks a script: programs, and jobs that run them")
        .after_help(CHECK_EXAMPLE)
        .arg(explain_option(alloc))?
        .arg(json_option(alloc))?
        .arg(file_argument(alloc))
}

fn explain_option<'a>(alloc: Global) -> Arg<'a> {
    Arg::new(alloc, "explain")
        .long("explain")
        .action(ArgAction::SetTrue)
        .help("Explains each refused program")
}

fn replay_command<'a>(alloc: Global) -> Result<Command<'a>, AllocError> {
    Command::new(alloc, "replay")
        .about("Replays a script: programs, and the events of their runs")
        .after_help(REPLAY_EXAMPLE)
        .arg(json_option(alloc))?
        .arg(file_argument(alloc))
}

fn run_command<'a>(alloc: Global) -> Result<Command<'a>, AllocError> {
    let run = Command::new(alloc, "run")
        .about("Runs a script: programs, and jobs for workers to run")
        .after_help(RUN_EXAMPLE);
    run.arg(workers_option(alloc))?
        .arg(reaps_option(alloc))?
        .arg(stats_option(alloc))?
        .arg(covered_option(alloc)?)?
        .arg(object_option(alloc)?)?
        .arg(json_option(alloc))?
        .arg(file_argument(alloc))
}

fn stream_command<'a>(alloc: Global) -> Result<Command<'a>, AllocError> {
    Command::new(alloc, "stream")
        .about(
            "Runs the jobs on standard input as they come, with the programs of the script in SCRIPT",
        )
        .after_help(STREAM_EXAMPLE)
        .arg(progress_option(alloc))?
        .arg(no_progress_option(alloc)?)?
        .arg(json_option(alloc))?
        .arg(script_argument(alloc))
}

fn script_argument<'a>(alloc: Global) -> Arg<'a> {
    Arg::new(alloc, "script")
        .value_name("SCRIPT")
        .required(true)
        .help("The file of the script: its programs, and the pages of its arena")
}

fn workers_option<'a>(alloc: Global) -> Arg<'a> {
    Arg::new(alloc, "workers")
        .long("workers")
        .value_name("N")
        .value_parser(value_parser!(u32).range(1..=64))
        .default_value("1")
        .help("How many workers run the jobs, 1 to 64")
}

fn reaps_option<'a>(alloc: Global) -> Arg<'a> {
    Arg::new(alloc, "reaps")
        .long("reaps")
        .value_name("N")
        .value_parser(value_parser!(u32).range(0..=1000))
        .default_value("0")
        .help("How many passes the reaper makes besides the script's, 0 to 1000")
}

fn stats_option<'a>(alloc: Global) -> Arg<'a> {
    Arg::new(alloc, "stats")
        .long("stats")
        .action(ArgAction::SetTrue)
        .help("Writes to standard error what the caches and the workers did")
}

fn covered_option<'a>(alloc: Global) -> Result<Arg<'a>, AllocError> {
    Arg::new(alloc, "covered")
        .long("covered")
        .value_name("FORM")
        .num_args(0..=1)
        .require_equals(true)
        .default_missing_value("counts")
        .value_parser(FORMS.as_slice())
        .help(
            "Writes how often each instruction was executed, and each branch taken; with =lcov as a tracefile of lines of C, and nothing else",
        )
        .requires_if("lcov", "elf")
}

/// What the words of the command line ask for, where they are a command; of one program, on the context of this text, which may be made
/// after these words were read.
pub fn request_of<'c, 'a: 'c>(matches: &ArgMatches<'a>, context: &'c str) -> Option<Request<'c>> {
    let (name, given) = matches.subcommand()?;
    Some(Request {
        task: task_of(name, given, context)?,
        file: file_of(name, given),
    })
}

/// Whether they ask for a tracefile in JSON, which has no such form.
pub fn is_json_tracefile(matches: &ArgMatches<'_>) -> bool {
    match matches.subcommand() {
        Some(("run", given)) => {
            matches!(given.get_str("covered"), Some("lcov")) && given.get_flag("json")
        }
        _ => false,
    }
}

// The command of this name, with the options that are given.
fn task_of<'c, 'a: 'c>(name: &str, given: &ArgMatches<'a>, context: &'c str) -> Option<Task<'c>> {
    match name {
        "one" => Some(Task::One(one_options(given, context))),
        "list" => Some(Task::List(list_options(given))),
        "explain" => Some(Task::Explain(explain_options(given, context))),
        "graph" => Some(Task::Graph(graph_options(given, context))),
        "lay-out" => Some(Task::LayOut(asked(given, context, format_of(given)))),
        "unroll" => Some(Task::Unroll(asked(given, context, format_of(given)))),
        "assemble" => Some(Task::Assemble),
        "check" => Some(Task::Check(check_options(given))),
        "replay" => Some(Task::Replay(format_of(given))),
        "run" => Some(Task::Run(run_options(given)?)),
        "stream" => Some(Task::Stream(stream_options(given))),
        _ => None,
    }
}

// The file that is named. A dash is none, but for a script beside a stream.
fn file_of<'a>(name: &str, given: &ArgMatches<'a>) -> Option<&'a str> {
    if name == "stream" {
        return given.get_str("script");
    }
    match given.get_str("file") {
        Some("-") => None,
        file => file,
    }
}

// A program, and how it is judged and answered.
fn asked<'c, 'a: 'c>(given: &ArgMatches<'a>, context: &'c str, format: Format) -> Ask<'c> {
    Ask {
        input: input_of(given),
        format,
        context,
        held: given.get_one::<u8>("held").unwrap_or(0),
    }
}

// The options of `one`.
fn one_options<'c, 'a: 'c>(given: &ArgMatches<'a>, context: &'c str) -> OneOptions<'c> {
    OneOptions {
        ask: asked(given, context, format_of(given)),
        how: How::new(
            given.get_flag("nulls"),
            shown_of(given),
            given.get_flag("source"),
        ),
        unroll: given.get_flag("unroll"),
    }
}

// The options of `explain`.
fn explain_options<'c, 'a: 'c>(given: &ArgMatches<'a>, context: &'c str) -> ExplainOptions<'c> {
    ExplainOptions {
        ask: asked(given, context, format_of(given)),
        lines: given.get_flag("source"),
        unroll: given.get_flag("unroll"),
    }
}

// The options of `graph`.
fn graph_options<'c, 'a: 'c>(given: &ArgMatches<'a>, context: &'c str) -> GraphOptions<'c> {
    GraphOptions {
        ask: asked(given, context, Format::Text),
        states: given.get_flag("states"),
        unroll: given.get_flag("unroll"),
    }
}

// The options of `list`.
fn list_options<'a>(given: &ArgMatches<'a>) -> ListOptions<'a> {
    ListOptions {
        input: input_of(given),
        lines: given.get_flag("source"),
        format: format_of(given),
    }
}

// The options of `check`.
fn check_options(given: &ArgMatches<'_>) -> CheckOptions {
    CheckOptions {
        format: format_of(given),
        explain: given.get_flag("explain"),
    }
}

// The options of `stream`.
fn stream_options(given: &ArgMatches<'_>) -> StreamOptions {
    StreamOptions {
        format: format_of(given),
        progress: progress_of(given),
    }
}

// What `run` is to say of what jobs executed.
fn coverage_of(given: &ArgMatches<'_>) -> Coverage {
    match given.get_str("covered") {
        None => Coverage::Nothing,
        Some("lcov") => Coverage::Tracefile,
        Some(_) => Coverage::Counts,
    }
}

// The options of `run`. Each has a value within its bounds, since the parser refuses all others; but no clause says so of what is
// read here, so the bounds are tested once more.
fn run_options<'a>(given: &ArgMatches<'a>) -> Option<RunOptions<'a>> {
    let workers = given.get_one::<u32>("workers")?;
    let reaps = given.get_one::<u32>("reaps")?;
    if workers < 1 || workers > MAX_WORKERS || reaps > MAX_REAPS {
        return None;
    }
    let ask = RunAsk {
        format: format_of(given),
        covered: coverage_of(given),
        workers,
        reaps,
    };
    let stats = given.get_flag("stats");
    let object = given.get_str("elf");
    Some(RunOptions { ask, object, stats })
}
