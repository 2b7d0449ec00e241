//! Which steps of a run are shown.

use clap::{Arg, ArgMatches, Command, value_parser};
use ebpf_one::how::Shown;
use std::alloc::{AllocError, Global};

// The registers, by their numbers.
const REGISTERS: [&str; 11] = [
    "r0", "r1", "r2", "r3", "r4", "r5", "r6", "r7", "r8", "r9", "r10",
];

/// With the options of a trace.
pub fn with_trace<'a>(alloc: Global, command: Command<'a>) -> Result<Command<'a>, AllocError> {
    command
        .arg(trace_option(alloc))?
        .arg(from_option(alloc)?)?
        .arg(last_option(alloc)?)
}

fn trace_option<'a>(alloc: Global) -> Arg<'a> {
    Arg::new(alloc, "trace")
        .long("trace")
        .value_name("REGISTERS")
        .num_args(0..=1)
        .require_equals(true)
        .value_delimiter(',')
        .value_parser(REGISTERS.as_slice())
        .help(
            "Writes each instruction that the run executes, and what it changed; with =r2,r6 only those that set one of these registers",
        )
}

fn from_option<'a>(alloc: Global) -> Result<Arg<'a>, AllocError> {
    Arg::new(alloc, "from")
        .long("from")
        .value_name("SLOT")
        .value_parser(value_parser!(u32))
        .help("Writes only the instructions from this slot on")
        .requires_arg("trace")
}

fn last_option<'a>(alloc: Global) -> Result<Arg<'a>, AllocError> {
    Arg::new(alloc, "last")
        .long("last")
        .value_name("N")
        .value_parser(value_parser!(u32))
        .help("Writes only those of the last N instructions that the run executes")
        .requires_arg("trace")
}

/// Which steps the words of the command line choose, if they ask for a trace.
pub fn shown_of(given: &ArgMatches<'_>) -> Option<Shown> {
    if !given.contains_id("trace") {
        return None;
    }
    let last = match given.get_one::<u32>("last") {
        Some(last) => Some(last as u64),
        None => None,
    };
    Some(Shown {
        registers: registers_of(given.get_strs("trace").unwrap_or(&[])),
        from: given.get_one::<u32>("from").unwrap_or(0) as usize,
        last,
    })
}

// Which registers are named, if some are.
fn registers_of(names: &[&str]) -> Option<[bool; 11]> {
    if names.is_empty() {
        return None;
    }
    let mut chosen = [false; 11];
    for number in 0..11 {
        chosen[number] = is_among(REGISTERS[number], names);
    }
    Some(chosen)
}

// Whether a name is one of these.
fn is_among(name: &str, names: &[&str]) -> bool {
    for other in names {
        if *other == name {
            return true;
        }
    }
    false
}
