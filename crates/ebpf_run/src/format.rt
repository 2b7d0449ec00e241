//! How an answer is written: the option of JSON.

use clap::{Arg, ArgAction, ArgMatches};
use ebpf_command::format::Format;
use std::alloc::Global;

/// The option of JSON.
pub fn json_option<'a>(alloc: Global) -> Arg<'a> {
    Arg::new(alloc, "json")
        .long("json")
        .action(ArgAction::SetTrue)
        .help("Writes JSON Lines: an object on each line")
}

/// What the options say of how an answer is written.
pub fn format_of(given: &ArgMatches<'_>) -> Format {
    if given.get_flag("json") {
        Format::Json
    } else {
        Format::Text
    }
}
