//! What a reader of scripts makes, and why it stops.

ghost use Rattle.std.specs.Prelude.{◌≡◌, true, string_bytes};
ghost use Rattle.std.specs.List.{list_all};
ghost use Rattle.ebpf_reader.specs.Names.{is_name};

use ebpf_command::done::{FaultCode, Stop};
use ebpf_core::event::Event;
use ebpf_verify::decl::Decl;
use indexmap::IndexMap;
use job_list::Jobs;
use std::hash::{BuildHasherDefault, DefaultHasher};

/// Which lines a script may have beside its programs.
#[derive(Clone, Copy)]
pub enum Dialect {
    /// Events: `start`, `exec`, `grow` and `reap` of a slot.
    Events,
    /// Jobs, and what they run with: `run`, `arena` and `reap` alone.
    Jobs,
    /// What a machine has: `arena`.
    Setup,
}

/// A program of a script: what its hex says, and what it declares.
#[derive(Drop)]
pub struct ProgramText {
    pub bytes: Vec<u8>,
    pub decl: Decl,
}

/// Programs by their names, in the order of their lines. Whoever writes a script picks the names, so they are hashed by SipHash:
/// names that share a place of the table can be searched for, and not just be written down.
pub type Programs = IndexMap<String, ProgramText, BuildHasherDefault<DefaultHasher>>;

/// The programs of a script, whose names are all allowed, and what its dialect has beside them.
#[derive(Drop)]
pub struct Script {
    pub programs: Programs,
    pub events: Vec<Event>,
    /// The pages of the arena, where a line says how many.
    pub pages: Option<u32>,
    pub jobs: Jobs,
    /// How many passes the reaper is to make for the script's lines.
    pub passes: u32,
    ghost named: { list_all (λ p. is_name (string_bytes p.0)) programs.entries ≡ true },
}

/// Why a text is no script: the code, and the line, from 1; line 0 where the text is too long.
#[derive(Clone, Copy)]
pub struct ScriptFault {
    pub code: FaultCode,
    pub line: usize,
}

/// Why there is no script.
#[derive(Clone, Copy)]
pub enum ScriptStop {
    /// The text can't be used.
    Fault(ScriptFault),
    NoMemory,
}

impl ScriptStop {
    ghost use Rattle.ebpf_reader.specs.ReadScripts.{stop_at};

    /// The stop of a script whose line of this number is not read.
    pub(crate) fn at(stop: Stop, line: usize) -> ScriptStop
        ensures { result ≡ stop_at stop line }
    {
        match stop {
            Stop::Fault(code) => ScriptStop::Fault(ScriptFault { code, line }),
            Stop::NoMemory => ScriptStop::NoMemory,
        }
    }
}
