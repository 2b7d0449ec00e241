//! Reads a script, line by line, to the last line or to the first that has a fault.

ghost use Rattle.std.specs.Prelude.{◌≡◌, ◌≤◌, ◌<◌, ◌+◌, IfOk, IfErr, Err, length};
ghost use Rattle.ebpf_command.specs.declared.input.TheConstants.{MAX_INPUT};
ghost use Rattle.ebpf_reader.specs.ReadScripts.{parsed_script, IsScriptStop};
ghost use Rattle.ebpf_reader.specs.Scripts.{parsed_text};

use crate::kept::Kept;
use crate::line::read_next;
use crate::lines::is_script_text;
use crate::script::{Dialect, Script, ScriptFault, ScriptStop};
use ebpf_command::done::FaultCode;
use ebpf_command::input::MAX_INPUT;
use indexmap::IndexMap;
use job_list::Jobs;
use std::alloc::Global;
use std::hash::BuildHasherDefault;

/// The script that a text of this dialect is parsed to.
///
/// # Errors
/// `Fault` with the lowest line that has a fault, and its first code; `NoMemory` where an allocation failed.
#[tactic(auto, unfolding(crate::specs::Scripts::parsed_text))]
pub fn read_script(alloc: Global, dialect: Dialect, text: &[u8]) -> Result<Script, ScriptStop>
    ensures parsed { IfOk result (λ script. parsed_text dialect text.now ≡ Ok (parsed_script script)) }
    // So a caller can count passes of its own beside them.
    ensures few { IfOk result (λ script. script.passes ≤ MAX_INPUT + 1) }
    ensures refused { IfErr result (IsScriptStop (parsed_text dialect text.now)) }
    // A text that is too long is reported as such, whatever memory there is.
    ensures long { MAX_INPUT < length text.now → result ≡ Err (ScriptStop.Fault (record { code = FaultCode.InputTooLong; line = 0 })) }
{
    if text.len() > MAX_INPUT {
        return Err(ScriptStop::Fault(ScriptFault {
            code: FaultCode::InputTooLong,
            line: 0,
        }));
    }
    let mut script = Script {
        programs: IndexMap::with_hasher(alloc, BuildHasherDefault::new()),
        events: Vec::new(alloc),
        pages: None,
        jobs: Jobs::new(alloc),
        passes: 0,
    };
    let is_text = is_script_text(text);
    let mut kept = Kept::new(alloc);
    let mut from = 0;
    let mut number = 0;
    while from <= text.len() {
        let left = &text[from..];
        let (length, read) = read_next(alloc, dialect, &mut script, left, &mut kept, is_text);
        from += length + 1;
        number += 1;
        if let Err(stop) = read {
            return Err(ScriptStop::at(stop, number));
        }
    }
    Ok(script)
}
