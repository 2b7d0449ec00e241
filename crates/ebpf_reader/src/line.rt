//! A line of a script, read into the script.

ghost use Rattle.std.specs.Prelude.{◌≡◌, ◌≤◌, ℕ, List, [], ◌∷◌, None, true, IfErr, IfSome, OnOk, length, map, take};
ghost use Rattle.ebpf_command.specs.Stops.{IsStop};
ghost use Rattle.ebpf_reader.specs.Again.{IsBeginning};
ghost use Rattle.ebpf_reader.specs.LineFaults.{shape_fault, line_fault};
ghost use Rattle.ebpf_reader.specs.ReadScripts.{parsed_script, Adds, HasRoom};
ghost use Rattle.ebpf_reader.specs.ScriptLines.{IsFirst, is_text};
ghost use Rattle.ebpf_reader.specs.Shapes.{is_comment, event_shape, job_shape, setup_shape, program_shape, shape_of};
ghost use Rattle.ebpf_reader.specs.Words.{words};

use crate::again::job_again;
use crate::kept::Kept;
use crate::lines::{Line, first_line, is_text};
use crate::script::{Dialect, Script};
use crate::statement::{
    read_answered, read_arena, read_exec, read_grow, read_job, read_job_again, read_pass,
    read_program, read_reap, read_start,
};
use ebpf_command::done::{FaultCode, Stop};
use std::alloc::Global;

/// Reads the first line of a text after those that the script has, and returns its length; whether it is text is looked at unless
/// that is known. Where it stops, nothing is promised of the script.
pub(crate) fn read_next<'a>(
    alloc: Global,
    dialect: Dialect,
    script: &mut Script,
    text: &'a [u8],
    kept: &mut Kept<'a>,
    is_known: bool,
) -> (usize, Result<(), Stop>)
    requires room { HasRoom script.now }
    requires begins { IfSome kept.old.beginning (IsBeginning script.now) }
    requires known { is_known ≡ true → (line : List ℕ) → IsFirst text.now line → is_text line ≡ true }
    ensures within { result.0 ≤ length text.now }
    ensures first { IsFirst text.now (take result.0 text.now) }
    ensures fine { OnOk result.1 (line_fault dialect (parsed_script script.old) (take result.0 text.now) ≡ None) }
    ensures ok { OnOk result.1 (Adds (shape_of dialect (words (take result.0 text.now))) script.old script.new) }
    ensures refused { IfErr result.1 (IsStop (line_fault dialect (parsed_script script.old) (take result.0 text.now))) }
    ensures begins { OnOk result.1 (IfSome kept.new.beginning (IsBeginning script.new)) }
{
    if is_known && matches!(dialect, Dialect::Jobs) {
        if let Some(again) = job_again(script, &mut kept.beginning, text) {
            return (
                again.line.len(),
                read_job_again(script, &again, &mut kept.context),
            );
        }
    }
    kept.beginning = None;
    let line = first_line(text, &mut kept.words);
    let length = line.bytes.len();
    (length, read_line(alloc, dialect, script, &line, is_known))
}

// Reads a line.
fn read_line(
    alloc: Global,
    dialect: Dialect,
    script: &mut Script,
    line: &Line<'_, '_>,
    is_known: bool,
) -> Result<(), Stop>
    requires room { HasRoom script.now }
    requires known { is_known ≡ true → is_text line.now.bytes.now ≡ true }
    ensures fine { OnOk result (line_fault dialect (parsed_script script.old) line.now.bytes.now ≡ None) }
    ensures ok { OnOk result (Adds (shape_of dialect (words line.now.bytes.now)) script.old script.new) }
    ensures refused { IfErr result (IsStop (line_fault dialect (parsed_script script.old) line.now.bytes.now)) }
{
    if !is_line_text(line, is_known) {
        return Err(Stop::Fault(FaultCode::UnprintableByte));
    }
    read_words(alloc, dialect, script, line.words)
}

// Whether a line is text, which may be known.
fn is_line_text(line: &Line<'_, '_>, is_known: bool) -> bool
    requires { is_known ≡ true → is_text line.now.bytes.now ≡ true }
    ensures { result ≡ is_text line.now.bytes.now }
{
    is_known || is_text(line.bytes)
}

// Reads the words of a line.
fn read_words(
    alloc: Global,
    dialect: Dialect,
    script: &mut Script,
    words: &[&[u8]],
) -> Result<(), Stop>
    requires { HasRoom script.now }
    ensures ok { OnOk result (Adds (shape_of dialect (map (λ w. w.now) words.now)) script.old script.new) }
    ensures refused { IfErr result (IsStop (shape_fault (parsed_script script.old) (shape_of dialect (map (λ w. w.now) words.now)))) }
{
    let Some((first, rest)) = words.split_first() else {
        return Ok(());
    };
    if is_comment(first) {
        return Ok(());
    }
    if *first == b"program".as_slice() {
        return read_program_words(alloc, script, rest);
    }
    match dialect {
        Dialect::Events => read_event_words(alloc, script, first, rest),
        Dialect::Jobs => read_job_words(alloc, script, first, rest),
        Dialect::Setup => read_setup_words(script, first, rest),
    }
}

// The first word of a comment.
pub(crate) fn is_comment(word: &[u8]) -> bool
    ensures { result ≡ is_comment word.now }
{
    match word {
        [c, ..] => *c == b'#',
        [] => false,
    }
}

// Reads the words after `program`.
fn read_program_words(alloc: Global, script: &mut Script, rest: &[&[u8]]) -> Result<(), Stop>
    ensures ok { OnOk result (Adds (program_shape (map (λ w. w.now) rest.now)) script.old script.new) }
    ensures refused { IfErr result (IsStop (shape_fault (parsed_script script.old) (program_shape (map (λ w. w.now) rest.now)))) }
{
    match rest {
        [name, context, held, hex] => read_program(alloc, script, name, context, held, hex),
        _ => Err(Stop::Fault(FaultCode::UnknownLine)),
    }
}

// Reads a line of events: its first word and those after it.
fn read_event_words(
    alloc: Global,
    script: &mut Script,
    first: &[u8],
    rest: &[&[u8]],
) -> Result<(), Stop>
    ensures ok { OnOk result (Adds (event_shape first.now (map (λ w. w.now) rest.now)) script.old script.new) }
    ensures refused { IfErr result (IsStop (shape_fault (parsed_script script.old) (event_shape first.now (map (λ w. w.now) rest.now)))) }
{
    match rest {
        [run] if first == b"exec".as_slice() => read_exec(script, run),
        [name, hex] if first == b"start".as_slice() => read_start(alloc, script, name, hex),
        [run, answer] if first == b"exec".as_slice() => read_answered(script, run, answer),
        [kind, slot] if first == b"grow".as_slice() => read_grow(script, kind, slot),
        [kind, slot] if first == b"reap".as_slice() => read_reap(script, kind, slot),
        _ => Err(Stop::Fault(FaultCode::UnknownLine)),
    }
}

// Reads a line of jobs: its first word and those after it.
fn read_job_words(
    alloc: Global,
    script: &mut Script,
    first: &[u8],
    rest: &[&[u8]],
) -> Result<(), Stop>
    requires { HasRoom script.now }
    ensures ok { OnOk result (Adds (job_shape first.now (map (λ w. w.now) rest.now)) script.old script.new) }
    ensures refused { IfErr result (IsStop (shape_fault (parsed_script script.old) (job_shape first.now (map (λ w. w.now) rest.now)))) }
{
    match rest {
        [] if first == b"reap".as_slice() => {
            read_pass(script);
            Ok(())
        }
        [pages] if first == b"arena".as_slice() => read_arena(script, pages),
        [name, hex] if first == b"run".as_slice() => read_job(alloc, script, name, hex),
        _ => Err(Stop::Fault(FaultCode::UnknownLine)),
    }
}

// Reads a line that says what a machine has: its first word and those after it.
fn read_setup_words(script: &mut Script, first: &[u8], rest: &[&[u8]]) -> Result<(), Stop>
    ensures ok { OnOk result (Adds (setup_shape first.now (map (λ w. w.now) rest.now)) script.old script.new) }
    ensures refused { IfErr result (IsStop (shape_fault (parsed_script script.old) (setup_shape first.now (map (λ w. w.now) rest.now)))) }
{
    match rest {
        [pages] if first == b"arena".as_slice() => read_arena(script, pages),
        _ => Err(Stop::Fault(FaultCode::UnknownLine)),
    }
}
