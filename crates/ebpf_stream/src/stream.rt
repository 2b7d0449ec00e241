//! The command `stream`: programs, and a machine that does the jobs of a stream one after another.

ghost use Rattle.std.specs.Prelude.{◌≡◌, ◌≢◌, ◌⊎◌, ◌≤◌, ℕ, [], true, false, None, Ok, Err, IfOk, IfErr, OnOk, IfSome, string_bytes, unwrap_or};
ghost use Rattle.std.specs.Io.KnownBytes.{Appends, IsAtEnd};
ghost use Rattle.vmem_arena.specs.declared.arena.TheConstants.{MAX_PAGES};
ghost use Rattle.ebpf_host.specs.Stocks.{stock_of};
ghost use Rattle.ebpf_command.specs.declared.done.Done.TheVariants.{Refused};
ghost use Rattle.ebpf_command.specs.declared.done.EngineFault.TheVariants.{Output};
ghost use Rattle.ebpf_command.specs.Writing.{Reads, Writes, WritesBeginning, AppendsBeginning};
ghost use Rattle.ebpf_reader.specs.ReadScripts.{parsed_script};
ghost use Rattle.ebpf_reader.specs.Runnable.{IsRunnable};
ghost use Rattle.ebpf_stream.specs.Answering.{position_of, start};
ghost use Rattle.ebpf_stream.specs.Feeding.{Finishes, Serves, TakesAll, set_up};
ghost use Rattle.ebpf_stream.specs.Streaming.{done_by};
ghost use Rattle.ebpf_stream.specs.Serving.{WritesStream, WritesPart, WritesFirst, WritesFirstTo, RespondsTo, RespondsPartTo};

use crate::answers::Answers;
use crate::feed::Feed;
use crate::output::write_out;
use crate::setup::{Setup, load_all};
use ebpf_command::answer::{Answer, answer_fault_in};
use ebpf_command::done::{Done, EngineFault};
use ebpf_command::format::Format;
use ebpf_command::input::read_input;
use ebpf_command::output::flush;
use ebpf_host::machine::Machine;
use ebpf_reader::read_script::read_script;
use ebpf_reader::script::{Dialect, Script, ScriptStop};
use ebpf_report::verdicts::{Verdicts, verdicts_on};
use std::alloc::{AllocError, Global};
use std::io::{Read, Write};
use vmem_arena::{ArenaFault, MAX_PAGES};

// How many bytes one read asks for.
const CHUNK: usize = 4096;

/// Reads a script of programs, judges them, and then does the jobs of a stream on one machine, each as soon as its line has been read. What
/// is answered is written and flushed before each read of the stream.
///
/// # Errors
/// `Input` where a read failed, or the stream has 2^64 lines; `NoMemory` where an allocation failed; `Output` where a write failed or took
/// nothing. What was answered before is written.
pub fn stream<S: Read, I: Read, W: Write>(
    alloc: Global,
    script: &mut S,
    reader: &mut I,
    writer: &mut W,
    format: Format,
) -> Result<Done, EngineFault>
    // The answer to each line is written, in order, and nothing else.
    ensures response { WritesStream format (S.remaining script.old) (I.remaining reader.old) (W.contents writer.old) (W.contents writer.new) result }
    ensures consumed { Reads (S.remaining script.old) (S.remaining script.new) result }
    ensures end { IfOk result (λ done. IsAtEnd (I.remaining reader.new) ⊎ ((reader.new ≡ reader.old) × (done ≡ Refused))) }
    ensures stopped { IfErr result (λ fault. fault ≢ Output → (writer.new ≡ writer.old) ⊎
        WritesFirst format (S.remaining script.old) (I.remaining reader.old) (W.contents writer.old) (W.contents writer.new)) }
    ensures beginning { WritesPart format (S.remaining script.old) (I.remaining reader.old) (W.contents writer.old) (W.contents writer.new) result }
{
    let text = read_input(alloc, script)?;
    match read_script(alloc, Dialect::Setup, &text) {
        Ok(script) => serve_script(alloc, format, script, reader, writer),
        Err(ScriptStop::Fault(fault)) => {
            let answer = answer_fault_in(alloc, format, fault.code, fault.line)?;
            write_answer(answer, writer)
        }
        Err(ScriptStop::NoMemory) => Err(EngineFault::NoMemory),
    }
}

// Writes a whole answer.
fn write_answer<W: Write>(answer: Answer, writer: &mut W) -> Result<Done, EngineFault>
    ensures written { IfOk result (λ done. (done ≡ answer.done) × Appends (W.contents writer.old) (W.contents writer.new) answer.text) }
    ensures beginning { IfErr result (λ fault. AppendsBeginning (W.contents writer.old) (W.contents writer.new) answer.text) }
    ensures fault { IfErr result (λ fault. fault ≡ Output) }
{
    let Answer { mut text, done } = answer;
    write_out(writer, &mut text)?;
    flush(writer)?;
    Ok(done)
}

// Judges the programs of a script, and does the jobs of a stream with them.
fn serve_script<I: Read, W: Write>(
    alloc: Global,
    format: Format,
    script: Script,
    reader: &mut I,
    writer: &mut W,
) -> Result<Done, EngineFault>
    requires { IsRunnable (parsed_script script) }
    ensures response { Writes (RespondsTo format (parsed_script script)) (I.remaining reader.old) (W.contents writer.old) (W.contents writer.new) result }
    ensures end { IfOk result (λ done. IsAtEnd (I.remaining reader.new) ⊎ ((reader.new ≡ reader.old) × (done ≡ Refused))) }
    ensures stopped { IfErr result (λ fault. fault ≢ Output → (writer.new ≡ writer.old) ⊎
        WritesFirstTo format (parsed_script script) (I.remaining reader.old) (W.contents writer.old) (W.contents writer.new)) }
    ensures beginning { WritesBeginning (RespondsPartTo format (parsed_script script)) (I.remaining reader.old)
        (W.contents writer.old) (W.contents writer.new) result }
{
    let verdicts = verdicts_on(alloc, format, &script.programs)?;
    if verdicts.refused {
        let answer = Answer {
            text: verdicts.text,
            done: Done::Refused,
        };
        return write_answer(answer, writer);
    }
    let machine = machine_of(alloc, script.pages)?;
    let Verdicts { text, accepted, .. } = verdicts;
    let setup = Setup {
        format,
        script,
        programs: load_all(alloc, accepted)?,
    };
    let mut feed = Feed {
        answers: Answers::new(alloc, machine, text),
        kept: Vec::new(alloc),
    };
    if let Err(fault) = serve(alloc, &setup, &mut feed, reader, writer) {
        return Err(fault);
    }
    Ok(done_by(feed.answers.place.faulty))
}

// How a stream ends, by whether a line could not be read.
fn done_by(faulty: bool) -> Done
    ensures { result ≡ done_by faulty }
{
    if faulty { Done::Refused } else { Done::Clean }
}

// A machine with this many pages, or with the most, and nothing on its shelves. It fails only where an allocation fails.
fn machine_of(alloc: Global, pages: Option<u32>) -> Result<Machine, AllocError>
    requires { IfSome pages (λ n. (1 ≤ n) × (n ≤ 256)) }
    ensures bare { IfOk result (λ m. (kind : ℕ) → (stock_of m kind).shelf ≡ None) }
    ensures pages { IfOk result (λ m. m.arena.pages ≡ unwrap_or pages MAX_PAGES) }
{
    match Machine::new(alloc, pages.unwrap_or(MAX_PAGES)) {
        Ok(machine) => Ok(machine),
        Err(ArenaFault::NoMemory) => Err(AllocError),
        Err(ArenaFault::Pages) => unreachable!(),
    }
}

// Answers a stream to its end.
fn serve<I: Read, W: Write>(
    alloc: Global,
    setup: &Setup,
    feed: &mut Feed,
    reader: &mut I,
    writer: &mut W,
) -> Result<(), EngineFault>
    requires kept { feed.old.kept.items ≡ [] }
    requires position { position_of feed.old.answers ≡ start }
    ensures served { Serves (set_up setup.now) (I.remaining reader.old) (W.contents writer.old) (W.contents writer.new)
        (position_of feed.new.answers) (string_bytes feed.old.answers.text) result }
    ensures end { OnOk result (IsAtEnd (I.remaining reader.new)) }
{
    let mut chunk = [0; CHUNK];
    if let Err(_) = feed.flush(writer) {
        return Err(EngineFault::Output);
    }
    'reading: for _turn in 0..u64::MAX {
        let Ok(n) = reader.read(&mut chunk) else {
            return Err(EngineFault::Input);
        };
        if n == 0 {
            return finish(alloc, setup, feed, writer);
        }
        if let Err(fault) = take_all(alloc, setup, feed, writer, &chunk[..n]) {
            return Err(fault);
        }
    }
    Err(EngineFault::Input)
}

// Takes the next bytes of a stream, and writes all that is answered then.
fn take_all<W: Write>(
    alloc: Global,
    setup: &Setup,
    feed: &mut Feed,
    writer: &mut W,
    bytes: &[u8],
) -> Result<(), EngineFault>
    ensures { TakesAll (set_up setup.now) (W.contents writer.old) (W.contents writer.new) feed.old feed.new bytes.now result }
{
    let taken = feed.take(alloc, setup, writer, bytes);
    if is_lost(&taken) {
        return Err(EngineFault::Output);
    }
    match feed.flush(writer) {
        Ok(()) => taken,
        Err(_) => Err(EngineFault::Output),
    }
}

// Whether a write failed.
fn is_lost(taken: &Result<(), EngineFault>) -> bool
    ensures lost { result ≡ true → taken.now ≡ Err Output }
    ensures other { result ≡ false → taken.now ≢ Err Output }
{
    matches!(taken, Err(EngineFault::Output))
}

// Answers the last line, and then the end of the input.
fn finish<W: Write>(
    alloc: Global,
    setup: &Setup,
    feed: &mut Feed,
    writer: &mut W,
) -> Result<(), EngineFault>
    requires { string_bytes feed.old.answers.text ≡ [] }
    ensures { Finishes (set_up setup.now) (W.contents writer.old) (W.contents writer.new) feed.old feed.new result }
{
    if let Err(fault) = feed.end(alloc, setup) {
        return Err(fault);
    }
    if let Err(_) = feed.flush(writer) {
        return Err(EngineFault::Output);
    }
    if let Err(_) = feed.answers.end(setup.format) {
        return Err(EngineFault::NoMemory);
    }
    match feed.flush(writer) {
        Ok(()) => Ok(()),
        Err(_) => Err(EngineFault::Output),
    }
}
