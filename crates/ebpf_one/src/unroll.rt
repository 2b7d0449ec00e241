//! The command `unroll`: one program with its loops unrolled.

ghost use Rattle.std.specs.Prelude.{◌≡◌, None, Some, IfOk, IfSome, length};
ghost use Rattle.ebpf_insn.specs.Decoding.{decode_fault};
ghost use Rattle.ebpf_state.specs.Kinds.{AreKinds};
ghost use Rattle.ebpf_command.specs.Writing.{Performs};
ghost use Rattle.ebpf_object_file.specs.declared.object_fault.ObjectFault.{ObjectFault};
ghost use Rattle.ebpf_one.specs.RunText.{IsDeclared};
ghost use Rattle.ebpf_one.specs.UnrollText.{DoesForward, UnrollsFunction, UnrollsInput, UnrollsLined, UnrollsPlaced, UnrollsSourced};
ghost use Rattle.ebpf_one.specs.UnrollText.{UnrollsData, UnrollsLinkedLined, UnrollsLinkedSourced};
ghost use Rattle.ebpf_one.specs.UnrollText.{UnrollsObject, UnrollsTo, UnrollsBytes, UnrollsDecoded};
ghost use Rattle.ebpf_one.specs.UnrollText.{UnrollsLinked, UnrollsProgram, UnrollsWithData};

use crate::copies_text::answer_copies;
use crate::headed::{Headed, linked_lines};
use crate::how::How;
use crate::linked::{Link, send_linked, under_own};
use crate::running::{Running, run_forward, run_of};
use ebpf_command::answer::{Answer, write_answer};
use ebpf_command::done::{Done, EngineFault, Stop};
use ebpf_command::format::Format;
use ebpf_command::input::{MAX_INPUT, read_input};
use ebpf_forward::forward::{Forward, lead_forward};
use ebpf_forward::why_not::why_not;
use ebpf_input::ask::{Ask, Input};
use ebpf_input::data_request::{DataRequest, requested_with_data};
use ebpf_input::form::Form;
use ebpf_input::input_faults::{answer_undecoded, answer_unused};
use ebpf_input::no_request::answer_no_request;
use ebpf_input::object::answer_file_fault;
use ebpf_input::request::{Request, requested};
use ebpf_input::source_line::held_lines;
use ebpf_input::under::{InFile, SlotAnswer, with_line};
use ebpf_input::why_not::answer_why_not;
use ebpf_insn::decode::decode;
use ebpf_insn::fault::DecodeFault;
use ebpf_insn::program::Program;
use ebpf_object_file::function::{Function, wanted_function};
use ebpf_object_file::lines::Lines;
use ebpf_object_file::source::lines_of;
use ebpf_state::kinds::{KindRow, kinds};
use ebpf_verify::decl::Decl;
use std::alloc::{AllocError, Global};
use std::io::{Read, Write};

/// What is wanted of a program of which every jump leads forward.
#[derive(Drop)]
pub(crate) struct Wanted<'a> {
    /// Its run, if it isn't to be written.
    pub(crate) run: Option<Running<'a>>,
    /// What it was linked with, if it reads data of its file.
    pub(crate) link: Option<Link>,
}

/// Reads a program and writes it in a format as hex with its loops unrolled, so that every jump leads forward; one without loops as
/// [`crate::lay_out::lay_out`] does. Or it writes why the program can't be unrolled, with the line of C of an object file.
///
/// A function that reads data of its object file is linked with it first. Then the data is written too, as hex; and the program is refused if the
/// verifier refuses it, or if it isn't certain to keep the context's pointer in the word of the stack that was taken for it.
///
/// # Errors
/// `Input` where a read failed and `NoMemory` where an allocation failed: nothing was written then. `Output` where a write
/// failed or took nothing.
pub fn unroll<R: Read, W: Write>(
    alloc: Global,
    reader: &mut R,
    writer: &mut W,
    ask: &Ask<'_>,
) -> Result<Done, EngineFault>
    ensures { Performs (UnrollsInput ask.now None) (R.remaining reader.old) (R.remaining reader.new)
        (W.contents writer.old) (W.contents writer.new) writer.old writer.new result }
{
    respond(alloc, reader, writer, ask, None)
}

/// Reads a program, unrolls its loops as [`unroll`] does, runs it on a context and writes what it did as [`crate::one::one`] does. Or it writes
/// why the program can't be unrolled, as [`unroll`] does, or is refused. A function that reads data of its object file is linked with it first.
///
/// # Errors
/// `Input` where a read failed and `NoMemory` where an allocation failed: nothing was written then. `Output` where a write
/// failed or took nothing.
pub fn one_unrolled<R: Read, W: Write>(
    alloc: Global,
    reader: &mut R,
    writer: &mut W,
    ask: &Ask<'_>,
    how: How<'_>,
) -> Result<Done, EngineFault>
    ensures { Performs (UnrollsInput ask.now (Some how.entry)) (R.remaining reader.old) (R.remaining reader.new)
        (W.contents writer.old) (W.contents writer.new) writer.old writer.new result }
{
    respond(alloc, reader, writer, ask, Some(how))
}

// Reads the input, answers it, and writes the answer. The program is written, or run if it is said how.
fn respond<R: Read, W: Write>(
    alloc: Global,
    reader: &mut R,
    writer: &mut W,
    ask: &Ask<'_>,
    how: Option<How<'_>>,
) -> Result<Done, EngineFault>
    ensures { Performs (UnrollsInput ask.now how.entry) (R.remaining reader.old) (R.remaining reader.new)
        (W.contents writer.old) (W.contents writer.new) writer.old writer.new result }
{
    let input = read_input(alloc, reader)?;
    let answer = unroll_asked(alloc, ask, &input, how)?;
    write_answer(writer, answer)
}

// The response to an input, by what it is.
fn unroll_asked(
    alloc: Global,
    ask: &Ask<'_>,
    input: &[u8],
    how: Option<How<'_>>,
) -> Result<Answer, AllocError>
    ensures { IfOk result (UnrollsInput ask.now how.entry input.now) }
{
    match ask.input {
        Input::Program(form) => unroll_input(alloc, ask, form, input, how, None),
        Input::Object(name) => unroll_object(alloc, ask, name, input, how),
    }
}

// The response to an object file.
fn unroll_object(
    alloc: Global,
    ask: &Ask<'_>,
    name: &str,
    file: &[u8],
    how: Option<How<'_>>,
) -> Result<Answer, AllocError>
    ensures { IfOk result (UnrollsObject ask.now how.entry name.now file.now) }
{
    if file.len() > MAX_INPUT {
        return unroll_input(alloc, ask, Form::Raw, file, how, None);
    }
    match wanted_function(file, name.as_bytes()) {
        Ok(function) => unroll_function(alloc, ask, file, function, how),
        Err(_) => unroll_with_data(alloc, ask, name, file, how),
    }
}

// The response to a function of a file, with the lines of C where they are asked for.
fn unroll_function(
    alloc: Global,
    ask: &Ask<'_>,
    file: &[u8],
    function: Function<'_>,
    how: Option<How<'_>>,
) -> Result<Answer, AllocError>
    ensures { IfOk result (UnrollsFunction ask.now how.entry file.now function.entry) }
{
    match how {
        Some(asked) if asked.lines => unroll_sourced(alloc, ask, file, function, asked),
        _ => unroll_placed(alloc, ask, file, function, how),
    }
}

// The same with the lines of C.
fn unroll_sourced(
    alloc: Global,
    ask: &Ask<'_>,
    file: &[u8],
    function: Function<'_>,
    how: How<'_>,
) -> Result<Answer, AllocError>
    ensures { IfOk result (UnrollsSourced ask.now how.entry file.now function.entry) }
{
    match lines_of(file, function.place.section) {
        Ok(None) => unroll_placed(alloc, ask, file, function, Some(how)),
        Ok(Some(lines)) => unroll_lined(alloc, ask, file, function, lines, how),
        Err(fault) => answer_file_fault(alloc, ask.format, fault),
    }
}

// The same of a function with its lines.
fn unroll_lined(
    alloc: Global,
    ask: &Ask<'_>,
    file: &[u8],
    function: Function<'_>,
    lines: Lines<'_>,
    how: How<'_>,
) -> Result<Answer, AllocError>
    ensures { IfOk result (UnrollsLined ask.now how.entry file.now function.entry lines.entry) }
{
    let slots = function.code.len() / 8;
    let holding = held_lines(alloc, lines, function.place.from, slots)?;
    let source = Headed {
        lines,
        holding: &holding,
    };
    unroll_placed(alloc, ask, file, function, Some(how.with_source(source)))
}

// The same of a function at its place.
fn unroll_placed(
    alloc: Global,
    ask: &Ask<'_>,
    file: &[u8],
    function: Function<'_>,
    how: Option<How<'_>>,
) -> Result<Answer, AllocError>
    ensures { IfOk result (UnrollsPlaced ask.now how.entry file.now function.entry) }
{
    let place = function.place;
    let code = function.code;
    unroll_input(
        alloc,
        ask,
        Form::Raw,
        code,
        how,
        Some(InFile { file, place }),
    )
}

// The response to a function that is no program by itself: it is linked with the data that it reads.
fn unroll_with_data(
    alloc: Global,
    ask: &Ask<'_>,
    name: &str,
    file: &[u8],
    how: Option<How<'_>>,
) -> Result<Answer, AllocError>
    ensures { IfOk result (λ response. (e : ObjectFault) → UnrollsWithData ask.now how.entry name.now file.now e response) }
{
    match requested_with_data(alloc, ask, name, file) {
        Ok(linked) => unroll_data(alloc, ask.format, file, linked, how),
        Err(fault) => answer_no_request(alloc, ask, file, fault),
    }
}

// The response to a function that was linked, with the lines of C where they are asked for.
fn unroll_data(
    alloc: Global,
    format: Format,
    file: &[u8],
    linked: DataRequest<'_>,
    how: Option<How<'_>>,
) -> Result<Answer, AllocError>
    requires { linked.request.decl.context ≡ length linked.request.context.items }
    ensures { IfOk result (UnrollsData format how.entry file.now linked.entry) }
{
    match how {
        Some(asked) if asked.lines => unroll_linked_sourced(alloc, format, file, linked, asked),
        _ => unroll_linked(alloc, format, file, linked, how),
    }
}

// The same with the lines of C.
fn unroll_linked_sourced(
    alloc: Global,
    format: Format,
    file: &[u8],
    linked: DataRequest<'_>,
    how: How<'_>,
) -> Result<Answer, AllocError>
    requires { linked.request.decl.context ≡ length linked.request.context.items }
    ensures { IfOk result (UnrollsLinkedSourced format how.entry file.now linked.entry) }
{
    let function = linked.function.function;
    match lines_of(file, function.place.section) {
        Ok(None) => unroll_linked(alloc, format, file, linked, Some(how)),
        Ok(Some(lines)) => unroll_linked_lined(alloc, format, file, linked, lines, how),
        Err(fault) => answer_file_fault(alloc, format, fault),
    }
}

// The same of a function with its lines.
fn unroll_linked_lined(
    alloc: Global,
    format: Format,
    file: &[u8],
    linked: DataRequest<'_>,
    lines: Lines<'_>,
    how: How<'_>,
) -> Result<Answer, AllocError>
    requires { linked.request.decl.context ≡ length linked.request.context.items }
    ensures { IfOk result (UnrollsLinkedLined format how.entry file.now linked.entry lines.entry) }
{
    let holding = linked_lines(alloc, lines, linked.function.function)?;
    let source = Headed {
        lines,
        holding: &holding,
    };
    unroll_linked(alloc, format, file, linked, Some(how.with_source(source)))
}

// The response to a function that was linked, with the line of C. Its program has one slot more than it.
fn unroll_linked(
    alloc: Global,
    format: Format,
    file: &[u8],
    linked: DataRequest<'_>,
    how: Option<How<'_>>,
) -> Result<Answer, AllocError>
    requires { linked.request.decl.context ≡ length linked.request.context.items }
    ensures { IfOk result (UnrollsLinked format how.entry file.now linked.entry) }
{
    let DataRequest {
        function,
        request,
        data,
        word,
    } = linked;
    let place = function.function.place;
    let Request {
        bytes,
        context,
        decl,
    } = request;
    let run = run_of(context, how);
    let link = Some(Link { bytes: data, word });
    let said = unroll_bytes(alloc, format, &bytes, decl, &kinds(), Wanted { run, link })?;
    under_own(format, file, place, said)
}

// The response to a program in a form.
fn unroll_input(
    alloc: Global,
    ask: &Ask<'_>,
    form: Form,
    input: &[u8],
    how: Option<How<'_>>,
    function: Option<InFile<'_>>,
) -> Result<Answer, AllocError>
    ensures { IfOk result (UnrollsTo ask.now how.entry function.entry form input.now) }
{
    match requested(alloc, form, input, ask.context, ask.held) {
        Ok(request) => unroll_request(alloc, ask.format, request, how, function),
        Err(Stop::Fault(code)) => { answer_unused(alloc, ask.format, ask, form, input, code) }
        Err(Stop::NoMemory) => Err(AllocError),
    }
}

// The response to the bytes of a request.
fn unroll_request(
    alloc: Global,
    format: Format,
    request: Request,
    how: Option<How<'_>>,
    function: Option<InFile<'_>>,
) -> Result<Answer, AllocError>
    requires { request.decl.context ≡ length request.context.items }
    ensures { IfOk result (UnrollsBytes format how.entry function.entry
        (record { bytes = request.bytes.items; context = request.context.items; held = request.decl.held })) }
{
    let Request {
        bytes,
        context,
        decl,
    } = request;
    let run = run_of(context, how);
    let link = None;
    let said = unroll_bytes(alloc, format, &bytes, decl, &kinds(), Wanted { run, link })?;
    with_line(format, said, function)
}

// What is said of bytes, with what is declared and the kinds.
fn unroll_bytes(
    alloc: Global,
    format: Format,
    bytes: &[u8],
    decl: Decl,
    kinds: &[KindRow],
    wanted: Wanted<'_>,
) -> Result<SlotAnswer, AllocError>
    requires kinds { AreKinds kinds.now }
    requires declared { IfSome wanted.run (λ r. decl.context ≡ length r.context.items) }
    ensures { IfOk result (λ said. UnrollsDecoded format wanted.entry (decode_fault bytes.now) bytes.now decl kinds.now said.slot said.answer) }
{
    match decode(alloc, bytes) {
        Ok(program) => unroll_program(alloc, format, &program, decl, kinds, wanted),
        Err(DecodeFault::Bad { slot, code }) => {
            let answer = answer_undecoded(alloc, format, bytes, slot, code)?;
            Ok(SlotAnswer {
                answer,
                slot: Some(slot),
            })
        }
        Err(DecodeFault::NoMemory) => Err(AllocError),
    }
}

// What is said of a program.
fn unroll_program(
    alloc: Global,
    format: Format,
    program: &Program,
    decl: Decl,
    kinds: &[KindRow],
    wanted: Wanted<'_>,
) -> Result<SlotAnswer, AllocError>
    requires kinds { AreKinds kinds.now }
    requires declared { IfSome wanted.run (λ r. decl.context ≡ length r.context.items) }
    ensures { IfOk result (λ said. UnrollsProgram format wanted.entry program.now decl kinds.now said.slot said.answer) }
{
    match lead_forward(alloc, program, decl, kinds) {
        Ok(made) => {
            let answer = use_forward(alloc, format, made, decl, kinds, wanted)?;
            Ok(SlotAnswer { answer, slot: None })
        }
        Err(fault) => {
            let why = why_not(alloc, program, decl, kinds, fault)?;
            let answer = answer_why_not(alloc, format, &why)?;
            let slot = why.slot();
            Ok(SlotAnswer { answer, slot })
        }
    }
}

// The program that was made of it, as is wanted of it.
fn use_forward(
    alloc: Global,
    format: Format,
    made: Forward,
    decl: Decl,
    kinds: &[KindRow],
    wanted: Wanted<'_>,
) -> Result<Answer, AllocError>
    requires kinds { AreKinds kinds.now }
    requires declared { IfSome wanted.run (λ r. decl.context ≡ length r.context.items) }
    requires made { IsDeclared decl kinds.now made }
    ensures { IfOk result (DoesForward format wanted.entry.link wanted.entry.run decl kinds.now made) }
{
    let Wanted { run, link } = wanted;
    match (link, run) {
        (Some(link), run) => send_linked(alloc, format, made, decl, kinds, run, link),
        (None, Some(run)) => run_forward(alloc, format, made, decl, kinds, run),
        (None, None) => answer_copies(alloc, format, made.program(), made.of()),
    }
}
