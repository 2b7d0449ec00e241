//! What `explain` writes of a function of an object file, with its lines of C.

ghost use Rattle.std.specs.Prelude.{◌≡◌, IfOk, None, string_bytes};
ghost use Rattle.ebpf_object_file.specs.declared.object_fault.ObjectFault.{ObjectFault};
ghost use Rattle.ebpf_show.specs.ExplainObject.{ExplainsCode, ExplainsLined, ExplainsLinked, ExplainsUnread, ExplainsFunction, ExplainsObject};
ghost use Rattle.ebpf_input.specs.DataRequest.{CanNameData};
ghost use Rattle.ebpf_show.specs.DataRows.{after_rows};
ghost use Rattle.ebpf_show.specs.ExplainObject.{ExplainsRequest, ExplainsWithData, IsWhole, IsWholeRequest};
ghost use Rattle.ebpf_show.specs.Shown.{states_of};

use crate::copies::linked_slots;
use crate::data_rows::data_rows;
use crate::made::{copied, lines_of as lines_at};
use crate::shown::{Shown, show_input, show_request};
use crate::sourced::{Beside, Sourced};
use ebpf_command::answer::Answer;
use ebpf_command::format::Format;
use ebpf_command::input::MAX_INPUT;
use ebpf_input::ask::Ask;
use ebpf_input::data_request::{DataRequest, requested_with_data};
use ebpf_input::form::Form;
use ebpf_input::no_request::answer_no_request;
use ebpf_input::object::answer_file_fault;
use ebpf_input::request::Request;
use ebpf_input::source_line::held_lines;
use ebpf_object_file::fault::FileFault;
use ebpf_object_file::function::{Function, wanted_function};
use ebpf_object_file::lines::Lines;
use ebpf_object_file::source::lines_of;
use std::alloc::{AllocError, Global};

/// In what detail a program is explained.
#[derive(Clone, Copy)]
pub(crate) struct Detail {
    /// Whether each line of C is written before its instructions.
    pub lines: bool,
    /// Whether the loops of the program are unrolled first.
    pub unroll: bool,
}

/// What is explained of a function.
#[derive(Drop)]
pub(crate) enum Code<'a> {
    /// Its slots, as bytes.
    Own(&'a [u8]),
    /// The program that it was linked to with the data that it reads.
    Linked(LinkedCode),
}

/// A program that a function was linked to.
#[derive(Drop)]
pub(crate) struct LinkedCode {
    pub request: Request,
    /// The rows that say which bytes of its context are which data.
    pub rows: String,
}

// What is shown of a program with the lines of C that are known.
fn states_of<'a>(format: Format, source: Option<Sourced<'a>>) -> Shown<'a>
    ensures { result ≡ states_of format source.entry }
{
    let beside = Beside {
        source,
        copies: None,
    };
    Shown::States { format, beside }
}

// The response to what is explained of a function, with the lines of C that are known.
fn explain_code(
    alloc: Global,
    ask: &Ask<'_>,
    code: Code<'_>,
    source: Option<Sourced<'_>>,
    unroll: bool,
) -> Result<Answer, AllocError>
    requires { IsWhole code }
    ensures { IfOk result (ExplainsCode ask.now unroll code.entry source.entry) }
{
    match code {
        Code::Own(slots) => {
            let shown = states_of(ask.format, source);
            show_input(alloc, shown, unroll, ask, Form::Raw, slots)
        }
        Code::Linked(linked) => explain_linked(alloc, ask.format, linked, source, unroll),
    }
}

// The response to a function that was linked with its data: the slots that are named are the function's own.
fn explain_linked(
    alloc: Global,
    format: Format,
    linked: LinkedCode,
    source: Option<Sourced<'_>>,
    unroll: bool,
) -> Result<Answer, AllocError>
    requires { IsWholeRequest linked.request }
    ensures { IfOk result (ExplainsLinked format unroll linked source.entry) }
{
    let LinkedCode { request, rows } = linked;
    let shown = states_of(format, source);
    let of = linked_slots(alloc)?;
    let lines = lines_at(alloc, shown, &of)?;
    let said = show_request(alloc, copied(shown, &of, &lines), unroll, request)?;
    after_rows(rows, said)
}

// An answer after rows.
fn after_rows(rows: String, said: Answer) -> Result<Answer, AllocError>
    ensures { IfOk result (λ answer. answer ≡ after_rows (string_bytes rows) said) }
{
    let mut text = rows;
    text.push_str(&said.text)?;
    Ok(Answer {
        text,
        done: said.done,
    })
}

// The response to a function with lines.
fn explain_lined(
    alloc: Global,
    ask: &Ask<'_>,
    function: Function<'_>,
    code: Code<'_>,
    lines: Lines<'_>,
    detail: Detail,
) -> Result<Answer, AllocError>
    requires { IsWhole code }
    ensures { IfOk result (ExplainsLined ask.now detail lines.entry function.entry code.entry) }
{
    let holding = held_lines(alloc, lines, function.place.from, function.code.len() / 8)?;
    let source = Sourced {
        lines,
        holding: &holding,
        listed: detail.lines,
    };
    explain_code(alloc, ask, code, Some(source), detail.unroll)
}

// The response to a function with lines that can't be read.
fn explain_unread(
    alloc: Global,
    ask: &Ask<'_>,
    code: Code<'_>,
    fault: FileFault,
    detail: Detail,
) -> Result<Answer, AllocError>
    requires { IsWhole code }
    ensures { IfOk result (ExplainsUnread ask.now detail fault code.entry) }
{
    if detail.lines {
        answer_file_fault(alloc, ask.format, fault)
    } else {
        explain_code(alloc, ask, code, None, detail.unroll)
    }
}

// The response to a function of a file, of which this is explained.
fn explain_function(
    alloc: Global,
    ask: &Ask<'_>,
    file: &[u8],
    function: Function<'_>,
    code: Code<'_>,
    detail: Detail,
) -> Result<Answer, AllocError>
    requires { IsWhole code }
    ensures { IfOk result (ExplainsFunction ask.now detail file.now function.entry code.entry) }
{
    match lines_of(file, function.place.section) {
        Ok(Some(lines)) => explain_lined(alloc, ask, function, code, lines, detail),
        Ok(None) => explain_code(alloc, ask, code, None, detail.unroll),
        Err(fault) => explain_unread(alloc, ask, code, fault, detail),
    }
}

// The response to a function that was linked with the data that it reads.
fn explain_request(
    alloc: Global,
    ask: &Ask<'_>,
    file: &[u8],
    linked: DataRequest<'_>,
    detail: Detail,
) -> Result<Answer, AllocError>
    requires whole { IsWholeRequest linked.request }
    requires data { CanNameData file.now linked.function }
    ensures { IfOk result (ExplainsRequest ask.now detail file.now linked.entry) }
{
    let rows = data_rows(alloc, ask.format, file, &linked)?;
    let DataRequest {
        function,
        request,
        ..
    } = linked;
    let code = Code::Linked(LinkedCode { request, rows });
    explain_function(alloc, ask, file, function.function, code, detail)
}

// The response to a function that is no program by itself: it is linked with the data that it reads.
fn explain_with_data(
    alloc: Global,
    ask: &Ask<'_>,
    file: &[u8],
    name: &str,
    detail: Detail,
) -> Result<Answer, AllocError>
    ensures { IfOk result (λ response. (e : ObjectFault) → ExplainsWithData ask.now detail name.now file.now e response) }
{
    match requested_with_data(alloc, ask, name, file) {
        Ok(linked) => explain_request(alloc, ask, file, linked, detail),
        Err(fault) => answer_no_request(alloc, ask, file, fault),
    }
}

/// The response to a file, of which the function of a name is asked for. It fails only where an allocation fails.
pub(crate) fn explain_file(
    alloc: Global,
    ask: &Ask<'_>,
    file: &[u8],
    name: &str,
    detail: Detail,
) -> Result<Answer, AllocError>
    ensures { IfOk result (ExplainsObject ask.now detail name.now file.now) }
{
    if file.len() > MAX_INPUT {
        return explain_code(alloc, ask, Code::Own(file), None, detail.unroll);
    }
    match wanted_function(file, name.as_bytes()) {
        Ok(function) => {
            let code = Code::Own(function.code);
            explain_function(alloc, ask, file, function, code, detail)
        }
        Err(_) => explain_with_data(alloc, ask, file, name, detail),
    }
}
