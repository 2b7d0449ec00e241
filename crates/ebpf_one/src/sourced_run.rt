//! What `one` does of an object file with the lines of C: it runs the function that is asked for, and writes its steps with the lines between.

ghost use Rattle.std.specs.Prelude.{◌≡◌, IfOk, length};
ghost use Rattle.ebpf_one.specs.OneText.{OneLinked, OneLinkedLined, OneLinkedSourced};
ghost use Rattle.ebpf_one.specs.SourcedRun.{OneFunction, OneLined, OneSourced};

use crate::answer::{answer_program, answer_request, answer_with_data};
use crate::headed::{Headed, linked_lines};
use crate::how::How;
use ebpf_command::answer::Answer;
use ebpf_command::format::Format;
use ebpf_command::input::MAX_INPUT;
use ebpf_input::ask::Ask;
use ebpf_input::data_request::DataRequest;
use ebpf_input::form::Form;
use ebpf_input::object::answer_file_fault;
use ebpf_input::source_line::held_lines;
use ebpf_object_file::function::{Function, wanted_function};
use ebpf_object_file::lines::Lines;
use ebpf_object_file::source::lines_of;
use std::alloc::{AllocError, Global};

/// The response to a file, with the lines of C. It fails only where an allocation fails.
pub(crate) fn answer_sourced(
    alloc: Global,
    ask: &Ask<'_>,
    name: &str,
    file: &[u8],
    how: How<'_>,
) -> Result<Answer, AllocError>
    ensures { IfOk result (OneSourced ask.now how.entry name.now file.now) }
{
    if file.len() > MAX_INPUT {
        return answer_program(alloc, ask, Form::Raw, file, how);
    }
    match wanted_function(file, name.as_bytes()) {
        Ok(function) => answer_function(alloc, ask, file, function, how),
        Err(_) => answer_with_data(alloc, ask, name, file, how),
    }
}

// The response to a function of a file.
fn answer_function(
    alloc: Global,
    ask: &Ask<'_>,
    file: &[u8],
    function: Function<'_>,
    how: How<'_>,
) -> Result<Answer, AllocError>
    ensures { IfOk result (OneFunction ask.now how.entry file.now function.entry) }
{
    match lines_of(file, function.place.section) {
        Ok(None) => answer_program(alloc, ask, Form::Raw, function.code, how),
        Ok(Some(lines)) => answer_lined(alloc, ask, function, lines, how),
        Err(fault) => answer_file_fault(alloc, ask.format, fault),
    }
}

// The response to a function with its lines.
fn answer_lined(
    alloc: Global,
    ask: &Ask<'_>,
    function: Function<'_>,
    lines: Lines<'_>,
    how: How<'_>,
) -> Result<Answer, AllocError>
    ensures { IfOk result (OneLined ask.now how.entry function.entry lines.entry) }
{
    let slots = function.code.len() / 8;
    let holding = held_lines(alloc, lines, function.place.from, slots)?;
    let source = Headed {
        lines,
        holding: &holding,
    };
    answer_program(
        alloc,
        ask,
        Form::Raw,
        function.code,
        how.with_source(source),
    )
}

/// The response to a function that was linked with the data that it reads, with the lines of C where they are asked for. It fails only where an
/// allocation fails.
pub(crate) fn answer_linked(
    alloc: Global,
    format: Format,
    file: &[u8],
    linked: DataRequest<'_>,
    how: How<'_>,
) -> Result<Answer, AllocError>
    requires { linked.request.decl.context ≡ length linked.request.context.items }
    ensures { IfOk result (OneLinked format how.entry how.entry.lines file.now linked.entry) }
{
    if how.lines {
        answer_linked_sourced(alloc, format, file, linked, how)
    } else {
        answer_request(alloc, format, linked.request, how)
    }
}

// The same with the lines of C.
fn answer_linked_sourced(
    alloc: Global,
    format: Format,
    file: &[u8],
    linked: DataRequest<'_>,
    how: How<'_>,
) -> Result<Answer, AllocError>
    requires { linked.request.decl.context ≡ length linked.request.context.items }
    ensures { IfOk result (OneLinkedSourced format how.entry file.now linked.entry) }
{
    let function = linked.function.function;
    match lines_of(file, function.place.section) {
        Ok(None) => answer_request(alloc, format, linked.request, how),
        Ok(Some(lines)) => answer_linked_lined(alloc, format, linked, lines, how),
        Err(fault) => answer_file_fault(alloc, format, fault),
    }
}

// The same of a function with its lines.
fn answer_linked_lined(
    alloc: Global,
    format: Format,
    linked: DataRequest<'_>,
    lines: Lines<'_>,
    how: How<'_>,
) -> Result<Answer, AllocError>
    requires { linked.request.decl.context ≡ length linked.request.context.items }
    ensures { IfOk result (OneLinkedLined format how.entry linked.entry lines.entry) }
{
    let holding = linked_lines(alloc, lines, linked.function.function)?;
    let source = Headed {
        lines,
        holding: &holding,
    };
    answer_request(alloc, format, linked.request, how.with_source(source))
}
