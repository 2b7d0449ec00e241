//! What `lay-out` writes of a function that reads data of its object file.

ghost use Rattle.std.specs.Prelude.{◌≡◌, None, IfOk};
ghost use Rattle.ebpf_insn.specs.Decoding.{decode_fault};
ghost use Rattle.ebpf_state.specs.Kinds.{AreKinds};
ghost use Rattle.ebpf_object_file.specs.declared.object_fault.ObjectFault.{ObjectFault};
ghost use Rattle.ebpf_one.specs.LayOutLinked.{LaysLinkedDecoded, LaysLinkedProgram, LaysOutLinked, LaysOutWithData};

use crate::linked::{Link, send_laid, under_own};
use ebpf_command::answer::Answer;
use ebpf_command::format::Format;
use ebpf_forward::why_not::why_not_laid;
use ebpf_input::ask::Ask;
use ebpf_input::data_request::{DataRequest, requested_with_data};
use ebpf_input::input_faults::answer_undecoded;
use ebpf_input::no_request::answer_no_request;
use ebpf_input::request::Request;
use ebpf_input::under::SlotAnswer;
use ebpf_input::why_not::answer_why_not;
use ebpf_insn::decode::decode;
use ebpf_insn::fault::DecodeFault;
use ebpf_insn::program::Program;
use ebpf_layout::layout::lay_out as lay_out_program;
use ebpf_state::kinds::{KindRow, kinds};
use ebpf_verify::decl::Decl;
use std::alloc::{AllocError, Global};

/// The response to a function that is no program by itself: it is linked with the data that it reads. It fails only where an allocation
/// fails.
pub(crate) fn lay_out_with_data(
    alloc: Global,
    ask: &Ask<'_>,
    name: &str,
    file: &[u8],
) -> Result<Answer, AllocError>
    ensures { IfOk result (λ response. (e : ObjectFault) → LaysOutWithData ask.now name.now file.now e response) }
{
    match requested_with_data(alloc, ask, name, file) {
        Ok(linked) => lay_out_linked(alloc, ask.format, file, linked),
        Err(fault) => answer_no_request(alloc, ask, file, fault),
    }
}

// The response to a function that was linked, with the line of C.
fn lay_out_linked(
    alloc: Global,
    format: Format,
    file: &[u8],
    linked: DataRequest<'_>,
) -> Result<Answer, AllocError>
    ensures { IfOk result (LaysOutLinked format file.now linked.entry) }
{
    let DataRequest {
        function,
        request,
        data,
        word,
    } = linked;
    let place = function.function.place;
    let Request { bytes, decl, .. } = request;
    let link = Link { bytes: data, word };
    let said = lay_out_bytes(alloc, format, &bytes, decl, &kinds(), link)?;
    under_own(format, file, place, said)
}

// What is said of the bytes of a linked program.
fn lay_out_bytes(
    alloc: Global,
    format: Format,
    bytes: &[u8],
    decl: Decl,
    kinds: &[KindRow],
    link: Link,
) -> Result<SlotAnswer, AllocError>
    requires { AreKinds kinds.now }
    ensures { IfOk result (λ said. LaysLinkedDecoded format link (decode_fault bytes.now) bytes.now decl kinds.now said.slot said.answer) }
{
    match decode(alloc, bytes) {
        Ok(program) => answer_program(alloc, format, &program, decl, kinds, link),
        Err(DecodeFault::Bad { slot, code }) => {
            let answer = answer_undecoded(alloc, format, bytes, slot, code)?;
            Ok(SlotAnswer {
                answer,
                slot: Some(slot),
            })
        }
        Err(DecodeFault::NoMemory) => Err(AllocError),
    }
}

// What is said of a linked program.
fn answer_program(
    alloc: Global,
    format: Format,
    program: &Program,
    decl: Decl,
    kinds: &[KindRow],
    link: Link,
) -> Result<SlotAnswer, AllocError>
    requires { AreKinds kinds.now }
    ensures { IfOk result (λ said. LaysLinkedProgram format link program.now decl kinds.now said.slot said.answer) }
{
    match lay_out_program(alloc, program) {
        Ok(laid) => {
            let answer = send_laid(alloc, format, laid, decl, kinds, None, link)?;
            Ok(SlotAnswer { answer, slot: None })
        }
        Err(fault) => {
            let why = why_not_laid(alloc, program, fault)?;
            let answer = answer_why_not(alloc, format, &why)?;
            let slot = why.slot();
            Ok(SlotAnswer { answer, slot })
        }
    }
}
