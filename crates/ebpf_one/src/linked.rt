//! Programs that were linked with data of their file, after they were laid out, or after their loops were unrolled.

ghost use Rattle.std.specs.Prelude.{◌≡◌, None, IfOk, IfSome, length};
ghost use Rattle.ebpf_flow.specs.Flow.{flow_fault};
ghost use Rattle.ebpf_machine.specs.World.{kinds_of};
ghost use Rattle.ebpf_machine.specs.Kinds.{known_kinds};
ghost use Rattle.ebpf_state.specs.Kinds.{AreKinds};
ghost use Rattle.ebpf_one.specs.LinkedText.{IsOverOwn, SendsAccepted, SendsLaid, SendsLinked, SendsRight};
ghost use Rattle.ebpf_one.specs.RunText.{IsDeclared};

use crate::answer::answer_copied;
use crate::copies_text::answer_linked;
use crate::running::{Running, judged};
use ebpf_command::answer::Answer;
use ebpf_command::codes::RefusalCode;
use ebpf_command::format::Format;
use ebpf_forward::forward::Forward;
use ebpf_input::data_request::own_slot;
use ebpf_input::in_format::answer_refused;
use ebpf_input::no_request::answer_no_word;
use ebpf_input::under::{InFile, SlotAnswer, with_line};
use ebpf_layout::layout::Laid;
use ebpf_link::right::is_right;
use ebpf_object_file::outside::Place;
use ebpf_state::kinds::KindRow;
use ebpf_verify::decl::Decl;
use ebpf_verify::fault::VerifyFault;
use ebpf_verify::verified::Verified;
use std::alloc::{AllocError, Global};

/// What a program was linked with.
#[derive(Drop)]
pub(crate) struct Link {
    /// The bytes of the data, which come after the context's.
    pub(crate) bytes: Vec<u8>,
    /// The word of the stack that has the context's pointer, in bytes from r10.
    pub(crate) word: i16,
}

/// The response to a linked program of which every jump leads forward: what its run did or, where none is asked for, the program and its
/// data as hex; or where the verifier refuses it, or that the word isn't certain to keep the context's pointer. It fails only where an allocation
/// fails.
pub(crate) fn send_linked(
    alloc: Global,
    format: Format,
    made: Forward,
    decl: Decl,
    kinds: &[KindRow],
    run: Option<Running<'_>>,
    link: Link,
) -> Result<Answer, AllocError>
    requires kinds { AreKinds kinds.now }
    requires made { IsDeclared decl kinds.now made }
    requires declared { IfSome run (λ r. decl.context ≡ length r.context.items) }
    ensures { IfOk result (SendsLinked format run.entry link decl kinds.now made) }
{
    match made {
        Forward::LaidOut(laid) => send_laid(alloc, format, laid, decl, kinds, run, link),
        Forward::Unrolled(unrolled) => {
            send_accepted(alloc, format, &unrolled.verified, &unrolled.of, run, link)
        }
    }
}

/// The response to one that was laid out. It fails only where an allocation fails.
pub(crate) fn send_laid(
    alloc: Global,
    format: Format,
    laid: Laid,
    decl: Decl,
    kinds: &[KindRow],
    run: Option<Running<'_>>,
    link: Link,
) -> Result<Answer, AllocError>
    requires kinds { AreKinds kinds.now }
    requires fine { flow_fault laid.program ≡ None }
    requires declared { IfSome run (λ r. decl.context ≡ length r.context.items) }
    ensures { IfOk result (SendsLaid format run.entry link (record { program = laid.program; decl = decl; rows = kinds.now }) laid.of.items) }
{
    let Laid { program, of } = laid;
    match judged(alloc, program, decl, kinds) {
        Ok(verified) => send_accepted(alloc, format, &verified, &of, run, link),
        Err(VerifyFault::Refused { slot, code }) => {
            answer_refused(alloc, format, RefusalCode::Verify(code).name(), slot)
        }
        Err(VerifyFault::NoMemory) => Err(AllocError),
    }
}

// The response to one that is accepted.
fn send_accepted(
    alloc: Global,
    format: Format,
    verified: &Verified,
    of: &[Option<u16>],
    run: Option<Running<'_>>,
    link: Link,
) -> Result<Answer, AllocError>
    requires declared { IfSome run (λ r. verified.now.decl.context ≡ length r.context.items) }
    requires kinds { kinds_of verified.now.rows ≡ known_kinds }
    ensures { IfOk result (SendsAccepted format run.entry link verified.now of.now) }
{
    let Link { bytes, word } = link;
    if is_right(alloc, verified, word)? {
        send_right(alloc, format, verified, of, run, &bytes)
    } else {
        answer_no_word(alloc, format)
    }
}

// The response to one whose word is certain to keep the context's pointer.
fn send_right(
    alloc: Global,
    format: Format,
    verified: &Verified,
    of: &[Option<u16>],
    run: Option<Running<'_>>,
    after: &[u8],
) -> Result<Answer, AllocError>
    requires declared { IfSome run (λ r. verified.now.decl.context ≡ length r.context.items) }
    requires kinds { kinds_of verified.now.rows ≡ known_kinds }
    ensures { IfOk result (SendsRight format run.entry after.now verified.now of.now) }
{
    match run {
        Some(run) => answer_copied(alloc, format, verified, of, run.context, run.how),
        None => answer_linked(alloc, format, verified.program(), of, after),
    }
}

/// The answer to a function that was linked, with the line of C that holds at the function's own slot under it. The linked program has one slot
/// more. It fails only where an allocation fails.
pub(crate) fn under_own(
    format: Format,
    file: &[u8],
    place: Place,
    said: SlotAnswer,
) -> Result<Answer, AllocError>
    ensures { IfOk result (IsOverOwn format file.now place said.slot said.answer) }
{
    let SlotAnswer { answer, slot } = said;
    let slot = own_slot(slot);
    with_line(
        format,
        SlotAnswer { answer, slot },
        Some(InFile { file, place }),
    )
}
