//! The line of C under what is said of a slot.

ghost use Rattle.std.specs.Prelude.{IfOk};
ghost use Rattle.ebpf_input.specs.Under.{IsOver};

use crate::source_line::write_place_in;
use ebpf_command::answer::Answer;
use ebpf_command::format::Format;
use ebpf_object_file::holding_line::holding_line;
use ebpf_object_file::outside::Place;
use std::alloc::AllocError;

/// Where in an object file a function is.
#[derive(Clone, Copy)]
pub struct InFile<'a> {
    pub file: &'a [u8],
    pub place: Place,
}

/// An answer, and the slot that it speaks of, if it does of one.
#[derive(Drop)]
pub struct SlotAnswer {
    pub answer: Answer,
    pub slot: Option<u16>,
}

/// The answer with the line of C that holds at its slot under it, where the file has lines that can be read. It fails only where an
/// allocation fails.
pub fn with_line(
    format: Format,
    said: SlotAnswer,
    function: Option<InFile<'_>>,
) -> Result<Answer, AllocError>
    ensures { IfOk result (IsOver format function.entry said.slot said.answer) }
{
    let SlotAnswer { mut answer, slot } = said;
    let (Some(function), Some(slot)) = (function, slot) else {
        return Ok(answer);
    };
    let at = function.place.from.saturating_add(8 * slot as u64);
    match holding_line(function.file, function.place, at) {
        Some(holding) => {
            write_place_in(format, &mut answer.text, holding)?;
            Ok(answer)
        }
        None => Ok(answer),
    }
}
