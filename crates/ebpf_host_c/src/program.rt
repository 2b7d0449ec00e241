//! Programs, as C loads and frees them.

ghost use Rattle.std.specs.Prelude.{◌≡◌, None};
ghost use Rattle.ebpf_host_c.specs.Loads.{Loads, LoadsFunction};

use crate::loading::{Loops, Way, load_function, load_slots};
use crate::reported::Refused;
use ebpf_handle::program::ProgramHandle;
use std::alloc::Global;

/// Loads a program, and frees what the handle held before. A refusal is reported by `refused`, and its sentence by `text` with a zero
/// after it, as far as there is room.
#[unsafe(no_mangle)]
pub extern "C" fn ebpf_program_load(
    alloc: Global,
    program: &mut ProgramHandle,
    bytes: &[u8],
    context: u32,
    held: u32,
    text: &mut [u8],
    refused: &mut Refused,
) -> u32
    ensures { Loads Loops.Refused context held bytes.now
        program.old.value program.new.value text.old text.new refused.old refused.new result }
{
    let refusing = Way {
        loops: Loops::Refused,
        context,
        held,
    };
    load_slots(alloc, program, bytes, None, refusing, text, refused)
}

/// Loads a program whose jumps may lead back, and otherwise does what [`ebpf_program_load`] does.
#[unsafe(no_mangle)]
pub extern "C" fn ebpf_program_load_unrolled(
    alloc: Global,
    program: &mut ProgramHandle,
    bytes: &[u8],
    context: u32,
    held: u32,
    text: &mut [u8],
    refused: &mut Refused,
) -> u32
    ensures { Loads Loops.Unrolled context held bytes.now
        program.old.value program.new.value text.old text.new refused.old refused.new result }
{
    let unrolling = Way {
        loops: Loops::Unrolled,
        context,
        held,
    };
    load_slots(alloc, program, bytes, None, unrolling, text, refused)
}

/// Loads a function of an object file, that of a name or the file's only one where the name is empty, and otherwise does what
/// [`ebpf_program_load`] does. If it reads constant data of the file, it is linked with that first, and the program keeps the data. A fault
/// of the file, or of that link, is reported as a refusal is. Under the sentence of either is the line of C that holds
/// at the slot, where the file has lines that can be read.
#[unsafe(no_mangle)]
pub extern "C" fn ebpf_program_load_elf(
    alloc: Global,
    program: &mut ProgramHandle,
    bytes: &[u8],
    name: &[u8],
    context: u32,
    held: u32,
    text: &mut [u8],
    refused: &mut Refused,
) -> u32
    ensures { LoadsFunction Loops.Refused context held bytes.now name.now
        program.old.value program.new.value text.old text.new refused.old refused.new result }
{
    let refusing = Way {
        loops: Loops::Refused,
        context,
        held,
    };
    load_function(alloc, program, bytes, name, refusing, text, refused)
}

/// Loads a function of an object file whose jumps may lead back, and otherwise does what [`ebpf_program_load_elf`] does. Of a program that
/// was laid out, the line of C is that of the slot that the refused one copies.
#[unsafe(no_mangle)]
pub extern "C" fn ebpf_program_load_elf_unrolled(
    alloc: Global,
    program: &mut ProgramHandle,
    bytes: &[u8],
    name: &[u8],
    context: u32,
    held: u32,
    text: &mut [u8],
    refused: &mut Refused,
) -> u32
    ensures { LoadsFunction Loops.Unrolled context held bytes.now name.now
        program.old.value program.new.value text.old text.new refused.old refused.new result }
{
    let unrolling = Way {
        loops: Loops::Unrolled,
        context,
        held,
    };
    load_function(alloc, program, bytes, name, unrolling, text, refused)
}

/// Frees a handle, and with the last one its program. The handle holds nothing then, and may be freed again.
#[unsafe(no_mangle)]
pub extern "C" fn ebpf_program_free(alloc: Global, program: &mut ProgramHandle)
    ensures { program.new.value ≡ None }
{
    drop(program.take(alloc));
}
