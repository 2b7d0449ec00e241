//! Loads, of slots and of a function of an object file, as they are or with their loops unrolled.

ghost use Rattle.std.specs.Prelude.{◌≡◌, ◌≤◌, [], IfOk, IfErr, IfSome, length};
ghost use Rattle.ebpf_host.specs.Loading.{IsFaultBy};
ghost use Rattle.ebpf_host_c.specs.Loads.{LoadsFunction, LoadsIn};
ghost use Rattle.ebpf_host_c.specs.Ways.{IsLoadedBy, IsRefusedBy};

use crate::reported::{InFile, Refused, report_refusal};
use crate::share::keep;
use crate::status::{DECLARATION, NO_MEMORY, REFUSED};
use crate::with_data::load_with_data;
use ebpf_handle::program::ProgramHandle;
use ebpf_host::program::Program;
use ebpf_host::refusal::LoadFault;
use ebpf_object_file::function::wanted_function;
use std::alloc::{AllocError, Global};

/// What becomes of a program with loops.
#[derive(Clone, Copy)]
pub enum Loops {
    /// It is refused.
    Refused,
    /// They are unrolled first.
    Unrolled,
}

/// How slots are loaded: what is declared, and what becomes of loops.
#[derive(Clone, Copy)]
pub(crate) struct Way {
    pub(crate) loops: Loops,
    pub(crate) context: u32,
    pub(crate) held: u32,
}

/// The program of these slots.
pub(crate) fn loaded(alloc: Global, code: &[u8], way: Way) -> Result<Program, LoadFault>
    ensures loaded { IfOk result (λ p. IsLoadedBy way.loops way.context way.held code.now p.verified) }
    ensures declared { IfOk result (λ p. p.verified.decl.context ≡ way.context) }
    ensures alone { IfOk result (λ p. p.data.items ≡ []) }
    ensures refused { IfErr result (IsFaultBy (IsRefusedBy way.loops way.context way.held code.now) way.context way.held) }
{
    let Way {
        loops,
        context,
        held,
    } = way;
    match loops {
        Loops::Refused => Program::load(alloc, code, context, held),
        Loops::Unrolled => Program::load_unrolled(alloc, code, context, held),
    }
}

/// Loads slots, which may be those of a function, into a handle.
pub(crate) fn load_slots(
    alloc: Global,
    program: &mut ProgramHandle,
    code: &[u8],
    source: Option<InFile<'_>>,
    way: Way,
    text: &mut [u8],
    refused: &mut Refused,
) -> u32
    requires { IfSome source (λ f. f.place.from ≤ length f.file.now) }
    ensures { LoadsIn source.entry way.loops way.context way.held code.now
        program.old.value program.new.value text.old text.new refused.old refused.new result }
{
    match loaded(alloc, code, way) {
        Ok(loaded) => keep(alloc, program, loaded),
        Err(LoadFault::Refused(refusal)) => match report_refusal(refusal, source, text, refused) {
            Ok(()) => REFUSED,
            Err(AllocError) => NO_MEMORY,
        },
        Err(LoadFault::Declaration) => DECLARATION,
        Err(LoadFault::NoMemory) => NO_MEMORY,
    }
}

/// Loads a function of an object file into a handle: by itself, or else with the data that it reads.
pub(crate) fn load_function(
    alloc: Global,
    program: &mut ProgramHandle,
    file: &[u8],
    name: &[u8],
    way: Way,
    text: &mut [u8],
    refused: &mut Refused,
) -> u32
    ensures { LoadsFunction way.loops way.context way.held file.now name.now
        program.old.value program.new.value text.old text.new refused.old refused.new result }
{
    match wanted_function(file, name) {
        Ok(function) => {
            let place = function.place;
            let source = Some(InFile { file, place });
            load_slots(alloc, program, function.code, source, way, text, refused)
        }
        Err(_) => load_with_data(alloc, program, file, name, way, text, refused),
    }
}
