//! Loads of functions with the data that they read of their object file.

ghost use Rattle.std.specs.Prelude.{◌≡◌, ◌≤◌, true, false, IfOk, IfErr, OnOk, OnErr, length};
ghost use Rattle.ebpf_object_file.specs.DataFunction.{HasUses};
ghost use Rattle.ebpf_host_c.specs.Loads.{LoadsData, LoadsDataOf, RefusesData};
ghost use Rattle.ebpf_host_c.specs.Ways.{IsKept, IsUnshown};
ghost use Rattle.ebpf_host_c.specs.WithData.{IsDataLoaded, IsMadeOf, IsRejectionReported, IsUnloaded, IsUnmade, function_slot};

use crate::loading::{Loops, Way, loaded};
use crate::reported::{InFile, Refused, report_fault, report_refusal};
use crate::said::{Said, report_said, say_fault, say_no_word};
use crate::share::keep;
use crate::status::{DECLARATION, NO_MEMORY, REFUSED};
use ebpf_handle::program::ProgramHandle;
use ebpf_host::program::{Program, declared};
use ebpf_host::refusal::{LoadFault, Refusal};
use ebpf_link::right::is_right;
use ebpf_loader::load::{Loaded, load};
use ebpf_object_file::data_function::{DataFault, DataFunction, function_with_data};
use ebpf_state::kinds::kinds;
use std::alloc::{AllocError, Global};

/// Why no program is made of a function.
#[derive(Drop)]
pub enum Unloaded {
    /// What is declared is out of its range.
    Declaration,
    /// It isn't linked, or not with certainty.
    Told(Said),
    /// The linked slots are refused, at a slot of theirs.
    Rejected(Refusal),
    /// An allocation failed.
    NoMemory,
}

impl From<AllocError> for Unloaded {
    ghost use Rattle.std.specs.Prelude.{◌≡◌};
    ghost use Rattle.ebpf_host_c.specs.declared.with_data.Unloaded.TheVariants.{NoMemory};

    ghost from_gives = { λ _ e. e ≡ NoMemory };

    fn from(_e: AllocError) -> Unloaded {
        Unloaded::NoMemory
    }
}

/// Loads a function of an object file, with the data that it reads, into a handle.
pub(crate) fn load_with_data(
    alloc: Global,
    program: &mut ProgramHandle,
    file: &[u8],
    name: &[u8],
    way: Way,
    text: &mut [u8],
    refused: &mut Refused,
) -> u32
    ensures { LoadsData way.loops way.context way.held file.now name.now
        program.old.value program.new.value text.old text.new refused.old refused.new result }
{
    match function_with_data(alloc, file, name) {
        Ok(function) => load_data(alloc, program, file, &function, way, text, refused),
        Err(DataFault::Object(fault)) => match report_fault(alloc, file, fault, text, refused) {
            Ok(()) => REFUSED,
            Err(AllocError) => NO_MEMORY,
        },
        Err(DataFault::NoMemory) => NO_MEMORY,
    }
}

// Loads a function that was found with its data.
fn load_data(
    alloc: Global,
    program: &mut ProgramHandle,
    file: &[u8],
    function: &DataFunction<'_>,
    way: Way,
    text: &mut [u8],
    refused: &mut Refused,
) -> u32
    requires uses { HasUses file.now function.now.uses.items }
    requires place { function.now.function.place.from ≤ length file.now }
    ensures { LoadsDataOf way.loops way.context way.held file.now function.now
        program.old.value program.new.value text.old text.new refused.old refused.new result }
{
    match data_program(alloc, file, function, way) {
        Ok(made) => keep(alloc, program, made),
        Err(fault) => refuse_data(file, function, fault, text, refused),
    }
}

// The program of a function and its data.
fn data_program(
    alloc: Global,
    file: &[u8],
    function: &DataFunction<'_>,
    way: Way,
) -> Result<Program, Unloaded>
    requires { HasUses file.now function.now.uses.items }
    ensures loaded { IfOk result (IsDataLoaded way.loops way.context way.held file.now function.now) }
    ensures refused { IfErr result (IsUnloaded way.loops way.context way.held file.now function.now) }
{
    let Some(decl) = declared(way.context, way.held) else {
        return Err(Unloaded::Declaration);
    };
    match load(alloc, file, function, decl, &kinds()) {
        Ok(linked) => linked_program(alloc, linked, way.loops),
        Err(fault) => Err(Unloaded::Told(say_fault(alloc, file, function.function.code, &fault)?)),
    }
}

// The program of linked slots and the data after their context.
fn linked_program(alloc: Global, linked: Loaded, loops: Loops) -> Result<Program, Unloaded>
    requires { length linked.data.items ≤ linked.decl.context }
    ensures loaded { IfOk result (IsMadeOf loops linked) }
    ensures refused { IfErr result (IsUnmade loops linked) }
{
    let Loaded {
        bytes,
        data,
        decl,
        word,
    } = linked;
    let way = Way {
        loops,
        context: decl.context,
        held: decl.held as u32,
    };
    match loaded(alloc, &bytes, way) {
        Ok(made) => {
            if is_kept(alloc, loops, &made, word)? {
                Ok(made.with_data(data))
            } else {
                Err(Unloaded::Told(say_no_word(alloc)?))
            }
        }
        Err(LoadFault::Refused(refusal)) => Err(Unloaded::Rejected(refusal)),
        Err(LoadFault::Declaration) => unreachable!(),
        Err(LoadFault::NoMemory) => Err(Unloaded::NoMemory),
    }
}

// Whether the word of a linked program is certain to have the context's pointer in what was made of it.
fn is_kept(alloc: Global, loops: Loops, made: &Program, word: i16) -> Result<bool, AllocError>
    ensures kept { IfOk result (λ kept. kept ≡ true → IsKept loops made.now.verified word) }
    ensures unshown { IfOk result (λ kept. kept ≡ false → IsUnshown loops made.now.verified word) }
{
    match loops {
        Loops::Refused => Ok(true),
        Loops::Unrolled => is_right(alloc, made.verified(), word),
    }
}

// Tells why no program was made of a function.
fn refuse_data(
    file: &[u8],
    function: &DataFunction<'_>,
    fault: Unloaded,
    text: &mut [u8],
    refused: &mut Refused,
) -> u32
    requires { function.now.function.place.from ≤ length file.now }
    ensures { RefusesData file.now function.now fault text.old text.new refused.old refused.new result }
{
    let place = function.function.place;
    let source = InFile { file, place };
    match fault {
        Unloaded::Declaration => DECLARATION,
        Unloaded::Told(said) => match report_said(said, source, text, refused) {
            Ok(()) => REFUSED,
            Err(AllocError) => NO_MEMORY,
        },
        Unloaded::Rejected(refusal) => match report_rejection(refusal, source, text, refused) {
            Ok(()) => REFUSED,
            Err(AllocError) => NO_MEMORY,
        },
        Unloaded::NoMemory => NO_MEMORY,
    }
}

// Tells a refusal of a linked program, with the line of C of the function's slot. It fails only where an allocation fails.
fn report_rejection(
    refusal: Refusal,
    source: InFile<'_>,
    text: &mut [u8],
    refused: &mut Refused,
) -> Result<(), AllocError>
    requires { source.place.from ≤ length source.file.now }
    ensures reported { OnOk result (IsRejectionReported refusal source.entry.place source.entry.file.now text.old text.new refused.new) }
    ensures unchanged { OnErr result ((text.new ≡ text.old) × (refused.new ≡ refused.old)) }
{
    let mut refusal = refusal;
    refusal.given = function_slot(refusal.given);
    report_refusal(refusal, Some(source), text, refused)
}

// The function's slot of a slot of the linked program, which has one more in front.
fn function_slot(slot: Option<u16>) -> Option<u16>
    ensures { result ≡ function_slot slot }
{
    match slot {
        Some(0) | None => None,
        Some(slot) => Some(slot - 1),
    }
}
