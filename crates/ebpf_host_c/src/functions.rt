//! The functions of an object file, as C is given them.

ghost use Rattle.std.specs.Prelude.{◌≡◌, ◌≢◌, ◌⊎◌, length, slice_set};
ghost use Rattle.ebpf_object_file.specs.File.{AreFunctions};
ghost use Rattle.ebpf_host.specs.Copying.{copied};
ghost use Rattle.ebpf_host_c.specs.Functions.{AreGiven, HasFileFault, IsFileRefused, row_of, rows_of};
ghost use Rattle.ebpf_host_c.specs.declared.status.TheConstants.{DONE, NO_MEMORY, REFUSED};

use crate::reported::{Refused, report_fault};
use crate::status::{DONE, NO_MEMORY, REFUSED};
use ebpf_host::copying::copy;
use ebpf_object_file::entry::Entry;
use ebpf_object_file::functions::{Functions, functions_of};
use ebpf_object_file::object_fault::ObjectFault;
use std::alloc::{AllocError, Global};

/// A function of an object file.
#[repr(C)]
#[derive(Drop)]
pub struct FunctionRow {
    /// Its name, at most 255 bytes of it, and zeros after it.
    pub name: [u8; 256],
    /// The name of its section, likewise.
    pub section: [u8; 256],
    /// How many slots of eight bytes it has.
    pub slots: u64,
}

/// Writes the functions of an object file to `functions`, as far as there is room, in the order of its symbol table, and to `count` how many
/// there are. A fault of the file is reported by `refused` and `text`, as [`crate::program::ebpf_program_load_elf`] does.
#[unsafe(no_mangle)]
pub extern "C" fn ebpf_elf_functions(
    alloc: Global,
    bytes: &[u8],
    functions: &mut [FunctionRow],
    count: &mut usize,
    text: &mut [u8],
    refused: &mut Refused,
) -> u32
    ensures given { result ≡ DONE → AreGiven bytes.now functions.old functions.new count.new }
    ensures refused { result ≡ REFUSED → IsFileRefused bytes.now text.old text.new refused.new }
    ensures memory { result ≡ NO_MEMORY → HasFileFault bytes.now }
    ensures statuses { (result ≡ DONE) ⊎ (result ≡ REFUSED) ⊎ (result ≡ NO_MEMORY) }
    ensures ungiven { result ≢ DONE → (functions.new ≡ functions.old) × (count.new ≡ count.old) }
    ensures untold { result ≢ REFUSED → (text.new ≡ text.old) × (refused.new ≡ refused.old) }
{
    match functions_of(bytes) {
        Ok(found) => {
            *count = give(found, functions);
            DONE
        }
        Err(fault) => {
            match report_fault(alloc, bytes, ObjectFault::File(fault), text, refused) {
                Ok(()) => REFUSED,
                Err(AllocError) => NO_MEMORY,
            }
        }
    }
}

// Writes functions, as far as there is room. Returns how many there are.
fn give(functions: Functions<'_>, rows: &mut [FunctionRow]) -> usize
    requires { AreFunctions functions.file.now functions }
    ensures rows { rows.new ≡ copied (rows_of functions.entry) rows.old }
    ensures count { result ≡ length (rows_of functions.entry) }
{
    let mut count = 0;
    for number in 0..functions.symbol_count() {
        if let Some(entry) = functions.entry(number) {
            put(entry, count, rows);
            count += 1;
        }
    }
    count
}

// Writes a function as the one with a number, if there is room.
fn put(entry: Entry<'_>, number: usize, rows: &mut [FunctionRow])
    ensures { rows.new ≡ slice_set rows.old number (row_of entry.entry) }
{
    if number < rows.len() {
        rows[number] = row_of(entry);
    }
}

// A function as C is given it.
fn row_of(entry: Entry<'_>) -> FunctionRow
    ensures { result ≡ row_of entry.entry }
{
    let mut name = [0; 256];
    copy(entry.name.bytes, &mut name);
    let mut section = [0; 256];
    copy(entry.section.bytes, &mut section);
    FunctionRow {
        name,
        section,
        slots: entry.slots,
    }
}
