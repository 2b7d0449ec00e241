//! The lines of C of a section: from the file to the part of `.BTF.ext` that is of it.

ghost use Rattle.std.specs.Prelude.{◌≡◌, ◌≤◌, ◌<◌, ◌+◌, ◌/◌, length, IfOk, IfErr, MatchOption};
ghost use Rattle.ebpf_object_file.specs.First.{Finds};
ghost use Rattle.ebpf_object_file.specs.Header.{header_of};
ghost use Rattle.ebpf_object_file.specs.File.{IsOpen};
ghost use Rattle.ebpf_object_file.specs.Section.{sections_in};
ghost use Rattle.ebpf_object_file.specs.Source.{named_section, AreLines, HasNoLines, IsLinesFault, AreLinesOf, HasNoLinesOf, IsLinesOfFault};

use crate::fault::FileFault;
use crate::field::u32_at;
use crate::functions::{MOST_NAME, open};
use crate::header::Header;
use crate::lines::{Lines, find_part, table_of};
use crate::section::{bytes_of, section_of};
use crate::text::{is_named, text_at};

// The first section of a name.
pub(crate) fn find_section(file: &[u8], header: Header, name: &[u8]) -> Option<u16>
    requires file { IsOpen file.now }
    requires header { header ≡ header_of file.now }
    requires names { header.names < sections_in file.now }
    ensures { Finds (named_section file.now name.now) (sections_in file.now) result }
{
    let names = bytes_of(file, header, header.names);
    for index in 0..header.sections {
        if is_named(names, section_of(file, header, index).name as usize, name) {
            return Some(index);
        }
    }
    None
}

// The lines of a section in the bytes of `.BTF` and `.BTF.ext`, `None` where there are none.
fn lines_in<'a>(btf: &'a [u8], ext: &'a [u8], name: &[u8]) -> Result<Option<Lines<'a>>, FileFault>
    ensures found { IfOk result (λ r. MatchOption r (HasNoLines btf.now ext.now name.now)
        (λ l. AreLines btf.now ext.now name.now l.strings.now l.records.now l.size)) }
    ensures refused { IfErr result (λ e. IsLinesFault btf.now ext.now name.now e) }
{
    let strings = match table_of(btf) {
        None => return Err(FileFault::BadStrings),
        Some(strings) => strings,
    };
    let table = match table_of(ext) {
        None => return Err(FileFault::BadLines),
        Some(table) => table,
    };
    if table.is_empty() {
        return Ok(None);
    }
    if table.len() < 4 {
        return Err(FileFault::BadLines);
    }
    let size = u32_at(table, 0);
    if size < 16 {
        return Err(FileFault::BadLines);
    }
    match find_part(&table[4..], size, strings, name) {
        Ok(Some(part)) => Ok(Some(Lines {
            strings,
            records: part.records,
            size: size as usize,
        })),
        Ok(None) => Ok(None),
        Err(fault) => Err(fault),
    }
}

/// The lines of a section of a file, `None` where it says nothing of them: without `-g`, or without `.BTF`.
///
/// # Errors
/// The first fault: those of the header and the sections, no section of the number, a section's name that is too long, and
/// those of `.BTF` and of `.BTF.ext`.
pub fn lines_of(file: &[u8], section: u16) -> Result<Option<Lines<'_>>, FileFault>
    ensures found { IfOk result (λ r. MatchOption r (HasNoLinesOf file.now section) (λ l. AreLinesOf file.now section l)) }
    ensures refused { IfErr result (λ e. IsLinesOfFault file.now section e) }
    // A file that can't be read, or that has no such section, is a fault.
    ensures there { IfOk result (λ r. IsOpen file.now × (section < sections_in file.now)) }
{
    let header = match open(file) {
        Ok(header) => header,
        Err(fault) => return Err(fault),
    };
    if section >= header.sections {
        return Err(FileFault::NoSection);
    }
    let btf = match find_section(file, header, b".BTF") {
        None => return Ok(None),
        Some(btf) => btf,
    };
    let ext = match find_section(file, header, b".BTF.ext") {
        None => return Ok(None),
        Some(ext) => ext,
    };
    let names = bytes_of(file, header, header.names);
    let at = section_of(file, header, section).name as usize;
    let name = text_at(names, at, MOST_NAME);
    if !is_named(names, at, name) {
        return Err(FileFault::LongSectionName);
    }
    let btf = bytes_of(file, header, btf);
    lines_in(btf, bytes_of(file, header, ext), name)
}
