//! Which sections of a file have relocations of their own, and whether the file is gcc's.

ghost use Rattle.std.specs.Prelude.{◌≡◌, ◌<◌, IfOk};
ghost use Rattle.ebpf_object_file.specs.Header.{header_of};
ghost use Rattle.ebpf_object_file.specs.Section.{sections_in};
ghost use Rattle.ebpf_object_file.specs.File.{IsOpen};
ghost use Rattle.ebpf_object_file.specs.Data.{has_comment, has_entries};
ghost use Rattle.ebpf_object_file.specs.Reading.{AreMarked};

use crate::header::Header;
use crate::section::{Section, section_of};
use crate::source::find_section;
use std::alloc::{AllocError, Global};

// Whether a section has relocations.
fn has_entries(section: Section) -> bool
    ensures { result ≡ has_entries section }
{
    section.kind == 9 || section.kind == 4
}

// Of each section, whether it has relocations of its own: one pass over the section headers.
pub(crate) fn relocated_sections(
    alloc: Global,
    file: &[u8],
    header: Header,
) -> Result<Vec<bool>, AllocError>
    requires file { IsOpen file.now }
    requires header { header ≡ header_of file.now }
    ensures { IfOk result (λ m. AreMarked file.now m.items) }
{
    let mut marks = vec![in alloc; false; header.sections as usize]?;
    for index in 0..header.sections {
        let section = section_of(file, header, index);
        if has_entries(section) && section.info < header.sections as u32 {
            marks[section.info as usize] = true;
        }
    }
    Ok(marks)
}

// Whether the file has the section in which gcc names itself.
pub(crate) fn has_comment(file: &[u8], header: Header) -> bool
    requires file { IsOpen file.now }
    requires header { header ≡ header_of file.now }
    requires names { header.names < sections_in file.now }
    ensures { result ≡ has_comment file.now }
{
    find_section(file, header, b".comment").is_some()
}
