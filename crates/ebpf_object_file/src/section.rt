//! Section headers, and the bytes of a section.

ghost use Rattle.std.specs.Prelude.{◌≡◌, ◌≤◌, ◌<◌, ◌+◌, length, None, false};
ghost use Rattle.ebpf_object_file.specs.First.{Finds, Counts, NoneBelow};
ghost use Rattle.ebpf_object_file.specs.Header.{header_of, header_fault};
ghost use Rattle.ebpf_object_file.specs.Section.{section_at, section_of as nth_section, has_no_bytes, contents, is_outside, is_wanted, sections_in};
ghost use Rattle.ebpf_object_file.specs.Section.{outside_in, wanted_in, bytes_of};

use crate::field::{is_inside, u32_at, u64_at};
use crate::header::Header;

/// A section header (ELF, "Sections"), without what is passed over: the address, the alignment and the size of an entry.
#[derive(Clone, Copy)]
pub(crate) struct Section {
    /// `sh_name`: where its name begins in the section of names.
    pub name: u32,
    /// `sh_type`.
    pub kind: u32,
    /// `sh_flags`.
    pub flags: u64,
    /// `sh_offset`: where its bytes begin in the file.
    pub offset: u64,
    /// `sh_size`: how many they are.
    pub size: u64,
    /// `sh_link`: of a symbol table, the section of the names.
    pub link: u32,
    /// `sh_info`: of relocations, the section that they are for.
    pub info: u32,
}

/// What a section is looked for.
#[derive(Clone, Copy)]
pub(crate) enum Wanted {
    /// The symbol table, `SHT_SYMTAB`.
    Symbols,
    /// The relocations for a section, `SHT_REL`.
    RelocationsFor(u16),
    /// Those that have addends, `SHT_RELA`.
    AddendsFor(u16),
}

/// How many sections there are of those that were looked for.
#[derive(Clone, Copy)]
pub(crate) enum Count {
    NoSuch,
    One(u16),
    Several,
}

// The section header at an offset.
fn read_section(file: &[u8], at: usize) -> Section
    requires { at + 64 ≤ length file.now }
    ensures { result ≡ section_at file.now at }
{
    Section {
        name: u32_at(file, at),
        kind: u32_at(file, at + 4),
        flags: u64_at(file, at + 8),
        offset: u64_at(file, at + 24),
        size: u64_at(file, at + 32),
        link: u32_at(file, at + 40),
        info: u32_at(file, at + 44),
    }
}

// The section of a number.
pub(crate) fn section_of(file: &[u8], header: Header, index: u16) -> Section
    requires fine { header_fault file.now ≡ None }
    requires header { header ≡ header_of file.now }
    requires index { index < header.sections }
    ensures { result ≡ nth_section file.now index }
{
    read_section(file, header.sections_at as usize + 64 * index as usize)
}

impl Section {
    // Whether the file has no bytes of it.
    fn has_no_bytes(&self) -> bool
        ensures { result ≡ has_no_bytes self.now }
    {
        self.kind == 0 || self.kind == 8
    }

    fn is_wanted(&self, wanted: Wanted) -> bool
        ensures { result ≡ is_wanted wanted self.now }
    {
        match wanted {
            Wanted::Symbols => self.kind == 2,
            Wanted::RelocationsFor(index) => self.kind == 9 && self.info == index as u32,
            Wanted::AddendsFor(index) => self.kind == 4 && self.info == index as u32,
        }
    }

    // Whether its bytes reach beyond the end of the file.
    fn is_outside(&self, file: &[u8]) -> bool
        ensures { result ≡ is_outside file.now self.now }
    {
        !self.has_no_bytes() && !is_inside(file, self.offset, self.size)
    }

    // The bytes of the section.
    pub(crate) fn contents<'a>(&self, file: &'a [u8]) -> &'a [u8]
        requires { is_outside file.now self.now ≡ false }
        ensures { result.now ≡ contents file.now self.now }
    {
        if self.has_no_bytes() {
            return &[];
        }
        let at = self.offset as usize;
        &file[at..at + self.size as usize]
    }
}

// The first section whose bytes reach beyond the end of the file.
pub(crate) fn first_outside(file: &[u8], header: Header) -> Option<u16>
    requires fine { header_fault file.now ≡ None }
    requires header { header ≡ header_of file.now }
    ensures { Finds (outside_in file.now) (sections_in file.now) result }
{
    for index in 0..header.sections {
        if section_of(file, header, index).is_outside(file) {
            return Some(index);
        }
    }
    None
}

// How many sections there are of a kind.
pub(crate) fn count_sections(file: &[u8], header: Header, wanted: Wanted) -> Count
    requires fine { header_fault file.now ≡ None }
    requires header { header ≡ header_of file.now }
    ensures { Counts (wanted_in file.now wanted) (sections_in file.now) result }
{
    let mut count = Count::NoSuch;
    for index in 0..header.sections {
        if section_of(file, header, index).is_wanted(wanted) {
            match count {
                Count::NoSuch => count = Count::One(index),
                Count::One(_) | Count::Several => return Count::Several,
            }
        }
    }
    count
}

// The bytes of the section of a number.
pub(crate) fn bytes_of(file: &[u8], header: Header, index: u16) -> &[u8]
    requires fine { header_fault file.now ≡ None }
    requires inside { NoneBelow (outside_in file.now) (sections_in file.now) }
    requires header { header ≡ header_of file.now }
    requires index { index < sections_in file.now }
    ensures { result.now ≡ bytes_of file.now index }
{
    section_of(file, header, index).contents(file)
}
