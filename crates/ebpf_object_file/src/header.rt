//! The header of a file.

ghost use Rattle.std.specs.Prelude.{◌≡◌, ◌≤◌, ◌+◌, ◌*◌, length, List, ℕ, None, Some, MatchResult, IfOk};
ghost use Rattle.ebpf_object_file.specs.Header.{header_of, header_fault, IsObject};

use crate::fault::FileFault;
use crate::field::{is_inside, u16_at, u32_at, u64_at};

/// What is read of the header (ELF, "ELF Header").
#[derive(Clone, Copy)]
pub(crate) struct Header {
    /// `e_shoff`: where the section headers begin, in bytes from the file's first.
    pub sections_at: u64,
    /// `e_shnum`: how many there are.
    pub sections: u16,
    /// `e_shstrndx`: the number of the section that has their names.
    pub names: u16,
}

// The header that the file begins with, or its first fault, in the order of `FileFault`.
pub(crate) fn read_header(file: &[u8]) -> Result<Header, FileFault>
    ensures exact { MatchResult result (λ h. (header_fault file.now ≡ None) × (h ≡ header_of file.now)) (λ e. header_fault file.now ≡ Some e) }
{
    if file.len() < 64 {
        return Err(FileFault::NoHeader);
    }
    if u32_at(file, 0) != 0x464c_457f {
        return Err(FileFault::NotElf);
    }
    if u16_at(file, 4) != 0x0102 || file[6] != 1 {
        return Err(FileFault::NotLittle64);
    }
    if u16_at(file, 16) != 1 {
        return Err(FileFault::NotRelocatable);
    }
    if u16_at(file, 18) != 247 {
        return Err(FileFault::NotBpf);
    }
    if u16_at(file, 58) != 64 {
        return Err(FileFault::HeaderSize);
    }
    let header = Header {
        sections_at: u64_at(file, 40),
        sections: u16_at(file, 60),
        names: u16_at(file, 62),
    };
    if !is_inside(file, header.sections_at, 64 * header.sections as u64) {
        return Err(FileFault::SectionsOutside);
    }
    if header.names >= header.sections {
        return Err(FileFault::NoNames);
    }
    Ok(header)
}

// The header of a file that has no fault of the header.
pub(crate) fn header_of(file: &[u8]) -> Header
    requires { header_fault file.now ≡ None }
    ensures { result ≡ header_of file.now }
{
    match read_header(file) {
        Ok(header) => header,
        Err(_) => unreachable!(),
    }
}

/// A file has no fault of the header exactly if it is an object file of eBPF whose section headers are in it.
pub fn header_is_object()
    ensures fine { (file : List ℕ) → header_fault file ≡ None → IsObject file }
    ensures back { (file : List ℕ) → IsObject file → header_fault file ≡ None }
{}
