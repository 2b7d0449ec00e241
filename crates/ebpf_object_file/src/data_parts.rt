//! The read-only data of a function as one piece: the whole sections that it uses, side by side.

ghost use Rattle.std.specs.Prelude.{◌≡◌, ◌<◌, ◌≤◌, ◌+◌, ◌^◌, All, IfOk, pos, ◌+ℤ◌};
ghost use Rattle.ebpf_object_file.specs.declared.data_parts.TheConstants.{MOST_BYTES};
ghost use Rattle.ebpf_object_file.specs.Header.{header_of};
ghost use Rattle.ebpf_object_file.specs.Section.{sections_in};
ghost use Rattle.ebpf_object_file.specs.File.{IsOpen};
ghost use Rattle.ebpf_object_file.specs.Source.{section_name};
ghost use Rattle.ebpf_object_file.specs.DataFunction.{HasUses};
ghost use Rattle.ebpf_object_file.specs.DataParts.{HasParts, IsLaid, bytes_in};
ghost use Rattle.ebpf_object_file.specs.Laying.{IsLayingIn, IsPlaced};

use crate::data_function::DataFunction;
use crate::data_use::DataUse;
use crate::functions::{MOST_NAME, Name};
use crate::header::{Header, header_of};
use crate::section::{bytes_of, section_of};
use crate::text::text_at;
use std::alloc::{AllocError, Global};

// The most bytes of data: 2 ^ 62, far more than memory has, so that offsets are numbers of 64 bits.
const MOST_BYTES: u64 = 0x4000_0000_0000_0000;

/// A whole section of the file as a part of the data.
#[derive(Clone, Copy)]
pub struct Part {
    /// The number of the section, from 1.
    pub section: u16,
    /// Where the part begins, in bytes from the data's first.
    pub from: u64,
    /// How many bytes the section has.
    pub size: u64,
}

/// The data that a function uses.
#[derive(Drop)]
pub struct Data {
    /// Each section once, in the order in which the slots use them. A part begins where the one before it ends.
    pub parts: Vec<Part>,
    /// For each slot of the function the offset that its immediate is to be, in bytes from the data's first, if it uses data. It can
    /// be outside of the data.
    pub offsets: Vec<Option<i64>>,
    /// How many bytes there are in all.
    pub size: u64,
}

// The data of the first slots, and of each section of the file where its part begins.
#[derive(Drop)]
struct Laying {
    parts: Vec<Part>,
    size: u64,
    begins: Vec<Option<u64>>,
}

impl Laying {
    // Where the part of a section begins. A section that has none gets the next one.
    fn place(&mut self, file: &[u8], header: Header, section: u16) -> Result<u64, AllocError>
        requires file { IsOpen file.now }
        requires header { header ≡ header_of file.now }
        requires section { section < sections_in file.now }
        requires laying { IsLayingIn file.now self.old }
        ensures placed { IfOk result (λ from. IsPlaced file.now section self.old self.new from) }
    {
        if let Some(from) = self.begins[section as usize] {
            return Ok(from);
        }
        let from = self.size;
        let size = bytes_of(file, header, section).len() as u64;
        if size > MOST_BYTES - from {
            return Err(AllocError);
        }
        self.parts.push(Part {
            section,
            from,
            size,
        })?;
        self.begins[section as usize] = Some(from);
        self.size = from + size;
        Ok(from)
    }
}

// The offset of a use from the data's first byte, if its section's part begins at `from`.
fn offset_in(from: u64, used: DataUse) -> i64
    requires { from ≤ MOST_BYTES }
    ensures { result ≡ pos from +ℤ used.offset }
{
    from as i64 + used.offset as i64
}

impl DataFunction<'_> {
    /// The data that the function uses, of the file that the function is from: the whole sections, since an offset can lead anywhere in
    /// one. The time is linear in the slots and the sections. It fails only if an allocation fails, or would.
    pub fn data(&self, alloc: Global, file: &[u8]) -> Result<Data, AllocError>
        requires { HasUses file.now self.now.uses.items }
        ensures laid { IfOk result (λ d. IsLaid file.now self.now.uses.items d) }
        ensures parts { IfOk result (λ d. HasParts file.now d) }
        // So that sums with the length of a context are numbers of 64 bits.
        ensures near { IfOk result (λ d. All (λ p. p.from + p.size ≤ 2 ^ 62) d.parts.items) }
    {
        let header = header_of(file);
        let mut laying = Laying {
            parts: Vec::new(alloc),
            size: 0,
            begins: vec![in alloc; None; header.sections as usize]?,
        };
        let mut offsets: Vec<Option<i64>> = vec![in alloc; None; self.uses.len()]?;
        for slot in 0..self.uses.len() {
            if let Some(used) = self.uses[slot] {
                let from = laying.place(file, header, used.section)?;
                offsets[slot] = Some(offset_in(from, used));
            }
        }
        let Laying { parts, size, .. } = laying;
        Ok(Data {
            parts,
            offsets,
            size,
        })
    }
}

impl Data {
    /// The bytes of the data, from the file that it is from. It fails only if an allocation fails.
    pub fn bytes(&self, alloc: Global, file: &[u8]) -> Result<Vec<u8>, AllocError>
        requires { HasParts file.now self.now }
        ensures { IfOk result (λ bytes. bytes.items ≡ bytes_in file.now self.now) }
    {
        let header = header_of(file);
        let mut bytes = Vec::new(alloc);
        for part in &self.parts {
            bytes.extend_from_slice(bytes_of(file, header, part.section))?;
        }
        Ok(bytes)
    }
}

impl Part {
    /// The name of the section, at most 255 bytes of it.
    pub fn name<'a>(&self, file: &'a [u8]) -> Name<'a>
        requires file { IsOpen file.now }
        requires section { self.now.section < sections_in file.now }
        ensures { result.bytes.now ≡ section_name file.now self.now.section }
    {
        let header = header_of(file);
        let names = bytes_of(file, header, header.names);
        let at = section_of(file, header, self.section).name as usize;
        Name {
            bytes: text_at(names, at, MOST_NAME),
        }
    }
}
