//! The lines of C that `.BTF` and `.BTF.ext` have.

ghost use Rattle.std.specs.Prelude.{◌≡◌, ◌≤◌, ◌<◌, ◌≢◌, ◌+◌, ◌*◌, ◌/◌, length, true, false, drop, [], MatchOption, MatchResult, IfOk, IfErr};
ghost use Rattle.ebpf_object_file.specs.Lines.{is_headed, has_table, table_of, is_part, part_of, part_size, IsPartNamed, HasNoPart, IsBroken};
ghost use Rattle.ebpf_object_file.specs.Lines.{viewed, is_between, Holds, line_of as nth_line, later, is_blank, trimmed, file_limit, text_limit};
ghost use Rattle.ebpf_object_file.specs.Text.{text_at};
ghost use Rattle.ebpf_object_file.specs.declared.fault.FileFault.TheVariants.{BadLines};

use crate::fault::FileFault;
use crate::field::{is_inside, u16_at, u32_at};
use crate::text::{is_named, text_at};

// The most bytes of a file's name, and of a line's text.
const MOST_FILE: usize = 4096;

const MOST_TEXT: usize = 255;

// Whether the bytes begin as `.BTF` and `.BTF.ext` do.
fn is_headed(bytes: &[u8]) -> bool
    ensures { result ≡ is_headed bytes.now }
{
    bytes.len() >= 24 && u16_at(bytes, 0) == 0xeb9f && bytes[2] == 1 && u32_at(bytes, 4) >= 24
}

// The strings of `.BTF`, or the lines of `.BTF.ext`.
pub(crate) fn table_of(bytes: &[u8]) -> Option<&[u8]>
    ensures { MatchOption result (has_table bytes.now ≡ false) (λ t. (has_table bytes.now ≡ true) × (t.now ≡ table_of bytes.now)) }
{
    if !is_headed(bytes) {
        return None;
    }
    let at = u32_at(bytes, 4) as u64 + u32_at(bytes, 16) as u64;
    let size = u32_at(bytes, 20) as u64;
    if !is_inside(bytes, at, size) {
        return None;
    }
    Some(&bytes[at as usize..at as usize + size as usize])
}

/// A section's part of the lines: where its name begins in the strings, and its records.
#[derive(Clone, Copy)]
pub(crate) struct Part<'a> {
    pub name: u32,
    pub records: &'a [u8],
}

// The part that bytes begin with, and the bytes after it.
fn first_part(bytes: &[u8], size: u32) -> Option<(Part<'_>, &[u8])>
    ensures { MatchOption result (is_part size bytes.now ≡ false)
        (λ x. (is_part size bytes.now ≡ true) × (x.0.name ≡ (part_of size bytes.now).name) × (x.0.records.now ≡ (part_of size bytes.now).records)
        × (x.1.now ≡ drop (part_size size bytes.now) bytes.now)) }
{
    if bytes.len() < 8 {
        return None;
    }
    let count = u32_at(bytes, 4);
    let whole = 8 + size as u64 * count as u64;
    if !is_inside(bytes, 0, whole) {
        return None;
    }
    let whole = whole as usize;
    Some((
        Part {
            name: u32_at(bytes, 0),
            records: &bytes[8..whole],
        },
        &bytes[whole..],
    ))
}

// The first part of the section of a name. `Err` where bytes before it are no part.
pub(crate) fn find_part<'a>(
    bytes: &'a [u8],
    size: u32,
    strings: &[u8],
    name: &[u8],
) -> Result<Option<Part<'a>>, FileFault>
    ensures found { IfOk result (λ r. MatchOption r (HasNoPart size strings.now name.now bytes.now)
        (λ p. IsPartNamed size strings.now name.now bytes.now (viewed p))) }
    ensures refused { IfErr result (λ e. (e ≡ BadLines) × IsBroken size strings.now name.now bytes.now) }
{
    let mut rest = bytes;
    while !rest.is_empty() {
        match first_part(rest, size) {
            None => return Err(FileFault::BadLines),
            Some((part, after)) => {
                if is_named(strings, part.name as usize, name) {
                    return Ok(Some(part));
                }
                rest = after;
            }
        }
    }
    Ok(None)
}

/// A line of C (the kernel's BTF documentation, `struct bpf_line_info`).
#[derive(Clone, Copy)]
pub struct Line {
    /// `insn_off`: from which byte of its section on it holds.
    pub offset: u32,
    /// `file_name_off`: where its file's name begins in the strings.
    pub file: u32,
    /// `line_off`: where its text begins in the strings.
    pub text: u32,
    /// The high 22 bits of `line_col`.
    pub line: u32,
    /// The low 10 bits of `line_col`.
    pub column: u32,
}

// The line of a number.
pub(crate) fn line_of(size: usize, records: &[u8], number: usize) -> Line
    requires size { 16 ≤ size }
    requires number { number < length records.now / size }
    ensures { result ≡ nth_line size records.now number }
{
    let at = size * number;
    let place = u32_at(records, at + 12);
    Line {
        offset: u32_at(records, at),
        file: u32_at(records, at + 4),
        text: u32_at(records, at + 8),
        line: place / 1024,
        column: place % 1024,
    }
}

impl Line {
    // Whether it begins from one byte on, and not after another.
    fn is_between(&self, from: u64, at: u64) -> bool
        ensures { result ≡ is_between from at self.now }
    {
        self.offset as u64 >= from && self.offset as u64 <= at
    }
}

// The line that begins later, or the second where both begin at the same byte.
pub(crate) fn later(best: Option<Line>, line: Line) -> Line
    ensures { result ≡ later best line }
{
    match best {
        Some(found) if line.offset < found.offset => found,
        _ => line,
    }
}

// The line that holds at a byte of a function that begins at another.
pub(crate) fn line_at(size: usize, records: &[u8], from: u64, at: u64) -> Option<Line>
    requires { 16 ≤ size }
    ensures { Holds size records.now from at (length records.now / size) result }
{
    let mut best: Option<Line> = None;
    for number in 0..records.len() / size {
        let line = line_of(size, records, number);
        if line.is_between(from, at) {
            best = Some(later(best, line));
        }
    }
    best
}

fn is_blank(byte: u8) -> bool
    ensures { result ≡ is_blank byte }
{
    byte == b'\t' || byte == b' '
}

// A text without the tabs and blanks that it begins with.
pub(crate) fn trimmed(text: &[u8]) -> &[u8]
    ensures { result.now ≡ trimmed text.now }
{
    for start in 0..text.len() {
        if !is_blank(text[start]) {
            return &text[start..];
        }
    }
    &[]
}

/// The lines of a section, and the strings that they name.
#[derive(Clone, Copy)]
pub struct Lines<'a> {
    pub(crate) strings: &'a [u8],
    pub(crate) records: &'a [u8],
    // The bytes of a record.
    pub(crate) size: usize,
    ghost wide: { 16 ≤ size },
}

/// A line of C, to be shown.
#[derive(Clone, Copy)]
pub struct SourceLine<'a> {
    /// The file's name as the compiler was given it, its folder with it. Past 4096 bytes it is cut.
    pub file: &'a [u8],
    /// The line's number in the file, from 1.
    pub line: u32,
    /// The column, from 1, or 0 where the compiler names none, as at a function's first slot.
    pub column: u32,
    /// The line's text without the tabs and blanks that it begins with. Past 255 bytes, those with it, it is cut.
    pub text: &'a [u8],
}

/// A line of C, to be shown with its column.
#[derive(Clone, Copy)]
pub struct SourcePlace<'a> {
    pub source: SourceLine<'a>,
}

impl<'a> Lines<'a> {
    /// The line that holds at a byte of a function that begins at another, both from the section's first byte: the last
    /// of those that begin between the two. `None` where none does.
    pub fn at(&self, from: u64, at: u64) -> Option<Line>
        ensures { Holds self.now.size self.now.records.now from at (length self.now.records.now / self.now.size) result }
    {
        line_at(self.size, self.records, from, at)
    }

    /// What is to be shown of a line.
    pub fn source(&self, line: Line) -> SourceLine<'a>
        ensures file { result.file.now ≡ text_at self.now.strings.now line.file file_limit }
        ensures line { result.line ≡ line.line }
        ensures column { result.column ≡ line.column }
        ensures text { result.text.now ≡ trimmed (text_at self.now.strings.now line.text text_limit) }
    {
        SourceLine {
            file: text_at(self.strings, line.file as usize, MOST_FILE),
            line: line.line,
            column: line.column,
            text: trimmed(text_at(self.strings, line.text as usize, MOST_TEXT)),
        }
    }
}
