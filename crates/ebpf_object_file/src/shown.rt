//! A line of C as it is shown.

ghost use Rattle.std.specs.Prelude.{◌≡◌, ◌<◌};
ghost use Rattle.ebpf_object_file.specs.Shown.{visible_byte, is_one_line};

use crate::lines::{Line, SourceLine, SourcePlace};
use std::fmt;

// The byte, where it is a visible character of ASCII or a blank, and else `?`.
fn visible_byte(byte: u8) -> u8
    ensures shown { result ≡ visible_byte byte }
    ensures ascii { result < 128 }
{
    if byte.is_ascii_graphic() || byte == b' ' {
        byte
    } else {
        b'?'
    }
}

impl Line {
    /// Whether it is the same line of the same file as another.
    pub fn is_one_line(&self, other: Line) -> bool
        ensures { result ≡ is_one_line self.now other }
    {
        self.file == other.file && self.line == other.line
    }
}

// A text of a file, any bytes.
#[derive(Clone, Copy)]
struct Shown<'a> {
    bytes: &'a [u8],
}

impl fmt::Display for Shown<'_> {
    ghost use Rattle.std.specs.Prelude.{Some, map};
    ghost use Rattle.ebpf_object_file.specs.Shown.{visible_byte};

    ghost output = { λ s. Some (map visible_byte s.bytes.now) };

    fn fmt<W: fmt::Write>(&self, f: &mut fmt::Formatter<W>) -> fmt::Result {
        for byte in self.bytes {
            f.write_char(visible_byte(*byte) as char)?;
        }
        Ok(())
    }
}

/// `FILE:LINE: TEXT`, with a `?` for each byte that is no visible character of ASCII and no blank.
impl fmt::Display for SourceLine<'_> {
    ghost use Rattle.std.specs.Prelude.{Some};
    ghost use Rattle.ebpf_object_file.specs.Shown.{shown_line};

    ghost output = { λ s. Some (shown_line s.file.now s.line s.text.now) };

    fn fmt<W: fmt::Write>(&self, f: &mut fmt::Formatter<W>) -> fmt::Result {
        let file = Shown { bytes: self.file };
        let line = self.line;
        let text = Shown { bytes: self.text };
        write!(f, "{file}:{line}: {text}")
    }
}

/// `FILE:LINE:COLUMN: TEXT`, with a `?` as in a [`SourceLine`], or that where the column is 0.
impl fmt::Display for SourcePlace<'_> {
    ghost use Rattle.std.specs.Prelude.{Some};
    ghost use Rattle.ebpf_object_file.specs.Shown.{shown_place};

    ghost output = { λ p. Some (shown_place p.source.file.now p.source.line p.source.column p.source.text.now) };

    fn fmt<W: fmt::Write>(&self, f: &mut fmt::Formatter<W>) -> fmt::Result {
        let source = self.source;
        let column = source.column;
        if column == 0 {
            return write!(f, "{source}");
        }
        let file = Shown { bytes: source.file };
        let line = source.line;
        let text = Shown { bytes: source.text };
        write!(f, "{file}:{line}:{column}: {text}")
    }
}
