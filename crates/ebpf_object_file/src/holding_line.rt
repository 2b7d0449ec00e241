//! The line of C that holds at a slot of a function, as it is shown under what is said of the slot.

ghost use Rattle.ebpf_object_file.specs.HoldingLine.{IsHoldingLine};

use crate::lines::{Line, Lines, SourcePlace};
use crate::outside::Place;
use crate::source::lines_of;
use std::fmt;

/// A line of C, and the lines of its section.
#[derive(Clone, Copy)]
pub struct HoldingLine<'a> {
    pub lines: Lines<'a>,
    pub line: Line,
}

/// The line that holds at a byte of a function, both from the section's first byte. `None` where none holds, and also where the file has no
/// lines of the section, or they can't be read: what is said of a slot needs no line.
pub fn holding_line(file: &[u8], place: Place, at: u64) -> Option<HoldingLine<'_>>
    ensures { IsHoldingLine file.now place at result }
{
    match lines_of(file, place.section) {
        Ok(Some(lines)) => match lines.at(place.from, at) {
            Some(line) => Some(HoldingLine { lines, line }),
            None => None,
        },
        Ok(None) => None,
        Err(_) => None,
    }
}

/// A line indented by two blanks, with its column as a [`SourcePlace`] has it.
impl fmt::Display for HoldingLine<'_> {
    ghost use Rattle.std.specs.Prelude.{Some};
    ghost use Rattle.ebpf_object_file.specs.Shown.{place_row};

    ghost output = { λ h. Some (place_row h.lines h.line) };

    fn fmt<W: fmt::Write>(&self, f: &mut fmt::Formatter<W>) -> fmt::Result {
        let source = self.lines.source(self.line);
        let place = SourcePlace { source };
        write!(f, "  {place}\n")
    }
}
