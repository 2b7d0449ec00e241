//! The lines of all slots of a function, in one pass over the lines of its section.

ghost use Rattle.std.specs.Prelude.{◌≡◌, ◌≤◌, ◌<◌, ◌+◌, ◌*◌, ◌/◌, ℕ, length, None, slice_index_or};
ghost use Rattle.ebpf_object_file.specs.Lines.{is_at, Latest, Holds};

use crate::lines::{Line, Lines, later, line_of};

// Takes out what is there.
fn clear(lines: &mut [Option<Line>])
    ensures len { length lines.new ≡ length lines.old }
    ensures empty { (k : ℕ) → k < length lines.new → slice_index_or lines.new k None ≡ None }
{
    for slot in 0..lines.len() {
        lines[slot] = None;
    }
}

// Puts each line at the slot where it begins to hold, the latest where there are several.
fn gather(size: usize, records: &[u8], from: u64, lines: &mut [Option<Line>])
    requires wide { 16 ≤ size }
    requires empty { (k : ℕ) → k < length lines.old → slice_index_or lines.old k None ≡ None }
    ensures len { length lines.new ≡ length lines.old }
    ensures each { (k : ℕ) → k < length lines.new
        → Latest (is_at from k) size records.now (length records.now / size) (slice_index_or lines.new k None) }
{
    for number in 0..records.len() / size {
        let line = line_of(size, records, number);
        if line.offset as u64 >= from {
            let slot = ((line.offset as u64 - from + 7) / 8) as usize;
            if slot < lines.len() {
                lines[slot] = Some(later(lines[slot], line));
            }
        }
    }
}

impl Lines<'_> {
    /// Writes the line that holds at each slot of a function that begins at a byte of the section, from its first slot on, as many as
    /// there are places. What was in them is overwritten. It takes one pass over the lines of the section.
    pub fn at_slots(&self, from: u64, lines: &mut [Option<Line>])
        ensures len { length lines.new ≡ length lines.old }
        ensures each { (k : ℕ) → k < length lines.new
            → Holds self.now.size self.now.records.now from (from + 8 * k) (length self.now.records.now / self.now.size)
            (slice_index_or lines.new k None) }
    {
        clear(lines);
        gather(self.size, self.records, from, lines);
        for slot in 1..lines.len() {
            if lines[slot].is_none() {
                lines[slot] = lines[slot - 1];
            }
        }
    }
}
