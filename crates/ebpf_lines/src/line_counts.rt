//! The lines that hold at the slots of a program: the next one of a file, and how often jobs came to one.

ghost use Rattle.std.specs.Prelude.{◌≡◌, cond, length, get_or};
ghost use Rattle.ebpf_object_file.specs.Data.{any_below};
ghost use Rattle.ebpf_lines.specs.LineCounts.{file_begun, greater, held, is_at, is_of, most_below};
ghost use Rattle.ebpf_lines.specs.Nearest.{is_nearer, nearer, nearest_below};

use ebpf_object_file::lines::Line;

/// The line that holds at a slot.
pub(crate) fn held_at(holding: &[Option<Line>], slot: usize) -> Option<Line>
    ensures { result ≡ held holding.now slot }
{
    if slot < holding.len() {
        holding[slot]
    } else {
        None
    }
}

/// The line of a file that has the least number above a number, as the first slot has it.
pub(crate) fn next_line(holding: &[Option<Line>], file: u32, above: u32) -> Option<Line>
    ensures { result ≡ nearest_below holding.now file above (length holding.now) }
{
    let mut nearest = None;
    for slot in 0..holding.len() {
        nearest = nearer(file, above, nearest, held_at(holding, slot));
    }
    nearest
}

// The nearer of two lines, where the second is of the file and above the number.
fn nearer(file: u32, above: u32, nearest: Option<Line>, line: Option<Line>) -> Option<Line>
    ensures { result ≡ nearer file above nearest line }
{
    match line {
        Some(here) if here.file == file && here.line > above && is_nearer(nearest, here) => line,
        _ => nearest,
    }
}

fn is_nearer(nearest: Option<Line>, line: Line) -> bool
    ensures { result ≡ is_nearer nearest line }
{
    match nearest {
        Some(found) => line.line < found.line,
        None => true,
    }
}

/// The most of the counts of slots whose line this is.
pub(crate) fn most_executed(
    executed: &[u64],
    holding: &[Option<Line>],
    file: u32,
    number: u32,
) -> u64
    ensures { result ≡ most_below (λ k. get_or executed.now k 0) holding.now file number (length holding.now) }
{
    let mut most = 0;
    for slot in 0..holding.len() {
        most = greater(most, count_at(executed, holding, file, number, slot));
    }
    most
}

// The count of a slot, if its line is this. A slot without a count was never executed.
fn count_at(executed: &[u64], holding: &[Option<Line>], file: u32, number: u32, slot: usize) -> u64
    ensures { result ≡ cond (is_at file number (held holding.now slot)) (get_or executed.now slot 0) 0 }
{
    if slot < executed.len() && is_at(file, number, held_at(holding, slot)) {
        executed[slot]
    } else {
        0
    }
}

/// Whether a line is that of a number of a file.
pub(crate) fn is_at(file: u32, number: u32, line: Option<Line>) -> bool
    ensures { result ≡ is_at file number line }
{
    match line {
        Some(line) => line.file == file && line.line == number,
        None => false,
    }
}

fn greater(one: u64, other: u64) -> u64
    ensures { result ≡ greater one other }
{
    if one < other { other } else { one }
}

/// The line at a slot, if it is the first of its file.
pub(crate) fn file_begun(holding: &[Option<Line>], slot: usize) -> Option<Line>
    ensures { result ≡ file_begun holding.now slot }
{
    let line = held_at(holding, slot)?;
    if line.line == 0 || is_any_of(line.file, holding, slot) {
        return None;
    }
    Some(line)
}

// Whether a slot below this one has a line of a file.
fn is_any_of(file: u32, holding: &[Option<Line>], slots: usize) -> bool
    ensures { result ≡ any_below (λ k. is_of file (held holding.now k)) slots }
{
    for slot in 0..slots {
        if is_of(file, held_at(holding, slot)) {
            return true;
        }
    }
    false
}

fn is_of(file: u32, line: Option<Line>) -> bool
    ensures { result ≡ is_of file line }
{
    match line {
        Some(line) => line.file == file && line.line != 0,
        None => false,
    }
}
