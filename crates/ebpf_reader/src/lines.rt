//! The lines of a script.

ghost use Rattle.std.specs.Prelude.{◌≡◌, ◌≤◌, ◌<◌, ◌==◌, Bool, true, false, All, ◌||◌, length, map, take, slice_index};
ghost use Rattle.std.specs.List.{list_all};
ghost use Rattle.ebpf_reader.specs.ScriptLines.{IsFirst, is_text_byte, is_text};
ghost use Rattle.ebpf_reader.specs.Words.{words};

use crate::words::{Words, word_length};

/// A line of a text, and its first words.
#[derive(Drop)]
pub(crate) struct Line<'a, 'w> {
    pub(crate) bytes: &'a [u8],
    pub(crate) words: &'w [&'a [u8]],
    ghost split: { map (λ w. w.now) words.now ≡ take 6 (Rattle.ebpf_reader.specs.Words.words bytes.now) },
}

/// The first line of a text. Its words are kept in the memory that is lent.
pub(crate) fn first_line<'a, 'w>(text: &'a [u8], kept: &'w mut Words<'a>) -> Line<'a, 'w>
    ensures { IsFirst text.now result.bytes.now }
{
    let length = split_line(text, kept);
    Line {
        bytes: &text[..length],
        words: kept.as_slice(),
    }
}

// How long the first line of a text is; its words are those that are kept.
fn split_line<'a>(text: &'a [u8], kept: &mut Words<'a>) -> usize
    ensures within { result ≤ length text.now }
    ensures whole { All (λ c. (c == 10) ≡ false) (take result text.now) }
    ensures end { result < length text.now → (slice_index text.now result == 10) ≡ true }
    ensures split { kept.new ≡ take 6 (words (take result text.now)) }
{
    kept.restart();
    let mut start = 0;
    loop {
        let end = start + word_length(&text[start..]);
        kept.add(&text[start..end]);
        if end == text.len() || text[end] == b'\n' {
            return end;
        }
        start = end + 1;
    }
}

/// Whether a text has only newlines and the bytes that a line may have.
pub(crate) fn is_script_text(text: &[u8]) -> bool
    ensures { result ≡ list_all (λ c. is_text_byte c || c == 10) text.now }
{
    let mut all = true;
    // It goes on to the end, so that many bytes are looked at in one step.
    for c in text {
        all &= is_script_byte(*c);
    }
    all
}

fn is_script_byte(c: u8) -> bool
    ensures { result ≡ (is_text_byte c || c == 10) }
{
    is_text_byte(c) || c == b'\n'
}

/// Whether a line has only tabs, carriage returns and the bytes 0x20 to 0x7e.
#[tactic(auto, unfolding(crate::specs::ScriptLines::is_text))]
pub(crate) fn is_text(line: &[u8]) -> bool
    ensures { result ≡ is_text line.now }
{
    line.iter().all(|c| is_text_byte(*c))
}

fn is_text_byte(c: u8) -> bool
    ensures { result ≡ is_text_byte c }
{
    c == b'\t' || c == b'\r' || (0x20 <= c && c <= 0x7e)
}
