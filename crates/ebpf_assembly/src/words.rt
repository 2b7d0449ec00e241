//! The words of a line.

ghost use Rattle.std.specs.Prelude.{◌≡◌, ◌≢◌, ◌∷◌, ◌++◌, IfOk, List, ℕ, codes};
ghost use Rattle.std.specs.Option.{MatchOption};
ghost use Rattle.ebpf_assembly.specs.Lines.{is_gap, is_word, uncommented, words};
ghost use Rattle.ebpf_assembly.specs.Faults.{IsLabelledWrong, IsUnlabelled};
ghost use Rattle.ebpf_assembly.specs.Reading.{texts};

use crate::number::number;
use std::alloc::{AllocError, Global};

// The words of a line, without its comment.
pub(crate) fn line_words(alloc: Global, line: &[u8]) -> Result<Vec<&[u8]>, AllocError>
    ensures { IfOk result (λ v. texts v.items ≡ words line.now) }
{
    uncommented(line)
        .split(|c| is_gap(*c))
        .filter(|word| is_word(word))
        .collect(alloc)
}

fn uncommented(line: &[u8]) -> &[u8]
    ensures { result.now ≡ uncommented line.now }
{
    match line.iter().position(|c| *c == b';') {
        Some(end) => &line[..end],
        None => line,
    }
}

#[tactic(auto, using(crate::proofs::LineWords::word_test))]
fn is_word(word: &[u8]) -> bool
    ensures { result ≡ is_word word.now }
{
    !word.is_empty()
}

fn is_gap(c: u8) -> bool
    ensures { result ≡ is_gap c }
{
    c == b' ' || c == b'\t' || c == b'\r' || c == b','
}

// What comes before the colon that a word ends with.
pub(crate) fn label(word: &[u8]) -> Option<&[u8]>
    ensures { MatchOption result ((label : List ℕ) → word.now ≢ label ++ codes ":") (λ label. word.now ≡ label.now ++ codes ":") }
{
    let (last, label) = word.split_last()?;
    if *last != b':' {
        return None;
    }
    Some(label)
}

// The words after the label of the slot, or all of them where they begin with no label; `None` where the label is that of another
// slot.
pub(crate) fn unlabelled<'a, 'b>(slot: usize, words: &'a [&'b [u8]]) -> Option<&'a [&'b [u8]]>
    ensures { MatchOption result (IsLabelledWrong slot (texts words.now)) (λ rest. IsUnlabelled slot (texts words.now) (texts rest.now)) }
{
    let Some((first, rest)) = words.split_first() else {
        return Some(words);
    };
    let Some(label) = label(first) else {
        return Some(words);
    };
    let number = number(label)?;
    if number == slot as u64 {
        Some(rest)
    } else {
        None
    }
}
