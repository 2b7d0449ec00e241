//! A text without labels and names, which has offsets in their place.

ghost use Rattle.std.specs.Prelude.{◌≡◌, ◌≤◌, ◌++◌, ◌+◌, IfOk, OnOk, codes, string_bytes};
ghost use Rattle.ebpf_insn.specs.declared.program.TheConstants.{MAX_SLOTS};
ghost use Rattle.ebpf_assembly.specs.Lines.{text_lines};
ghost use Rattle.ebpf_assembly.specs.Labels.{names_of};
ghost use Rattle.ebpf_assembly.specs.Reading.{texts};
ghost use Rattle.ebpf_assembly.specs.Names.{own_words, begins_with_j, is_jump, distance_text, target_by, words_text, targeted};
ghost use Rattle.ebpf_assembly.specs.Names.{plain_lines, without_first};

use crate::label::{Label, labels_slot, slot_after, slot_of, unlabelled_words};
use crate::words::line_words;
use std::alloc::{AllocError, Global};

// A newline and a plain line, for each line of a text.
pub(crate) fn plain_lines(
    alloc: Global,
    labels: &[Label<'_>],
    text: &[u8],
) -> Result<Vec<u8>, AllocError>
    ensures { IfOk result (λ v. v.items ≡ plain_lines (names_of labels.now) 0 (text_lines text.now)) }
{
    let mut plain = Vec::new(alloc);
    let mut slot = 0;
    for line in text.split(|c| *c == b'\n') {
        let words = line_words(alloc, line)?;
        plain.push(b'\n')?;
        let own = own_words(labels, slot, &words);
        push_plain(alloc, &mut plain, labels, slot, own)?;
        slot = slot_after(slot, &words);
    }
    Ok(plain)
}

// The text after its first byte.
pub(crate) fn without_first(text: &[u8]) -> &[u8]
    ensures { result.now ≡ without_first text.now }
{
    match text {
        [_, rest @ ..] => rest,
        _ => text,
    }
}

// The words without the label of their slot.
fn own_words<'a, 'b>(labels: &[Label<'_>], slot: usize, words: &'a [&'b [u8]]) -> &'a [&'b [u8]]
    ensures { texts result.now ≡ own_words (names_of labels.now) slot (texts words.now) }
{
    let Some((first, rest)) = words.split_first() else {
        return words;
    };
    if labels_slot(labels, slot, first) {
        return rest;
    }
    words
}

// Adds words, of a jump with the offset to its target.
fn push_plain(
    alloc: Global,
    text: &mut Vec<u8>,
    labels: &[Label<'_>],
    slot: usize,
    words: &[&[u8]],
) -> Result<(), AllocError>
    requires { slot ≤ MAX_SLOTS + 2 }
    ensures { OnOk result (text.new.items ≡ text.old.items ++ words_text (targeted (names_of labels.now) slot (texts words.now))) }
{
    if !is_jump(words) {
        return push_words(text, words);
    }
    let Some((last, others)) = words.split_last() else {
        return Ok(());
    };
    push_words(text, others)?;
    push_target(alloc, text, slot_of(labels, last), slot, last)
}

// Whether words are those of a jump.
fn is_jump(words: &[&[u8]]) -> bool
    ensures { result ≡ is_jump (texts words.now) }
{
    match unlabelled_words(words).split_first() {
        Some((first, _)) => begins_with_j(first),
        None => false,
    }
}

fn begins_with_j(word: &[u8]) -> bool
    ensures { result ≡ begins_with_j word.now }
{
    match word {
        [c, ..] => *c == b'j',
        _ => false,
    }
}

// Adds words, each with a space after it.
fn push_words(text: &mut Vec<u8>, words: &[&[u8]]) -> Result<(), AllocError>
    ensures { OnOk result (text.new.items ≡ text.old.items ++ words_text (texts words.now)) }
{
    for word in words {
        push_word(text, word)?;
    }
    Ok(())
}

fn push_word(text: &mut Vec<u8>, word: &[u8]) -> Result<(), AllocError>
    ensures { OnOk result (text.new.items ≡ text.old.items ++ (word.now ++ codes " ")) }
{
    text.extend_from_slice(word)?;
    text.push(b' ')?;
    Ok(())
}

// Adds the offset from a slot to a target, or the word where there is none.
fn push_target(
    alloc: Global,
    text: &mut Vec<u8>,
    target: Option<usize>,
    slot: usize,
    word: &[u8],
) -> Result<(), AllocError>
    requires { slot ≤ MAX_SLOTS + 2 }
    ensures { OnOk result (text.new.items ≡ text.old.items ++ (target_by slot word.now target ++ codes " ")) }
{
    match target {
        Some(target) => {
            let distance = distance_text(alloc, slot + 1, target)?;
            push_word(text, distance.as_bytes())
        }
        None => push_word(text, word),
    }
}

// How far it is from one slot to another, with the sign.
fn distance_text(alloc: Global, from: usize, to: usize) -> Result<String, AllocError>
    ensures { IfOk result (λ text. string_bytes text ≡ distance_text from to) }
{
    if from <= to {
        let distance = to - from;
        format!(in alloc; "+{distance}")
    } else {
        let distance = from - to;
        format!(in alloc; "-{distance}")
    }
}
