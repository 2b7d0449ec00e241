//! Labels: names for slots.
//!
//! *The idea.* A label names the slot of the instruction after it. How many slots a line takes is seen by its first word, so all
//! labels are known before any instruction is read.

ghost use Rattle.std.specs.Prelude.{◌≡◌, ◌≤◌, ◌+◌, ◌++◌, IfOk, OnOk, option_map, is_some, take};
ghost use Rattle.ebpf_insn.specs.declared.program.TheConstants.{MAX_SLOTS};
ghost use Rattle.ebpf_assembly.specs.declared.label.TheConstants.{MAX_LABELS};
ghost use Rattle.ebpf_assembly.specs.Lines.{text_lines};
ghost use Rattle.ebpf_assembly.specs.Labels.{names_of};
ghost use Rattle.ebpf_assembly.specs.Reading.{texts};
ghost use Rattle.ebpf_assembly.specs.Names.{is_letter, is_lettered, before_colon, name_in, unlabelled, slots_of_word, slots_of_words, slot_after};
ghost use Rattle.ebpf_assembly.specs.Names.{label_of, labels_from, slot_of, is_slot, labels_slot};

use crate::words::{label, line_words};
use ebpf_insn::program::MAX_SLOTS;
use std::alloc::{AllocError, Global};

// The most labels of a text: there are lines with a name by the hundred thousand, each of which is looked for.
const MAX_LABELS: usize = 256;

/// A name, and the slot that it means.
#[derive(Clone, Copy)]
pub struct Label<'a> {
    pub name: &'a [u8],
    pub slot: usize,
}

// The labels of a text, in the order of its lines.
pub(crate) fn read_labels(alloc: Global, text: &[u8]) -> Result<Vec<Label<'_>>, AllocError>
    ensures { IfOk result (λ v. names_of v.items ≡ labels_from 0 (text_lines text.now)) }
{
    let mut labels = Vec::new(alloc);
    let mut slot = 0;
    for line in text.split(|c| *c == b'\n') {
        let words = line_words(alloc, line)?;
        push_label(&mut labels, slot, &words)?;
        slot = slot_after(slot, &words);
    }
    Ok(labels)
}

// The labels that may be named: a name is looked for among them, one by one.
pub(crate) fn first_labels<'a, 'b>(labels: &'a [Label<'b>]) -> &'a [Label<'b>]
    ensures { names_of result.now ≡ take MAX_LABELS (names_of labels.now) }
{
    if labels.len() <= MAX_LABELS {
        return labels;
    }
    &labels[..MAX_LABELS]
}

// Adds the label of a line, if it has one.
fn push_label<'a>(
    labels: &mut Vec<Label<'a>>,
    slot: usize,
    words: &[&'a [u8]],
) -> Result<(), AllocError>
    ensures { OnOk result (names_of labels.new.items ≡ names_of labels.old.items ++ label_of slot (texts words.now)) }
{
    let Some((first, _)) = words.split_first() else {
        return Ok(());
    };
    if let Some(name) = name_in(first) {
        labels.push(Label { name, slot })?;
    }
    Ok(())
}

// The slot after a line.
pub(crate) fn slot_after(slot: usize, words: &[&[u8]]) -> usize
    requires { slot ≤ MAX_SLOTS + 2 }
    ensures value { result ≡ slot_after slot (texts words.now) }
    ensures bound { result ≤ MAX_SLOTS + 2 }
{
    if slot > MAX_SLOTS {
        return slot;
    }
    slot + slots_of_words(unlabelled_words(words))
}

// The words after the label or the slot.
pub(crate) fn unlabelled_words<'a, 'b>(words: &'a [&'b [u8]]) -> &'a [&'b [u8]]
    ensures { texts result.now ≡ unlabelled (texts words.now) }
{
    let Some((first, rest)) = words.split_first() else {
        return words;
    };
    if before_colon(first).is_some() {
        return rest;
    }
    words
}

// How many slots the instruction of these words takes.
fn slots_of_words(words: &[&[u8]]) -> usize
    ensures value { result ≡ slots_of_words (texts words.now) }
    ensures bound { result ≤ 2 }
{
    match words.split_first() {
        None => 0,
        Some((first, _)) => slots_of_word(first),
    }
}

fn slots_of_word(word: &[u8]) -> usize
    ensures value { result ≡ slots_of_word word.now }
    ensures bound { result ≤ 2 }
{
    if word == b"lddw".as_slice() { 2 } else { 1 }
}

// What comes before the colon that a word ends with.
pub(crate) fn before_colon(word: &[u8]) -> Option<&[u8]>
    ensures { option_map (λ label. label.now) result ≡ before_colon word.now }
{
    label(word)
}

// The name of a label.
pub(crate) fn name_in(word: &[u8]) -> Option<&[u8]>
    ensures { option_map (λ name. name.now) result ≡ name_in word.now }
{
    if !is_lettered(word) {
        return None;
    }
    before_colon(word)
}

// Whether a word begins with a letter.
pub(crate) fn is_lettered(word: &[u8]) -> bool
    ensures { result ≡ is_lettered word.now }
{
    match word {
        [c, ..] => is_letter(*c),
        _ => false,
    }
}

fn is_letter(c: u8) -> bool
    ensures { result ≡ is_letter c }
{
    (b'A' <= c && c <= b'Z') || (b'a' <= c && c <= b'z') || c == b'_'
}

// The slot of a name: that of its first label.
pub(crate) fn slot_of(labels: &[Label<'_>], name: &[u8]) -> Option<usize>
    ensures { result ≡ slot_of name.now (names_of labels.now) }
{
    for label in labels {
        if label.name == name {
            return Some(label.slot);
        }
    }
    None
}

// Whether a word is the label of a slot.
pub(crate) fn labels_slot(labels: &[Label<'_>], slot: usize, word: &[u8]) -> bool
    ensures { result ≡ labels_slot (names_of labels.now) slot (name_in word.now) }
{
    match name_in(word) {
        Some(name) => is_slot(slot, slot_of(labels, name)),
        None => false,
    }
}

fn is_slot(slot: usize, target: Option<usize>) -> bool
    ensures { result ≡ is_slot slot target }
{
    match target {
        Some(target) => target == slot,
        None => false,
    }
}
