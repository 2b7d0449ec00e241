//! Why a line is at fault, more exactly than its fault says.
//!
//! *The idea.* A line is read as a whole or not at all. Once one is refused, its words are looked at again, one by one, up to the first
//! that no instruction has there.

ghost use Rattle.std.specs.Prelude.{◌≡◌, ◌<◌, ◌^◌, ◌↔◌, ◌+◌, length, true, IfOk};
ghost use Rattle.ebpf_assembly.specs.Names.{labels_of};
ghost use Rattle.ebpf_assembly.specs.Labels.{names_of};
ghost use Rattle.ebpf_assembly.specs.Reading.{texts};
ghost use Rattle.ebpf_assembly.specs.Causes.{line_of, wanted_by, Fits, IsCause, IsCauseBy, IsMisfitFrom, IsOperandsCause, IsWordCause};
ghost use Rattle.ebpf_assembly.specs.Causes.{IsWordsCause, is_labelled, label_cause, labelled_by, misfit};

use crate::fault::LineFault;
use crate::kind::{Kind, read_kind};
use crate::label::{
    Label, before_colon, first_labels, is_lettered, name_in, read_labels, slot_of, unlabelled_words,
};
use crate::number::{far_offset, immediate, number, offset};
use crate::operand::{place, register, source};
use crate::words::line_words;
use std::alloc::{AllocError, Global};

/// What an operand has to be.
#[derive(Clone, Copy, Debug)]
pub enum Wanted {
    /// A register: `r0` to `r10`.
    Register,
    /// A register, or an immediate.
    Source,
    /// An immediate: 32 bits, with a minus if it is negative.
    Immediate,
    /// A number of 64 bits, with no sign.
    Number,
    /// A place in memory: a base and an offset of 16 bits, as `[r1+0]`.
    Place,
    /// An offset of 16 bits with its sign, or a label.
    Offset,
    /// An offset of 32 bits with its sign, or a label.
    FarOffset,
}

/// Why a line is at fault.
#[derive(Clone, Copy, Debug)]
pub enum Cause {
    /// What is before the colon is neither the slot of the instruction nor a label.
    OtherSlot,
    /// A second label or slot comes after the first.
    SecondLabel,
    /// Its label is that of an earlier line.
    LabelTwice,
    /// Its label comes after as many as a text may have.
    LabelTooLate,
    /// After the slot there is no instruction.
    NoWord,
    /// With 64 after it, the first word is the name of an instruction.
    NoWidth,
    /// The first word is the name of no instruction.
    UnknownWord,
    /// The instruction has another number of operands.
    Operands { wanted: usize },
    /// The operand of this number, counted from 1, is not what it has to be.
    Operand { number: usize, wanted: Wanted },
    /// The operand of this number is the name of no label.
    NoLabel { number: usize },
    /// Each word is one that the instruction may have.
    Other,
    /// With the instruction the program has too many slots.
    TooManySlots,
}

/// Why the line of a number, counted from 1, is at fault, where [`crate::assemble::assemble`] reports this fault of it.
///
/// # Errors
/// It fails only where an allocation fails.
pub fn cause_of(
    alloc: Global,
    text: &[u8],
    line: usize,
    fault: LineFault,
) -> Result<Cause, AllocError>
    ensures { IfOk result (IsCause text.now line fault) }
{
    let all = read_labels(alloc, text)?;
    let words = line_words(alloc, line_of(text, line))?;
    cause_by(alloc, first_labels(&all), &words, fault)
}

// The line of a number, counted from 1; one that there isn't has no bytes.
fn line_of(text: &[u8], number: usize) -> &[u8]
    ensures { result.now ≡ line_of text.now number }
{
    let before = number.saturating_sub(1);
    let mut passed = 0;
    for line in text.split(|c| *c == b'\n') {
        if passed == before {
            return line;
        }
        passed += 1;
    }
    &[]
}

// Why the line of these words is at fault, by the labels that may be named.
fn cause_by(
    alloc: Global,
    labels: &[Label<'_>],
    words: &[&[u8]],
    fault: LineFault,
) -> Result<Cause, AllocError>
    ensures { IfOk result (IsCauseBy (names_of labels.now) (texts words.now) fault) }
{
    match fault {
        LineFault::WrongSlot => Ok(label_cause(labels, words)),
        LineFault::NoInstruction => words_cause(alloc, labels, unlabelled_words(words)),
        LineFault::TooManySlots => Ok(Cause::TooManySlots),
    }
}

// What is wrong with the slot or the label of a line.
fn label_cause(labels: &[Label<'_>], words: &[&[u8]]) -> Cause
    ensures { result ≡ label_cause (names_of labels.now) (texts words.now) }
{
    let Some((first, rest)) = words.split_first() else {
        return Cause::OtherSlot;
    };
    if is_labelled(rest) {
        return Cause::SecondLabel;
    }
    match name_in(first) {
        None => Cause::OtherSlot,
        Some(name) => labelled_by(labels, name),
    }
}

// Whether words begin with a label or a slot.
fn is_labelled(words: &[&[u8]]) -> bool
    ensures { result ≡ is_labelled (texts words.now) }
{
    match words.split_first() {
        None => false,
        Some((first, _)) => before_colon(first).is_some(),
    }
}

// What is wrong with a label.
fn labelled_by(labels: &[Label<'_>], name: &[u8]) -> Cause
    ensures { result ≡ labelled_by (names_of labels.now) name.now }
{
    match slot_of(labels, name) {
        None => Cause::LabelTooLate,
        Some(_) => Cause::LabelTwice,
    }
}

// What is wrong with the words of an instruction.
fn words_cause(alloc: Global, labels: &[Label<'_>], words: &[&[u8]]) -> Result<Cause, AllocError>
    ensures { IfOk result (IsWordsCause (names_of labels.now) (texts words.now)) }
{
    let Some((first, operands)) = words.split_first() else {
        return Ok(Cause::NoWord);
    };
    match read_kind(first) {
        None => word_cause(alloc, first),
        Some(kind) => Ok(operands_cause(labels, wanted_by(kind), operands)),
    }
}

// What is wrong with the name of no instruction.
fn word_cause(alloc: Global, word: &[u8]) -> Result<Cause, AllocError>
    ensures { IfOk result (IsWordCause word.now) }
{
    let mut longer = Vec::new(alloc);
    longer.extend_from_slice(word)?;
    longer.extend_from_slice(b"64")?;
    match read_kind(&longer) {
        None => Ok(Cause::UnknownWord),
        Some(_) => Ok(Cause::NoWidth),
    }
}

// The operands that an instruction of a kind has.
fn wanted_by(kind: Kind) -> &'static [Wanted]
    ensures { result.now ≡ wanted_by kind }
{
    match kind {
        Kind::Alu { .. } => &[Wanted::Register, Wanted::Source],
        Kind::Sext { .. } => &[Wanted::Register, Wanted::Register],
        Kind::Neg { .. } => &[Wanted::Register],
        Kind::Swap { .. } => &[Wanted::Register],
        Kind::Wide => &[Wanted::Register, Wanted::Number],
        Kind::Load { .. } => &[Wanted::Register, Wanted::Place],
        Kind::StoreImmediate { .. } => &[Wanted::Place, Wanted::Immediate],
        Kind::StoreRegister { .. } => &[Wanted::Place, Wanted::Register],
        Kind::Jump => &[Wanted::Offset],
        Kind::JumpFar => &[Wanted::FarOffset],
        Kind::Branch { .. } => &[Wanted::Register, Wanted::Source, Wanted::Offset],
        Kind::Call => &[Wanted::Immediate],
        Kind::Exit => &[],
    }
}

// What is wrong with the operands of an instruction.
fn operands_cause(labels: &[Label<'_>], wanted: &[Wanted], operands: &[&[u8]]) -> Cause
    ensures { IsOperandsCause (names_of labels.now) wanted.now (texts operands.now) result }
{
    if operands.len() != wanted.len() {
        return Cause::Operands {
            wanted: wanted.len(),
        };
    }
    misfit_from(labels, 1, wanted, operands)
}

// The first operand that isn't what it has to be, where the first of these has a number.
fn misfit_from(labels: &[Label<'_>], number: usize, wanted: &[Wanted], operands: &[&[u8]]) -> Cause
    requires { number + length wanted.now < 2 ^ 64 }
    ensures { IsMisfitFrom (names_of labels.now) number wanted.now (texts operands.now) result }
{
    let [first, later @ ..] = wanted else {
        return Cause::Other;
    };
    let [word, others @ ..] = operands else {
        return Cause::Other;
    };
    if !fits(labels, *first, word) {
        return misfit(number, *first, word);
    }
    misfit_from(labels, number + 1, later, others)
}

// The operand of a number isn't what it has to be: where a label could be, it may be the name of none.
fn misfit(number: usize, wanted: Wanted, word: &[u8]) -> Cause
    ensures { result ≡ misfit number wanted word.now }
{
    match wanted {
        Wanted::Offset | Wanted::FarOffset if is_lettered(word) => Cause::NoLabel { number },
        _ => Cause::Operand { number, wanted },
    }
}

// Whether a word is what an operand has to be.
fn fits(labels: &[Label<'_>], wanted: Wanted, word: &[u8]) -> bool
    ensures { (result ≡ true) ↔ Fits (names_of labels.now) wanted word.now }
{
    match wanted {
        Wanted::Register => register(word).is_some(),
        Wanted::Source => source(word).is_some(),
        Wanted::Immediate => immediate(word).is_some(),
        Wanted::Number => number(word).is_some(),
        Wanted::Place => place(word).is_some(),
        Wanted::Offset => slot_of(labels, word).is_some() || offset(word).is_some(),
        Wanted::FarOffset => slot_of(labels, word).is_some() || far_offset(word).is_some(),
    }
}
