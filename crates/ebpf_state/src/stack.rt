//! Loads from the stack and stores to it.
//!
//! At most eight bytes are moved, so they lie in the word where they begin and in the next one. A store has all words kept
//! from the first of them on before it writes, so that where an allocation fails nothing was written.

ghost use Rattle.std.specs.Prelude.{◌≡◌, ◌≤◌, ◌<◌, ◌^◌, length, All, IfOk, IfErr, IfSome, ◌+◌, OnOk, Some, slice_set, slice_index_or, ◌-◌};
ghost use Rattle.ebpf_state.specs.declared.word.Word.{Word};
ghost use Rattle.ebpf_state.specs.Words.{all_words, IsProperWord};
ghost use Rattle.ebpf_state.specs.Stack.{bytes_in, place_of, is_whole_word, covered, word_of, may_point, is_unset_in, is_split_in, read_fault};
ghost use Rattle.ebpf_state.specs.Stack.{loaded_range, loaded_number, loaded_word, loaded_at, overwritten, written, written_at, stored_words};

use crate::value::Abs;
use crate::word::{Word, spill_or_nothing};
use ebpf_insn::insn::Size;
use ebpf_range::range::Range;
use std::alloc::AllocError;

/// Why bytes of the stack can't be loaded or stored.
#[derive(Clone, Copy)]
pub enum StackFault {
    /// The access is outside the stack.
    Bounds,
    /// A byte that may be unset is read.
    UnsetByte,
    /// A pointer, or an answer not compared yet, would be split.
    SplitPointer,
}

/// Why a store to the stack was not done.
#[derive(Clone, Copy)]
pub enum StoreFault {
    /// The bytes can't be stored.
    Refused(StackFault),
    /// An allocation failed.
    NoMemory,
}

impl From<AllocError> for StoreFault {
    ghost use Rattle.ebpf_state.specs.declared.stack.StoreFault.TheVariants.{NoMemory};

    ghost from_gives = { λ _ e. e ≡ NoMemory };

    fn from(_e: AllocError) -> StoreFault {
        StoreFault::NoMemory
    }
}

/// How many bytes a load or a store moves: 1, 2, 4 or 8.
pub fn bytes_in(size: Size) -> usize
    ensures value { result ≡ bytes_in size }
    ensures some { 0 < result }
    ensures few { result ≤ 8 }
{
    match size {
        Size::B => 1,
        Size::H => 2,
        Size::W => 4,
        Size::D => 8,
    }
}

/// Where n bytes at an offset from the frame pointer begin, among the 512 of the stack; `None` where one of them is
/// outside.
pub fn place_of(offset: i64, bytes: usize) -> Option<usize>
    requires some { 0 < bytes }
    requires few { bytes ≤ 8 }
    ensures value { result ≡ place_of offset bytes }
    ensures inside { IfSome result (λ place. place + bytes ≤ 512) }
{
    if offset >= -512 && offset <= 0 && offset + bytes as i64 <= 0 {
        Some((offset + 512) as usize)
    } else {
        None
    }
}

/// The bytes at a place of the stack are an aligned word, which alone may hold a pointer.
pub fn is_whole_word(place: usize, bytes: usize) -> bool
    ensures { result ≡ is_whole_word place bytes }
{
    bytes == 8 && place % 8 == 0
}

// A pointer, or an answer that may be one.
pub(crate) fn may_point(value: Abs) -> bool
    ensures { result ≡ may_point value }
{
    value.is_pointer() || value.is_may()
}

// The bits of a word that are for those of the bytes that lie in it.
pub(crate) fn covered(place: usize, bytes: usize, word: usize) -> u8
    requires place { place < 512 }
    requires bytes { bytes ≤ 8 }
    requires word { word ≤ 64 }
    ensures { result ≡ covered place bytes word }
{
    let end = (place + bytes).saturating_sub(8 * word).min(8);
    let start = place.saturating_sub(8 * word).min(8);
    (power_of_two(end) - power_of_two(start)) as u8
}

// 2 to a power.
fn power_of_two(exponent: usize) -> u128
    requires { exponent ≤ 64 }
    ensures value { result ≡ 2 ^ exponent }
    ensures some { 0 < result }
    ensures few { result ≤ 2 ^ 64 }
{
    1 << exponent
}

// What is known of a word of the stack, by its topmost words.
fn word_at(words: &[Word], number: usize) -> Word
    requires few { length words.now ≤ 64 }
    requires inside { number < 64 }
    requires proper { All IsProperWord words.now }
    ensures value { result ≡ slice_index_or (all_words words.now) number (Word.Spill Abs.Unset) }
    ensures proper { IsProperWord result }
{
    let below = 64 - words.len();
    if number < below {
        Word::Bytes(0)
    } else {
        words[number - below]
    }
}

// What is known of a word of the stack; nothing is of the one after the last.
pub(crate) fn known_word(words: &[Word], number: usize) -> Word
    requires few { length words.now ≤ 64 }
    requires proper { All IsProperWord words.now }
    ensures value { result ≡ word_of (all_words words.now) number }
    ensures proper { IsProperWord result }
{
    if number < 64 {
        word_at(words, number)
    } else {
        Word::Bytes(0)
    }
}

// A byte that is read may be unset.
fn is_unset_in(bits: u8, word: Word) -> bool
    ensures { result ≡ is_unset_in bits word }
{
    let set = match word {
        Word::Spill(_) => 255,
        Word::Bytes(mask) => mask,
    };
    !(bits & set == bits)
}

// A pointer, or an answer that may be one, is read in part.
fn is_split_in(bits: u8, word: Word) -> bool
    ensures { result ≡ is_split_in bits word }
{
    match word {
        Word::Spill(value) => bits != 0 && may_point(value),
        Word::Bytes(_) => false,
    }
}

// Why bytes of the stack can't be read as a number.
fn read_fault(place: usize, bytes: usize, words: &[Word]) -> Option<StackFault>
    requires place { place < 512 }
    requires bytes { bytes ≤ 8 }
    requires few { length words.now ≤ 64 }
    requires proper { All IsProperWord words.now }
    ensures { result ≡ read_fault place bytes (all_words words.now) }
{
    let first = place / 8;
    let low = known_word(words, first);
    let high = known_word(words, first + 1);
    let low_bits = covered(place, bytes, first);
    let high_bits = covered(place, bytes, first + 1);
    if is_unset_in(low_bits, low) || is_unset_in(high_bits, high) {
        Some(StackFault::UnsetByte)
    } else if is_split_in(low_bits, low) || is_split_in(high_bits, high) {
        Some(StackFault::SplitPointer)
    } else {
        None
    }
}

/// What is known of a loaded number of n bytes, at most 8: with its sign above them it may be any of 64 bits.
pub fn loaded_range(bytes: usize, signed: bool) -> Range
    requires { bytes ≤ 8 }
    ensures { result ≡ loaded_range bytes signed }
{
    let bits = if signed { 64 } else { 8 * bytes };
    Range {
        lo: 0,
        hi: (power_of_two(bits) - 1) as u64,
    }
}

fn loaded_number(fault: Option<StackFault>, bytes: usize, signed: bool) -> Result<Abs, StackFault>
    requires { bytes ≤ 8 }
    ensures { result ≡ loaded_number fault bytes signed }
{
    match fault {
        Some(fault) => Err(fault),
        None => Ok(Abs::Num(loaded_range(bytes, signed))),
    }
}

// What is known of the value of bytes of the stack, or why they can't be loaded.
pub(crate) fn load_at(
    words: &[Word],
    place: usize,
    bytes: usize,
    signed: bool,
) -> Result<Abs, StackFault>
    requires place { place < 512 }
    requires bytes { bytes ≤ 8 }
    requires few { length words.now ≤ 64 }
    requires proper { All IsProperWord words.now }
    ensures { result ≡ loaded_at (Some place) bytes signed (all_words words.now) }
{
    if is_whole_word(place, bytes)
        && let Word::Spill(value) = known_word(words, place / 8)
    {
        return Ok(value);
    }
    loaded_number(read_fault(place, bytes, words), bytes, signed)
}

// Some bytes of a word are written.
fn overwritten(bits: u8, word: Word) -> Word
    ensures value { result ≡ overwritten bits word }
    ensures proper { IsProperWord result }
{
    match word {
        Word::Bytes(mask) => Word::Bytes(mask | bits),
        Word::Spill(Abs::Num(_)) => Word::Bytes(255),
        Word::Spill(_) => Word::Bytes(bits),
    }
}

fn written(bits: u8, word: Word) -> Word
    requires { IsProperWord word }
    ensures value { result ≡ written bits word }
    ensures proper { IsProperWord result }
{
    if bits == 0 {
        word
    } else {
        overwritten(bits, word)
    }
}

// Writes a word among those that are kept.
fn put_word(words: &mut [Word], number: usize, value: Word)
    requires few { length words.old ≤ 64 }
    requires kept { 64 - length words.old ≤ number }
    requires inside { number < 64 }
    requires proper_words { All IsProperWord words.old }
    requires proper { IsProperWord value }
    ensures value { all_words words.new ≡ slice_set (all_words words.old) number value }
    ensures len { length words.new ≡ length words.old }
    ensures proper { All IsProperWord words.new }
{
    let below = 64 - words.len();
    words[number - below] = value;
}

// Keeps the words from this one on.
fn keep_from(words: &mut Vec<Word>, number: usize) -> Result<(), AllocError>
    requires few { length words.old.items ≤ 64 }
    requires proper { All IsProperWord words.old.items }
    ensures value { all_words words.new.items ≡ all_words words.old.items }
    ensures few { length words.new.items ≤ 64 }
    ensures kept { OnOk result (64 - length words.new.items ≤ number) }
    ensures proper { All IsProperWord words.new.items }
{
    if number < 64 - words.len() {
        *words = kept_from(words, number)?;
    }
    Ok(())
}

// The words from this one on, which is below those that are kept.
fn kept_from(words: &Vec<Word>, number: usize) -> Result<Vec<Word>, AllocError>
    requires few { length words.now.items ≤ 64 }
    requires below { number < 64 - length words.now.items }
    requires proper { All IsProperWord words.now.items }
    ensures value { IfOk result (λ v. all_words v.items ≡ all_words words.now.items) }
    ensures len { IfOk result (λ v. length v.items ≡ 64 - number) }
    ensures proper { IfOk result (λ v. All IsProperWord v.items) }
{
    let alloc = *words.allocator();
    let mut kept = Vec::from_elem(alloc, Word::Bytes(0), 64 - words.len() - number)?;
    kept.extend_from_slice(words)?;
    Ok(kept)
}

// Writes those of the bytes that lie in a word, which is kept.
fn write_at(words: &mut [Word], place: usize, bytes: usize, number: usize)
    requires place { place < 512 }
    requires bytes { bytes ≤ 8 }
    requires few { length words.old ≤ 64 }
    requires kept { 64 - length words.old ≤ number }
    requires inside { number < 64 }
    requires proper_words { All IsProperWord words.old }
    ensures value { all_words words.new ≡ written_at place bytes number (all_words words.old) }
    ensures len { length words.new ≡ length words.old }
    ensures proper { All IsProperWord words.new }
{
    let word = written(covered(place, bytes, number), known_word(words, number));
    put_word(words, number, word);
}

// Writes bytes of a value to the stack.
pub(crate) fn store_at(
    words: &mut Vec<Word>,
    place: usize,
    bytes: usize,
    value: Abs,
) -> Result<(), AllocError>
    requires place { place + bytes ≤ 512 }
    requires some { 0 < bytes }
    requires bytes { bytes ≤ 8 }
    requires few { length words.old.items ≤ 64 }
    requires proper { All IsProperWord words.old.items }
    ensures value { IfOk result (λ _. all_words words.new.items ≡ stored_words place bytes value (all_words words.old.items)) }
    ensures same { IfErr result (λ _. all_words words.new.items ≡ all_words words.old.items) }
    ensures few { length words.new.items ≤ 64 }
    ensures proper { All IsProperWord words.new.items }
{
    let first = place / 8;
    keep_from(words, first)?;
    if is_whole_word(place, bytes) {
        put_word(words, first, spill_or_nothing(value));
    } else {
        write_at(words, place, bytes, first);
        if first < 63 {
            write_at(words, place, bytes, first + 1);
        }
    }
    Ok(())
}
