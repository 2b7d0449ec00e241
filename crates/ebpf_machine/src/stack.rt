//! The stack of a run.
//!
//! Its bytes are kept as they are, so that a number is read and written as a whole wherever it lies. A pointer is kept beside
//! them, by the aligned word that holds it; the word's bytes count again once one of them is written. Which bytes were written
//! no load asks, since the verdict has ruled out that others are read: only contracts see it. A byte that was written has the
//! mark of its run, and the next run has another, so that no mark is cleared at a start. What no longer counts, or was never
//! written, is what an earlier run left there.

ghost use Rattle.std.specs.Prelude.{◌≡◌, ℕ, ◌≤◌, ◌<◌, ◌+◌, ◌-◌, ◌/◌, replicate, true, false, ◌==◌, ◌&&◌, if◌then◌else◌, is_ok, None, Some, Ok};
ghost use Rattle.std.specs.Prelude.{slice_index_or, Bool, length};
ghost use Rattle.std.specs.Int.{byte_at};
ghost use Rattle.ebpf_state.specs.Stack.{bytes_in, is_whole_word};
ghost use Rattle.ebpf_machine.specs.declared.value.Value.{Value};
ghost use Rattle.ebpf_machine.specs.Values.{empty_stack};
ghost use Rattle.ebpf_machine.specs.Cells.{loaded_at, stored_cells, is_pointer, is_among, touches};
ghost use Rattle.ebpf_machine.specs.StackWords.{AreMarks, CanLoad, IsMark, IsReflexive, holds_without, mark_in, left_after, mark_after, pointer_of};

use crate::number::number_at;
use crate::value::{Base, Value};
use ebpf_insn::insn::Size;
use ebpf_state::stack::{bytes_in, is_whole_word};
use std::marker::Model;

// The first mark, eight times.
const ONE_MARK: u64 = 0x0101_0101_0101_0101;

/// The 512 bytes below the frame pointer.
#[derive(Drop)]
pub(crate) struct Stack {
    bytes: [u8; 512],
    /// Beside each of them the mark of the run that wrote it last, or 0.
    marks: [u8; 512],
    /// The mark of this run, eight times, so that it is written as the bytes are.
    mark: u64,
    /// Which words hold a pointer.
    pointing: [bool; 64],
    /// Of those that do, its base and its offset.
    bases: [Base<u16>; 64],
    offsets: [i64; 64],
}

impl Model for Stack {
    ghost use Rattle.std.specs.Prelude.{ℕ, List};
    ghost use Rattle.ebpf_machine.specs.declared.value.Cell.{Cell};
    ghost use Rattle.ebpf_machine.specs.StackWords.{AreMarks, cells_of, mark_in, marked, pointer_of};

    ghost Value = { List (Cell ℕ) };

    ghost view = { λ s. cells_of s.bytes (marked (mark_in s.mark) s.marks) (pointer_of s.pointing s.bases s.offsets) };

    ghost invariant = { λ s. AreMarks s.mark s.marks };
}

impl Stack {
    /// A stack to which nothing was stored.
    pub(crate) fn new() -> Stack
        ensures { result ≡ empty_stack }
    {
        Stack {
            bytes: [0; 512],
            marks: [0; 512],
            mark: ONE_MARK,
            pointing: [false; 64],
            bases: [Base::Stack; 64],
            offsets: [0; 64],
        }
    }

    /// Forgets all that was stored.
    pub(crate) fn clear(&mut self)
        ensures { self.new ≡ empty_stack }
    {
        self.mark = next_mark(&mut self.marks, self.mark);
        self.pointing = [false; 64];
    }

    /// The value of the bytes at a place: a pointer, where they are a word that holds one, else a number.
    #[inline(always)]
    pub(crate) fn load(&self, place: usize, size: Size, signed: bool) -> Value<u16>
        requires inside { place + bytes_in size ≤ 512 }
        requires loads { CanLoad place size signed self.now }
        ensures { (is_same : ℕ → ℕ → Bool) → IsReflexive is_same → loaded_at is_same (Some place) (bytes_in size) signed self.now ≡ Ok result }
    {
        match pointer_at(
            &self.pointing,
            &self.bases,
            &self.offsets,
            place,
            bytes_in(size),
        ) {
            Some(pointer) => pointer,
            None => Value::Number(number_at(&self.bytes, place, size, signed)),
        }
    }

    /// Stores the low bytes of a number, or a pointer as an aligned word.
    // No more than a hint: with this in each of its stores the match of all operations would grow too large to be inlined itself.
    #[inline]
    pub(crate) fn store(&mut self, place: usize, size: Size, value: Value<u16>)
        requires inside { place + bytes_in size ≤ 512 }
        requires whole { is_pointer value ≡ true → is_whole_word place (bytes_in size) ≡ true }
        ensures { self.new ≡ stored_cells place (bytes_in size) value self.old }
    {
        match value {
            Value::Pointer { base, offset } => {
                keep(
                    &mut self.pointing,
                    &mut self.bases,
                    &mut self.offsets,
                    place / 8,
                    base,
                    offset,
                );
            }
            Value::Number(n) => write(
                &mut self.bytes,
                &mut self.marks,
                self.mark,
                &mut self.pointing,
                place,
                size,
                n,
            ),
        }
    }
}

// A mark that no byte has.
#[inline(always)]
fn next_mark(marks: &mut [u8; 512], mark: u64) -> u64
    requires { AreMarks mark marks.old }
    ensures long { length marks.new ≡ 512 }
    ensures whole { IsMark result }
    ensures new { (i : ℕ) → i < 512 → slice_index_or marks.new i 0 < mark_in result }
{
    if mark == u64::MAX {
        forget_marks(marks);
        return ONE_MARK;
    }
    mark + ONE_MARK
}

// Out of line, since few starts need it.
#[cold]
#[inline(never)]
fn forget_marks(marks: &mut [u8; 512])
    ensures { marks.new ≡ replicate 512 0 }
{
    *marks = [0; 512];
}

// The pointer that the bytes hold, where they are an aligned word.
#[inline(always)]
fn pointer_at(
    pointing: &[bool; 64],
    bases: &[Base<u16>; 64],
    offsets: &[i64; 64],
    place: usize,
    bytes: usize,
) -> Option<Value<u16>>
    requires { place + bytes ≤ 512 }
    ensures { result ≡ (if is_whole_word place bytes then pointer_of pointing.now bases.now offsets.now (place / 8) else None) }
{
    if is_whole_word(place, bytes) && pointing[place / 8] {
        Some(Value::Pointer {
            base: bases[place / 8],
            offset: offsets[place / 8],
        })
    } else {
        None
    }
}

// A word holds a pointer.
#[inline(always)]
fn keep(
    pointing: &mut [bool; 64],
    bases: &mut [Base<u16>; 64],
    offsets: &mut [i64; 64],
    word: usize,
    base: Base<u16>,
    offset: i64,
)
    requires { word < 64 }
    ensures { (other : ℕ) → pointer_of pointing.new bases.new offsets.new other ≡
        (if other == word then Some (Value.Pointer base offset) else pointer_of pointing.old bases.old offsets.old other) }
{
    pointing[word] = true;
    bases[word] = base;
    offsets[word] = offset;
}

// Writes the low bytes of a number, as many as one of the sizes has.
#[inline(always)]
fn write(
    bytes: &mut [u8; 512],
    marks: &mut [u8; 512],
    mark: u64,
    pointing: &mut [bool; 64],
    place: usize,
    size: Size,
    n: u64,
)
    requires inside { place + bytes_in size ≤ 512 }
    requires mark { IsMark mark }
    ensures long { (length bytes.new ≡ 512) × (length marks.new ≡ 512) }
    ensures bytes { (i : ℕ) → i < 512 → slice_index_or bytes.new i 0 ≡
        (if is_among place (bytes_in size) i then byte_at (i - place) n else slice_index_or bytes.old i 0) }
    ensures marks { (i : ℕ) → i < 512 → slice_index_or marks.new i 0 ≡ mark_after place (bytes_in size) pointing.old (mark_in mark) marks.old i }
    ensures pointing { (word : ℕ) → slice_index_or pointing.new word false ≡
        (if touches place (bytes_in size) word then false else slice_index_or pointing.old word false) }
{
    match size {
        Size::B => put(bytes, marks, mark, pointing, place, 1, n),
        Size::H => put(bytes, marks, mark, pointing, place, 2, n),
        Size::W => put(bytes, marks, mark, pointing, place, 4, n),
        Size::D => put(bytes, marks, mark, pointing, place, 8, n),
    }
}

// Writes n low bytes of a number, which are set then.
#[inline(always)]
fn put(
    bytes: &mut [u8; 512],
    marks: &mut [u8; 512],
    mark: u64,
    pointing: &mut [bool; 64],
    place: usize,
    count: usize,
    n: u64,
)
    requires inside { place + count ≤ 512 }
    requires some { 0 < count }
    requires few { count ≤ 8 }
    requires mark { IsMark mark }
    ensures long { (length bytes.new ≡ 512) × (length marks.new ≡ 512) }
    ensures bytes { (i : ℕ) → i < 512 → slice_index_or bytes.new i 0 ≡
        (if is_among place count i then byte_at (i - place) n else slice_index_or bytes.old i 0) }
    ensures marks { (i : ℕ) → i < 512 → slice_index_or marks.new i 0 ≡ mark_after place count pointing.old (mark_in mark) marks.old i }
    ensures pointing { (word : ℕ) → slice_index_or pointing.new word false ≡
        (if touches place count word then false else slice_index_or pointing.old word false) }
{
    forget(marks, pointing, place, count);
    bytes[place..place + count].copy_from_slice(&n.to_le_bytes()[..count]);
    marks[place..place + count].copy_from_slice(&mark.to_le_bytes()[..count]);
}

// Some bytes of these words are overwritten, so what is left of a pointer in them is unset. Of a whole word nothing is left.
#[inline(always)]
fn forget(marks: &mut [u8; 512], pointing: &mut [bool; 64], place: usize, count: usize)
    requires inside { place + count ≤ 512 }
    requires some { 0 < count }
    ensures marks { (i : ℕ) → i < 512 → is_among place count i ≡ false →
        slice_index_or marks.new i 0 ≡ left_after place count pointing.old marks.old i }
    ensures pointing { (word : ℕ) → slice_index_or pointing.new word false ≡
        (if touches place count word then false else slice_index_or pointing.old word false) }
{
    if is_whole_word(place, count) {
        pointing[place / 8] = false;
    } else {
        forget_word(marks, pointing, place / 8);
        forget_word(marks, pointing, (place + count - 1) / 8);
    }
}

// A word holds no pointer any more; of one that did no byte is set.
#[inline(always)]
fn forget_word(marks: &mut [u8; 512], pointing: &mut [bool; 64], word: usize)
    requires { word < 64 }
    ensures marks { (i : ℕ) → i < 512 → slice_index_or marks.new i 0 ≡
        (if i / 8 == word && slice_index_or pointing.old word false then 0 else slice_index_or marks.old i 0) }
    ensures pointing { (other : ℕ) → slice_index_or pointing.new other false ≡ holds_without word pointing.old other }
{
    if pointing[word] {
        unset_word(marks, pointing, word);
    }
}

// Out of line, since few stores are over a pointer.
#[cold]
#[inline(never)]
fn unset_word(marks: &mut [u8; 512], pointing: &mut [bool; 64], word: usize)
    requires { word < 64 }
    ensures marks { (i : ℕ) → i < 512 → slice_index_or marks.new i 0 ≡ (if i / 8 == word then 0 else slice_index_or marks.old i 0) }
    ensures pointing { (other : ℕ) → slice_index_or pointing.new other false ≡ holds_without word pointing.old other }
{
    pointing[word] = false;
    marks[8 * word..8 * word + 8].copy_from_slice(&[0; 8]);
}
