//! How an access that may be outside of what its base points into is mended, in words, each written after a text. Writing
//! fails only where an allocation fails.

ghost use Rattle.std.specs.Prelude.{◌≡◌, ◌^◌, ◌++◌, ◌+ℤ◌, ◌-ℤ◌, ◌≤ℤ◌, pos, negsuc, string_bytes, OnOk};
ghost use Rattle.std.specs.Int.{int_min, int_max};
ghost use Rattle.ebpf_explain.specs.Rooms.{pointer_ends, room_among, offsets, is_exact, room_of, length_up_to, length_for};
ghost use Rattle.ebpf_explain.specs.Rooms.{room_text, moved, longer, or_longer, longer_alone, mended, mended_from, within};
ghost use Rattle.ebpf_state.specs.Stack.{bytes_in};

use crate::accesses::{Access, write_byte_count};
use ebpf_insn::register::Reg;
use ebpf_state::stack::bytes_in;
use ebpf_state::state::State;
use ebpf_state::value::Abs;
use std::alloc::AllocError;

/// Two offsets: the least and the greatest that is known, or the first byte of something and its end.
#[derive(Clone, Copy)]
pub(crate) struct Ends {
    pub(crate) low: i64,
    pub(crate) high: i64,
}

/// The offsets at which an access is inside, at least and at most; there are none where the first is above the second.
#[derive(Clone, Copy)]
pub(crate) struct Room {
    low: i128,
    high: i128,
}

// What mends an access that may be outside of these bytes, where a context of n at most may be declared in their place.
pub(crate) fn write_within(
    text: &mut String,
    access: Access,
    state: &State,
    among: Ends,
    most: u32,
) -> Result<(), AllocError>
    ensures { OnOk result (string_bytes text.new ≡ string_bytes text.old ++ within access state.now among most) }
{
    match pointer_ends(state.reg(access.base)) {
        Some(known) => {
            let room = room_of(access, known, among);
            let length = length_for(access, known, most);
            write_mended(text, access.base, is_exact(known), room, length)
        }
        None => text.push_str("keep within it"),
    }
}

// How far a pointer is moved.
fn pointer_ends(value: Abs) -> Option<Ends>
    ensures { result ≡ pointer_ends value }
{
    match value {
        Abs::Stk(offset) => Some(Ends {
            low: offset,
            high: offset,
        }),
        Abs::Ctx(low, high) => Some(Ends { low, high }),
        Abs::Ob(_, low, high) => Some(Ends { low, high }),
        _ => None,
    }
}

// There is one offset alone.
fn is_exact(known: Ends) -> bool
    ensures { result ≡ is_exact known }
{
    known.low == known.high
}

// The offsets of the base at which the access is inside; where there is one alone, those in the instruction.
fn room_of(access: Access, known: Ends, among: Ends) -> Room
    ensures { result ≡ room_of access known among }
{
    let bytes = bytes_in(access.size);
    if is_exact(known) {
        let offsets = Ends {
            low: -32768,
            high: 32767,
        };
        room_among(offsets, known.low, bytes, among)
    } else {
        room_among(known, access.offset as i64, bytes, among)
    }
}

// The offsets between some ends that have n bytes, `on` bytes on, among others.
fn room_among(known: Ends, on: i64, bytes: usize, among: Ends) -> Room
    ensures { result ≡ room_among known on bytes among }
{
    let low = least(known.low, among.low, on);
    let high = greatest(known.high, among.high, on, bytes);
    between(low, high)
}

// The least offset that is known, or the one that is `on` bytes before the first.
fn least(known: i64, first: i64, on: i64) -> i128
    ensures { result ≡ int_max known (first -ℤ on) }
{
    let known = known as i128;
    let first = moved_back(first, on);
    if first < known { known } else { first }
}

// The greatest offset that is known, or the one from which n bytes, `on` bytes on, end at the end.
fn greatest(known: i64, end: i64, on: i64, bytes: usize) -> i128
    ensures { result ≡ int_min known ((end -ℤ on) -ℤ pos bytes) }
{
    let known = known as i128;
    let last = start_of(moved_back(end, on), bytes);
    if last < known { last } else { known }
}

// An offset that is moved back.
fn moved_back(at: i64, by: i64) -> i128
    ensures value { result ≡ at -ℤ by }
    ensures low { negsuc (2 ^ 64) ≤ℤ result }
    ensures high { result ≤ℤ pos (2 ^ 64) }
{
    at as i128 - by as i128
}

// Where n bytes begin that end there.
fn start_of(end: i128, bytes: usize) -> i128
    requires low { negsuc (2 ^ 64) ≤ℤ end }
    requires high { end ≤ℤ pos (2 ^ 64) }
    ensures { result ≡ end -ℤ pos bytes }
{
    end - bytes as i128
}

// The offsets between these two.
fn between(low: i128, high: i128) -> Room
    ensures { result ≡ record { low = low; high = high } }
{
    Room { low, high }
}

// How long a context has to be for an access, where it may be so long.
fn length_for(access: Access, known: Ends, most: u32) -> Option<usize>
    ensures { result ≡ length_for access known most }
{
    let end = end_of(moved_by(known.high, access.offset), bytes_in(access.size));
    length_up_to(most, moved_by(known.low, access.offset), end)
}

// An offset that is moved on.
fn moved_by(at: i64, by: i16) -> i128
    ensures value { result ≡ at +ℤ by }
    ensures low { negsuc (2 ^ 64) ≤ℤ result }
    ensures high { result ≤ℤ pos (2 ^ 64) }
{
    at as i128 + by as i128
}

// Where n bytes end that begin there.
fn end_of(start: i128, bytes: usize) -> i128
    requires low { negsuc (2 ^ 64) ≤ℤ start }
    requires high { start ≤ℤ pos (2 ^ 64) }
    ensures { result ≡ start +ℤ pos bytes }
{
    start + bytes as i128
}

// The end of an access, if it is no more than the most.
fn length_up_to(most: u32, start: i128, end: i128) -> Option<usize>
    ensures { result ≡ length_up_to most start end }
{
    if start >= 0 && end >= 0 && end <= most as i128 {
        Some(end as usize)
    } else {
        None
    }
}

// By the offsets that are inside, where there are any, and by a length that can be declared.
fn write_mended(
    text: &mut String,
    base: Reg,
    exact: bool,
    room: Room,
    length: Option<usize>,
) -> Result<(), AllocError>
    ensures { OnOk result (string_bytes text.new ≡ string_bytes text.old ++ mended base exact room length) }
{
    if room.high < room.low {
        write_longer_alone(text, length)
    } else {
        write_moved(text, base, exact, room)?;
        write_or_longer(text, length)
    }
}

// By a length alone.
fn write_longer_alone(text: &mut String, length: Option<usize>) -> Result<(), AllocError>
    ensures { OnOk result (string_bytes text.new ≡ string_bytes text.old ++ longer_alone length) }
{
    match length {
        Some(length) => write_longer(text, length),
        None => text.push_str("keep within it"),
    }
}

// Or by a length, too.
fn write_or_longer(text: &mut String, length: Option<usize>) -> Result<(), AllocError>
    ensures { OnOk result (string_bytes text.new ≡ string_bytes text.old ++ or_longer length) }
{
    match length {
        Some(length) => {
            text.push_str(", or ")?;
            write_longer(text, length)
        }
        None => Ok(()),
    }
}

// A context of this length.
fn write_longer(text: &mut String, length: usize) -> Result<(), AllocError>
    ensures { OnOk result (string_bytes text.new ≡ string_bytes text.old ++ longer length) }
{
    text.push_str("declare a context of ")?;
    write_byte_count(text, length)
}

// Another offset in the instruction, or a bound of that of the base.
fn write_moved(text: &mut String, base: Reg, exact: bool, room: Room) -> Result<(), AllocError>
    ensures { OnOk result (string_bytes text.new ≡ string_bytes text.old ++ moved base exact room) }
{
    if exact {
        text.push_str("use an offset of ")?;
        write_room(text, room)?;
        write!(text, " from r{}", base.number())
    } else {
        write!(text, "bound the offset of r{} to ", base.number())?;
        write_room(text, room)?;
        text.push_str(" first")
    }
}

// The least and the greatest of some offsets.
fn write_room(text: &mut String, room: Room) -> Result<(), AllocError>
    ensures { OnOk result (string_bytes text.new ≡ string_bytes text.old ++ room_text room) }
{
    write!(text, "{}", room.low)?;
    if room.low == room.high {
        return Ok(());
    }
    write!(text, "..{}", room.high)
}
