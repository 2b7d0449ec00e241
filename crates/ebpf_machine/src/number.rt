//! The number of some bytes, the lowest first.

ghost use Rattle.std.specs.Prelude.{◌≡◌, ◌≤◌, ◌<◌, ◌+◌, ◌*◌, ◌^◌, ◌++◌, ℕ, length, drop, slice_index};
ghost use Rattle.byteorder.specs.Endian.{little_number, little_bytes};
ghost use Rattle.ebpf_insn.specs.declared.insn.Width.{Width};
ghost use Rattle.ebpf_insn.specs.Arithmetic.{extension_at};
ghost use Rattle.ebpf_state.specs.Stack.{bytes_in};
ghost use Rattle.ebpf_machine.specs.Cells.{extended};

use byteorder::{ByteOrder, LittleEndian};
use ebpf_insn::insn::Size;
use ebpf_state::stack::bytes_in;

/// The number of the bytes at a place, with zeros or with its sign above them.
#[inline(always)]
pub(crate) fn number_at(bytes: &[u8], place: usize, size: Size, signed: bool) -> u64
    requires { place + bytes_in size ≤ length bytes.now }
    ensures { result ≡ extended (bytes_in size) signed (little_number (bytes_in size) (drop place bytes.now)) }
{
    let low = low_number(bytes, place, size);
    match size {
        Size::D => low,
        _ if signed => with_sign(low, size),
        _ => low,
    }
}

/// The same of the bytes at a place of a list that goes on with another one.
#[inline(always)]
pub(crate) fn number_over(first: &[u8], after: &[u8], place: usize, size: Size, signed: bool) -> u64
    requires { place + bytes_in size ≤ length (first.now ++ after.now) }
    ensures { result ≡ extended (bytes_in size) signed (little_number (bytes_in size) (drop place (first.now ++ after.now))) }
{
    if place + bytes_in(size) <= first.len() {
        number_at(first, place, size, signed)
    } else if place >= first.len() {
        number_at(after, place - first.len(), size, signed)
    } else {
        number_between(first, after, place, size, signed)
    }
}

// The same where some of the bytes are in each list. It is seldom called, and would be in the way of the others.
#[inline(never)]
fn number_between(first: &[u8], after: &[u8], place: usize, size: Size, signed: bool) -> u64
    requires begun { place < length first.now }
    requires long { place + bytes_in size ≤ length (first.now ++ after.now) }
    ensures { result ≡ extended (bytes_in size) signed (little_number (bytes_in size) (drop place (first.now ++ after.now))) }
{
    number_at(&bytes_over(first, after, place), 0, size, signed)
}

// The bytes at a place of a list that goes on with another one, and zeros after its end.
fn bytes_over(first: &[u8], after: &[u8], place: usize) -> [u8; 8]
    requires { place < length first.now }
    ensures { (k : ℕ) → k < 8 → slice_index result k ≡ slice_index (first.now ++ after.now) (place + k) }
{
    let mut bytes = [0; 8];
    'bytes: for k in 0..8 {
        bytes[k] = byte_over(first, after, place + k);
    }
    bytes
}

// The byte at a place of a list that goes on with another one, and 0 after its end.
fn byte_over(first: &[u8], after: &[u8], place: usize) -> u8
    ensures { result ≡ slice_index (first.now ++ after.now) place }
{
    if place < first.len() {
        return first[place];
    }
    let place = place - first.len();
    if place < after.len() { after[place] } else { 0 }
}

#[inline(always)]
fn low_number(bytes: &[u8], place: usize, size: Size) -> u64
    requires { place + bytes_in size ≤ length bytes.now }
    ensures value { result ≡ little_number (bytes_in size) (drop place bytes.now) }
    ensures fits { result < 2 ^ (8 * bytes_in size) }
{
    match size {
        Size::B => bytes[place] as u64,
        Size::H => LittleEndian::read_u16(&bytes[place..]) as u64,
        Size::W => LittleEndian::read_u32(&bytes[place..]) as u64,
        Size::D => LittleEndian::read_u64(&bytes[place..]),
    }
}

// A number of n bytes, with copies of the highest bit of it above them.
fn with_sign(n: u64, size: Size) -> u64
    requires { n < 2 ^ (8 * bytes_in size) }
    ensures { result ≡ extension_at Width.W64 (8 * bytes_in size) n }
{
    let half = match size {
        Size::B => 1 << 7,
        Size::H => 1 << 15,
        Size::W => 1 << 31,
        Size::D => return n,
    };
    if n < half {
        n
    } else {
        n + (u64::MAX - (2 * half - 1))
    }
}

/// The bytes of a number.
pub(crate) fn low_bytes(n: u64) -> [u8; 8]
    ensures { result ≡ little_bytes 8 n }
{
    let mut bytes = [0; 8];
    LittleEndian::write_u64(&mut bytes, n);
    bytes
}
