//! What is known of a value, in words, each written after a text. Writing fails only where an allocation fails.

ghost use Rattle.std.specs.Prelude.{◌≡◌, ◌++◌, string_bytes, OnOk};
ghost use Rattle.ebpf_text.specs.Operands.{offset_text};
ghost use Rattle.ebpf_explain.specs.Values.{known_range, range_text, offsets_text, value_text};

use ebpf_range::range::Range;
use ebpf_state::value::Abs;
use std::alloc::AllocError;

/// Writes after a text what is known of a value: the numbers that it may be, or what it points to and how far into that. Nothing is written
/// of one that is not set.
///
/// # Errors
/// It fails only where an allocation fails, and some of the words may be written then.
pub fn write_value(text: &mut String, value: Abs) -> Result<(), AllocError>
    ensures { OnOk result (string_bytes text.new ≡ string_bytes text.old ++ value_text value) }
{
    match value {
        Abs::Unset => Ok(()),
        Abs::Num(range) => write_range(text, range),
        Abs::Stk(offset) => {
            text.push_str("stack")?;
            write_offset(text, offset)
        }
        Abs::Ctx(low, high) => {
            text.push_str("context")?;
            write_offsets(text, low, high)
        }
        Abs::Ob(call, low, high) => {
            write!(text, "object of {call}")?;
            write_offsets(text, low, high)
        }
        Abs::May(call) => write!(text, "answer of {call}"),
    }
}

// A number, or that nothing is known of it.
fn write_range(text: &mut String, range: Range) -> Result<(), AllocError>
    ensures { OnOk result (string_bytes text.new ≡ string_bytes text.old ++ range_text range) }
{
    if range.lo == 0 && range.hi == u64::MAX {
        text.push_str("any number")
    } else {
        write_known_range(text, range)
    }
}

// A number, or the least and the greatest that it can be.
fn write_known_range(text: &mut String, range: Range) -> Result<(), AllocError>
    ensures { OnOk result (string_bytes text.new ≡ string_bytes text.old ++ known_range range) }
{
    let Range { lo, hi } = range;
    if lo == hi {
        write!(text, "{lo}")
    } else {
        write!(text, "{lo}..{hi}")
    }
}

// An offset, or the least and the greatest that it can be.
fn write_offsets(text: &mut String, low: i64, high: i64) -> Result<(), AllocError>
    ensures { OnOk result (string_bytes text.new ≡ string_bytes text.old ++ offsets_text low high) }
{
    write_offset(text, low)?;
    if low == high {
        return Ok(());
    }
    text.push_str("..")?;
    write_offset(text, high)
}

// An offset, with its sign, as a listing has it.
pub(crate) fn write_offset(text: &mut String, offset: i64) -> Result<(), AllocError>
    ensures { OnOk result (string_bytes text.new ≡ string_bytes text.old ++ offset_text offset) }
{
    if offset < 0 {
        write!(text, "{offset}")
    } else {
        write!(text, "+{offset}")
    }
}
