//! Loads and stores, through the pointer that a register holds (RFC 9669, sections 5.1 and 5.2).
//!
//! Nothing is tested: where the instruction does not trap, its bytes lie in the stack, in the context, or in an object that the run
//! holds.

ghost use Rattle.std.specs.Prelude.{◌≡◌, ℕ, ℤ, pos, negsuc, ◌+ℤ◌, ◌≤ℤ◌, ◌≤◌, length, nat_abs, true, is_ok, Some, Ok, FitsSigned};
ghost use Rattle.std.specs.Int.{w64};
ghost use Rattle.ebpf_verify.specs.declared.decl.TheConstants.{MAX_CONTEXT};
ghost use Rattle.ebpf_machine.specs.Values.{Trap};
ghost use Rattle.ebpf_machine.specs.Effect.{loaded};
ghost use Rattle.ebpf_machine.specs.Fixed.{context_of};
ghost use Rattle.ebpf_machine.specs.Store.{AreOut, objects_in, environment_in};
ghost use Rattle.ebpf_machine.specs.Flows.{IsResult, CanStore, IsStored, found_on_stack, found_among, found_in_object};

use crate::fixed::Fixed;
use crate::holding::{Holding, place_of};
use crate::number::{number_at, number_over};
use crate::objects::Objects;
use crate::stack::Stack;
use crate::value::{Base, Value};
use ebpf_insn::insn::Size;

/// What is loaded: n bytes, with zeros or with their sign above them, at an offset from an address.
#[derive(Clone, Copy)]
pub(crate) struct Loaded {
    pub(crate) size: Size,
    pub(crate) signed: bool,
    pub(crate) offset: i16,
}

/// The value of the bytes at an offset from an address.
#[inline(always)]
pub(crate) fn load_from<O: Objects>(
    stack: &Stack,
    fixed: &Fixed<'_>,
    held: &[Holding<O::Held>],
    objects: &O,
    address: Option<Value<u16>>,
    load: Loaded,
) -> Value<u16>
    requires out { AreOut O.store objects.now held.now }
    requires few { length (context_of fixed.now) ≤ MAX_CONTEXT }
    requires loads { (kinds : ℕ) × IsResult (loaded (environment_in O.store objects.now held.now (context_of fixed.now) kinds)
        stack.now load.size load.signed load.offset address) }
    ensures { (kinds : ℕ) → loaded (environment_in O.store objects.now held.now (context_of fixed.now) kinds)
        stack.now load.size load.signed load.offset address ≡ Ok result }
{
    match address {
        Some(Value::Pointer { base, offset: from }) => match base {
            Base::Stack => load_stack(stack, from, load),
            Base::Context => Value::Number(load_context(fixed, from, load)),
            Base::Object(call) => Value::Number(load_object(held, objects, call, from, load)),
        },
        _ => unreachable!(),
    }
}

/// The value of bytes of the stack, at an offset from a pointer to it.
#[inline(always)]
pub(crate) fn load_stack(stack: &Stack, from: i64, load: Loaded) -> Value<u16>
    requires { IsResult (found_on_stack from load stack.now) }
    ensures { found_on_stack from load stack.now ≡ Ok result }
{
    stack.load(stack_place(from, load.offset), load.size, load.signed)
}

// The number of the bytes of an object.
fn load_bytes(bytes: &[u8], from: i64, load: Loaded) -> u64
    requires { (outside : Trap) × IsResult (found_among outside bytes.now from load) }
    ensures { (outside : Trap) → found_among outside bytes.now from load ≡ Ok (Value.Number result) }
{
    number_at(bytes, byte_place(from, load.offset), load.size, load.signed)
}

/// The number of bytes of the context, at an offset from a pointer to it.
#[inline(always)]
pub(crate) fn load_context(fixed: &Fixed<'_>, from: i64, load: Loaded) -> u64
    requires few { length (context_of fixed.now) ≤ MAX_CONTEXT }
    requires loads { IsResult (found_among Trap.ContextAccess (context_of fixed.now) from load) }
    ensures { found_among Trap.ContextAccess (context_of fixed.now) from load ≡ Ok (Value.Number result) }
{
    let place = byte_place(from, load.offset);
    number_over(fixed.context, fixed.data, place, load.size, load.signed)
}

fn load_object<O: Objects>(
    held: &[Holding<O::Held>],
    objects: &O,
    call: u16,
    from: i64,
    load: Loaded,
) -> u64
    requires out { AreOut O.store objects.now held.now }
    requires loads { IsResult (found_in_object (objects_in O.store objects.now held.now) call from load) }
    ensures { found_in_object (objects_in O.store objects.now held.now) call from load ≡ Ok (Value.Number result) }
{
    let place = place_of(held, call);
    load_bytes(objects.bytes(&held[place].object), from, load)
}

/// Stores the low bytes of a value on the stack, at an offset from a pointer to it.
#[inline(always)]
pub(crate) fn store_value(
    stack: &mut Stack,
    from: i64,
    size: Size,
    offset: i16,
    value: Option<Value<u16>>,
)
    requires { CanStore value from offset size stack.old }
    ensures { IsStored value from offset size stack.old stack.new }
{
    match value {
        Some(value) => stack.store(stack_place(from, offset), size, value),
        None => unreachable!(),
    }
}

// The place in the stack at an offset from a pointer.
fn stack_place(from: i64, offset: i16) -> usize
    requires low { negsuc 511 ≤ℤ (from +ℤ offset) }
    requires high { (from +ℤ offset) ≤ℤ pos 0 }
    ensures { result ≡ nat_abs ((from +ℤ offset) +ℤ pos 512) }
{
    (from + offset as i64 + 512) as usize
}

/// The place among the bytes of the context, or of an object, at an offset from a pointer to it.
pub(crate) fn byte_place(from: i64, offset: i16) -> usize
    requires low { pos 0 ≤ℤ (from +ℤ offset) }
    requires fits { FitsSigned w64 (from +ℤ offset) }
    ensures { result ≡ nat_abs (from +ℤ offset) }
{
    (from + offset as i64) as usize
}
