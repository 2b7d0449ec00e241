//! The rules of loads and stores: what refuses one, and what is known after it (RFC 9669, sections 5.1 and 5.2).

ghost use Rattle.std.specs.Prelude.{◌≡◌, ◌<◌, ◌^◌, ◌+ℤ◌, ◌≤ℤ◌, if◌then◌else◌, pos, negsuc, IfOk, IfErr, IfSome, OnOk, Some, None, Ok, Err};
ghost use Rattle.ebpf_insn.specs.declared.program.TheConstants.{MAX_SLOTS};
ghost use Rattle.ebpf_state.specs.Stack.{bytes_in, place_of, loaded, loaded_range, stored};
ghost use Rattle.ebpf_verify.specs.Memory.{is_number, stack_code, refused_access, is_in_bounds, size_held};
ghost use Rattle.ebpf_verify.specs.Memory.{load_refusal, loaded_value, reading_refusal};
ghost use Rattle.ebpf_verify.specs.Rules.{refusal_of_store, state_after_store};
ghost use Rattle.ebpf_verify.specs.Verdict.{IsSlotFault};

use crate::branches::operand;
use crate::fault::{VerifyCode, VerifyFault, refused_at};
use crate::operations::is_frame_pointer;
use ebpf_insn::insn::{Size, Source, Width};
use ebpf_insn::register::Reg;
use ebpf_state::kinds::KindRow;
use ebpf_state::stack::{StackFault, StoreFault, bytes_in, loaded_range};
use ebpf_state::state::State;
use ebpf_state::value::Abs;

/// A load: how wide it is, and from where to where.
#[derive(Clone, Copy)]
pub(crate) struct Load {
    pub(crate) size: Size,
    pub(crate) signed: bool,
    pub(crate) dst: Reg,
    pub(crate) offset: i16,
}

impl Load {
    pub(crate) fn new(size: Size, signed: bool, dst: Reg, offset: i16) -> Load
        ensures { result ≡ record { size = size; signed = signed; dst = dst; offset = offset } }
    {
        Load {
            size,
            signed,
            dst,
            offset,
        }
    }
}

/// What is known of the value that is loaded through a base, or the first code that refuses the load.
pub(crate) fn load_value(
    context: u32,
    kinds: &[KindRow],
    load: Load,
    base: Abs,
    state: &State,
) -> Result<Abs, VerifyCode>
    ensures refused { IfErr result (λ code. load_refusal context kinds.now load.size load.signed load.dst load.offset base state.now ≡ Some code) }
    ensures fine { OnOk result (load_refusal context kinds.now load.size load.signed load.dst load.offset base state.now ≡ None) }
    ensures value { IfOk result (λ value. value ≡ loaded_value load.size load.signed load.offset base state.now) }
{
    if base.is_unset() {
        Err(VerifyCode::UnsetRegister)
    } else if is_frame_pointer(load.dst) {
        Err(VerifyCode::FramePointerWritten)
    } else if is_number(base) {
        Err(VerifyCode::NumberAsAddress)
    } else if base.is_may() {
        Err(VerifyCode::UntestedAnswer)
    } else {
        read(context, kinds, load, base, state)
    }
}

// What is known of the bytes at a pointer, or the code that refuses the load of them.
fn read(
    context: u32,
    kinds: &[KindRow],
    load: Load,
    base: Abs,
    state: &State,
) -> Result<Abs, VerifyCode>
    ensures refused { IfErr result (λ code. reading_refusal context kinds.now load.size load.signed load.offset base state.now ≡ Some code) }
    ensures fine { OnOk result (reading_refusal context kinds.now load.size load.signed load.offset base state.now ≡ None) }
    ensures value { IfOk result (λ value. value ≡ loaded_value load.size load.signed load.offset base state.now) }
{
    match base {
        Abs::Stk(k) => read_stack(load, k, state),
        Abs::Ctx(low, high) => read_bytes(load, context, low, high).ok_or(
            VerifyCode::OutsideContext,
        ),
        Abs::Ob(call, low, high) => {
            read_bytes(load, size_held(kinds, call, state), low, high).ok_or(
                VerifyCode::OutsideObject,
            )
        }
        _ => Ok(Abs::Unset),
    }
}

// What is known of bytes of the context or of an object of this length; `None` where one of them may be outside.
fn read_bytes(load: Load, len: u32, low: i64, high: i64) -> Option<Abs>
    ensures { let bytes = bytes_in load.size in
        result ≡ (if is_in_bounds len low high load.offset bytes then Some (Abs.Num (loaded_range bytes load.signed)) else None) }
{
    let bytes = bytes_in(load.size);
    if is_in_bounds(len, low, high, load.offset, bytes) {
        Some(Abs::Num(loaded_range(bytes, load.signed)))
    } else {
        None
    }
}

// What is known of bytes of the stack, or the code that refuses the load of them.
fn read_stack(load: Load, k: i64, state: &State) -> Result<Abs, VerifyCode>
    ensures refused { IfErr result (λ code. refused_access (loaded state.now load.size load.signed (k +ℤ load.offset)) ≡ Some code) }
    ensures value { IfOk result (λ value. loaded state.now load.size load.signed (k +ℤ load.offset) ≡ Ok value) }
{
    let at = stack_offset(k, load.offset, load.size);
    match state.load(load.size, load.signed, at) {
        Ok(value) => Ok(value),
        Err(fault) => Err(stack_code(fault)),
    }
}

// The offset from the frame pointer that an instruction goes to. One that is outside the stack is reported as the one after it.
fn stack_offset(k: i64, offset: i16, size: Size) -> i64
    ensures { place_of result (bytes_in size) ≡ place_of (k +ℤ offset) (bytes_in size) }
{
    let at = address(k, offset);
    if at < -512 || at > 0 { 1 } else { at as i64 }
}

// Where an instruction goes from a pointer.
fn address(at: i64, offset: i16) -> i128
    ensures value { result ≡ at +ℤ offset }
    ensures low { negsuc (2 ^ 64) ≤ℤ result }
    ensures high { result ≤ℤ pos (2 ^ 64) }
{
    at as i128 + offset as i128
}

// The end of n bytes at an address.
fn end(address: i128, bytes: usize) -> i128
    requires low { negsuc (2 ^ 64) ≤ℤ address }
    requires high { address ≤ℤ pos (2 ^ 64) }
    ensures { result ≡ address +ℤ pos bytes }
{
    address + bytes as i128
}

// The bytes at an offset from an address lie among those of something of this length, wherever between its ends the address is.
fn is_in_bounds(len: u32, low: i64, high: i64, offset: i16, bytes: usize) -> bool
    ensures { result ≡ is_in_bounds len low high offset bytes }
{
    address(low, offset) >= 0 && end(address(high, offset), bytes) <= len as i128
}

// How many bytes the object of a call has. Nothing has none.
fn size_held(kinds: &[KindRow], call: u16, state: &State) -> u32
    ensures { result ≡ size_held kinds.now call state.now }
{
    let Some(kind) = state.kind(call) else {
        return 0;
    };
    match kinds.get(kind as usize) {
        Some(row) => row.size,
        None => 0,
    }
}

// The value is a number.
fn is_number(value: Abs) -> bool
    ensures { result ≡ is_number value }
{
    matches!(value, Abs::Num(_))
}

fn stack_code(fault: StackFault) -> VerifyCode
    ensures { result ≡ stack_code fault }
{
    match fault {
        StackFault::Bounds => VerifyCode::OutsideStack,
        StackFault::UnsetByte => VerifyCode::UnsetStack,
        StackFault::SplitPointer => VerifyCode::PartialPointer,
    }
}

/// A store: how wide it is, to where, and of what.
#[derive(Clone, Copy)]
pub(crate) struct Store {
    pub(crate) size: Size,
    pub(crate) base: Reg,
    pub(crate) offset: i16,
    pub(crate) src: Source,
}

impl Store {
    pub(crate) fn new(size: Size, base: Reg, offset: i16, src: Source) -> Store
        ensures { result ≡ record { size = size; base = base; offset = offset; src = src } }
    {
        Store {
            size,
            base,
            offset,
            src,
        }
    }
}

/// Says in the state that a value is stored through a base, or says why that can't be.
pub(crate) fn store_value(
    kinds: &[KindRow],
    store: Store,
    slot: usize,
    state: &mut State,
) -> Result<(), VerifyFault>
    requires { slot < MAX_SLOTS }
    ensures fine { OnOk result (refusal_of_store kinds.now store.size store.base store.offset store.src state.old ≡ None) }
    ensures known { OnOk result (state_after_store store.size store.base store.offset store.src state.old ≡ Some state.new) }
    ensures refused { IfErr result (IsSlotFault slot (refusal_of_store kinds.now store.size store.base store.offset store.src state.old)) }
{
    let value = operand(state, Width::W64, store.src);
    match state.reg(store.base) {
        Abs::Unset => Err(refused_at(slot, VerifyCode::UnsetRegister)),
        _ if value.is_unset() => Err(refused_at(slot, VerifyCode::UnsetRegister)),
        Abs::Stk(k) => store_on_stack(store, k, value, slot, state),
        Abs::Ctx(_, _) => Err(refused_at(slot, VerifyCode::ContextWritten)),
        Abs::Ob(call, low, high) => {
            let len = size_held(kinds, call, state);
            if !is_in_bounds(len, low, high, store.offset, bytes_in(store.size)) {
                Err(refused_at(slot, VerifyCode::OutsideObject))
            } else if value.is_pointer() || value.is_may() {
                Err(refused_at(slot, VerifyCode::PartialPointer))
            } else {
                Ok(())
            }
        }
        Abs::May(_) => Err(refused_at(slot, VerifyCode::UntestedAnswer)),
        Abs::Num(_) => Err(refused_at(slot, VerifyCode::NumberAsAddress)),
    }
}

// Says in the state that a value is stored on the stack, or says why that can't be.
fn store_on_stack(
    store: Store,
    k: i64,
    value: Abs,
    slot: usize,
    state: &mut State,
) -> Result<(), VerifyFault>
    requires { slot < MAX_SLOTS }
    ensures known { OnOk result (stored state.old store.size (k +ℤ store.offset) value ≡ Ok state.new) }
    ensures refused { IfErr result (IsSlotFault slot (refused_access (stored state.old store.size (k +ℤ store.offset) value))) }
{
    let at = stack_offset(k, store.offset, store.size);
    match state.store(store.size, at, value) {
        Ok(()) => Ok(()),
        Err(StoreFault::Refused(fault)) => Err(refused_at(slot, stack_code(fault))),
        Err(StoreFault::NoMemory) => Err(VerifyFault::NoMemory),
    }
}
