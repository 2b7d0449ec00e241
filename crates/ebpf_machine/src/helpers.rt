//! Calls of helpers (RFC 9669, section 4.3.1): each takes its arguments in r1 and r2 and leaves its result in r0, and r1 to r5 are
//! lost. What a run never changes is passed to each for its contract, and is not read.

ghost use Rattle.std.specs.Prelude.{◌≡◌, ◌≤◌, ◌<◌, ◌+◌, ◌++◌, ◌∷◌, ℕ, ℤ, pos, max, map, Contains, List, [], length, None, Some, IfSome, slice_index_or};
ghost use Rattle.ebpf_insn.specs.declared.program.TheConstants.{MAX_SLOTS};
ghost use Rattle.ebpf_operation.specs.declared.helper.Helper.{Helper};
ghost use Rattle.ebpf_machine.specs.declared.fixed.Fixed.{Fixed};
ghost use Rattle.ebpf_machine.specs.Burst.{moved};
ghost use Rattle.ebpf_machine.specs.Flows.{HoldsNumber, object_in};
ghost use Rattle.ebpf_machine.specs.RunState.{Calls, IsCallThere, IsSwapThere, gone_on, emitted, holding_too, with_taken};
ghost use Rattle.ebpf_machine.specs.Parting.{HasParted};
ghost use Rattle.ebpf_machine.specs.Step.{IsFree};
ghost use Rattle.ebpf_machine.specs.World.{kinds_of};
ghost use Rattle.ebpf_machine.specs.Parts.{state_with, largest, HasCapacity, HasRoomAt, HasRoomFrom};
ghost use Rattle.ebpf_machine.specs.Advance.{IsReady, IsAdvanced};

use crate::fixed::Fixed;
use crate::holding::{Holding, place_of, take_at};
use crate::objects::Objects;
use crate::parts::Parts;
use crate::report::Reply;
use crate::value::{Base, Value};
use ebpf_insn::register::Reg;
use ebpf_operation::helper::Helper;

/// Does a call of a helper, but of `emit`.
///
/// Out of line: what it keeps in registers is not saved at the start of a run that makes no call.
#[inline(never)]
pub(crate) fn call<O: Objects>(
    fixed: &Fixed<'_>,
    parts: &mut Parts<O::Held>,
    helper: Helper,
    objects: &mut O,
)
    requires kinds { O.store.kinds ≡ kinds_of fixed.now.verified.now.rows }
    requires ready { IsReady O.store (state_with fixed.now parts.old) objects.old }
    requires at { Calls (state_with fixed.now parts.old) helper }
    requires another { helper ≡ Helper.Emit → ⊥ }
    requires can_give { IsFree (Some helper) → O.store.can_give objects.old }
    requires room { HasCapacity fixed.now.verified.now parts.old }
    ensures advanced { IsAdvanced O.store (state_with fixed.now parts.old) (state_with fixed.now parts.new) objects.old objects.new }
    ensures next { (parts.new.pc ≡ parts.old.pc + 1) × (parts.new.exit ≡ None) }
    ensures room { HasCapacity fixed.now.verified.now parts.new }
{
    match helper {
        Helper::New => ask(fixed, parts, objects),
        Helper::Free => give_back(fixed, parts, objects),
        Helper::Emit => unreachable!(),
        Helper::Swap => swap(fixed, parts, objects),
    }
}

/// Adds the number in r1 to the output. The run's pc and its count are left.
#[inline(always)]
pub(crate) fn emit<H>(parts: &mut Parts<H>)
    requires called { (fixed : Fixed) × (pc : ℕ) × IsCallThere (moved pc 0 (state_with fixed parts.old)) × HasRoomAt fixed.verified.now pc parts.old }
    requires found { HoldsNumber (slice_index_or parts.old.registers 1 None) }
    ensures state { (fixed : Fixed) (n : ℕ) → slice_index_or parts.old.registers 1 None ≡ Some (Value.Number n) →
        state_with fixed parts.new ≡ emitted n (state_with fixed parts.old) }
    ensures kept { parts.new.exit ≡ parts.old.exit }
    ensures room { (fixed : Fixed) (pc : ℕ) → IsCallThere (moved pc 0 (state_with fixed parts.old)) →
        HasRoomAt fixed.verified.now pc parts.old → HasRoomAt fixed.verified.now (pc + 1) parts.new }
{
    let number = parts.registers.number(Reg::R1);
    parts.output.push_reserved(number);
    parts.registers.answer(Value::Number(0));
}

// Asks for an object of the kind in r1.
fn ask<O: Objects>(fixed: &Fixed<'_>, parts: &mut Parts<O::Held>, objects: &mut O)
    requires kinds { O.store.kinds ≡ kinds_of fixed.now.verified.now.rows }
    requires ready { IsReady O.store (state_with fixed.now parts.old) objects.old }
    requires at { Calls (state_with fixed.now parts.old) Helper.New }
    requires room { HasCapacity fixed.now.verified.now parts.old }
    ensures advanced { IsAdvanced O.store (state_with fixed.now parts.old) (state_with fixed.now parts.new) objects.old objects.new }
    ensures next { (parts.new.pc ≡ parts.old.pc + 1) × (parts.new.exit ≡ None) }
    ensures room { HasCapacity fixed.now.verified.now parts.new }
{
    let call = parts.pc as u16;
    let kind = parts.registers.number(Reg::R1) as u8;
    match objects.take(kind, call) {
        Some(object) => {
            let holding = Holding { call, kind, object };
            hold(fixed, parts, holding, Reply::Granted);
            let base = Base::Object(call);
            answer(fixed, parts, Value::Pointer { base, offset: 0 });
        }
        None => {
            parts.replies.push_reserved(Reply::Null);
            answer(fixed, parts, Value::Number(0));
        }
    }
}

// Holds an object that a call got with this reply.
fn hold<H>(fixed: &Fixed<'_>, parts: &mut Parts<H>, holding: Holding<H>, reply: Reply)
    requires held { length parts.old.held.items < fixed.now.verified.now.decl.held }
    requires called { IsCallThere (state_with fixed.now parts.old) }
    requires room { HasRoomFrom fixed.now.verified.now parts.old.pc (parts.old.pc + 1) parts.old }
    ensures state { state_with fixed.now parts.new ≡ holding_too holding reply (state_with fixed.now parts.old) }
    ensures room { HasRoomAt fixed.now.verified.now (parts.new.pc + 1) parts.new }
{
    parts.held.push_reserved(holding);
    parts.replies.push_reserved(reply);
    parts.peak = parts.peak.max(parts.held.len() as u64);
}

// Gives back the object in r1.
fn give_back<O: Objects>(fixed: &Fixed<'_>, parts: &mut Parts<O::Held>, objects: &mut O)
    requires kinds { O.store.kinds ≡ kinds_of fixed.now.verified.now.rows }
    requires ready { IsReady O.store (state_with fixed.now parts.old) objects.old }
    requires at { Calls (state_with fixed.now parts.old) Helper.Free }
    requires can_give { O.store.can_give objects.old }
    requires room { HasCapacity fixed.now.verified.now parts.old }
    ensures advanced { IsAdvanced O.store (state_with fixed.now parts.old) (state_with fixed.now parts.new) objects.old objects.new }
    ensures next { (parts.new.pc ≡ parts.old.pc + 1) × (parts.new.exit ≡ None) }
    ensures room { HasCapacity fixed.now.verified.now parts.new }
{
    let place = place_of(&parts.held, object(parts.registers.get(Reg::R1)));
    let Holding {
        call: _,
        kind,
        object,
    } = take_at(&mut parts.held, place);
    objects.give(kind, object);
    answer(fixed, parts, Value::Number(0));
}

// Exchanges what is on the shelf in r1 for the object in r2, or for nothing.
fn swap<O: Objects>(fixed: &Fixed<'_>, parts: &mut Parts<O::Held>, objects: &mut O)
    requires kinds { O.store.kinds ≡ kinds_of fixed.now.verified.now.rows }
    requires ready { IsReady O.store (state_with fixed.now parts.old) objects.old }
    requires at { Calls (state_with fixed.now parts.old) Helper.Swap }
    requires room { HasCapacity fixed.now.verified.now parts.old }
    ensures advanced { IsAdvanced O.store (state_with fixed.now parts.old) (state_with fixed.now parts.new) objects.old objects.new }
    ensures next { (parts.new.pc ≡ parts.old.pc + 1) × (parts.new.exit ≡ None) }
    ensures room { HasCapacity fixed.now.verified.now parts.new }
{
    let call = parts.pc as u16;
    let shelf = parts.registers.number(Reg::R1) as u8;
    let given = part_with(fixed, parts);
    match objects.swap(shelf, given, call) {
        Some(object) => {
            keep(fixed, parts, objects.bytes(&object));
            let kind = shelf;
            let holding = Holding { call, kind, object };
            hold(fixed, parts, holding, Reply::Shelf);
            let base = Base::Object(call);
            answer(fixed, parts, Value::Pointer { base, offset: 0 });
        }
        None => {
            parts.replies.push_reserved(Reply::Empty);
            answer(fixed, parts, Value::Number(0));
        }
    }
}

// Takes the object in r2 from the run, where there is one.
fn part_with<H>(fixed: &Fixed<'_>, parts: &mut Parts<H>) -> Option<H>
    requires held { IfSome (object_in (slice_index_or parts.old.registers 2 None)) (λ call. Contains (map (λ h. h.call) parts.old.held.items) call) }
    requires room { HasCapacity fixed.now.verified.now parts.old }
    ensures parted { HasParted result (state_with fixed.now parts.old) (state_with fixed.now parts.new) }
    ensures room { HasCapacity fixed.now.verified.now parts.new }
{
    let Some(call) = object_at(parts.registers.get(Reg::R2)) else {
        return None;
    };
    let place = place_of(&parts.held, call);
    let Holding {
        call: _,
        kind: _,
        object,
    } = take_at(&mut parts.held, place);
    Some(object)
}

// Keeps the bytes of an object that was on a shelf.
fn keep<H>(fixed: &Fixed<'_>, parts: &mut Parts<H>, bytes: &[u8])
    requires few { length bytes.now ≤ largest fixed.now.verified.now.rows }
    requires called { IsSwapThere (state_with fixed.now parts.old) }
    requires room { HasCapacity fixed.now.verified.now parts.old }
    ensures state { state_with fixed.now parts.new ≡ with_taken bytes.now (state_with fixed.now parts.old) }
    ensures room { HasRoomFrom fixed.now.verified.now parts.new.pc (parts.new.pc + 1) parts.new }
{
    let Ok(()) = parts.taken.extend_from_slice(bytes) else {
        unreachable!()
    };
}

// Goes on after a call, with its result.
fn answer<H>(fixed: &Fixed<'_>, parts: &mut Parts<H>, value: Value<u16>)
    requires few { parts.old.executed < MAX_SLOTS }
    requires inside { parts.old.pc < MAX_SLOTS }
    requires room { HasRoomAt fixed.now.verified.now (parts.old.pc + 1) parts.old }
    ensures state { state_with fixed.now parts.new ≡ gone_on value (state_with fixed.now parts.old) }
    ensures room { HasCapacity fixed.now.verified.now parts.new }
{
    parts.registers.answer(value);
    parts.pc += 1;
    parts.executed += 1;
}

// The call that got the object to which a register is a pointer.
fn object(value: Option<Value<u16>>) -> u16
    requires { (call : ℕ) × (k : ℤ) × (value ≡ Some (Value.Pointer (Base.Object call) k)) }
    ensures { object_in value ≡ Some result }
{
    match object_at(value) {
        Some(call) => call,
        None => unreachable!(),
    }
}

// The same where the register may hold something else.
fn object_at(value: Option<Value<u16>>) -> Option<u16>
    ensures { result ≡ object_in value }
{
    match value {
        Some(
            Value::Pointer {
                base: Base::Object(call),
                ..
            },
        ) => Some(call),
        _ => None,
    }
}
