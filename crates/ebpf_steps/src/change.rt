//! What an instruction changed.

ghost use Rattle.std.specs.Prelude.{◌≡◌, ℤ};
ghost use Rattle.ebpf_insn.specs.declared.insn.Width.TheVariants.{W64};
ghost use Rattle.ebpf_operation.specs.Helpers.{helper_of};
ghost use Rattle.ebpf_machine.specs.Values.{source_value};
ghost use Rattle.ebpf_steps.specs.Changes.{called, changed, emitted, frame_of, low_bytes, set_to, stored, written, written_through};

use ebpf_insn::insn::{Insn, Size, Source, Width};
use ebpf_insn::register::Reg;
use ebpf_machine::run::Run;
use ebpf_machine::value::{Base, Value};
use ebpf_operation::helper::{Helper, helper_of};

/// What an instruction changed.
#[derive(Clone, Copy)]
pub(crate) enum Change {
    /// Nothing that is shown: it is a jump, a branch or an exit.
    Nothing,
    /// A register got this value.
    Register {
        register: Reg,
        value: Value<u16>,
    },
    /// This value was stored, from an offset on; of a number its low bytes, as many as the store has.
    Memory {
        base: Base<u16>,
        offset: i128,
        value: Value<u16>,
    },
    /// This number was added to the output, and r0 got this value.
    Output {
        number: u64,
        answer: Value<u16>,
    },
}

/// What an instruction changed, by the run after it.
pub(crate) fn changed<H>(insn: &Insn, run: &Run<'_, H>) -> Change
    ensures { result ≡ changed insn.now (frame_of run.now) }
{
    match *insn {
        Insn::Alu { dst, .. }
        | Insn::Sext { dst, .. }
        | Insn::Neg { dst, .. }
        | Insn::Swap { dst, .. }
        | Insn::Wide { dst, .. }
        | Insn::Load { dst, .. } => set_to(dst, run.register(dst)),
        Insn::Store {
            size,
            base,
            offset,
            src,
        } => written(size, offset, run.register(base), source_value(src, run)),
        Insn::Call { number } => called(number, run),
        Insn::Jump { .. } | Insn::JumpFar { .. } | Insn::Branch { .. } | Insn::Exit => {
            Change::Nothing
        }
    }
}

// The value of a second operand.
fn source_value<H>(source: Source, run: &Run<'_, H>) -> Option<Value<u16>>
    ensures { result ≡ source_value (frame_of run.now) W64 source }
{
    match source {
        Source::Register(register) => run.register(register),
        Source::Imm(imm) => Some(Value::Number(Width::W64.immediate(imm))),
    }
}

// What a call changed.
fn called<H>(number: i32, run: &Run<'_, H>) -> Change
    ensures { result ≡ called (helper_of number) (frame_of run.now) }
{
    let answer = run.register(Reg::R0);
    match helper_of(number) {
        Some(Helper::Emit) => emitted(run.output().last().copied(), answer),
        Some(Helper::New | Helper::Free | Helper::Swap) | None => set_to(Reg::R0, answer),
    }
}

// A register got a value.
fn set_to(register: Reg, value: Option<Value<u16>>) -> Change
    ensures { result ≡ set_to register value }
{
    match value {
        Some(value) => Change::Register { register, value },
        None => Change::Nothing,
    }
}

// A number was added to the output, and r0 got a value.
fn emitted(number: Option<u64>, answer: Option<Value<u16>>) -> Change
    ensures { result ≡ emitted number answer }
{
    match (number, answer) {
        (Some(number), Some(answer)) => Change::Output { number, answer },
        _ => Change::Nothing,
    }
}

// A value was stored, at an offset from the value of a base.
fn written(size: Size, offset: i16, base: Option<Value<u16>>, value: Option<Value<u16>>) -> Change
    ensures { result ≡ written size offset base value }
{
    match (base, value) {
        (Some(base), Some(value)) => written_through(base, offset, stored(size, value)),
        _ => Change::Nothing,
    }
}

// A value was stored, at an offset from a pointer.
fn written_through(pointer: Value<u16>, offset: i16, value: Value<u16>) -> Change
    ensures { result ≡ written_through pointer offset value }
{
    match pointer {
        Value::Number(_) => Change::Nothing,
        Value::Pointer { base, offset: from } => Change::Memory {
            base,
            offset: from as i128 + offset as i128,
            value,
        },
    }
}

// What is stored of a value.
fn stored(size: Size, value: Value<u16>) -> Value<u16>
    ensures { result ≡ stored size value }
{
    match value {
        Value::Number(number) => Value::Number(low_bytes(size, number)),
        Value::Pointer { .. } => value,
    }
}

// The low bytes of a number.
fn low_bytes(size: Size, number: u64) -> u64
    ensures { result ≡ low_bytes size number }
{
    match size {
        Size::B => number % 0x100,
        Size::H => number % 0x1_0000,
        Size::W => number % 0x1_0000_0000,
        Size::D => number,
    }
}
