//! The registers that an instruction reads, and what is known of them in words. Writing fails only where an allocation fails.

ghost use Rattle.std.specs.Prelude.{◌≡◌, ◌∷◌, ◌++◌, string_bytes, OnOk};
ghost use Rattle.ebpf_explain.specs.Reads.{registers_of, registers_in, operands_read, arguments_read, registers_read, answers_in, answers_read};
ghost use Rattle.ebpf_explain.specs.Reads.{known_of, fault_with_reads};
ghost use Rattle.ebpf_explain.specs.Reads.{unset_or, first_unset, answer_or, first_answer};

use crate::registers::write_registers;
use ebpf_insn::insn::{AluOp, Insn, Source};
use ebpf_insn::register::Reg;
use ebpf_operation::helper::{Helper, helper_of};
use ebpf_state::state::State;
use ebpf_state::value::Abs;
use std::alloc::AllocError;

/// The registers that an instruction reads, in the order in which its rule tests them.
#[derive(Clone, Copy)]
pub(crate) enum Reads {
    Nothing,
    One(Reg),
    Two(Reg, Reg),
}

// The registers that an instruction reads. An address, a displacement and an immediate are none.
pub(crate) fn registers_read(insn: &Insn) -> Reads
    ensures { registers_of result ≡ registers_read insn.now }
{
    match *insn {
        Insn::Alu { op, dst, src, .. } => operands_read(op, dst, src),
        Insn::Sext { src, .. } => Reads::One(src),
        Insn::Neg { dst, .. } => Reads::One(dst),
        Insn::Swap { dst, .. } => Reads::One(dst),
        Insn::Wide { .. } => Reads::Nothing,
        Insn::Load { base, .. } => Reads::One(base),
        Insn::Store { base, src, .. } => with_source(base, src),
        Insn::Jump { .. } => Reads::Nothing,
        Insn::JumpFar { .. } => Reads::Nothing,
        Insn::Branch { left, right, .. } => with_source(left, right),
        Insn::Call { number } => arguments_read(helper_of(number)),
        Insn::Exit => Reads::One(Reg::R0),
    }
}

// The registers of which its rule asks whether they were compared with null.
pub(crate) fn answers_read(insn: &Insn) -> Reads
    ensures { registers_of result ≡ answers_read insn.now }
{
    match *insn {
        Insn::Call { number } => answers_in(helper_of(number)),
        _ => registers_read(insn),
    }
}

// Those of a helper: of what `swap` is given, the object alone.
fn answers_in(helper: Option<Helper>) -> Reads
    ensures { registers_of result ≡ answers_in helper }
{
    match helper {
        Some(Helper::Swap) => Reads::One(Reg::R2),
        _ => arguments_read(helper),
    }
}

// What an operation reads. `mov` doesn't read what it writes.
fn operands_read(op: AluOp, dst: Reg, src: Source) -> Reads
    ensures { registers_of result ≡ operands_read op dst src }
{
    match op {
        AluOp::Mov => source(src),
        _ => with_source(dst, src),
    }
}

// A second operand alone.
fn source(src: Source) -> Reads
    ensures { registers_of result ≡ registers_in src }
{
    match src {
        Source::Register(register) => Reads::One(register),
        Source::Imm(_) => Reads::Nothing,
    }
}

// A register, and a second operand.
fn with_source(first: Reg, src: Source) -> Reads
    ensures { registers_of result ≡ first ∷ registers_in src }
{
    match src {
        Source::Register(register) => Reads::Two(first, register),
        Source::Imm(_) => Reads::One(first),
    }
}

// The arguments that the rule of a helper looks at.
fn arguments_read(helper: Option<Helper>) -> Reads
    ensures { registers_of result ≡ arguments_read helper }
{
    match helper {
        Some(Helper::New) => Reads::One(Reg::R1),
        Some(Helper::Free) => Reads::One(Reg::R1),
        Some(Helper::Emit) => Reads::One(Reg::R1),
        Some(Helper::Swap) => Reads::Two(Reg::R1, Reg::R2),
        None => Reads::Nothing,
    }
}

// A fault, with what is known of the registers that an instruction reads.
pub(crate) fn write_with_reads(
    text: &mut String,
    fault: &str,
    state: &State,
    insn: &Insn,
) -> Result<(), AllocError>
    ensures { OnOk result (string_bytes text.new ≡ string_bytes text.old ++ fault_with_reads fault.now state.now (registers_read insn.now)) }
{
    text.push_str(fault)?;
    text.push_str(",")?;
    write_reads(text, state, registers_read(insn))
}

// The words of the registers that are set.
fn write_reads(text: &mut String, state: &State, reads: Reads) -> Result<(), AllocError>
    ensures { OnOk result (string_bytes text.new ≡ string_bytes text.old ++ known_of state.now (registers_of reads)) }
{
    match reads {
        Reads::Nothing => write_registers(text, state, &[]),
        Reads::One(register) => write_registers(text, state, &[register]),
        Reads::Two(first, second) => write_registers(text, state, &[first, second]),
    }
}

// The first register that is not set.
pub(crate) fn first_unset(state: &State, reads: Reads) -> Option<Reg>
    ensures { result ≡ first_unset state.now (registers_of reads) }
{
    match reads {
        Reads::Nothing => None,
        Reads::One(register) => unset_or(register, state.reg(register), None),
        Reads::Two(first, second) => {
            let later = unset_or(second, state.reg(second), None);
            unset_or(first, state.reg(first), later)
        }
    }
}

// This register where it is not set, or another.
fn unset_or(register: Reg, value: Abs, other: Option<Reg>) -> Option<Reg>
    ensures { result ≡ unset_or register value other }
{
    if value.is_unset() {
        Some(register)
    } else {
        other
    }
}

// The call of the first register that is an answer which was not compared with null.
pub(crate) fn first_answer(state: &State, reads: Reads) -> Option<u16>
    ensures { result ≡ first_answer state.now (registers_of reads) }
{
    match reads {
        Reads::Nothing => None,
        Reads::One(register) => answer_or(state.reg(register), None),
        Reads::Two(first, second) => {
            let later = answer_or(state.reg(second), None);
            answer_or(state.reg(first), later)
        }
    }
}

// The call of an answer, or another.
fn answer_or(value: Abs, other: Option<u16>) -> Option<u16>
    ensures { result ≡ answer_or value other }
{
    match value {
        Abs::May(call) => Some(call),
        _ => other,
    }
}
