//! A program that reads data after its context.

ghost use Rattle.std.specs.Prelude.{◌≡◌, ◌<◌, ◌≤◌, ◌+◌, ◌*◌, ◌++◌, ℕ, length, IfOk, IfErr, IfSome, OnOk, Some, None};
ghost use Rattle.ebpf_insn.specs.declared.program.TheConstants.{MAX_SLOTS};
ghost use Rattle.ebpf_insn.specs.Faults.{lowest};
ghost use Rattle.ebpf_insn.specs.Program.{insn_at, placed};
ghost use Rattle.ebpf_insn.specs.Encoding.{IsDefined, IsWellFormed};
ghost use Rattle.ebpf_flow.specs.declared.fault.FlowCode.{FlowCode};
ghost use Rattle.ebpf_layout.specs.EdgeFaults.{edge_fault_at};
ghost use Rattle.ebpf_link.specs.Linking.{address, offset_at, saves, fetches, adds, IsLinked, IsLinkFault, IsNear};
ghost use Rattle.ebpf_link.specs.Written.{linked_slot, IsCode, Fits};

use crate::fault::LinkFault;
use ebpf_insn::insn::{AluOp, Insn, Size, Source, Width};
use ebpf_insn::program::{MAX_SLOTS, Program};
use ebpf_insn::register::Reg;
use ebpf_layout::refusal::edge_fault;
use std::alloc::{AllocError, Global};

// What is written so far.
#[derive(Drop)]
struct Writer {
    code: Vec<Option<Insn>>,
    // How many instructions these are.
    count: usize,
}

/// The program with its data after a context of `declared` bytes. Each slot that has an offset loads a 64-bit immediate, which is to be
/// the address of the byte at that offset of the data. The linked program keeps the context's pointer in the word of the stack at
/// `r10 + word`, in bytes, which the program shouldn't use: [`crate::right::is_right`] says whether it does. Offsets past the last slot are not
/// looked at.
///
/// A loop is not refused, so that the linked program can be unrolled.
///
/// # Errors
/// `Slots` where the program has `MAX_SLOTS` slots already; `Flow` where an edge of a slot leads to no instruction; `NotWide` where
/// something else is at a slot that has an offset; `Far` where an address is more than 4096 bytes from the context's first byte;
/// `NoMemory` where an allocation failed.
pub fn link(
    alloc: Global,
    program: &Program,
    offsets: &[Option<i64>],
    declared: u32,
    word: i16,
) -> Result<Program, LinkFault>
    ensures linked { IfOk result (IsLinked program.now offsets.now declared word) }
    ensures refused { IfErr result (IsLinkFault program.now offsets.now declared) }
{
    let slots = program.slots();
    if slots >= MAX_SLOTS {
        return Err(LinkFault::Slots);
    }
    check_edges(program)?;
    let mut writer = Writer {
        code: Vec::with_capacity(alloc, slots + 1)?,
        count: 0,
    };
    push(&mut writer, saves(word))?;
    for slot in 0..slots {
        write_slot(&mut writer, program, offsets, declared, word, slot)?;
    }
    Ok(Program::new(writer.code, writer.count))
}

// Refuses the lowest slot of which an edge leads to no instruction.
fn check_edges(program: &Program) -> Result<(), LinkFault>
    ensures led { OnOk result ((slot : ℕ) → edge_fault_at program.now slot ≡ None) }
    ensures refused { IfErr result (λ e. (slot : ℕ) × (code : FlowCode) × (e ≡ LinkFault.Flow slot code)
        × (lowest (edge_fault_at program.now) (length program.now) ≡ Some (slot, code))) }
{
    for slot in 0..program.slots() {
        if let Some(code) = edge_fault(program, slot) {
            return Err(LinkFault::Flow {
                slot: slot as u16,
                code,
            });
        }
    }
    Ok(())
}

// The offset that a slot has.
fn offset_at(offsets: &[Option<i64>], slot: usize) -> Option<i64>
    ensures { result ≡ offset_at offsets.now slot }
{
    match offsets.get(slot) {
        Some(offset) => *offset,
        None => None,
    }
}

// How far an address is from the context's first byte, if that is near enough.
fn address(declared: u32, offset: i64) -> Option<i32>
    ensures value { IfSome result (λ bytes. bytes ≡ address declared offset) }
    ensures near { IfSome result IsNear }
    ensures far { result ≡ None → IsNear (address declared offset) → ⊥ }
{
    // Below this no context is long enough, so that the sum is a number of 64 bits.
    if offset < -4_294_971_391 || offset > 4096 {
        return None;
    }
    let bytes = declared as i64 + offset;
    if bytes < -4096 || bytes > 4096 {
        None
    } else {
        Some(bytes as i32)
    }
}

// Saves the context's pointer in a word of the stack.
fn saves(word: i16) -> Insn
    ensures value { result ≡ saves word }
    ensures defined { IsDefined result }
{
    Insn::Store {
        size: Size::D,
        base: Reg::R10,
        offset: word,
        src: Source::Register(Reg::R1),
    }
}

// Fetches it from there.
fn fetches(dst: Reg, word: i16) -> Insn
    ensures value { result ≡ fetches dst word }
    ensures defined { IsDefined result }
{
    Insn::Load {
        size: Size::D,
        signed: false,
        dst,
        base: Reg::R10,
        offset: word,
    }
}

// Moves it by a number of bytes.
fn adds(dst: Reg, bytes: i32) -> Insn
    ensures value { result ≡ adds dst bytes }
    ensures defined { IsDefined result }
{
    Insn::Alu {
        width: Width::W64,
        op: AluOp::Add,
        dst,
        src: Source::Imm(bytes),
    }
}

// Writes what replaces a slot.
fn write_slot(
    writer: &mut Writer,
    program: &Program,
    offsets: &[Option<i64>],
    declared: u32,
    word: i16,
    slot: usize,
) -> Result<(), LinkFault>
    requires code { IsCode writer.old.code.items writer.old.count }
    requires room { length writer.old.code.items ≤ 8192 }
    requires slot { slot < MAX_SLOTS }
    requires formed { IsWellFormed program.now }
    ensures code { OnOk result (IsCode writer.new.code.items writer.new.count) }
    ensures written { OnOk result (writer.new.code.items ≡ writer.old.code.items
        ++ linked_slot (insn_at program.now slot) (offset_at offsets.now slot) declared word) }
    ensures fits { OnOk result (Fits program.now offsets.now declared slot) }
    ensures refused { IfErr result (IsLinkFault program.now offsets.now declared) }
{
    match (program.at(slot), offset_at(offsets, slot)) {
        (None, None) => Ok(()),
        (Some(insn), None) => {
            push(writer, *insn)?;
            Ok(())
        }
        (Some(Insn::Wide { dst, .. }), Some(offset)) => {
            let Some(bytes) = address(declared, offset) else {
                return Err(LinkFault::Far { slot: slot as u16 });
            };
            push(writer, fetches(*dst, word))?;
            push(writer, adds(*dst, bytes))?;
            Ok(())
        }
        _ => Err(LinkFault::NotWide { slot: slot as u16 }),
    }
}

// Writes an instruction.
fn push(writer: &mut Writer, insn: Insn) -> Result<(), AllocError>
    requires code { IsCode writer.old.code.items writer.old.count }
    requires room { length writer.old.code.items ≤ 8194 }
    requires defined { IsDefined insn }
    ensures code { OnOk result (IsCode writer.new.code.items writer.new.count) }
    ensures written { OnOk result (writer.new.code.items ≡ writer.old.code.items ++ placed insn) }
{
    writer.count += 1;
    writer.code.push(Some(insn))?;
    if insn.slots() == 2 {
        writer.code.push(None)?;
    }
    Ok(())
}
