//! What is said of a function that isn't linked with its data.

ghost use Rattle.std.specs.Prelude.{◌≡◌, ◌≤◌, IfOk, OnOk, OnErr, None, Some, length};
ghost use Rattle.ebpf_link.specs.declared.fault.LinkFault.TheVariants.{NoWord};
ghost use Rattle.ebpf_loader.specs.Sentences.{HasNames, link_sentence, load_sentence};
ghost use Rattle.ebpf_command.specs.Codes.{refusal_name};
ghost use Rattle.ebpf_command.specs.declared.codes.RefusalCode.TheVariants.{Decode, Flow};
ghost use Rattle.ebpf_explain.specs.DecodeSentences.{decode_sentence};
ghost use Rattle.ebpf_explain.specs.Reasons.{misled_in};
ghost use Rattle.ebpf_host_c.specs.Said.{IsLoadFaultSaid, IsSaidAs, IsSaidReported, IsUnlinkedSaid, load_slot, said_name};

use crate::reported::{InFile, Refused, add_line, line_in, report_as};
use ebpf_command::codes::RefusalCode;
use ebpf_explain::decode_sentence::write_decode_sentence;
use ebpf_explain::reason::write_misled;
use ebpf_flow::fault::FlowCode;
use ebpf_insn::fault::DecodeCode;
use ebpf_insn::program::Program;
use ebpf_link::fault::LinkFault;
use ebpf_loader::fault::LoadFault;
use ebpf_loader::sentence::{write_sentence, write_unlinked};
use std::alloc::{AllocError, Global};

/// By which code a function isn't linked.
#[derive(Clone, Copy)]
pub enum SaidCode {
    /// Its bytes, or its flow, are refused by themselves.
    Refused(RefusalCode),
    /// It can't be linked with its data.
    Unlinked,
}

impl SaidCode {
    // The code as it is written.
    fn name(self) -> &'static str
        ensures { result.now ≡ said_name self }
    {
        match self {
            SaidCode::Refused(code) => code.name(),
            SaidCode::Unlinked => "O5",
        }
    }
}

/// What is said of a function that isn't linked.
#[derive(Drop)]
pub struct Said {
    pub code: SaidCode,
    /// The slot of the function of which it speaks, if it does of one.
    pub slot: Option<u16>,
    /// Why, as a line that is indented by two blanks.
    pub line: String,
}

/// What is said of a function, of these bytes, that isn't linked with its data. It fails only where an allocation fails, or failed there.
pub(crate) fn say_fault(
    alloc: Global,
    file: &[u8],
    bytes: &[u8],
    fault: &LoadFault,
) -> Result<Said, AllocError>
    requires { HasNames file.now fault.now }
    ensures { IfOk result (IsLoadFaultSaid file.now bytes.now fault.now) }
{
    match fault {
        LoadFault::Undecoded { slot, code } => say_undecoded(alloc, bytes, *slot, *code),
        LoadFault::Unlinked {
            program,
            fault: unlinked,
        } => match unlinked {
            LinkFault::Flow { slot, code } => say_misled(alloc, program, *slot, *code),
            _ => say_unlinked(alloc, file, fault),
        },
        LoadFault::TooLong { .. } => say_unlinked(alloc, file, fault),
        LoadFault::NoMemory => Err(AllocError),
    }
}

// What is said of bytes that are no program.
fn say_undecoded(
    alloc: Global,
    bytes: &[u8],
    slot: u16,
    code: DecodeCode,
) -> Result<Said, AllocError>
    ensures { IfOk result (IsSaidAs (refusal_name (Decode code)) (Some slot) (decode_sentence bytes.now slot code)) }
{
    let mut line = String::new(alloc);
    write_decode_sentence(&mut line, bytes, slot as usize, code)?;
    Ok(Said {
        code: SaidCode::Refused(RefusalCode::Decode(code)),
        slot: Some(slot),
        line,
    })
}

// What is said of a program of which an edge leads to no instruction.
fn say_misled(
    alloc: Global,
    program: &Program,
    slot: u16,
    code: FlowCode,
) -> Result<Said, AllocError>
    ensures { IfOk result (IsSaidAs (refusal_name (Flow code)) (Some slot) (misled_in program.now slot code)) }
{
    let mut line = String::new(alloc);
    write_misled(alloc, &mut line, program, slot as usize, code)?;
    Ok(Said {
        code: SaidCode::Refused(RefusalCode::Flow(code)),
        slot: Some(slot),
        line,
    })
}

// What is said of a fault by its sentence.
fn say_unlinked(alloc: Global, file: &[u8], fault: &LoadFault) -> Result<Said, AllocError>
    requires { HasNames file.now fault.now }
    ensures { IfOk result (IsUnlinkedSaid (load_slot fault.now) (load_sentence file.now fault.now)) }
{
    let mut line = String::new(alloc);
    line.push_str("  ")?;
    write_sentence(&mut line, file, fault)?;
    line.push_str("\n")?;
    Ok(Said {
        code: SaidCode::Unlinked,
        slot: slot_of(fault),
        line,
    })
}

/// What is said where no word of the stack is certain to have the context's pointer. It fails only where an allocation fails.
pub(crate) fn say_no_word(alloc: Global) -> Result<Said, AllocError>
    ensures { IfOk result (IsUnlinkedSaid None (link_sentence NoWord)) }
{
    let mut line = String::new(alloc);
    line.push_str("  ")?;
    write_unlinked(&mut line, LinkFault::NoWord)?;
    line.push_str("\n")?;
    Ok(Said {
        code: SaidCode::Unlinked,
        slot: None,
        line,
    })
}

// The slot of which a fault speaks, if it does of one.
fn slot_of(fault: &LoadFault) -> Option<u16>
    ensures { result ≡ load_slot fault.now }
{
    match fault {
        LoadFault::Undecoded { slot, .. } => Some(*slot),
        LoadFault::Unlinked { fault, .. } => match fault {
            LinkFault::Flow { slot, .. } | LinkFault::NotWide { slot } | LinkFault::Far { slot } =>
                { Some(*slot) }
            LinkFault::Slots | LinkFault::NoWord | LinkFault::NoMemory => None,
        },
        LoadFault::TooLong { .. } | LoadFault::NoMemory => None,
    }
}

/// Tells C what is said, with the line of C that holds at the slot. It fails only where an allocation fails.
pub(crate) fn report_said(
    said: Said,
    source: InFile<'_>,
    text: &mut [u8],
    refused: &mut Refused,
) -> Result<(), AllocError>
    requires { source.place.from ≤ length source.file.now }
    ensures reported { OnOk result (IsSaidReported said source.entry.file.now source.entry.place text.old text.new refused.new) }
    ensures unchanged { OnErr result ((text.new ≡ text.old) × (refused.new ≡ refused.old)) }
{
    let Said {
        code,
        slot,
        mut line,
    } = said;
    add_line(&mut line, line_in(Some(source), slot))?;
    report_as(
        code.name(),
        u32::from(slot.unwrap_or(0)),
        line.as_bytes(),
        text,
        refused,
    );
    Ok(())
}
