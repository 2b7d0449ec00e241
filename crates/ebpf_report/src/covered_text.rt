//! What jobs executed, slot by slot or by line of C, as it is written.

ghost use Rattle.std.specs.Prelude.{◌≡◌, ◌++◌, ℕ, List, length, map, string_bytes, OnOk};
ghost use Rattle.ebpf_machine.specs.Kinds.{AreKnown};
ghost use Rattle.ebpf_cover.specs.Covered.{AreAllCounts, AreLong, executed_at, taken_at};
ghost use Rattle.std.specs.Option.{option_copied};
ghost use Rattle.ebpf_reader.specs.ReadScripts.{named};
ghost use Rattle.ebpf_report.specs.CoveredLines.{counts_members, counts_words, covered_in, covered_line, covered_object};
ghost use Rattle.ebpf_report.specs.CoveredLines.{instruction_member, is_branch, program_lines, programs_from, slots_from, taken_member, IsCovered};
ghost use Rattle.ebpf_lines.specs.Sources.{HasFile};

use crate::covered_sources::{source_at, sources_of};
use ebpf_command::format::Format;
use ebpf_cover::counts::Counts;
use ebpf_cover::cover::cover;
use ebpf_insn::insn::Insn;
use ebpf_insn::program::Program;
use ebpf_lines::source::{ObjectFile, Source};
use ebpf_lines::source_text::write_source;
use ebpf_reader::script::Programs;
use ebpf_text::line::write_insn;
use ebpf_verify::verified::Verified;
use std::alloc::{AllocError, Global};
use worker_pool::{Jobs, PackedReports};

/// Jobs that were done, with the programs of their script, those that were accepted, and the report of each job; and the object file whose
/// lines of C are written, if there is one.
#[derive(Drop)]
pub struct DoneJobs<'a> {
    pub programs: &'a Programs,
    pub accepted: &'a [Verified],
    pub jobs: &'a Jobs,
    pub reports: &'a PackedReports,
    pub object: Option<ObjectFile<'a>>,
}

/// Writes after a text what the jobs of each program executed: by line of C if the program has the bytes of a function of the object file, and
/// otherwise slot by slot. It fails only where memory runs out, or a count would not fit 64 bits.
pub fn write_covered(
    alloc: Global,
    text: &mut String,
    format: Format,
    done: &DoneJobs<'_>,
) -> Result<(), AllocError>
    requires known { AreKnown done.now.accepted.now }
    requires all { length done.now.reports.now ≡ length done.now.jobs.now }
    requires object { HasFile done.now.object }
    ensures { OnOk result ((covered : List ℕ)
        × IsCovered format done.now.object (map named done.now.programs.now.entries) done.now.accepted.now done.now.jobs.now done.now.reports.now covered
        × (string_bytes text.new ≡ string_bytes text.old ++ covered)) }
{
    let all = cover(alloc, done.accepted, done.jobs, done.reports)?;
    let sources = sources_of(alloc, done.object, done.programs)?;
    write_programs(text, format, done, &all, &sources)
}

// Writes the counts of each program, by its lines.
fn write_programs(
    text: &mut String,
    format: Format,
    done: &DoneJobs<'_>,
    all: &[Counts],
    sources: &[Option<Source<'_>>],
) -> Result<(), AllocError>
    requires { AreAllCounts done.now.accepted.now done.now.jobs.now done.now.reports.now all.now }
    ensures { OnOk result (string_bytes text.new ≡ string_bytes text.old
        ++ programs_from format sources.now done.now.jobs.now done.now.reports.now 0 (map named done.now.programs.now.entries) done.now.accepted.now) }
{
    let mut program = 0;
    for (name, _) in done.programs.iter() {
        if program < done.accepted.len() {
            let verified = &done.accepted[program];
            let counts = &all[program];
            let source = source_at(sources, program);
            write_program(
                text,
                format,
                name.as_str(),
                verified.program(),
                counts,
                source,
            )?;
            program += 1;
        }
    }
    Ok(())
}

// Writes the counts of a program, by its lines if it has some.
fn write_program(
    text: &mut String,
    format: Format,
    name: &str,
    program: &Program,
    counts: &Counts,
    source: Option<&Source<'_>>,
) -> Result<(), AllocError>
    requires { AreLong program.now counts.now }
    ensures { OnOk result (string_bytes text.new ≡ string_bytes text.old
        ++ program_lines format name.now (option_copied source.entry) (executed_at counts.now) (taken_at counts.now) program.now) }
{
    match source {
        Some(source) => write_source(text, format, name, source, &counts.executed),
        None => write_slots(text, format, name, program, counts),
    }
}

// Writes the counts of each slot of a program that has an instruction.
fn write_slots(
    text: &mut String,
    format: Format,
    name: &str,
    program: &Program,
    counts: &Counts,
) -> Result<(), AllocError>
    requires { AreLong program.now counts.now }
    ensures { OnOk result (string_bytes text.new ≡ string_bytes text.old
        ++ slots_from format name.now (executed_at counts.now) (taken_at counts.now) 0 program.now) }
{
    for slot in 0..program.slots() {
        let executed = counts.executed[slot];
        let taken = counts.taken[slot];
        let covered = CoveredSlot {
            name,
            slot,
            executed,
            taken,
        };
        write_slot(text, format, &covered, program.at(slot))?;
    }
    Ok(())
}

// The counts of a slot of the program of a name.
#[derive(Drop)]
struct CoveredSlot<'a> {
    name: &'a str,
    slot: usize,
    executed: u64,
    taken: u64,
}

// Writes the counts of a slot, where it has an instruction.
fn write_slot(
    text: &mut String,
    format: Format,
    covered: &CoveredSlot<'_>,
    insn: Option<&Insn>,
) -> Result<(), AllocError>
    ensures { OnOk result (string_bytes text.new ≡ string_bytes text.old
        ++ covered_in format covered.now.name.now covered.now.slot covered.now.executed covered.now.taken (option_copied insn.entry)) }
{
    match (insn, format) {
        (None, _) => Ok(()),
        (Some(insn), Format::Text) => write_line(text, covered, insn),
        (Some(insn), Format::Json) => write_object(text, covered, insn),
    }
}

// Writes the line of a slot.
fn write_line(text: &mut String, covered: &CoveredSlot<'_>, insn: &Insn) -> Result<(), AllocError>
    ensures { OnOk result (string_bytes text.new ≡ string_bytes text.old
        ++ covered_line covered.now.name.now covered.now.slot covered.now.executed covered.now.taken insn.now) }
{
    write_counts(text, covered, is_branch(insn))?;
    text.push_str(": ")?;
    write_insn(text, insn)?;
    text.push_str("\n")
}

// Writes the object of a slot.
fn write_object(text: &mut String, covered: &CoveredSlot<'_>, insn: &Insn) -> Result<(), AllocError>
    ensures { OnOk result (string_bytes text.new ≡ string_bytes text.old
        ++ covered_object covered.now.name.now covered.now.slot covered.now.executed covered.now.taken insn.now) }
{
    write_members(text, covered.name, covered.slot, covered.executed)?;
    write_taken_member(text, is_branch(insn), covered.taken)?;
    write_instruction_member(text, insn)
}

fn is_branch(insn: &Insn) -> bool
    ensures { result ≡ is_branch insn.now }
{
    matches!(insn, Insn::Branch { .. })
}

// Writes the counts of a slot.
fn write_counts(
    text: &mut String,
    covered: &CoveredSlot<'_>,
    branch: bool,
) -> Result<(), AllocError>
    ensures { OnOk result (string_bytes text.new ≡ string_bytes text.old
        ++ counts_words covered.now.name.now covered.now.slot covered.now.executed branch covered.now.taken) }
{
    let CoveredSlot {
        name,
        slot,
        executed,
        taken,
    } = covered;
    if branch {
        return write!(
            text,
            "covered {name} slot {slot} executed {executed} taken {taken}"
        );
    }
    write!(text, "covered {name} slot {slot} executed {executed}")
}

// Writes the first members of the object of a slot.
fn write_members(
    text: &mut String,
    name: &str,
    slot: usize,
    executed: u64,
) -> Result<(), AllocError>
    ensures { OnOk result (string_bytes text.new ≡ string_bytes text.old ++ counts_members name.now slot executed) }
{
    write!(
        text,
        "{{\"covered\":\"{name}\",\"slot\":{slot},\"executed\":{executed}"
    )
}

// Writes how often a branch was taken; nothing of any other instruction.
fn write_taken_member(text: &mut String, branch: bool, taken: u64) -> Result<(), AllocError>
    ensures { OnOk result (string_bytes text.new ≡ string_bytes text.old ++ taken_member branch taken) }
{
    if !branch {
        return Ok(());
    }
    write!(text, ",\"taken\":{taken}")
}

// Writes the last member of the object.
fn write_instruction_member(text: &mut String, insn: &Insn) -> Result<(), AllocError>
    ensures { OnOk result (string_bytes text.new ≡ string_bytes text.old ++ instruction_member insn.now) }
{
    text.push_str(",\"instruction\":\"")?;
    write_insn(text, insn)?;
    text.push_str("\"}\n")
}
