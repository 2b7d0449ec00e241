//! Why every jump of a program can't be made to lead forward, in a format.

ghost use Rattle.std.specs.Prelude.{◌≡◌, ◌++◌, IfOk, OnOk, string_bytes};
ghost use Rattle.ebpf_command.specs.Json.{refused_head};
ghost use Rattle.ebpf_command.specs.Response.{refused_response};
ghost use Rattle.ebpf_input.specs.WhyNot.{edge_member, exits_member, first_line, later_string, later_strings, loop_object, object_of, slot_object};
ghost use Rattle.ebpf_input.specs.WhyNot.{loop_rest, slot_rest, strings_of, turns_member, visit_members, visit_members_of, why_not_in};

use crate::json_text::words_of;
use ebpf_command::answer::Answer;
use ebpf_command::done::Done;
use ebpf_command::format::Format;
use ebpf_command::json::{write_quoted, write_why};
use ebpf_forward::fault::BackEdge;
use ebpf_forward::lines::write_lines;
use ebpf_forward::why_not::{KnownVisit, RefusedSlot, StuckLoop, Turns, WhyNot};
use std::alloc::{AllocError, Global};

/// The answer to a program of which every jump can't be made to lead forward, with the lines that say why. It fails only where an allocation
/// fails.
pub fn answer_why_not(alloc: Global, format: Format, why_not: &WhyNot) -> Result<Answer, AllocError>
    ensures { IfOk result (λ answer. answer ≡ refused_response (why_not_in format why_not.now)) }
{
    let mut text = String::new(alloc);
    match format {
        Format::Text => {
            write_first_line(&mut text, why_not)?;
            write_lines(&mut text, why_not)?;
        }
        Format::Json => write_object(&mut text, why_not)?,
    }
    Ok(Answer {
        text,
        done: Done::Refused,
    })
}

// The line before those that say why.
fn write_first_line(text: &mut String, why_not: &WhyNot) -> Result<(), AllocError>
    ensures { OnOk result (string_bytes text.new ≡ string_bytes text.old ++ first_line why_not.now) }
{
    match why_not {
        WhyNot::Slot(refused) => {
            let name = refused.code.name();
            let slot = refused.slot;
            write!(text, "refused {name} {slot}\n")
        }
        WhyNot::Loop(stuck) => {
            let BackEdge { from, to } = stuck.edge;
            write!(text, "loop {from} {to}\n")
        }
    }
}

// The object that says why.
fn write_object(text: &mut String, why_not: &WhyNot) -> Result<(), AllocError>
    ensures { OnOk result (string_bytes text.new ≡ string_bytes text.old ++ object_of why_not.now) }
{
    match why_not {
        WhyNot::Slot(refused) => write_slot_object(text, refused),
        WhyNot::Loop(stuck) => write_loop_object(text, stuck),
    }
}

// The object of a slot that is refused.
fn write_slot_object(text: &mut String, refused: &RefusedSlot) -> Result<(), AllocError>
    ensures { OnOk result (string_bytes text.new ≡ string_bytes text.old ++ slot_object refused.now) }
{
    write_slot_head(text, refused.code.name(), refused.slot)?;
    write_slot_rest(text, refused)
}

// The first members: the code, and the slot.
fn write_slot_head(text: &mut String, code: &str, slot: u16) -> Result<(), AllocError>
    ensures { OnOk result (string_bytes text.new ≡ string_bytes text.old ++ refused_head code.now slot) }
{
    write!(text, "{{\"refused\":\"{code}\",\"slot\":{slot}")
}

// The members after the slot.
fn write_slot_rest(text: &mut String, refused: &RefusedSlot) -> Result<(), AllocError>
    ensures { OnOk result (string_bytes text.new ≡ string_bytes text.old ++ slot_rest refused.now) }
{
    write_why(text, &refused.why)?;
    write_visit_members(text, &refused.visit)?;
    text.push_str("}\n")
}

// The members of a visit, if the slot is refused at one.
fn write_visit_members(text: &mut String, visit: &Option<KnownVisit>) -> Result<(), AllocError>
    ensures { OnOk result (string_bytes text.new ≡ string_bytes text.old ++ visit_members_of visit.now) }
{
    match visit {
        None => Ok(()),
        Some(known) => write_known_members(text, known),
    }
}

// The members of a visit: its number, and what is known before it.
fn write_known_members(text: &mut String, visit: &KnownVisit) -> Result<(), AllocError>
    ensures { OnOk result (string_bytes text.new ≡ string_bytes text.old ++ visit_members visit.now) }
{
    let number = visit.visit;
    write!(text, ",\"visit\":{number},\"known\":")?;
    write_quoted(text, words_of(visit.known.as_bytes()))
}

// The object of a loop that isn't unrolled.
fn write_loop_object(text: &mut String, stuck: &StuckLoop) -> Result<(), AllocError>
    ensures { OnOk result (string_bytes text.new ≡ string_bytes text.old ++ loop_object stuck.now) }
{
    write_edge(text, stuck.edge)?;
    write_turns(text, &stuck.turns)?;
    write_loop_rest(text, stuck)
}

// The members after how often it was walked round.
fn write_loop_rest(text: &mut String, stuck: &StuckLoop) -> Result<(), AllocError>
    ensures { OnOk result (string_bytes text.new ≡ string_bytes text.old ++ loop_rest stuck.now) }
{
    write_why(text, &stuck.why)?;
    write_exits_member(text, &stuck.turns)?;
    text.push_str("}\n")
}

// The first member: the edge that closes the loop.
fn write_edge(text: &mut String, edge: BackEdge) -> Result<(), AllocError>
    ensures { OnOk result (string_bytes text.new ≡ string_bytes text.old ++ edge_member edge) }
{
    let BackEdge { from, to } = edge;
    write!(text, "{{\"loop\":{{\"from\":{from},\"to\":{to}}}")
}

// How often it was walked round, if it was.
fn write_turns(text: &mut String, turns: &Option<Turns>) -> Result<(), AllocError>
    ensures { OnOk result (string_bytes text.new ≡ string_bytes text.old ++ turns_member turns.now) }
{
    match turns {
        None => Ok(()),
        Some(turns) => {
            let count = turns.count;
            write!(text, ",\"turns\":{count}")
        }
    }
}

// What each branch compares that leads out of it, if it was walked round.
fn write_exits_member(text: &mut String, turns: &Option<Turns>) -> Result<(), AllocError>
    ensures { OnOk result (string_bytes text.new ≡ string_bytes text.old ++ exits_member turns.now) }
{
    match turns {
        None => Ok(()),
        Some(turns) => {
            text.push_str(",\"exits\":[")?;
            write_strings(text, &turns.exits)?;
            text.push_str("]")
        }
    }
}

// Strings, with a comma between two.
fn write_strings(text: &mut String, strings: &[String]) -> Result<(), AllocError>
    ensures { OnOk result (string_bytes text.new ≡ string_bytes text.old ++ strings_of strings.now) }
{
    let Some((first, later)) = strings.split_first() else {
        return Ok(());
    };
    write_quoted(text, first.as_bytes())?;
    write_later_strings(text, later)
}

// Strings, a comma before each.
fn write_later_strings(text: &mut String, strings: &[String]) -> Result<(), AllocError>
    ensures { OnOk result (string_bytes text.new ≡ string_bytes text.old ++ later_strings strings.now) }
{
    for string in strings {
        write_later_string(text, string)?;
    }
    Ok(())
}

// A comma, and a string.
fn write_later_string(text: &mut String, string: &str) -> Result<(), AllocError>
    ensures { OnOk result (string_bytes text.new ≡ string_bytes text.old ++ later_string string.now) }
{
    text.push_str(",")?;
    write_quoted(text, string.as_bytes())
}
