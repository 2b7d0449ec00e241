//! The lines of why a program is refused.

ghost use Rattle.std.specs.Prelude.{◌≡◌, ◌++◌, OnOk, string_bytes};
ghost use Rattle.ebpf_forward.specs.Lines.{exit_line, exits_of, lines_of, turns_lines, visit_line, visit_line_of};

use crate::why_not::{KnownVisit, Turns, WhyNot};
use std::alloc::AllocError;

/// Writes after a text why a program is refused: the line that says why, and under it what is known before a slot, or what the branches
/// compare that lead out of a loop.
///
/// # Errors
/// It fails only where an allocation fails, and some of the lines may be written then.
pub fn write_lines(text: &mut String, why_not: &WhyNot) -> Result<(), AllocError>
    ensures { OnOk result (string_bytes text.new ≡ string_bytes text.old ++ lines_of why_not.now) }
{
    match why_not {
        WhyNot::Slot(refused) => {
            text.push_str(&refused.why)?;
            write_visit(text, refused.slot, &refused.visit)
        }
        WhyNot::Loop(stuck) => {
            text.push_str(&stuck.why)?;
            write_turns(text, &stuck.turns)
        }
    }
}

// Writes what is known before a slot at a visit, if it is refused at one.
fn write_visit(text: &mut String, slot: u16, visit: &Option<KnownVisit>) -> Result<(), AllocError>
    ensures { OnOk result (string_bytes text.new ≡ string_bytes text.old ++ visit_line_of slot visit.now) }
{
    match visit {
        None => Ok(()),
        Some(known) => write_known(text, slot, known),
    }
}

// Writes what is known before a slot at a visit.
fn write_known(text: &mut String, slot: u16, visit: &KnownVisit) -> Result<(), AllocError>
    ensures { OnOk result (string_bytes text.new ≡ string_bytes text.old ++ visit_line slot visit.now) }
{
    let number = visit.visit;
    let known = &visit.known;
    write!(text, "  before slot {slot}, at visit {number}:{known}\n")
}

// Writes a line for each branch that leads out of a loop, if it was walked round, or one that says that there is none.
fn write_turns(text: &mut String, turns: &Option<Turns>) -> Result<(), AllocError>
    ensures { OnOk result (string_bytes text.new ≡ string_bytes text.old ++ turns_lines turns.now) }
{
    match turns {
        None => Ok(()),
        Some(turns) if turns.exits.is_empty() => text.push_str("  nothing leads out of it\n"),
        Some(turns) => write_exits(text, &turns.exits),
    }
}

// Writes a line for each branch.
fn write_exits(text: &mut String, exits: &[String]) -> Result<(), AllocError>
    ensures { OnOk result (string_bytes text.new ≡ string_bytes text.old ++ exits_of exits.now) }
{
    for exit in exits {
        write_exit(text, exit)?;
    }
    Ok(())
}

// Writes the line of a branch.
fn write_exit(text: &mut String, exit: &str) -> Result<(), AllocError>
    ensures { OnOk result (string_bytes text.new ≡ string_bytes text.old ++ exit_line exit.now) }
{
    write!(text, "  {exit}\n")
}
