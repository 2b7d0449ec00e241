//! A run of one program, with a store of its own, and its steps.

ghost use Rattle.std.specs.Prelude.{◌≡◌, ◌++◌, IfOk, length, string_bytes};
ghost use Rattle.ebpf_machine.specs.World.{kinds_of};
ghost use Rattle.ebpf_machine.specs.Kinds.{known_kinds};
ghost use Rattle.ebpf_one.specs.Reports.{IsReportWith};
ghost use Rattle.ebpf_one.specs.Steps.{steps_of};

use crate::headed::write_heading_after;
use crate::how::How;
use ebpf_command::format::Format;
use ebpf_machine::report::Report;
use ebpf_machine::run::Run;
use ebpf_shelves::store::Store;
use ebpf_steps::choice::Choice;
use ebpf_steps::step::{step_chosen, write_step_at};
use ebpf_verify::verified::Verified;
use std::alloc::{AllocError, Global};

/// Runs an accepted program on a context to its exit, as [`crate::alone::run_alone`] does, and writes each chosen instruction that it executes
/// after a text, with what the instruction changed. Before it is the line of C that holds there, if that is known and another one held at the
/// instruction that was written last.
///
/// # Errors
/// It fails only where an allocation fails: that of the run, of an object or of the text.
pub(crate) fn run_in_steps(
    alloc: Global,
    text: &mut String,
    format: Format,
    verified: &Verified,
    context: Vec<u8>,
    how: How<'_>,
    choice: Choice,
) -> Result<Report, AllocError>
    requires declared { verified.now.decl.context ≡ length context.items }
    requires kinds { kinds_of verified.now.rows ≡ known_kinds }
    ensures report { IfOk result (IsReportWith verified.now context.items how.entry.nulls) }
    ensures steps { IfOk result (λ r. string_bytes text.new ≡ string_bytes text.old ++ steps_of format choice how.entry.source verified.now context.items how.entry.nulls r.executed) }
{
    let mut store = Store::new(alloc, how.nulls);
    let Ok(mut run) = Run::start(alloc, verified, context) else {
        return Err(AllocError);
    };
    let mut last = None;
    'steps: while run.exit().is_none() {
        let slot = run.pc();
        if step_chosen(choice, verified, &mut run, &mut store) {
            write_heading_after(format, text, how.source, last, slot)?;
            write_step_at(text, format, verified, slot, &run)?;
            last = Some(slot);
        }
    }
    let report = run.finish(&mut store);
    if store.is_short() {
        return Err(AllocError);
    }
    Ok(report)
}
