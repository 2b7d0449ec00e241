//! The lines of a world's runs.

ghost use Rattle.std.specs.Prelude.{◌≡◌, ◌++◌, string_bytes, OnOk};
ghost use Rattle.std.specs.List.{flat_map};
ghost use Rattle.ebpf_core.specs.Shown.{OfWorld};
ghost use Rattle.ebpf_report.specs.WorldLines.{run_emit_line, run_lines};

use ebpf_core::world::{Status, World};
use std::alloc::AllocError;

/// Writes a run after a text: what it added to its output, and how far it is. It fails only where an allocation fails.
pub(crate) fn write_run_lines(
    text: &mut String,
    world: &World<'_>,
    run: usize,
) -> Result<(), AllocError>
    ensures { OnOk result (OfWorld world.now (λ w. string_bytes text.new ≡ string_bytes text.old ++ run_lines w run)) }
{
    if let Some(output) = world.output(run) {
        write_output(text, run, output)?;
    }
    match (world.status(run), world.executed(run)) {
        (Some(Status::Going(pc)), Some(executed)) => {
            write!(text, "run {run} going {pc} executed {executed}\n")
        }
        (Some(Status::Exited(number)), Some(executed)) => {
            write!(text, "run {run} exit {number} executed {executed}\n")
        }
        _ => Ok(()),
    }
}

// Writes the output of a run.
fn write_output(text: &mut String, run: usize, output: &[u64]) -> Result<(), AllocError>
    ensures { OnOk result (string_bytes text.new ≡ string_bytes text.old ++ flat_map (run_emit_line run) output.now) }
{
    for value in output {
        write!(text, "emit {run} {value}\n")?;
    }
    Ok(())
}
