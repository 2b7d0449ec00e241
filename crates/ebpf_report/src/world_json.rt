//! The objects of a world's runs.

ghost use Rattle.std.specs.Prelude.{◌≡◌, ◌++◌, [], string_bytes, unwrap_or, OnOk};
ghost use Rattle.ebpf_core.specs.Shown.{OfWorld};
ghost use Rattle.ebpf_core.specs.Readers.{status_in, output_in, executed_in};
ghost use Rattle.ebpf_command.specs.Json.{number_list};
ghost use Rattle.ebpf_report.specs.WorldObjects.{run_object, status_members};

use ebpf_command::json::write_numbers;
use ebpf_core::world::{Status, World};
use std::alloc::AllocError;

/// Writes a run after a text: how far it is, and its output. It fails only where an allocation fails.
pub(crate) fn write_run_object(
    text: &mut String,
    world: &World<'_>,
    run: usize,
) -> Result<(), AllocError>
    ensures { OnOk result (OfWorld world.now (λ w. string_bytes text.new ≡ string_bytes text.old ++ run_object w run)) }
{
    write_status(text, run, world.status(run), world.executed(run))?;
    write_numbers(text, world.output(run).unwrap_or(&[]))?;
    text.push_str("]}\n")?;
    Ok(())
}

// Writes what is before the numbers of a run's output.
fn write_status(
    text: &mut String,
    run: usize,
    status: Option<Status>,
    executed: Option<u64>,
) -> Result<(), AllocError>
    ensures { OnOk result (string_bytes text.new ≡ string_bytes text.old ++ status_members run status executed) }
{
    match (status, executed) {
        (Some(Status::Going(pc)), Some(executed)) => {
            write!(
                text,
                "{{\"run\":{run},\"going\":{pc},\"executed\":{executed},\"output\":["
            )
        }
        (Some(Status::Exited(number)), Some(executed)) => {
            write!(
                text,
                "{{\"run\":{run},\"exit\":{number},\"executed\":{executed},\"output\":["
            )
        }
        _ => write!(text, "{{\"run\":{run},\"output\":["),
    }
}
