//! What a job did, as it is written.

ghost use Rattle.std.specs.Prelude.{◌≡◌, ◌++◌, string_bytes, OnOk};
ghost use Rattle.ebpf_report.specs.OutcomeLines.{report_lines};
ghost use Rattle.ebpf_report.specs.OutcomeObjects.{job_object};
ghost use Rattle.ebpf_stream.specs.Answering.{report_in};

use ebpf_command::format::Format;
use ebpf_command::json::write_numbers;
use ebpf_machine::report::Report;
use ebpf_report::exit_line::ExitLine;
use ebpf_report::outcome_json::write_job_members;
use ebpf_report::outcome_text::write_output;
use ebpf_report::text_line::TextLine;
use std::alloc::AllocError;

/// Writes what a job did after a text. It fails only where an allocation fails.
pub(crate) fn write_report(
    text: &mut String,
    line: &mut TextLine,
    exits: &mut ExitLine,
    format: Format,
    job: usize,
    report: &Report,
) -> Result<(), AllocError>
    ensures { OnOk result (string_bytes text.new ≡ string_bytes text.old ++ report_in format job report.now) }
{
    match format {
        Format::Text => write_lines(text, line, exits, job, report),
        Format::Json => write_object(text, line, job, report),
    }
}

// Writes its lines.
fn write_lines(
    text: &mut String,
    line: &mut TextLine,
    exits: &mut ExitLine,
    job: usize,
    report: &Report,
) -> Result<(), AllocError>
    ensures { OnOk result (string_bytes text.new ≡ string_bytes text.old ++ report_lines job report.now) }
{
    write_output(text, line, job, &report.output.numbers)?;
    match report.exit {
        Some(exit) => {
            exits.set(job, exit, report.executed, report.peak);
            text.push_str(exits.as_str())
        }
        None => Ok(()),
    }
}

// Writes its object.
fn write_object(
    text: &mut String,
    line: &mut TextLine,
    job: usize,
    report: &Report,
) -> Result<(), AllocError>
    ensures { OnOk result (string_bytes text.new ≡ string_bytes text.old ++ job_object job report.now) }
{
    write_job_members(text, line, job, report.exit, report.executed, report.peak)?;
    write_numbers(text, &report.output.numbers)?;
    text.push_str("]}\n")?;
    Ok(())
}
