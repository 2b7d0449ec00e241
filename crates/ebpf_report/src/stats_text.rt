//! The table of what the caches and the workers did.

ghost use Rattle.std.specs.Prelude.{◌≡◌, ◌<◌, ◌++◌, length, string_bytes, OnOk};
ghost use Rattle.ebpf_command.specs.declared.format.Format.TheVariants.{Json};
ghost use Rattle.ebpf_command.specs.Members.{line_in};
ghost use Rattle.ebpf_report.specs.StatsLines.{cache_in, cache_row, cache_said, caches_from};
ghost use Rattle.ebpf_report.specs.StatsLines.{head_in, jobs_said, table_in, time_or, times_in, worker_said, workers_from};
ghost use Rattle.ebpf_state.specs.Kinds.{kind_names};

use crate::stats::Stats;
use crate::totals_text::name_of;
use crate::watch::Times;
use ebpf_command::format::Format;
use ebpf_command::members::{Member, write_line};
use ebpf_state::kinds::KINDS;
use object_cache::Totals;
use std::alloc::AllocError;

/// Writes the table after a text. It fails only where an allocation fails.
pub(crate) fn write_table(
    text: &mut String,
    format: Format,
    stats: &Stats,
    times: Times,
) -> Result<(), AllocError>
    ensures { OnOk result (string_bytes text.new ≡ string_bytes text.old ++ table_in format stats.now times) }
{
    write_head(text, format)?;
    write_caches(text, format, &stats.totals)?;
    write_jobs(text, format, stats)?;
    write_workers(text, format, &stats.jobs_done)?;
    write_times(text, format, times)
}

// Writes what is before the caches.
fn write_head(text: &mut String, format: Format) -> Result<(), AllocError>
    ensures { OnOk result (string_bytes text.new ≡ string_bytes text.old ++ head_in format) }
{
    match format {
        Format::Text => text.push_str(
            "cache       allocs       frees       nulls   exchanges   magazines       pages      reaped        most\n",
        ),
        Format::Json => Ok(()),
    }
}

// Writes what the cache of each kind did.
fn write_caches(
    text: &mut String,
    format: Format,
    totals: &[Totals; KINDS],
) -> Result<(), AllocError>
    ensures { OnOk result (string_bytes text.new ≡ string_bytes text.old ++ caches_from format 0 totals.now) }
{
    for kind in 0..totals.len() {
        write_cache(text, format, kind, &totals[kind])?;
    }
    Ok(())
}

// Writes what a cache did.
fn write_cache(
    text: &mut String,
    format: Format,
    kind: usize,
    totals: &Totals,
) -> Result<(), AllocError>
    requires { kind < length kind_names }
    ensures { OnOk result (string_bytes text.new ≡ string_bytes text.old ++ cache_in format kind totals.now) }
{
    match format {
        Format::Text => write_cache_row(text, kind, totals),
        Format::Json => write_cache_object(text, kind, totals),
    }
}

// Writes the row of a cache.
fn write_cache_row(text: &mut String, kind: usize, totals: &Totals) -> Result<(), AllocError>
    requires { kind < length kind_names }
    ensures { OnOk result (string_bytes text.new ≡ string_bytes text.old ++ cache_row kind totals.now) }
{
    let name = name_of(kind);
    let Totals {
        allocs,
        frees,
        nulls,
        depot,
        pages,
        ..
    } = totals;
    let (exchanges, magazines) = (depot.exchanges, depot.magazines);
    let (taken, reaped, most) = (pages.taken, pages.reaped, pages.most);
    write!(
        text,
        "{name:<6}{allocs:>12}{frees:>12}{nulls:>12}{exchanges:>12}{magazines:>12}{taken:>12}{reaped:>12}{most:>12}\n"
    )
}

// Writes the object of a cache.
fn write_cache_object(text: &mut String, kind: usize, totals: &Totals) -> Result<(), AllocError>
    requires { kind < length kind_names }
    ensures { OnOk result (string_bytes text.new ≡ string_bytes text.old ++ line_in Json (cache_said kind totals.now)) }
{
    let members = [
        Member::Word("cache", name_of(kind)),
        Member::Number("allocs", u128::from(totals.allocs)),
        Member::Number("frees", u128::from(totals.frees)),
        Member::Number("nulls", u128::from(totals.nulls)),
        Member::Number("exchanges", u128::from(totals.depot.exchanges)),
        Member::Number("magazines", u128::from(totals.depot.magazines)),
        Member::Number("pages", u128::from(totals.pages.taken)),
        Member::Number("reaped", u128::from(totals.pages.reaped)),
        Member::Number("most", u128::from(totals.pages.most)),
    ];
    write_line(text, Format::Json, &members)
}

// Writes what the jobs came to together.
fn write_jobs(text: &mut String, format: Format, stats: &Stats) -> Result<(), AllocError>
    ensures { OnOk result (string_bytes text.new ≡ string_bytes text.old ++ line_in format (jobs_said stats.now)) }
{
    let members = [
        Member::Number("jobs", stats.jobs as u128),
        Member::Number("steps", stats.steps),
        Member::Number("clashes", u128::from(stats.clashes)),
        Member::Number("strays", u128::from(stats.strays)),
        Member::Number("misses", stats.misses),
    ];
    write_line(text, format, &members)
}

// Writes how many jobs each worker did.
fn write_workers(text: &mut String, format: Format, jobs_done: &[u64]) -> Result<(), AllocError>
    ensures { OnOk result (string_bytes text.new ≡ string_bytes text.old ++ workers_from format 0 jobs_done.now) }
{
    for worker in 0..jobs_done.len() {
        write_worker(text, format, worker, jobs_done[worker])?;
    }
    Ok(())
}

// Writes how many jobs a worker did.
fn write_worker(
    text: &mut String,
    format: Format,
    worker: usize,
    jobs: u64,
) -> Result<(), AllocError>
    ensures { OnOk result (string_bytes text.new ≡ string_bytes text.old ++ line_in format (worker_said worker jobs)) }
{
    let members = [
        Member::Number("worker", worker as u128),
        Member::Number("jobs", u128::from(jobs)),
    ];
    write_line(text, format, &members)
}

// Writes how long each stage took.
fn write_times(text: &mut String, format: Format, times: Times) -> Result<(), AllocError>
    ensures { OnOk result (string_bytes text.new ≡ string_bytes text.old ++ times_in format times) }
{
    match format {
        Format::Text => {
            write_time(text, "microseconds reading ", times.reading, "-")?;
            write_time(text, " judging ", times.judging, "-")?;
            write_time(text, " running ", times.running, "-")?;
            write_time(text, " writing ", times.writing, "-")?;
            text.push_str("\n")
        }
        Format::Json => {
            write_time(
                text,
                "{\"microseconds\":{\"reading\":",
                times.reading,
                "null",
            )?;
            write_time(text, ",\"judging\":", times.judging, "null")?;
            write_time(text, ",\"running\":", times.running, "null")?;
            write_time(text, ",\"writing\":", times.writing, "null")?;
            text.push_str("}}\n")
        }
    }
}

// Writes how long a stage took after the words before it, or what is said where the clock did not tell.
fn write_time(
    text: &mut String,
    before: &str,
    time: Option<u64>,
    untold: &str,
) -> Result<(), AllocError>
    ensures { OnOk result (string_bytes text.new ≡ string_bytes text.old ++ time_or untold.now before.now time) }
{
    match time {
        Some(time) => write!(text, "{before}{time}"),
        None => write!(text, "{before}{untold}"),
    }
}
