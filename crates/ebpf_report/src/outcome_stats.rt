//! The counts of an outcome.

ghost use Rattle.std.specs.Prelude.{◌≡◌, ◌+◌, All, length, sum_by};
ghost use Rattle.worker_pool.specs.Outcomes.{IsEvenTotal};
ghost use Rattle.ebpf_report.specs.Stats.{AreStatsOf, misses_in, steps_in};

use crate::stats::Stats;
use ebpf_state::kinds::KINDS;
use worker_pool::{Outcome, PackedReports, ShelfTotals};

/// The reports of an outcome that adds up, and its stats.
pub(crate) fn stats_of(outcome: Outcome<PackedReports>) -> (PackedReports, Stats)
    requires even { All IsEvenTotal outcome.totals }
    requires done { sum_by (λ n. n) outcome.jobs_done.items ≡ length outcome.reports }
    ensures reports { result.0 ≡ outcome.reports }
    ensures stats { AreStatsOf outcome result.1 }
{
    let Outcome {
        reports,
        totals,
        clashes,
        shelves,
        strays,
        jobs_done,
    } = outcome;
    let stats = Stats {
        totals,
        clashes,
        strays,
        misses: misses_in(&shelves),
        jobs: reports.len(),
        steps: steps_in(&reports),
        jobs_done,
    };
    (reports, stats)
}

/// How many calls of `swap` got nothing from a shelf that had been filled before.
pub(crate) fn misses_in(shelves: &[ShelfTotals; KINDS]) -> u128
    ensures { result ≡ misses_in shelves.now }
{
    let [cells, records, blocks] = shelves;
    sum_of(cells.misses, records.misses, blocks.misses)
}

// Three numbers, added up.
fn sum_of(cells: u64, records: u64, blocks: u64) -> u128
    ensures { result ≡ cells + records + blocks }
{
    u128::from(cells) + u128::from(records) + u128::from(blocks)
}

// How many instructions the reports tell.
fn steps_in(reports: &PackedReports) -> u128
    ensures { result ≡ steps_in reports.now }
{
    let mut steps = 0;
    let mut left = reports.iter();
    for _report in 0..reports.len() {
        if let Some(report) = left.next() {
            steps += u128::from(report.executed());
        }
    }
    steps
}
