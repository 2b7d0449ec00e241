//! A meter that takes the time of each stage, and makes a table of it and of what it learns.

ghost use Rattle.std.specs.Prelude.{◌≡◌, ◌++◌, None, string_bytes, OnOk};
ghost use Rattle.ebpf_report.specs.Tables.{misses_if, table_if};
ghost use Rattle.ebpf_report.specs.Timing.{micros_between, with_time};

use crate::meter::{Meter, Stage};
use crate::outcome_stats::stats_of;
use crate::stats::Stats;
use crate::stats_text::write_table;
use ebpf_command::format::Format;
use std::alloc::AllocError;
use std::rt::Clock;
use std::time::Instant;
use worker_pool::{Outcome, PackedReports};

/// The bytes that a table has at most, of 64 workers and the largest numbers.
pub const TABLE_BYTES: usize = 4096;

/// How many microseconds each stage took; `None` where the clock did not tell.
#[derive(Clone, Copy)]
pub struct Times {
    pub reading: Option<u64>,
    pub judging: Option<u64>,
    pub running: Option<u64>,
    pub writing: Option<u64>,
}

/// A watch. A stage lasts from the end of the one before, and the first from the start.
#[derive(Drop)]
pub struct Watch<'a, C: Clock> {
    clock: &'a C,
    since: Option<Instant>,
    times: Times,
    stats: Option<Stats>,
}

impl<'a, C: Clock> Watch<'a, C> {
    /// A watch that starts now.
    pub fn start(clock: &'a C) -> Watch<'a, C>
        ensures { result.stats ≡ None }
    {
        Watch {
            clock,
            since: Instant::now(clock).ok(),
            times: Times {
                reading: None,
                judging: None,
                running: None,
                writing: None,
            },
            stats: None,
        }
    }

    /// How many calls of `swap` got nothing from a shelf that had been filled before: none where no jobs were done.
    pub fn misses(&self) -> u128
        ensures { result ≡ misses_if self.now.stats }
    {
        match &self.stats {
            Some(stats) => stats.misses,
            None => 0,
        }
    }

    /// Writes the table of what the jobs came to and of the times after a text; nothing where none were done. It fails only where an
    /// allocation fails, and makes none where the text has room for [`TABLE_BYTES`].
    pub fn write_table(&self, format: Format, text: &mut String) -> Result<(), AllocError>
        ensures { OnOk result (string_bytes text.new ≡ string_bytes text.old ++ table_if format self.now.stats self.now.times) }
    {
        match &self.stats {
            Some(stats) => write_table(text, format, stats, self.times),
            None => Ok(()),
        }
    }
}

impl<'a, C: Clock> Meter for Watch<'a, C> {
    ghost use Rattle.std.specs.Prelude.{◌≡◌, All, length, sum_by, IsSomeAnd};
    ghost use Rattle.worker_pool.specs.Outcomes.{IsEvenTotal};
    ghost use Rattle.ebpf_report.specs.Stats.{AreStatsOf};
    ghost use Rattle.ebpf_report.specs.Timing.{micros_between, with_time};

    // The time is that of this stage, from the last reading of the clock to the one that is kept. The other stages keep theirs.
    fn ended(&mut self, stage: Stage)
        ensures kept { self.new.stats ≡ self.old.stats }
        ensures timed { self.new.times ≡ with_time stage (micros_between self.old.since self.new.since) self.old.times }
    {
        let now = Instant::now(self.clock).ok();
        let time = micros_between(self.since, now);
        match stage {
            Stage::Reading => self.times.reading = time,
            Stage::Judging => self.times.judging = time,
            Stage::Running => self.times.running = time,
            Stage::Writing => self.times.writing = time,
        }
        self.since = now;
    }

    fn came(&mut self, outcome: Outcome<PackedReports>) -> PackedReports
        requires even { All IsEvenTotal outcome.totals }
        requires done { sum_by (λ n. n) outcome.jobs_done.items ≡ length outcome.reports }
        ensures reports { result ≡ outcome.reports }
        ensures stats { IsSomeAnd self.new.stats (AreStatsOf outcome) }
        ensures times { self.new.times ≡ self.old.times }
        ensures since { self.new.since ≡ self.old.since }
    {
        let (reports, stats) = stats_of(outcome);
        self.stats = Some(stats);
        reports
    }
}

// The whole microseconds from one reading of the clock to a later one.
fn micros_between(from: Option<Instant>, to: Option<Instant>) -> Option<u64>
    ensures { result ≡ micros_between from to }
{
    u64::try_from(to?.duration_since(from?).as_micros()).ok()
}
