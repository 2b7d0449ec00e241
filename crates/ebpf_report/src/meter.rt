//! Who learns how far `run` is, and what came of its jobs.

ghost use Rattle.std.specs.Prelude.{◌≡◌, All, length, sum_by};
ghost use Rattle.worker_pool.specs.Outcomes.{IsEvenTotal};

use crate::outcome_stats::misses_in;
use worker_pool::{Outcome, PackedReports};

/// A part of what `run` does. Each follows the one before.
#[derive(Clone, Copy)]
pub enum Stage {
    /// The input is read.
    Reading,
    /// The script is read, and its programs are judged.
    Judging,
    /// The jobs are done.
    Running,
    /// The text is made and written.
    Writing,
}

/// Learns how far `run` is.
pub trait Meter {
    /// A stage is over. Where there are no jobs to be done, or a read, an allocation or a write fails, some stages do not come.
    fn ended(&mut self, stage: Stage);

    /// The jobs came to this. The reports are handed back, since they are written after that.
    fn came(&mut self, outcome: Outcome<PackedReports>) -> PackedReports
        requires even { All IsEvenTotal outcome.totals }
        requires done { sum_by (λ n. n) outcome.jobs_done.items ≡ length outcome.reports }
        ensures { result ≡ outcome.reports };
}

/// A meter that does nothing.
#[derive(Clone, Copy)]
pub struct NoMeter;

impl Meter for NoMeter {
    fn ended(&mut self, _stage: Stage) {}

    fn came(&mut self, outcome: Outcome<PackedReports>) -> PackedReports {
        let Outcome { reports, .. } = outcome;
        reports
    }
}

/// A meter that counts the calls of `swap` that got nothing from a shelf that had been filled before.
#[derive(Clone, Copy)]
pub struct MissMeter {
    pub misses: u128,
}

impl Meter for MissMeter {
    ghost use Rattle.std.specs.Prelude.{◌≡◌};
    ghost use Rattle.ebpf_report.specs.Stats.{misses_in};

    fn ended(&mut self, _stage: Stage) {}

    fn came(&mut self, outcome: Outcome<PackedReports>) -> PackedReports
        ensures reports { result ≡ outcome.reports }
        ensures misses { self.new.misses ≡ misses_in outcome.shelves }
    {
        let Outcome {
            reports,
            shelves,
            ..
        } = outcome;
        self.misses = misses_in(&shelves);
        reports
    }
}
