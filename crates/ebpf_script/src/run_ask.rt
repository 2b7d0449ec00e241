//! What is asked of the command `run`.

ghost use Rattle.std.specs.Prelude.{◌≤◌};

use ebpf_command::format::Format;

/// What the answer has of what all jobs executed.
#[derive(Clone, Copy)]
pub enum Coverage {
    Nothing,
    /// After the text, how often each instruction was executed, or each line of C.
    Counts,
    /// In place of the text, a tracefile of lcov.
    Tracefile,
}

impl Coverage {
    ghost use Rattle.std.specs.Prelude.{◌≡◌};
    ghost use Rattle.ebpf_script.specs.Coverages.{is_tracefile};

    /// Whether it is a tracefile.
    pub(crate) fn is_tracefile(self) -> bool
        ensures { result ≡ is_tracefile self }
    {
        matches!(self, Coverage::Tracefile)
    }
}

/// What is asked of [`crate::run_script::run_script`].
#[derive(Clone, Copy)]
pub struct RunAsk {
    /// How the answer is written.
    pub format: Format,
    /// What it says of what all jobs executed.
    pub covered: Coverage,
    /// How many workers do the jobs, 1 to 64.
    pub workers: u32,
    /// How many passes the reaper makes in addition to the script's, 0 to 1,000.
    pub reaps: u32,
    ghost workers_fit: { (1 ≤ workers) × (workers ≤ 64) },
    ghost reaps_fit: { reaps ≤ 1000 },
}
