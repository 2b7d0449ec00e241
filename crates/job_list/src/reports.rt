//! The reports of all jobs, each with lists of its own.

ghost use Rattle.std.specs.Prelude.{◌≡◌, ◌++◌, IfOk};

use crate::packed_reports::PackedReports;
use ebpf_machine::report::Report;
use std::alloc::{AllocError, Global};
use std::marker::Model;

/// A report for each job, in the order of the jobs. Contracts see it as the list.
#[derive(Drop)]
pub struct Reports {
    pub reports: Vec<Report>,
}

impl Model for Reports {
    ghost use Rattle.std.specs.Prelude.{List};
    ghost use Rattle.ebpf_machine.specs.declared.report.Report.{Report};

    ghost Value = { List Report };

    ghost view = { λ r. r.reports.items };
}

impl Reports {
    /// The reports that are packed here.
    ///
    /// # Errors
    /// There was no memory.
    pub fn of(alloc: Global, packed: &PackedReports) -> Result<Reports, AllocError>
        ensures { IfOk result (λ reports. reports ≡ packed.now) }
    {
        let mut reports = Vec::with_capacity(alloc, packed.len())?;
        let mut left = packed.iter();
        'unpacking: while let Some(report) = left.next() {
            reports.push(report.to_report(alloc)?)?;
        }
        Ok(Reports { reports })
    }
}
