//! The reports of all jobs, in the order of the jobs, as workers made them.

ghost use Rattle.std.specs.Prelude.{◌≡◌, ◌∷◌, [], length, MatchOption};
ghost use Rattle.job_list.specs.ReportLists.{all_in};

use crate::job_report::JobReport;
use std::marker::Model;

/// A report for each job, in the order of the jobs. They lie in lists, one after another, as workers made them: so none is moved.
/// Contracts see all of them as one list.
#[derive(Drop)]
pub struct PackedReports {
    lists: Vec<Vec<JobReport>>,
    len: usize,
    ghost all: { len ≡ length (all_in lists.items) },
}

impl Model for PackedReports {
    ghost use Rattle.std.specs.Prelude.{List};
    ghost use Rattle.ebpf_machine.specs.declared.report.Report.{Report};
    ghost use Rattle.job_list.specs.ReportLists.{all_in};

    ghost Value = { List Report };

    ghost view = { λ r. all_in r.lists.items };
}

impl PackedReports {
    /// The n reports of these lists.
    pub fn of(lists: Vec<Vec<JobReport>>, len: usize) -> PackedReports
        requires { len ≡ length (all_in lists.items) }
        ensures { result ≡ all_in lists.items }
    {
        PackedReports { lists, len }
    }

    /// How many there are.
    pub fn len(&self) -> usize
        ensures { result ≡ length self.now }
    {
        self.len
    }

    /// All of them, from the first on.
    pub fn iter(&self) -> ReportsLeft<'_>
        ensures { result ≡ self.now }
    {
        ReportsLeft {
            list: &[],
            lists: &self.lists,
        }
    }
}

/// The reports that are left, from the next one on. Contracts see the list of them.
#[derive(Drop)]
pub struct ReportsLeft<'a> {
    list: &'a [JobReport],
    // the lists after it
    lists: &'a [Vec<JobReport>],
}

impl<'a> Model for ReportsLeft<'a> {
    ghost use Rattle.std.specs.Prelude.{List, ◌++◌};
    ghost use Rattle.ebpf_machine.specs.declared.report.Report.{Report};
    ghost use Rattle.job_list.specs.ReportLists.{all_in};

    ghost Value = { List Report };

    ghost view = { λ l. l.list.now ++ all_in l.lists.now };
}

impl<'a> ReportsLeft<'a> {
    /// The next one; `None` after the last.
    #[inline]
    pub fn next(&mut self) -> Option<&'a JobReport>
        ensures { MatchOption result ((self.old ≡ []) × (self.new ≡ [])) (λ report. self.old ≡ report.now ∷ self.new) }
    {
        let mut list = self.list;
        let mut lists = self.lists;
        while list.is_empty() {
            if lists.is_empty() {
                return None;
            }
            list = &lists[0];
            lists = &lists[1..];
        }
        self.list = &list[1..];
        self.lists = lists;
        Some(&list[0])
    }
}
