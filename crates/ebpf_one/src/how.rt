//! How a program is run.

ghost use Rattle.std.specs.Prelude.{◌≡◌, None};
ghost use Rattle.ebpf_one.specs.Steps.{choice_of, with_source};

use crate::headed::Headed;
use ebpf_steps::choice::Choice;

/// Which steps of a run are shown: those that meet all of this.
#[derive(Clone, Copy)]
pub struct Shown {
    /// Whether each register is chosen, by its number, if a step has to set one that is chosen.
    pub registers: Option<[bool; 11]>,
    /// The lowest slot of a step.
    pub from: usize,
    /// How many of the last steps that the run executes a step has to be among, if it has to.
    pub last: Option<u64>,
}

impl Shown {
    /// What is chosen of a run that executes this many instructions.
    pub(crate) fn of(self, executed: u64) -> Choice
        ensures { result ≡ choice_of self executed }
    {
        let skipped = match self.last {
            Some(last) => executed.saturating_sub(last),
            None => 0,
        };
        Choice {
            skipped,
            from: self.from,
            registers: self.registers,
        }
    }
}

/// How a program is run.
#[derive(Clone, Copy)]
pub struct How<'a> {
    /// Whether each call of `new` is answered null.
    pub nulls: bool,
    /// Which of the instructions that are executed are written, with what they changed, if any are.
    pub trace: Option<Shown>,
    /// Whether the lines of C of an object file are written before these instructions.
    pub lines: bool,
    /// The lines, once they are known.
    pub(crate) source: Option<Headed<'a>>,
}

impl<'a> How<'a> {
    /// A program that is run so.
    pub fn new(nulls: bool, trace: Option<Shown>, lines: bool) -> How<'a>
        ensures { result ≡ record { nulls = nulls; trace = trace; lines = lines; source = None } }
    {
        How {
            nulls,
            trace,
            lines,
            source: None,
        }
    }

    /// The same with these lines.
    pub(crate) fn with_source(self, source: Headed<'a>) -> How<'a>
        ensures { result ≡ with_source self.entry source.entry }
    {
        How {
            source: Some(source),
            ..self
        }
    }
}
