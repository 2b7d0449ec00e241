//! The verdicts on the programs of a script.

ghost use Rattle.std.specs.Prelude.{◌≡◌, ◌++◌, ◌||◌, map, string_bytes, IfOk, OnOk};
ghost use Rattle.ebpf_state.specs.Kinds.{AreKinds};
ghost use Rattle.ebpf_verify.specs.Examined.{IsExamined};
ghost use Rattle.ebpf_command.specs.Judging.{judged_as};
ghost use Rattle.ebpf_reader.specs.ReadScripts.{named};
ghost use Rattle.ebpf_report.specs.Explained.{IsTold};
ghost use Rattle.ebpf_report.specs.ExplainedKept.{AreExplained, IsOneMore};
ghost use Rattle.ebpf_report.specs.Verdicts.{verdict_in, accepted_in, is_refused, answered};
ghost use Rattle.ebpf_report.specs.VerdictsKept.{AreKept};

use crate::verdict_text::write_verdict;
use ebpf_command::answer::Answer;
use ebpf_command::done::Done;
use ebpf_command::format::Format;
use ebpf_command::judge::Judged;
use ebpf_explain::why::write_why;
use ebpf_reader::script::{ProgramText, Programs};
use ebpf_state::kinds::{KindRow, kinds};
use ebpf_verify::examined::{Examined, examine};
use ebpf_verify::verified::Verified;
use std::alloc::{AllocError, Global};

/// The verdicts on the programs of a script: their lines, the programs that are accepted, and whether one is
/// refused.
#[derive(Drop)]
pub struct Verdicts {
    pub text: String,
    pub accepted: Vec<Verified>,
    pub refused: bool,
}

/// Judges each program of a script. It fails only where an allocation fails.
pub fn verdicts_on(
    alloc: Global,
    format: Format,
    programs: &Programs,
) -> Result<Verdicts, AllocError>
    ensures { IfOk result (AreKept format (map named programs.now.entries)) }
{
    explained_verdicts_on(alloc, format, programs, false)
}

/// Judges each program of a script, and where that is asked for says beside each why it is refused. It fails only where an
/// allocation fails.
pub fn explained_verdicts_on(
    alloc: Global,
    format: Format,
    programs: &Programs,
    explain: bool,
) -> Result<Verdicts, AllocError>
    ensures { IfOk result (AreExplained format explain (map named programs.now.entries)) }
{
    let kinds = kinds();
    let mut verdicts = Verdicts {
        text: String::new(alloc),
        accepted: Vec::new(alloc),
        refused: false,
    };
    for (name, program) in programs.iter() {
        verdicts.add_on(alloc, format, name.as_str(), program, &kinds, explain)?;
    }
    Ok(verdicts)
}

impl Verdicts {
    /// The answer of their text, by whether a program is refused.
    pub fn into_answer(self) -> Answer
        ensures { result ≡ answered (string_bytes self.text) self.refused }
    {
        let done = if self.refused {
            Done::Refused
        } else {
            Done::Clean
        };
        Answer {
            text: self.text,
            done,
        }
    }

    // The verdict on one program more, and where that is asked for why it is refused.
    fn add_on(
        &mut self,
        alloc: Global,
        format: Format,
        name: &str,
        program: &ProgramText,
        kinds: &[KindRow],
        explain: bool,
    ) -> Result<(), AllocError>
        requires { AreKinds kinds.now }
        ensures { OnOk result (IsOneMore format explain name.now program.now.bytes.items program.now.decl kinds.now self.old self.new) }
    {
        let examined = examine(alloc, &program.bytes, program.decl, kinds)?;
        let why = why_of(alloc, program, kinds, explain, &examined)?;
        self.add(format, name, Judged::of(examined), why.as_str())
    }

    // One verdict more.
    fn add(
        &mut self,
        format: Format,
        name: &str,
        judged: Judged,
        why: &str,
    ) -> Result<(), AllocError>
        ensures text { OnOk result (string_bytes self.new.text ≡ string_bytes self.old.text ++ verdict_in format name.now judged why.now) }
        ensures accepted { OnOk result (self.new.accepted.items ≡ self.old.accepted.items ++ accepted_in judged) }
        ensures refused { OnOk result (self.new.refused ≡ (self.old.refused || is_refused judged)) }
    {
        write_verdict(&mut self.text, format, name, &judged, why)?;
        match judged {
            Judged::Accepted(verified) => self.accepted.push(verified)?,
            Judged::Refused { .. } => self.refused = true,
        }
        Ok(())
    }
}

// Why a program is refused, as a line; nothing where that is not asked for, or it is accepted.
fn why_of(
    alloc: Global,
    program: &ProgramText,
    kinds: &[KindRow],
    explain: bool,
    examined: &Examined,
) -> Result<String, AllocError>
    requires kinds { AreKinds kinds.now }
    requires examined { IsExamined program.now.bytes.items program.now.decl kinds.now examined.now }
    ensures { IfOk result (λ why. IsTold explain (judged_as examined.now) program.now.bytes.items program.now.decl kinds.now (string_bytes why)) }
{
    let mut why = String::new(alloc);
    if !explain {
        return Ok(why);
    }
    write_why(
        alloc,
        &mut why,
        &program.bytes,
        examined,
        program.decl,
        kinds,
    )?;
    Ok(why)
}
