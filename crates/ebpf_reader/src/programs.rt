//! The programs of a script, found by their names.

ghost use Rattle.std.specs.Prelude.{◌≡◌, Some, IfSome, option_map, true};
ghost use Rattle.ebpf_reader.specs.Names.{is_name};
ghost use Rattle.ebpf_reader.specs.ParsedScript.{number_of, declared_by};
ghost use Rattle.ebpf_reader.specs.ReadScripts.{parsed_script};

use crate::script::{ProgramText, Script};

/// The program of this name, with its number.
pub(crate) fn program_of<'a>(script: &'a Script, name: &str) -> Option<(usize, &'a ProgramText)>
    ensures number { option_map (λ p. p.0) result ≡ number_of (parsed_script script.now).programs name.now }
    ensures declared { IfSome result (λ p. declared_by (parsed_script script.now).programs name.now ≡ Some p.1.now.decl.context) }
{
    let (program, _, text) = script.programs.get_full(name)?;
    Some((program, text))
}

/// The program of this name, with its number. That of the last job is looked at first, with no hash; any number may be given.
pub(crate) fn program_after<'a>(
    script: &'a Script,
    last: Option<usize>,
    name: &str,
) -> Option<(usize, &'a ProgramText)>
    ensures number { option_map (λ p. p.0) result ≡ number_of (parsed_script script.now).programs name.now }
    ensures declared { IfSome result (λ p. declared_by (parsed_script script.now).programs name.now ≡ Some p.1.now.decl.context) }
{
    if let Some(program) = last {
        if let Some(text) = program_named(script, program, name) {
            return Some((program, text));
        }
    }
    program_of(script, name)
}

// The program of this number, where it has this name.
fn program_named<'a>(script: &'a Script, program: usize, name: &str) -> Option<&'a ProgramText>
    ensures number { IfSome result (λ text. number_of (parsed_script script.now).programs name.now ≡ Some program) }
    ensures declared { IfSome result (λ text. declared_by (parsed_script script.now).programs name.now ≡ Some text.now.decl.context) }
{
    if program >= script.programs.len() {
        return None;
    }
    let (own, text) = script.programs.get_index(program)?;
    if own.as_str() == name {
        Some(text)
    } else {
        None
    }
}

/// The program of the last job, with its number and its name.
#[inline]
pub(crate) fn last_program(script: &Script) -> Option<(usize, &str, &ProgramText)>
    ensures allowed { IfSome result (λ p. is_name p.1.now ≡ true) }
    ensures number { IfSome result (λ p. number_of (parsed_script script.now).programs p.1.now ≡ Some p.0) }
    ensures declared { IfSome result (λ p. declared_by (parsed_script script.now).programs p.1.now ≡ Some p.2.now.decl.context) }
{
    let jobs = script.jobs.len();
    if jobs == 0 {
        return None;
    }
    let program = script.jobs.job(jobs - 1).program;
    if program >= script.programs.len() {
        return None;
    }
    let (name, text) = script.programs.get_index(program)?;
    Some((program, name.as_str(), text))
}
