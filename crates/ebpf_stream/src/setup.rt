//! What a script gives the jobs of a stream.

ghost use Rattle.std.specs.Prelude.{◌≡◌, [], All, map, IfOk};
ghost use Rattle.ebpf_machine.specs.Kinds.{AreKnown};
ghost use Rattle.ebpf_reader.specs.ReadScripts.{parsed_script};

use ebpf_command::format::Format;
use ebpf_host::program::Program;
use ebpf_reader::script::Script;
use ebpf_verify::verified::Verified;
use std::alloc::{AllocError, Global};

/// The format of the answers, a script, and its programs, of which none is refused.
#[derive(Drop)]
pub(crate) struct Setup {
    pub(crate) format: Format,
    pub(crate) script: Script,
    pub(crate) programs: Vec<Program>,
    ghost declared: { map (λ p. p.verified.decl.context) programs.items ≡ map (λ p. p.context) (parsed_script script).programs },
    ghost alone: { All (λ p. p.data.items ≡ []) programs.items },
}

/// These programs, loaded, without data. It fails only where an allocation fails.
pub(crate) fn load_all(alloc: Global, accepted: Vec<Verified>) -> Result<Vec<Program>, AllocError>
    requires { AreKnown accepted.items }
    ensures verified { IfOk result (λ programs. map (λ p. p.verified) programs.items ≡ accepted.items) }
    ensures alone { IfOk result (λ programs. All (λ p. p.data.items ≡ []) programs.items) }
{
    let mut programs = Vec::new(alloc);
    for verified in accepted {
        programs.push(Program::of(alloc, verified))?;
    }
    Ok(programs)
}
