//! A program that a host has loaded.

ghost use Rattle.std.specs.Prelude.{◌≡◌, ◌≤◌, ◌+◌, ◌↔◌, [], length, IsSome, IfSome, IfOk, IfErr};
ghost use Rattle.ebpf_insn.specs.declared.program.TheConstants.{MAX_SLOTS};
ghost use Rattle.ebpf_insn.specs.Program.{instructions};
ghost use Rattle.ebpf_machine.specs.Kinds.{known_kinds};
ghost use Rattle.ebpf_machine.specs.World.{kinds_of};
ghost use Rattle.ebpf_host.specs.Loading.{IsLoaded, IsLoadFault, IsRefusal, IsRefusedAs, IsJudgedWith};
ghost use Rattle.ebpf_verify.specs.declared.decl.TheConstants.{MAX_CONTEXT, MAX_HELD};
ghost use Rattle.ebpf_verify.specs.Verdict.{AreRows};

use crate::refusal::{LoadFault, Refusal};
use ebpf_command::codes::RefusalCode;
use ebpf_command::judge::Judged;
use ebpf_explain::why::write_why;
use ebpf_state::kinds::kinds;
use ebpf_verify::decl::{Decl, MAX_HELD};
use ebpf_verify::examined::examine;
use ebpf_verify::verified::Verified;
use std::alloc::{AllocError, Global};

/// A program of which no run traps, judged once, to be run any number of times. Only [`Program::load`], [`Program::load_unrolled`] and
/// [`Program::of`] make one.
///
/// It may read data of its own, as a compiler's tables and strings: these bytes are the end of the context for which it was verified, and
/// come after those that the host gives.
#[derive(Drop)]
pub struct Program {
    pub(crate) verified: Verified,
    pub(crate) data: Vec<u8>,
    ghost kinds: { kinds_of verified.rows ≡ known_kinds },
    ghost fits: { length «data».items ≤ verified.decl.context },
}

impl Program {
    /// Loads the raw instruction slots of a program, eight bytes each, to be run on contexts of this many bytes, 0 to 4,096, with
    /// at most n objects held at one time, 0 to 64.
    ///
    /// # Errors
    /// `Declaration` where one of the two numbers is too large; `Refused` where the bytes are no program of which no run traps; `NoMemory`
    /// where an allocation failed.
    pub fn load(alloc: Global, bytes: &[u8], context: u32, held: u32) -> Result<Program, LoadFault>
        ensures loaded { IfOk result (λ p. IsLoaded bytes.now context held p.verified) }
        ensures declared { IfOk result (λ p. p.verified.decl.context ≡ context) }
        ensures alone { IfOk result (λ p. p.data.items ≡ []) }
        ensures refused { IfErr result (IsLoadFault bytes.now context held) }
    {
        let Some(decl) = declared(context, held) else {
            return Err(LoadFault::Declaration);
        };
        let kinds = kinds();
        let examined = examine(alloc, bytes, decl, &kinds)?;
        let mut sentence = String::new(alloc);
        write_why(alloc, &mut sentence, bytes, &examined, decl, &kinds)?;
        match Judged::of(examined) {
            Judged::Accepted(verified) => Ok(Program::of(alloc, verified)),
            Judged::Refused { code, slot } => Err(LoadFault::Refused(Refusal {
                code,
                slot,
                given: Some(slot),
                sentence,
            })),
        }
    }

    /// A program that was verified with the kinds that there are. It has no data.
    pub fn of(alloc: Global, verified: Verified) -> Program
        requires { kinds_of verified.rows ≡ known_kinds }
        ensures verified { result.verified ≡ verified }
        ensures alone { result.data.items ≡ [] }
    {
        let data = Vec::new(alloc);
        Program { verified, data }
    }

    /// The same program with these bytes as its data, in place of those that it had: they are the end of its context.
    pub fn with_data(self, bytes: Vec<u8>) -> Program
        requires { length bytes.items ≤ self.verified.decl.context }
        ensures verified { result.verified ≡ self.verified }
        ensures bytes { result.data.items ≡ bytes.items }
    {
        let Program { verified, data: _ } = self;
        Program {
            verified,
            data: bytes,
        }
    }

    /// How many instructions it has.
    pub fn len(&self) -> usize
        ensures value { result ≡ length (instructions self.now.verified.program) }
        ensures bound { result ≤ MAX_SLOTS }
    {
        self.verified.len()
    }

    /// How many bytes of context the host gives: those that were declared, without the data.
    pub fn context(&self) -> u32
        ensures { result + length self.now.data.items ≡ self.now.verified.decl.context }
    {
        self.verified.decl().context - self.data.len() as u32
    }

    /// Its data, which comes after the host's bytes.
    pub fn data(&self) -> &[u8]
        ensures { result.now ≡ self.now.data.items }
    {
        &self.data
    }

    /// What was verified.
    pub fn verified(&self) -> &Verified
        ensures { result.now ≡ self.now.verified }
    {
        &self.verified
    }
}

/// What is declared, `None` where a number is out of its range.
pub fn declared(context: u32, held: u32) -> Option<Decl>
    ensures some { IsSome result ↔ ((context ≤ MAX_CONTEXT) × (held ≤ MAX_HELD)) }
    ensures value { IfSome result (λ d. (d.context ≡ context) × (d.held ≡ held)) }
{
    if held > MAX_HELD as u32 {
        return None;
    }
    Decl::new(context, held as u8)
}
