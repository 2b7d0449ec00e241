//! Loads of programs whose jumps may lead back.

ghost use Rattle.std.specs.Prelude.{◌≡◌, [], IfOk, IfErr, Some, slice_index_or};
ghost use Rattle.ebpf_state.specs.Kinds.{AreKinds};
ghost use Rattle.ebpf_explain.specs.DecodeSentences.{decode_sentence};
ghost use Rattle.ebpf_layout.specs.Layout.{copied_in};
ghost use Rattle.ebpf_command.specs.declared.codes.RefusalCode.TheVariants.{Decode};
ghost use Rattle.ebpf_forward.specs.declared.forward.Forward.TheVariants.{LaidOut};
ghost use Rattle.ebpf_forward.specs.declared.why_not.WhyNot.{WhyNot};
ghost use Rattle.ebpf_forward.specs.Forward.{IsForwardFault};
ghost use Rattle.ebpf_forward.specs.WhyNot.{SaysWhyNot};
ghost use Rattle.ebpf_host.specs.Loading.{IsFaultBy};
ghost use Rattle.ebpf_host.specs.Unrolled.{IsForwardLoadFault, IsLaidRefusal, IsLoadedForward, IsLoadedOf, IsMadeAs, IsProgramRefused, IsRefusalOf};
ghost use Rattle.ebpf_host.specs.Unrolled.{IsStopped, code_of, slot_named};

use crate::program::{Program, declared};
use crate::refusal::{LoadFault, Refusal};
use ebpf_command::codes::RefusalCode;
use ebpf_explain::decode_sentence::write_decode_sentence;
use ebpf_flow::fault::FlowCode;
use ebpf_forward::fault::ForwardFault;
use ebpf_forward::forward::{Forward, lead_forward};
use ebpf_forward::lines::write_lines;
use ebpf_forward::why_not::{WhyNot, why_not};
use ebpf_insn::decode::decode;
use ebpf_insn::encode::encode;
use ebpf_insn::fault::{DecodeCode, DecodeFault};
use ebpf_insn::program::Program as Decoded;
use ebpf_layout::layout::Laid;
use ebpf_state::kinds::{KindRow, kinds};
use ebpf_verify::decl::Decl;
use std::alloc::{AllocError, Global};

impl Program {
    /// Loads a program as [`Program::load`] does, but its jumps may lead back. Its loops are unrolled first: each run of it then ends, and
    /// does what the run of the loaded program does. One without loops is laid out first, so that each jump leads forward, or stays as it
    /// is if each does.
    ///
    /// # Errors
    /// `Declaration` where one of the two numbers is too large; `Refused` where the bytes are no program of which no run traps, also where
    /// a loop can't be unrolled, with code F3; `NoMemory` where an allocation failed. It isn't promised that a loop is unrolled where it
    /// could be.
    pub fn load_unrolled(
        alloc: Global,
        bytes: &[u8],
        context: u32,
        held: u32,
    ) -> Result<Program, LoadFault>
        ensures loaded { IfOk result (λ p. IsLoadedForward bytes.now context held p.verified) }
        ensures declared { IfOk result (λ p. p.verified.decl.context ≡ context) }
        ensures alone { IfOk result (λ p. p.data.items ≡ []) }
        ensures refused { IfErr result (IsForwardLoadFault bytes.now context held) }
    {
        let Some(decl) = declared(context, held) else {
            return Err(LoadFault::Declaration);
        };
        let kinds = kinds();
        match decode(alloc, bytes) {
            Ok(program) => load_decoded(alloc, &program, decl, &kinds),
            Err(DecodeFault::Bad { slot, code }) => Err(LoadFault::Refused(undecoded(
                alloc, bytes, slot, code,
            )?)),
            Err(DecodeFault::NoMemory) => Err(LoadFault::NoMemory),
        }
    }
}

// Why bytes are no program. It fails only where an allocation fails.
fn undecoded(
    alloc: Global,
    bytes: &[u8],
    slot: u16,
    code: DecodeCode,
) -> Result<Refusal, AllocError>
    ensures { IfOk result (IsRefusalOf (Decode code) slot (Some slot) (decode_sentence bytes.now slot code)) }
{
    let mut sentence = String::new(alloc);
    write_decode_sentence(&mut sentence, bytes, slot as usize, code)?;
    Ok(Refusal {
        code: RefusalCode::Decode(code),
        slot,
        given: Some(slot),
        sentence,
    })
}

// Loads a program that was decoded.
fn load_decoded(
    alloc: Global,
    program: &Decoded,
    decl: Decl,
    kinds: &[KindRow],
) -> Result<Program, LoadFault>
    requires { AreKinds kinds.now }
    ensures loaded { IfOk result (λ p. IsMadeAs program.now decl kinds.now p.verified) }
    ensures declared { IfOk result (λ p. p.verified.decl.context ≡ decl.context) }
    ensures alone { IfOk result (λ p. p.data.items ≡ []) }
    ensures refused { IfErr result (IsFaultBy (IsProgramRefused program.now decl kinds.now) decl.context decl.held) }
{
    match lead_forward(alloc, program, decl, kinds) {
        Ok(Forward::LaidOut(laid)) => load_laid(alloc, laid, decl),
        Ok(Forward::Unrolled(unrolled)) => {
            // Read for what it promises: the program was accepted.
            let _ = unrolled.verified.program();
            Ok(Program::of(alloc, unrolled.verified))
        }
        Err(fault) => Err(LoadFault::Refused(stopped(alloc, program, decl, kinds, fault)?)),
    }
}

// Loads a program that was laid out.
fn load_laid(alloc: Global, laid: Laid, decl: Decl) -> Result<Program, LoadFault>
    ensures loaded { IfOk result (λ p. IsLoadedOf decl (LaidOut laid) p.verified) }
    ensures declared { IfOk result (λ p. p.verified.decl.context ≡ decl.context) }
    ensures alone { IfOk result (λ p. p.data.items ≡ []) }
    ensures refused { IfErr result (IsFaultBy (IsLaidRefusal laid decl) decl.context decl.held) }
{
    let bytes = encode(alloc, &laid.program)?;
    match Program::load(alloc, &bytes, decl.context, decl.held as u32) {
        Ok(loaded) => Ok(loaded),
        Err(LoadFault::Refused(mut refusal)) => {
            refusal.given = copied_at(&laid.of, refusal.slot as usize);
            Err(LoadFault::Refused(refusal))
        }
        Err(LoadFault::Declaration) => Err(LoadFault::Declaration),
        Err(LoadFault::NoMemory) => Err(LoadFault::NoMemory),
    }
}

// The slot that a slot copies.
fn copied_at(of: &[Option<u16>], slot: usize) -> Option<u16>
    ensures { result ≡ copied_in of.now slot }
{
    if slot < of.len() { of[slot] } else { None }
}

// Why no program is made of which every jump leads forward. It fails only where an allocation fails, or failed there.
fn stopped(
    alloc: Global,
    program: &Decoded,
    decl: Decl,
    kinds: &[KindRow],
    fault: ForwardFault,
) -> Result<Refusal, AllocError>
    requires kinds { AreKinds kinds.now }
    requires fault { IsForwardFault program.now decl kinds.now fault }
    ensures { IfOk result (IsStopped program.now decl kinds.now) }
{
    let why = why_not(alloc, program, decl, kinds, fault)?;
    let mut sentence = String::new(alloc);
    write_lines(&mut sentence, &why)?;
    Ok(Refusal {
        code: code_of(&why),
        slot: slot_named(&why),
        given: why.slot(),
        sentence,
    })
}

// The code of why there is none: a loop is refused as a jump back.
fn code_of(why: &WhyNot) -> RefusalCode
    ensures { result ≡ code_of why.now }
{
    match why {
        WhyNot::Slot(refused) => refused.code,
        WhyNot::Loop(_) => RefusalCode::Flow(FlowCode::JumpBackward),
    }
}

// The slot that is named: of a loop, that which closes it.
fn slot_named(why: &WhyNot) -> u16
    ensures { result ≡ slot_named why.now }
{
    match why {
        WhyNot::Slot(refused) => refused.slot,
        WhyNot::Loop(stuck) => stuck.edge.from,
    }
}
