//! A program linked with its data, by a word of the stack that it doesn't use.

ghost use Rattle.std.specs.Prelude.{◌≡◌, ◌<◌, ◌+◌, IfOk, IfErr, IfSome, None, Some};
ghost use Rattle.ebpf_flow.specs.Flow.{or_else};
ghost use Rattle.ebpf_verify.specs.Verdict.{AreRows};
ghost use Rattle.ebpf_link.specs.Linking.{IsLinkFault};
ghost use Rattle.ebpf_link.specs.Choice.{wanted, wanted_of, IsLinkedBy, IsChoiceFault, IsTried};
ghost use Rattle.ebpf_link.specs.Words.{word_at};

use crate::fault::LinkFault;
use crate::link::link;
use crate::linked::Linked;
use crate::right::{Judged, judge};
use crate::words::is_free;
use ebpf_insn::program::Program;
use ebpf_state::kinds::KindRow;
use ebpf_verify::decl::Decl;
use std::alloc::Global;

// How many words of the stack are tried. The program is judged with each, so there are few.
const WORDS: usize = 4;

// What is given to be linked.
#[derive(Drop)]
struct Given<'a> {
    program: &'a Program,
    offsets: &'a [Option<i64>],
    declared: u32,
    decl: Decl,
    kinds: &'a [KindRow],
}

/// The program with its data after a context of `declared` bytes, for a declaration whose context has the data too. `offsets` has an
/// entry for each slot: the offset in the data whose address the 64-bit immediate there is to be, or none.
///
/// Four words are tried from the lowest up, if they are free, and the first is taken with which the linked program is accepted and its
/// addresses are right. Where there is none, the program is linked with the first word with which the verifier refuses it, so that the caller
/// reports that refusal. Where the flow has a fault, such as a loop, it is linked with the first free word.
///
/// # Errors
/// Those of [`crate::link::link`], and `NoWord` where no word is free, or the verifier accepts the program with each that is free but
/// none is shown to be right.
pub fn linked(
    alloc: Global,
    program: &Program,
    offsets: &[Option<i64>],
    declared: u32,
    decl: Decl,
    kinds: &[KindRow],
) -> Result<Linked, LinkFault>
    requires { AreRows kinds.now }
    ensures linked { IfOk result (λ l. IsLinkedBy (wanted program.now offsets.now declared decl kinds.now) l.word l.program) }
    ensures refused { IfErr result (IsChoiceFault (wanted program.now offsets.now declared decl kinds.now)) }
{
    let given = Given {
        program,
        offsets,
        declared,
        decl,
        kinds,
    };
    let mut refused = None;
    for number in 0..WORDS {
        if let Some(linked) = try_word(alloc, &given, number, &mut refused)? {
            return Ok(linked);
        }
    }
    refused.ok_or(LinkFault::NoWord)
}

// The program linked with a word, if that is one to take. The first that the verifier refuses is kept.
fn try_word(
    alloc: Global,
    given: &Given<'_>,
    number: usize,
    refused: &mut Option<Linked>,
) -> Result<Option<Linked>, LinkFault>
    requires rows { AreRows given.now.kinds.now }
    requires few { number < 4 }
    requires tried { IsTried (wanted_of given.now) number refused.old }
    ensures taken { IfOk result (λ found. IfSome found (λ l. IsLinkedBy (wanted_of given.now) l.word l.program)) }
    ensures tried { IfOk result (λ found. found ≡ None → IsTried (wanted_of given.now) (number + 1) refused.new) }
    ensures refused { IfErr result (IsLinkFault given.now.program.now given.now.offsets.now given.now.declared) }
{
    let word = word_at(number);
    if !is_free(given.program, word) {
        return Ok(None);
    }
    let program = link(alloc, given.program, given.offsets, given.declared, word)?;
    let linked = Linked { program, word };
    match judge(alloc, &linked.program, given.decl, given.kinds, word)? {
        Judged::Shown | Judged::Misled => Ok(Some(linked)),
        Judged::Unshown => Ok(None),
        Judged::Refused => {
            keep_first(refused, linked);
            Ok(None)
        }
    }
}

// Keeps a program, unless one is kept already.
fn keep_first(kept: &mut Option<Linked>, linked: Linked)
    ensures { kept.new ≡ or_else kept.old (Some linked) }
{
    if kept.is_none() {
        *kept = Some(linked);
    }
}

// Where a word that is tried begins, by its number from the lowest, in bytes from r10.
fn word_at(number: usize) -> i16
    requires { number < 4 }
    ensures { result ≡ word_at number }
{
    -512 + 128 * number as i16
}
