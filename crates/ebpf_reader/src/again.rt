//! A line of a job whose program is the last job's.
//!
//! Jobs of one program often follow one another, and most are written by programs. Then each line begins as the one before it, with
//! `run`, the name and a space, and one word is left. So the words need not be looked for, nor the name: the beginning is kept from
//! line to line, and compared at once.

ghost use Rattle.std.specs.Prelude.{◌≡◌, ◌≤◌, ◌++◌, [], ◌∷◌, IfSome, length, take};
ghost use Rattle.ebpf_reader.specs.Again.{IsAgain, IsBeginning};
ghost use Rattle.ebpf_reader.specs.declared.script.Script.{Script};
ghost use Rattle.ebpf_reader.specs.ScriptLines.{IsFirst};
ghost use Rattle.ebpf_reader.specs.Words.{words};

use crate::programs::last_program;
use crate::script::Script;
use crate::words::{LANES, word_length};
use std::simd::prelude::*;

// What a job's line begins with.
const RUN: &[u8] = b"run ";

/// How the line of a job begins, up to its last word.
#[derive(Clone, Copy)]
pub(crate) struct Beginning<'a> {
    /// `run`, the name, and a space after each.
    pub(crate) bytes: &'a [u8],
    /// The text that begins with these bytes.
    pub(crate) text: &'a [u8],
    pub(crate) name: &'a [u8],
    pub(crate) program: usize,
    /// How many bytes of context the program declares.
    pub(crate) declared: u32,
}

/// A line of a job that begins so.
#[derive(Clone, Copy)]
pub(crate) struct Again<'a> {
    pub(crate) line: &'a [u8],
    pub(crate) beginning: Beginning<'a>,
    /// The word after the name.
    pub(crate) hex: &'a [u8],
}

/// The first line of a text, where it begins as a line of a job of the last job's program does and has one word more. The beginning
/// is that of the line before, where that is known.
#[inline]
pub(crate) fn job_again<'a>(
    script: &Script,
    kept: &mut Option<Beginning<'a>>,
    text: &'a [u8],
) -> Option<Again<'a>>
    requires { IfSome kept.old (IsBeginning script.now) }
    ensures again { IfSome result (IsAgain script.now text.now) }
    ensures kept { IfSome kept.new (IsBeginning script.now) }
{
    if let Some(beginning) = *kept {
        if let Some(again) = line_after(&beginning, text) {
            return Some(again);
        }
    }
    *kept = beginning_of(script, text);
    let beginning = (*kept)?;
    line_after(&beginning, text)
}

// The first line of a text, where it begins so and has one word more.
#[inline]
fn line_after<'a>(beginning: &Beginning<'a>, text: &'a [u8]) -> Option<Again<'a>>
    requires { beginning.now.bytes.now ≡ take (length beginning.now.bytes.now) beginning.now.text.now }
    ensures { (script : Script) → IsBeginning script beginning.now → IfSome result (IsAgain script text.now) }
{
    let rest = rest_after(beginning, text)?;
    let hex = only_word(rest)?;
    Some(Again {
        line: &text[..beginning.bytes.len() + hex.len()],
        beginning: *beginning,
        hex,
    })
}

// What comes after these bytes in a text that begins so too.
#[inline]
fn rest_after<'a>(beginning: &Beginning<'_>, text: &'a [u8]) -> Option<&'a [u8]>
    requires { beginning.now.bytes.now ≡ take (length beginning.now.bytes.now) beginning.now.text.now }
    ensures { IfSome result (λ rest. text.now ≡ beginning.now.bytes.now ++ rest.now) }
{
    let length = beginning.bytes.len();
    // One comparison does for a short name, unless the text ends here.
    if length <= LANES
        && LANES <= text.len()
        && LANES <= beginning.text.len()
        && length <= same_run(text, beginning.text)
    {
        return Some(&text[length..]);
    }
    text.strip_prefix(beginning.bytes)
}

// How many of the first sixteen bytes of two texts are the same before the first that differ.
#[inline]
fn same_run(a: &[u8], b: &[u8]) -> usize
    requires a { 16 ≤ length a.now }
    requires b { 16 ≤ length b.now }
    ensures within { result ≤ 16 }
    ensures same { take result a.now ≡ take result b.now }
{
    let others = u8x16::from_slice(a)
        .simd_ne(u8x16::from_slice(b))
        .to_bitmask();
    if others == 0 {
        LANES
    } else {
        others.trailing_zeros() as usize
    }
}

// How a text begins, where that is as a line of a job of the last job's program does.
fn beginning_of<'a>(script: &Script, text: &'a [u8]) -> Option<Beginning<'a>>
    ensures { IfSome result (IsBeginning script.now) }
{
    let (program, name, declared) = last_program(script)?;
    let rest = text.strip_prefix(RUN)?;
    let rest = rest.strip_prefix(name.as_bytes())?;
    rest.strip_prefix(b" ".as_slice())?;
    let end = RUN.len() + name.len();
    Some(Beginning {
        bytes: &text[..end + 1],
        text,
        name: &text[RUN.len()..end],
        program,
        declared: declared.decl.context,
    })
}

// The first line of a text, where it is one word and nothing else.
fn only_word(text: &[u8]) -> Option<&[u8]>
    ensures first { IfSome result (λ word. IsFirst text.now word.now) }
    ensures word { IfSome result (λ word. words word.now ≡ word.now ∷ []) }
{
    let length = word_length(text);
    if length == 0 || length < text.len() && text[length] != b'\n' {
        return None;
    }
    Some(&text[..length])
}
