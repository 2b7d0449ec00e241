//! The lines of a stream, as they come in pieces.

ghost use Rattle.std.specs.Prelude.{◌≡◌, ◌≢◌, ◌≤◌, ◌<◌, ◌==◌, ◌++◌, ◌∷◌, [], ℕ, List, false, true, take, length, slice_index, string_bytes, OnOk, OnErr, IfErr};
ghost use Rattle.std.specs.List.{All};
ghost use Rattle.std.specs.Io.KnownBytes.{Appends};
ghost use Rattle.ebpf_command.specs.Writing.{AppendsBeginning, Sends};
ghost use Rattle.ebpf_command.specs.declared.done.EngineFault.TheVariants.{Output};
ghost use Rattle.ebpf_stream.specs.Answering.{IsAnswered, position_of};
ghost use Rattle.ebpf_stream.specs.Feeding.{IsFed, Takes, set_up};

use crate::answers::Answers;
use crate::lines::MAX_LINE;
use crate::output::write_out;
use crate::setup::Setup;
use ebpf_command::done::EngineFault;
use ebpf_command::output::flush;
use std::alloc::{AllocError, Global};
use std::io::Write;

// How many bytes of a line are kept: one more than it may have, so that a line that is too long is seen to be.
const KEPT: usize = MAX_LINE + 1;

// How long a text may be before it is written.
const FULL: usize = 65_536;

/// The answers to a stream, and what has come of the next line, or as many of its first bytes as are kept.
#[derive(Drop)]
pub(crate) struct Feed {
    pub(crate) answers: Answers,
    pub(crate) kept: Vec<u8>,
}

impl Feed {
    /// Takes the next bytes of a stream, and answers each line that ends in them.
    ///
    /// # Errors
    /// `Output` where a write failed; `NoMemory` and `Input` where a line could not be answered.
    pub(crate) fn take<W: Write>(
        &mut self,
        alloc: Global,
        setup: &Setup,
        writer: &mut W,
        bytes: &[u8],
    ) -> Result<(), EngineFault>
        ensures { Takes (set_up setup.now) (W.contents writer.old) (W.contents writer.new) self.old self.new bytes.now result }
    {
        let mut from = 0;
        'taking: while from < bytes.len() {
            let rest = &bytes[from..];
            let length = line_length(rest);
            if length == rest.len() {
                return match self.keep(rest) {
                    Ok(()) => Ok(()),
                    Err(_) => Err(EngineFault::NoMemory),
                };
            }
            if let Err(fault) = self.end_line(alloc, setup, &rest[..length]) {
                return Err(fault);
            }
            if let Err(_) = self.relieve(writer) {
                return Err(EngineFault::Output);
            }
            from += length + 1;
        }
        Ok(())
    }

    // Answers the line that ends after this piece.
    fn end_line(&mut self, alloc: Global, setup: &Setup, piece: &[u8]) -> Result<(), EngineFault>
        requires { All (λ c. (c == 10) ≡ false) piece.now }
        ensures ended { OnOk result ((seen text : List ℕ) → IsFed (set_up setup.now) seen self.old text →
            (here : List ℕ) × IsFed (set_up setup.now) (seen ++ (piece.now ++ 10 ∷ [])) self.new (text ++ here) ×
            (string_bytes self.new.answers.text ≡ string_bytes self.old.answers.text ++ here)) }
        ensures text { OnErr result (string_bytes self.new.answers.text ≡ string_bytes self.old.answers.text) }
        ensures fault { IfErr result (λ fault. fault ≢ Output) }
    {
        if self.kept.is_empty() {
            return self.answers.answer(alloc, setup, piece);
        }
        self.keep(piece)?;
        self.end(alloc, setup)
    }

    /// Answers the line that is kept.
    ///
    /// # Errors
    /// `NoMemory` and `Input` where it could not be answered.
    pub(crate) fn end(&mut self, alloc: Global, setup: &Setup) -> Result<(), EngineFault>
        ensures answered { OnOk result ((here : List ℕ) ×
            IsAnswered (set_up setup.now) self.old.kept.items (position_of self.old.answers) (position_of self.new.answers) here ×
            (string_bytes self.new.answers.text ≡ string_bytes self.old.answers.text ++ here)) }
        ensures kept { OnOk result (self.new.kept.items ≡ []) }
        ensures text { OnErr result (string_bytes self.new.answers.text ≡ string_bytes self.old.answers.text) }
        ensures fault { IfErr result (λ fault. fault ≢ Output) }
    {
        self.answers.answer(alloc, setup, &self.kept)?;
        self.kept.clear();
        Ok(())
    }

    // Keeps a piece of the next line, as far as there is room.
    fn keep(&mut self, piece: &[u8]) -> Result<(), AllocError>
        ensures kept { OnOk result (length self.old.kept.items ≤ 65537 → self.new.kept.items ≡ take 65537 (self.old.kept.items ++ piece.now)) }
        ensures answers { self.new.answers ≡ self.old.answers }
    {
        let room = KEPT.saturating_sub(self.kept.len());
        self.kept.extend_from_slice(&piece[..room.min(piece.len())])
    }

    // Writes what is answered, where it is long.
    fn relieve<W: Write>(&mut self, writer: &mut W) -> Result<(), EngineFault>
        ensures sent { OnOk result (Sends (W.contents writer.old) (W.contents writer.new)
            (string_bytes self.old.answers.text) (string_bytes self.new.answers.text) []) }
        ensures beginning { OnErr result (AppendsBeginning (W.contents writer.old) (W.contents writer.new) (string_bytes self.old.answers.text)) }
        ensures position { position_of self.new.answers ≡ position_of self.old.answers }
        ensures kept { self.new.kept ≡ self.old.kept }
        ensures fault { IfErr result (λ fault. fault ≡ Output) }
    {
        if self.answers.text.len() < FULL {
            return Ok(());
        }
        write_out(writer, &mut self.answers.text)
    }

    /// Writes what is answered, and flushes the writer.
    ///
    /// # Errors
    /// `Output` where a write failed: what was written is a beginning of what was answered.
    pub(crate) fn flush<W: Write>(&mut self, writer: &mut W) -> Result<(), EngineFault>
        ensures written { OnOk result (Appends (W.contents writer.old) (W.contents writer.new) (string_bytes self.old.answers.text)) }
        ensures empty { OnOk result (string_bytes self.new.answers.text ≡ []) }
        ensures beginning { OnErr result (AppendsBeginning (W.contents writer.old) (W.contents writer.new) (string_bytes self.old.answers.text)) }
        ensures position { position_of self.new.answers ≡ position_of self.old.answers }
        ensures kept { self.new.kept ≡ self.old.kept }
        ensures fault { IfErr result (λ fault. fault ≡ Output) }
    {
        write_out(writer, &mut self.answers.text)?;
        flush(writer)
    }
}

// How many bytes are before the first newline.
fn line_length(bytes: &[u8]) -> usize
    ensures within { result ≤ length bytes.now }
    ensures whole { All (λ c. (c == 10) ≡ false) (take result bytes.now) }
    ensures ended { result < length bytes.now → slice_index bytes.now result ≡ 10 }
{
    for i in 0..bytes.len() {
        if bytes[i] == b'\n' {
            return i;
        }
    }
    bytes.len()
}
