//! A text that is written in pieces.
//!
//! *The idea.* A long text need not be there as a whole: its first lines can be written before its last ones are made. A piece is the part
//! that is made and not yet written. All memory that it takes is had before the first byte is written.

ghost use Rattle.std.specs.Prelude.{◌≡◌, ◌+◌, ◌-◌, ◌<◌, ◌≤◌, ◌++◌, [], length, vec_len, vec_capacity, IfOk, IfErr, OnOk, OnErr};
ghost use Rattle.std.specs.Io.KnownBytes.{Appends};
ghost use Rattle.ebpf_command.specs.declared.done.EngineFault.TheVariants.{Output};
ghost use Rattle.ebpf_command.specs.Writing.{AppendsBeginning, Puts};

use crate::done::EngineFault;
use crate::output::write_bytes;
use std::alloc::{AllocError, Global};
use std::io::Write;
use std::marker::Model;

// How many bytes wait at most.
const LIMIT: usize = 65_536;

/// What is made of a text and not yet written. Contracts see these bytes.
#[derive(Drop)]
pub struct Piece {
    bytes: Vec<u8>,
}

impl Model for Piece {
    ghost use Rattle.std.specs.Prelude.{◌≤◌, ℕ, List, vec_len, vec_capacity};

    ghost Value = { List ℕ };

    ghost view = { λ p. p.bytes.items };

    ghost invariant = { λ p. (vec_len p.bytes ≤ 65536) × (65536 ≤ vec_capacity p.bytes) };
}

impl Piece {
    /// Nothing waits. It fails only where an allocation fails, and no other call here allocates.
    pub fn new(alloc: Global) -> Result<Piece, AllocError>
        ensures { IfOk result (λ piece. piece ≡ []) }
    {
        let bytes = Vec::with_capacity(alloc, LIMIT)?;
        Ok(Piece { bytes })
    }

    /// Adds bytes to a text; what waits is written first where there is no room for them.
    ///
    /// # Errors
    /// `Output` where a write failed or took nothing: what was written is a beginning of the text.
    #[inline(always)]
    pub fn put<W: Write>(&mut self, writer: &mut W, more: &[u8]) -> Result<(), EngineFault>
        ensures { Puts (W.contents writer.old) (W.contents writer.new) self.old self.new more.now result }
    {
        if more.len() > LIMIT - self.bytes.len() {
            return self.put_after(writer, more);
        }
        keep(&mut self.bytes, more);
        Ok(())
    }

    // Writes what waits, and then adds bytes, or writes them too where there are more than can wait.
    #[cold]
    #[inline(never)]
    fn put_after<W: Write>(&mut self, writer: &mut W, more: &[u8]) -> Result<(), EngineFault>
        ensures { Puts (W.contents writer.old) (W.contents writer.new) self.old self.new more.now result }
    {
        self.write_out(writer)?;
        if more.len() > LIMIT {
            return write_bytes(writer, more);
        }
        keep(&mut self.bytes, more);
        Ok(())
    }

    /// Writes what waits.
    ///
    /// # Errors
    /// `Output` where a write failed or took nothing: what was written is a beginning of it.
    pub fn write_out<W: Write>(&mut self, writer: &mut W) -> Result<(), EngineFault>
        ensures written { OnOk result (Appends (W.contents writer.old) (W.contents writer.new) self.old) }
        ensures empty { OnOk result (self.new ≡ []) }
        ensures beginning { OnErr result (AppendsBeginning (W.contents writer.old) (W.contents writer.new) self.old) }
        ensures err { IfErr result (λ e. e ≡ Output) }
    {
        write_bytes(writer, &self.bytes)?;
        self.bytes.clear();
        Ok(())
    }
}

// Adds bytes for which there is room.
#[inline(always)]
fn keep(bytes: &mut Vec<u8>, more: &[u8])
    requires { vec_len bytes.old + length more.now ≤ vec_capacity bytes.old }
    ensures items { bytes.new.items ≡ bytes.old.items ++ more.now }
    ensures len { vec_len bytes.new ≡ vec_len bytes.old + length more.now }
    ensures capacity { vec_capacity bytes.old ≤ vec_capacity bytes.new }
{
    match bytes.extend_from_slice(more) {
        Ok(()) => {}
        Err(_) => unreachable!(),
    }
}
