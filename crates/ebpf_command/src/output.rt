//! Writing bytes.

ghost use Rattle.std.specs.Prelude.{◌≡◌, IfErr, OnOk, OnErr};
ghost use Rattle.std.specs.Io.KnownBytes.{Appends, Keeps};
ghost use Rattle.ebpf_command.specs.declared.done.EngineFault.TheVariants.{Output};
ghost use Rattle.ebpf_command.specs.Writing.{AppendsBeginning};

use crate::done::EngineFault;
use std::io::Write;

/// Writes a whole text, and flushes the writer.
///
/// # Errors
/// `Output` where a write failed, an interrupted one too, or took nothing, or the flush failed: what was written is a
/// beginning of the text.
pub(crate) fn write_text<W: Write>(writer: &mut W, text: &[u8]) -> Result<(), EngineFault>
    ensures written { OnOk result (Appends (W.contents writer.old) (W.contents writer.new) text.now) }
    ensures beginning { OnErr result (AppendsBeginning (W.contents writer.old) (W.contents writer.new) text.now) }
    ensures err { IfErr result (λ e. e ≡ Output) }
{
    write_bytes(writer, text)?;
    flush(writer)
}

/// Writes these bytes, and does not flush the writer.
///
/// # Errors
/// `Output` where a write failed, an interrupted one too, or took nothing: what was written is a beginning of them.
pub fn write_bytes<W: Write>(writer: &mut W, bytes: &[u8]) -> Result<(), EngineFault>
    ensures written { OnOk result (Appends (W.contents writer.old) (W.contents writer.new) bytes.now) }
    ensures beginning { OnErr result (AppendsBeginning (W.contents writer.old) (W.contents writer.new) bytes.now) }
    ensures err { IfErr result (λ e. e ≡ Output) }
{
    let mut at = 0;
    'writing: while at < bytes.len() {
        match writer.write(&bytes[at..]) {
            Ok(n) if n > 0 => at += n,
            _ => return Err(EngineFault::Output),
        }
    }
    Ok(())
}

/// Flushes a writer.
///
/// # Errors
/// `Output` where that failed.
pub fn flush<W: Write>(writer: &mut W) -> Result<(), EngineFault>
    ensures same { Keeps (W.contents writer.old) (W.contents writer.new) }
    ensures err { IfErr result (λ e. e ≡ Output) }
{
    match writer.flush() {
        Ok(()) => Ok(()),
        Err(_) => Err(EngineFault::Output),
    }
}
