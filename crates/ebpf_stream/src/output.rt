//! Writing what is answered.

ghost use Rattle.std.specs.Prelude.{◌≡◌, [], IfErr, OnOk, OnErr, string_bytes};
ghost use Rattle.std.specs.Io.KnownBytes.{Appends};
ghost use Rattle.ebpf_command.specs.declared.done.EngineFault.TheVariants.{Output};
ghost use Rattle.ebpf_command.specs.Writing.{AppendsBeginning};

use ebpf_command::done::EngineFault;
use ebpf_command::output::write_bytes;
use std::io::Write;

/// Writes a text, and empties it.
///
/// # Errors
/// `Output` where a write failed, an interrupted one too, or took nothing: what was written is a beginning of the text.
pub(crate) fn write_out<W: Write>(writer: &mut W, text: &mut String) -> Result<(), EngineFault>
    ensures written { OnOk result (Appends (W.contents writer.old) (W.contents writer.new) (string_bytes text.old)) }
    ensures empty { OnOk result (string_bytes text.new ≡ []) }
    ensures beginning { OnErr result (AppendsBeginning (W.contents writer.old) (W.contents writer.new) (string_bytes text.old)) }
    ensures same { OnErr result (string_bytes text.new ≡ string_bytes text.old) }
    ensures err { IfErr result (λ e. e ≡ Output) }
{
    write_bytes(writer, text.as_bytes())?;
    text.clear();
    Ok(())
}
