//! Reading the input.

ghost use Rattle.std.specs.Prelude.{◌≡◌, ◌≢◌, ◌≤◌, ◌<◌, ◌+◌, IfOk, IfErr, IfSome, length, take};
ghost use Rattle.std.specs.Io.KnownBytes.{Consumes, IsAtEnd};
ghost use Rattle.ebpf_command.specs.Input.{read_of};
ghost use Rattle.ebpf_command.specs.declared.input.TheConstants.{MAX_INPUT};
ghost use Rattle.ebpf_command.specs.declared.done.EngineFault.TheVariants.{Output};

use crate::done::EngineFault;
use std::alloc::Global;
use std::io::Read;

/// The most bytes of an input.
pub const MAX_INPUT: usize = 1_048_576;

// How many bytes are read at most: one more than an input may have.
const LIMIT: usize = MAX_INPUT + 1;

// How many bytes one read asks for.
const CHUNK: usize = 4096;

/// The whole input, or one byte more than [`MAX_INPUT`] of a longer one. It makes as many reads at most, each of a byte at
/// least, so it ends for every reader whose reads end.
///
/// # Errors
/// `Input` where a read failed, an interrupted one too; `NoMemory` where an allocation failed.
pub fn read_input<R: Read>(alloc: Global, reader: &mut R) -> Result<Vec<u8>, EngineFault>
    ensures read { IfOk result (λ bytes. IfSome (R.remaining reader.old) (λ input. bytes.items ≡ read_of input)) }
    ensures few { IfOk result (λ bytes. length bytes.items ≤ MAX_INPUT + 1) }
    // What was read is gone from the reader, and nothing after it.
    ensures consumed { IfOk result (λ bytes. Consumes (R.remaining reader.old) (R.remaining reader.new) bytes.items) }
    ensures err { IfErr result (λ e. e ≢ Output) }
{
    read_at_most(alloc, reader, LIMIT)
}

/// The whole input, or this many bytes of a longer one, by as many reads at most as [`read_input`] makes.
///
/// # Errors
/// As [`read_input`].
pub fn read_at_most<R: Read>(
    alloc: Global,
    reader: &mut R,
    most: usize,
) -> Result<Vec<u8>, EngineFault>
    ensures read { IfOk result (λ bytes. IfSome (R.remaining reader.old) (λ input. bytes.items ≡ take most input)) }
    ensures few { IfOk result (λ bytes. length bytes.items ≤ most) }
    ensures consumed { IfOk result (λ bytes. Consumes (R.remaining reader.old) (R.remaining reader.new) bytes.items) }
    ensures err { IfErr result (λ e. e ≢ Output) }
{
    let mut bytes = Vec::new(alloc);
    let mut chunk = [0; CHUNK];
    'reading: while bytes.len() < most {
        let want = CHUNK.min(most - bytes.len());
        let Ok(n) = reader.read(&mut chunk[..want]) else {
            return Err(EngineFault::Input);
        };
        if n == 0 {
            return Ok(bytes);
        }
        bytes.extend_from_slice(&chunk[..n])?;
    }
    Ok(bytes)
}
