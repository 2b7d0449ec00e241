//! The commands `one` and `list` over hex, in plain text: what they are without the options `--raw`, `--elf`, `--json` and `--trace`.

ghost use Rattle.std.specs.Prelude.{false, None};
ghost use Rattle.ebpf_command.specs.declared.format.Format.TheVariants.{Text};
ghost use Rattle.ebpf_command.specs.Writing.{Performs};
ghost use Rattle.ebpf_input.specs.declared.form.Form.TheVariants.{Hex};
ghost use Rattle.ebpf_one.specs.ListText.{RespondsList};
ghost use Rattle.ebpf_one.specs.OneText.{Responds};

use ebpf_command::done::{Done, EngineFault};
use ebpf_command::format::Format;
use ebpf_input::ask::{Ask, Input};
use ebpf_input::form::Form;
use ebpf_one::how::How;
use ebpf_one::list::list as list_program;
use ebpf_one::one::one as run_program;
use std::alloc::Global;
use std::io::{Read, Write};

/// Reads a program as hex, runs it on a context, and writes what it did, or why it is refused.
///
/// `context` is the context as hex, `-` for the empty one; the program is verified for a context of its length, and for
/// `held` objects at one time. Each call of `new` is granted a fresh slot or, with `nulls`, answered null. Shelves are empty at
/// first: a call of `swap` gets what the run left there.
///
/// # Errors
/// `Input` where a read failed and `NoMemory` where an allocation failed: nothing was written then. `Output` where a write
/// failed or took nothing.
pub fn one<R: Read, W: Write>(
    alloc: Global,
    reader: &mut R,
    writer: &mut W,
    context: &str,
    held: u8,
    nulls: bool,
) -> Result<Done, EngineFault>
    ensures { Performs (Responds Text Hex context.now held (record { nulls = nulls; trace = None; lines = false; source = None })) (R.remaining reader.old) (R.remaining reader.new)
        (W.contents writer.old) (W.contents writer.new) writer.old writer.new result }
{
    let ask = Ask {
        input: Input::Program(Form::Hex),
        format: Format::Text,
        context,
        held,
    };
    run_program(alloc, reader, writer, &ask, How::new(nulls, None, false))
}

/// Reads a program as hex and writes its instructions, or why its bytes are no program. Its flow is not checked, nor what its
/// runs may touch.
///
/// # Errors
/// `Input` where a read failed and `NoMemory` where an allocation failed: nothing was written then. `Output` where a write
/// failed or took nothing.
pub fn list<R: Read, W: Write>(
    alloc: Global,
    reader: &mut R,
    writer: &mut W,
) -> Result<Done, EngineFault>
    ensures { Performs (RespondsList Text Hex) (R.remaining reader.old) (R.remaining reader.new) (W.contents writer.old) (W.contents writer.new)
        writer.old writer.new result }
{
    let input = Input::Program(Form::Hex);
    list_program(alloc, reader, writer, Format::Text, &input, false)
}
