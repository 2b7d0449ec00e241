//! Copies of instructions, written from the last slot to the first.

ghost use Rattle.std.specs.Prelude.{◌≡◌, ◌≤◌, ◌+◌, ◌++◌, OnOk, length};
ghost use Rattle.ebpf_insn.specs.Program.{slots_in};
ghost use Rattle.ebpf_insn.specs.Encoding.{IsDefined};
ghost use Rattle.ebpf_layout.specs.Writing.{half_of};
ghost use Rattle.ebpf_unroll.specs.Written.{IsCopyOf, IsWritten, half_copied};

use ebpf_insn::insn::Insn;
use ebpf_insn::program::Program;
use std::alloc::AllocError;

/// What is written so far.
#[derive(Drop)]
pub(crate) struct Writer {
    /// The slots of the new program, from its last to its first.
    pub(crate) code: Vec<Option<Insn>>,
    /// Of each of them the slot of the old program that it copies, if it is the start of a copy.
    pub(crate) of: Vec<Option<u16>>,
    /// How many instructions these are.
    pub(crate) count: usize,
}

/// Writes an instruction before all that are there: a copy of a slot, or one that is added.
pub(crate) fn push(
    writer: &mut Writer,
    old: &Program,
    insn: Insn,
    copied: Option<u16>,
) -> Result<(), AllocError>
    requires written { IsWritten old.now writer.old.code.items writer.old.of.items writer.old.count }
    requires room { length writer.old.code.items + slots_in insn ≤ 8192 }
    requires defined { IsDefined insn }
    requires copies { IsCopyOf old.now insn copied }
    ensures written { OnOk result (IsWritten old.now writer.new.code.items writer.new.of.items writer.new.count) }
    ensures longer { OnOk result (length writer.new.code.items ≡ length writer.old.code.items + slots_in insn) }
{
    writer.count += 1;
    push_half(&mut writer.code, insn)?;
    writer.code.push(Some(insn))?;
    push_half_copied(&mut writer.of, insn)?;
    writer.of.push(copied)?;
    Ok(())
}

// Writes the second half of a wide instruction.
fn push_half(code: &mut Vec<Option<Insn>>, insn: Insn) -> Result<(), AllocError>
    ensures { OnOk result (code.new.items ≡ code.old.items ++ half_of insn) }
{
    match insn {
        Insn::Wide { .. } => {
            code.push(None)?;
            Ok(())
        }
        _ => Ok(()),
    }
}

// Says that the second half of a wide instruction is not the start of a copy.
fn push_half_copied(of: &mut Vec<Option<u16>>, insn: Insn) -> Result<(), AllocError>
    ensures { OnOk result (of.new.items ≡ of.old.items ++ half_copied insn) }
{
    match insn {
        Insn::Wide { .. } => {
            of.push(None)?;
            Ok(())
        }
        _ => Ok(()),
    }
}
