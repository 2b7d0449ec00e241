//! Why a program's flow is refused, in a sentence.

ghost use Rattle.std.specs.Prelude.{◌≡◌, ◌++◌, string_bytes, OnOk};
ghost use Rattle.ebpf_explain.specs.FlowSentences.{backward_words, flow_sentence, flow_words, jump_text};

use crate::values::write_offset;
use ebpf_flow::fault::FlowCode;
use ebpf_insn::insn::Insn;
use std::alloc::AllocError;

// Writes after a text why a slot is refused, as a line: its number, what is wrong with its instruction in a program of
// n slots, and how that is mended. A jump back closes a loop, or leads to a block that is only out of order. It fails only where an
// allocation fails, and some of the line may be written then.
pub(crate) fn write_flow_sentence(
    text: &mut String,
    slot: usize,
    insn: &Insn,
    slots: usize,
    loops: bool,
    code: FlowCode,
) -> Result<(), AllocError>
    ensures { OnOk result (string_bytes text.new ≡ string_bytes text.old ++ flow_sentence slot insn.now slots loops code) }
{
    write!(text, "  slot {slot} ")?;
    write_words(text, insn, slots, loops, code)?;
    text.push_str("\n")
}

// What is wrong with an instruction, and how it is mended.
fn write_words(
    text: &mut String,
    insn: &Insn,
    slots: usize,
    loops: bool,
    code: FlowCode,
) -> Result<(), AllocError>
    ensures { OnOk result (string_bytes text.new ≡ string_bytes text.old ++ flow_words insn.now slots loops code) }
{
    match code {
        FlowCode::JumpOutside => {
            text.push_str("jumps ")?;
            write_jump(text, insn)?;
            write!(
                text,
                " slots from the next one, but the program has {slots} slots: make it lead to one of them"
            )
        }
        FlowCode::JumpIntoWide => {
            text.push_str("jumps ")?;
            write_jump(text, insn)?;
            text.push_str(
                " slots from the next one, into the second half of a wide instruction: make it lead to an instruction",
            )
        }
        FlowCode::JumpBackward => {
            text.push_str("jumps back by ")?;
            write_jump(text, insn)?;
            text.push_str(backward_words(loops))
        }
        FlowCode::FallsOffEnd => text.push_str(
            "continues past the last slot: end the program with exit",
        ),
        FlowCode::Unreachable => text.push_str(
            "cannot be reached from slot 0 by going forward: remove it, or make an earlier jump lead to it",
        ),
    }
}

// How a jump back is mended.
fn backward_words(loops: bool) -> &'static str
    ensures { result.now ≡ backward_words loops }
{
    if loops {
        " slots, which closes a loop: programs only go forward: unroll the loop, as ebpf_run unroll does"
    } else {
        " slots, where no path leads forward to it again: programs only go forward: have lay-out put the blocks in order"
    }
}

// How many slots on a jump goes: none where it is no jump.
fn write_jump(text: &mut String, insn: &Insn) -> Result<(), AllocError>
    ensures { OnOk result (string_bytes text.new ≡ string_bytes text.old ++ jump_text insn.now) }
{
    match *insn {
        Insn::Jump { offset } => write_offset(text, offset as i64),
        Insn::JumpFar { offset } => write_offset(text, offset as i64),
        Insn::Branch { offset, .. } => write_offset(text, offset as i64),
        _ => text.push_str("+0"),
    }
}
