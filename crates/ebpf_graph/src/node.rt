//! The parts of a node, each written after a text. Writing fails only where an allocation fails.

ghost use Rattle.std.specs.Prelude.{◌≡◌, ◌++◌, string_bytes, OnOk};
ghost use Rattle.ebpf_graph.specs.Graph.{is_among, is_at, label_line, mark, node_end, opening};

use crate::blocks::Block;
use ebpf_insn::insn::Insn;
use ebpf_text::line::line;
use std::alloc::{AllocError, Global};

// The beginning of the node of the block that begins at a slot, if one does.
pub(crate) fn write_opening(text: &mut String, begins: bool, slot: usize) -> Result<(), AllocError>
    ensures { OnOk result (string_bytes text.new ≡ string_bytes text.old ++ opening begins slot) }
{
    if !begins {
        return Ok(());
    }
    write!(text, "  n{slot} [label=\"")
}

// What is before the line of a slot that is refused.
pub(crate) fn write_mark(
    text: &mut String,
    refused: Option<u16>,
    slot: usize,
) -> Result<(), AllocError>
    ensures { OnOk result (string_bytes text.new ≡ string_bytes text.old ++ mark (is_at refused slot)) }
{
    if is_at(refused, slot) {
        text.push_str("refused at ")
    } else {
        Ok(())
    }
}

// The line of an instruction, as a label has it.
pub(crate) fn write_label_line(
    alloc: Global,
    text: &mut String,
    slot: usize,
    insn: &Insn,
) -> Result<(), AllocError>
    ensures { OnOk result (string_bytes text.new ≡ string_bytes text.old ++ label_line slot insn.now) }
{
    let line = line(alloc, slot, insn)?;
    match line.as_str().strip_suffix('\n') {
        Some(words) => {
            text.push_str(words)?;
            text.push_str("\\l")
        }
        None => Ok(()),
    }
}

// The end of the node of a block.
pub(crate) fn write_node_end(
    text: &mut String,
    refused: Option<u16>,
    block: Block,
) -> Result<(), AllocError>
    ensures { OnOk result (string_bytes text.new ≡ string_bytes text.old ++ node_end (is_among refused block.first block.last)) }
{
    if is_among(refused, block) {
        text.push_str("\", color=red];\n")
    } else {
        text.push_str("\"];\n")
    }
}

// This slot is refused.
fn is_at(refused: Option<u16>, slot: usize) -> bool
    ensures { result ≡ is_at refused slot }
{
    match refused {
        None => false,
        Some(refused) => refused as usize == slot,
    }
}

// The refused slot is one of a block.
fn is_among(refused: Option<u16>, block: Block) -> bool
    ensures { result ≡ is_among refused block.first block.last }
{
    match refused {
        None => false,
        Some(refused) => block.first <= refused as usize && refused as usize <= block.last,
    }
}
