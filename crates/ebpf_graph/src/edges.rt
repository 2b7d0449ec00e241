//! The edges that leave a block, each written after a text. Writing fails only where an allocation fails.

ghost use Rattle.std.specs.Prelude.{◌≡◌, ◌++◌, string_bytes, IfOk, OnOk};
ghost use Rattle.ebpf_explain.specs.Losses.{lost_between};
ghost use Rattle.ebpf_graph.specs.Graph.{edge_text, edge_texts, fall_condition, jump_condition, label};

use crate::blocks::Block;
use crate::condition::write_condition;
use ebpf_explain::losses::{Loss, write_lost_between};
use ebpf_flow::edges::Edges;
use ebpf_insn::insn::Insn;
use std::alloc::{AllocError, Global};

// The edges of the instruction that ends a block.
pub(crate) fn write_edges(
    alloc: Global,
    text: &mut String,
    losses: &[Loss],
    block: Block,
    insn: Insn,
    edges: Edges,
) -> Result<(), AllocError>
    ensures { OnOk result (string_bytes text.new ≡ string_bytes text.old ++ edge_texts losses.now block.first block.last insn edges) }
{
    let taken = jump_condition(alloc, insn)?;
    let fall = fall_condition(insn);
    write_edge(alloc, text, losses, block, edges.fall, fall)?;
    write_edge(alloc, text, losses, block, edges.jump, taken.as_str())
}

// An edge, if there is one, with a condition, and with what is lost where it leads.
fn write_edge(
    alloc: Global,
    text: &mut String,
    losses: &[Loss],
    block: Block,
    edge: Option<u16>,
    condition: &str,
) -> Result<(), AllocError>
    ensures { OnOk result (string_bytes text.new ≡ string_bytes text.old ++ edge_text losses.now block.first block.last edge condition.now) }
{
    let Some(to) = edge else {
        return Ok(());
    };
    let mut lost = String::new(alloc);
    write_lost_between(&mut lost, losses, block.last, to as usize)?;
    let first = block.first;
    write!(text, "  n{first} -> n{to}")?;
    write_label(text, condition, lost.as_str())?;
    text.push_str(";\n")
}

// The label of an edge, if it has one.
fn write_label(text: &mut String, condition: &str, lost: &str) -> Result<(), AllocError>
    ensures { OnOk result (string_bytes text.new ≡ string_bytes text.old ++ label condition.now lost.now) }
{
    match (condition.is_empty(), lost.is_empty()) {
        (true, true) => Ok(()),
        (true, false) => write!(text, " [label=\"lost{lost}\"]"),
        (false, true) => write!(text, " [label=\"{condition}\"]"),
        (false, false) => write!(text, " [label=\"{condition}\\nlost{lost}\"]"),
    }
}

// The condition under which an instruction goes on to the next slot, if it has one.
fn fall_condition(insn: Insn) -> &'static str
    ensures { result.now ≡ fall_condition insn }
{
    match insn {
        Insn::Branch { .. } => "else",
        _ => "",
    }
}

// The condition under which it jumps, if it has one.
fn jump_condition(alloc: Global, insn: Insn) -> Result<String, AllocError>
    ensures { IfOk result (λ text. string_bytes text ≡ jump_condition insn) }
{
    let mut text = String::new(alloc);
    if let Insn::Branch {
        width,
        cond,
        left,
        right,
        ..
    } = insn
    {
        write_condition(&mut text, width, cond, left, right)?;
    }
    Ok(text)
}
