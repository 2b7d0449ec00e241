//! The graph of a program.

ghost use Rattle.std.specs.Prelude.{◌≡◌, ◌<◌, ◌++◌, [], if◌then◌else◌, cond, length, string_bytes, IfOk, OnOk};
ghost use Rattle.ebpf_explain.specs.Losses.{losses_at};
ghost use Rattle.ebpf_insn.specs.Program.{insn_at};
ghost use Rattle.ebpf_flow.specs.Edges.{edges_at};
ghost use Rattle.ebpf_explain.specs.StackWords.{texts_below};
ghost use Rattle.ebpf_graph.specs.Blocks.{first_of_block};
ghost use Rattle.ebpf_graph.specs.Drawn.{AreBegins, AreDrawn};
ghost use Rattle.ebpf_graph.specs.Graph.{closing, graph_of, losses_below, slot_graph};

use crate::blocks::{Block, block_starts, ends_before};
use crate::edges::write_edges;
use crate::entry::write_known_before;
use crate::node::{write_label_line, write_mark, write_node_end, write_opening};
use ebpf_explain::losses::{Loss, add_losses};
use ebpf_flow::edges::Edges;
use ebpf_insn::insn::Insn;
use ebpf_verify::trace::Trace;
use std::alloc::{AllocError, Global};

/// Writes the graph of a program after a text: its nodes in the order of their slots, each followed by its edges. Where a
/// slot is refused, its line is marked and its node is red. With states each node begins with what is known before its block, if
/// the verifier looked at it, and the label of each edge says what is lost where it leads.
///
/// # Errors
/// It fails only where an allocation fails, and a beginning of the graph may be written then.
pub fn write_graph(
    alloc: Global,
    text: &mut String,
    trace: &Trace,
    refused: Option<u16>,
    states: bool,
) -> Result<(), AllocError>
    ensures { OnOk result (string_bytes text.new ≡ string_bytes text.old ++ graph_of states trace.now.flowed.now trace.now.entries.items trace.now.kinds.now refused) }
{
    let drawn = what_is_drawn(alloc, trace, refused, states)?;
    text.push_str("digraph program {\n  node [shape=box, fontname=monospace];\n")?;
    write_blocks(alloc, text, trace, &drawn)?;
    text.push_str("}\n")
}

// What is known of a program before any of its blocks is written.
#[derive(Drop)]
struct Drawn {
    // Whether a block begins at each slot.
    begins: Vec<bool>,
    // What is lost where blocks begin, if that is asked for.
    losses: Vec<Loss>,
    // The slot that is refused, if one is.
    refused: Option<u16>,
    // Whether the states are asked for.
    states: bool,
}

// What is known of the program. It fails only where an allocation fails.
fn what_is_drawn(
    alloc: Global,
    trace: &Trace,
    refused: Option<u16>,
    states: bool,
) -> Result<Drawn, AllocError>
    ensures drawn { IfOk result (AreDrawn trace.now.flowed.now trace.now.entries.items) }
    ensures refused { IfOk result (λ drawn. drawn.refused ≡ refused) }
    ensures states { IfOk result (λ drawn. drawn.states ≡ states) }
{
    let begins = block_starts(alloc, trace.flowed)?;
    let mut losses = Vec::new(alloc);
    if states {
        add_block_losses(alloc, trace, &begins, &mut losses)?;
    }
    Ok(Drawn {
        begins,
        losses,
        refused,
        states,
    })
}

// Adds what is lost where blocks begin.
fn add_block_losses(
    alloc: Global,
    trace: &Trace,
    begins: &[bool],
    losses: &mut Vec<Loss>,
) -> Result<(), AllocError>
    requires { AreBegins trace.now.flowed.now begins.now }
    ensures { OnOk result (losses.new.items ≡ losses.old.items ++ losses_below trace.now.flowed.now trace.now.entries.items (length trace.now.entries.items)) }
{
    for slot in 0..trace.entries.len() {
        add_if_begins(alloc, trace, begins[slot], slot, losses)?;
    }
    Ok(())
}

// Adds what is lost at a slot, if a block begins there.
fn add_if_begins(
    alloc: Global,
    trace: &Trace,
    begins: bool,
    slot: usize,
    losses: &mut Vec<Loss>,
) -> Result<(), AllocError>
    requires { slot < length trace.now.entries.items }
    ensures { OnOk result (losses.new.items ≡ losses.old.items ++ (if begins then losses_at trace.now.flowed.now trace.now.entries.items slot else [])) }
{
    if begins {
        add_losses(alloc, trace, slot, losses)
    } else {
        Ok(())
    }
}

// The nodes and their edges.
fn write_blocks(
    alloc: Global,
    text: &mut String,
    trace: &Trace,
    drawn: &Drawn,
) -> Result<(), AllocError>
    requires { AreDrawn trace.now.flowed.now trace.now.entries.items drawn.now }
    ensures { OnOk result (string_bytes text.new ≡ string_bytes text.old ++ texts_below (length trace.now.flowed.now) (slot_graph drawn.now.states trace.now.flowed.now trace.now.entries.items trace.now.kinds.now drawn.now.refused)) }
{
    let mut first = 0;
    for slot in 0..trace.flowed.program().slots() {
        first = first_slot(drawn.begins[slot], slot, first);
        write_slot(alloc, text, trace, drawn, first, slot)?;
    }
    Ok(())
}

// The first slot of the block of a slot, by whether one begins there, and the last one that began.
fn first_slot(begins: bool, slot: usize, last: usize) -> usize
    ensures { result ≡ cond begins slot last }
{
    if begins { slot } else { last }
}

// What the instruction at a slot adds, if one begins there.
fn write_slot(
    alloc: Global,
    text: &mut String,
    trace: &Trace,
    drawn: &Drawn,
    first: usize,
    slot: usize,
) -> Result<(), AllocError>
    requires drawn { AreDrawn trace.now.flowed.now trace.now.entries.items drawn.now }
    requires inside { slot < length trace.now.flowed.now }
    requires first { first ≡ first_of_block trace.now.flowed.now slot }
    ensures { OnOk result (string_bytes text.new ≡ string_bytes text.old ++ slot_graph drawn.now.states trace.now.flowed.now trace.now.entries.items trace.now.kinds.now drawn.now.refused slot) }
{
    let Some(insn) = trace.flowed.program().at(slot) else {
        return Ok(());
    };
    let edges = trace.flowed.successors(slot);
    let begins = drawn.begins[slot];
    write_opening(text, begins, slot)?;
    let asked = drawn.states && begins;
    write_known_before(text, asked, &trace.entries, trace.kinds, slot)?;
    write_mark(text, drawn.refused, slot)?;
    write_label_line(alloc, text, slot, insn)?;
    let ends = ends_before(&drawn.begins, edges.fall);
    let end = End {
        ends,
        block: Block { first, last: slot },
        insn: *insn,
        edges,
    };
    write_closing(alloc, text, &drawn.losses, drawn.refused, end)
}

// An instruction, the block up to it, and whether that ends with it.
struct End {
    ends: bool,
    block: Block,
    insn: Insn,
    edges: Edges,
}

// What ends the node of the block that ends with an instruction, if one does, and its edges.
fn write_closing(
    alloc: Global,
    text: &mut String,
    losses: &[Loss],
    refused: Option<u16>,
    end: End,
) -> Result<(), AllocError>
    ensures { OnOk result (string_bytes text.new ≡ string_bytes text.old ++ closing end.ends losses.now refused end.block.first end.block.last end.insn end.edges) }
{
    let End {
        ends,
        block,
        insn,
        edges,
    } = end;
    if !ends {
        return Ok(());
    }
    write_node_end(text, refused, block)?;
    write_edges(alloc, text, losses, block, insn, edges)
}
