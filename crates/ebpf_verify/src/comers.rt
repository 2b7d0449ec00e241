//! What comes to a slot, state by state: what its entry is the join of.

ghost use Rattle.std.specs.Prelude.{◌≡◌, ◌<◌, ◌∷◌, ◌++◌, [], if◌then◌else◌, IfOk, OnOk, length, None, Some};
ghost use Rattle.ebpf_flow.specs.Edges.{leads_to};
ghost use Rattle.ebpf_insn.specs.declared.program.TheConstants.{MAX_SLOTS};
ghost use Rattle.ebpf_verify.specs.Comers.{comer_in, comers, sent_along, sent_from};
ghost use Rattle.ebpf_verify.specs.Entry.{entry_of};
ghost use Rattle.ebpf_verify.specs.Rules.{refusal};

use crate::entry::EntryState;
use crate::fault::VerifyFault;
use crate::propagate::pass_on;
use crate::trace::Trace;
use ebpf_flow::edges::Edges;
use ebpf_insn::insn::Insn;
use ebpf_state::state::State;
use std::alloc::{AllocError, Global};
use std::mem;

/// What is known of the runs that come to a slot from one other.
#[derive(Drop)]
pub struct Comer {
    /// The slot that they come from.
    pub from: u16,
    /// What is known of them.
    pub state: State,
}

// What sends: the instruction at a slot, and what is known before it.
#[derive(Drop)]
struct Sender<'a> {
    insn: &'a Insn,
    from: usize,
    state: &'a State,
}

/// What comes to a slot that was looked at, in the order of the slots that it comes from; from one that leads there twice, first by
/// its jump. It looks at each lower slot once.
///
/// # Errors
/// It fails only where an allocation fails.
pub fn comers_to(alloc: Global, trace: &Trace, to: usize) -> Result<Vec<Comer>, AllocError>
    requires inside { to < length trace.now.entries.items }
    ensures { IfOk result (λ v. v.items ≡ comers trace.now.flowed.now to) }
{
    let mut comers = Vec::new(alloc);
    for from in 0..to {
        add_from(alloc, trace, from, to, &mut comers)?;
    }
    Ok(comers)
}

// Adds what one slot sends to a later one that was looked at.
fn add_from(
    alloc: Global,
    trace: &Trace,
    from: usize,
    to: usize,
    comers: &mut Vec<Comer>,
) -> Result<(), AllocError>
    requires before { from < to }
    requires inside { to < length trace.now.entries.items }
    ensures { OnOk result (comers.new.items ≡ comers.old.items ++ sent_from trace.now.flowed.now from to (entry_of trace.now.flowed.now from)) }
{
    let edges = trace.flowed.successors(from);
    let falls = leads_to(edges.fall, to);
    let jumps = leads_to(edges.jump, to);
    if !falls && !jumps {
        return Ok(());
    }
    match (trace.flowed.program().at(from), &trace.entries[from]) {
        (Some(insn), EntryState::Known(state)) => {
            let sender = Sender { insn, from, state };
            add_after(alloc, trace, &sender, jumps, falls, comers)
        }
        _ => Ok(()),
    }
}

// An edge leads to a slot.
fn leads_to(edge: Option<u16>, to: usize) -> bool
    ensures { result ≡ leads_to edge to }
{
    match edge {
        Some(slot) => to == slot as usize,
        None => false,
    }
}

// Adds what is known after an instruction, of those of its edges that are asked for. The rule of the instruction sends it along
// edges of their own: a fall to 0, and a jump to 1.
fn add_after(
    alloc: Global,
    trace: &Trace,
    sender: &Sender,
    jumps: bool,
    falls: bool,
    comers: &mut Vec<Comer>,
) -> Result<(), AllocError>
    requires inside { sender.now.from < MAX_SLOTS }
    requires fine { refusal trace.now.decl trace.now.kinds.now sender.now.insn.now sender.now.state.now ≡ None }
    ensures { OnOk result (comers.new.items ≡ comers.old.items ++ sent_along sender.now.insn.now sender.now.from sender.now.state.now jumps falls) }
{
    let from = sender.from;
    let edges = Edges {
        fall: way(falls, 0),
        jump: way(jumps, 1),
    };
    let mut sent = two_entries(alloc)?;
    let state = sender.state.copy()?;
    let passed = pass_on(
        trace.decl,
        trace.kinds,
        sender.insn,
        from,
        state,
        edges,
        &mut sent,
    );
    match passed {
        Ok(()) => {}
        Err(VerifyFault::NoMemory) => return Err(AllocError),
        Err(VerifyFault::Refused { .. }) => unreachable!(),
    }
    let fall = mem::replace(&mut sent[0], EntryState::Unreached);
    let jump = mem::replace(&mut sent[1], EntryState::Unreached);
    add_known(comers, from, jump)?;
    add_known(comers, from, fall)
}

// An edge to a slot, if it is asked of.
fn way(asked: bool, to: u16) -> Option<u16>
    ensures { result ≡ (if asked then Some to else None) }
{
    if asked { Some(to) } else { None }
}

// Two slots to which nothing came.
fn two_entries(alloc: Global) -> Result<Vec<EntryState>, AllocError>
    ensures { IfOk result (λ v. v.items ≡ EntryState.Unreached ∷ EntryState.Unreached ∷ []) }
{
    let mut entries = Vec::with_capacity(alloc, 2)?;
    entries.push(EntryState::Unreached)?;
    entries.push(EntryState::Unreached)?;
    Ok(entries)
}

// Adds what came along an edge.
fn add_known(comers: &mut Vec<Comer>, from: usize, entry: EntryState) -> Result<(), AllocError>
    requires { from < MAX_SLOTS }
    ensures { OnOk result (comers.new.items ≡ comers.old.items ++ comer_in entry from) }
{
    if let EntryState::Known(state) = entry {
        let from = from as u16;
        comers.push(Comer { from, state })?;
    }
    Ok(())
}
