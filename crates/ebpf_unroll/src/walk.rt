//! The verifier's walk over a program with loops.

ghost use Rattle.std.specs.Prelude.{◌≡◌, ◌≤◌, ◌<◌, IfErr, IfOk, length};
ghost use Rattle.ebpf_insn.specs.declared.program.TheConstants.{MAX_SLOTS};
ghost use Rattle.ebpf_insn.specs.Program.{insn_at};
ghost use Rattle.ebpf_verify.specs.Rules.{refusal};
ghost use Rattle.ebpf_verify.specs.Verdict.{IsSlotFault};
ghost use Rattle.ebpf_unroll.specs.Refusal.{IsUnrollFault};

use crate::compared::Compared;
use crate::fault::UnrollFault;
use crate::queue::Queue;
use ebpf_flow::edges::{Edges, fall_of, jump_of};
use ebpf_insn::insn::Insn;
use ebpf_insn::program::{MAX_SLOTS, Program};
use ebpf_layout::refusal::edge_fault;
use ebpf_state::kinds::KindRow;
use ebpf_state::state::State;
use ebpf_verify::decl::Decl;
use ebpf_verify::entry::EntryState;
use ebpf_verify::fault::VerifyFault;
use ebpf_verify::propagate::pass_on;
use std::alloc::{AllocError, Global};
use std::mem;

/// A program with loops, and what its runs are judged by.
#[derive(Clone, Copy)]
pub(crate) struct Looping<'a> {
    pub(crate) program: &'a Program,
    /// Of each slot the last one that jumps back to it; 0 where none does.
    pub(crate) back: &'a [usize],
    pub(crate) decl: Decl,
    pub(crate) kinds: &'a [KindRow],
}

/// A visit of a slot, which is a copy of its instruction: the later visits that its edges lead to, none where no run goes.
#[derive(Clone, Copy)]
pub(crate) struct Visit {
    pub(crate) slot: usize,
    pub(crate) fall: Option<usize>,
    pub(crate) jump: Option<usize>,
    /// What its branch compares.
    pub(crate) compared: Compared,
}

/// How far the walk has come.
#[derive(Drop)]
pub(crate) struct Walk {
    pub(crate) queue: Queue,
    /// Their edges have the numbers of copies.
    pub(crate) visits: Vec<Visit>,
    // The visit that made the copy of each number.
    visit_of: Vec<usize>,
}

// A visit numbers the copies that its two edges may come to, and the first copy has number 0.
const NUMBERS: usize = 2 * MAX_SLOTS + 1;

impl Walk {
    /// A walk that is yet to make its first visit.
    pub(crate) fn new(alloc: Global, program: &Program) -> Result<Walk, AllocError> {
        let mut walk = Walk {
            queue: Queue::new(alloc, program.slots())?,
            visits: Vec::with_capacity(alloc, program.slots())?,
            visit_of: vec![in alloc; 0; NUMBERS]?,
        };
        walk.queue.add(0, 0, State::start(alloc)?)?;
        Ok(walk)
    }
}

/// The visits that a run may make, each before those that it leads to.
///
/// # Errors
/// `Flow` and `Refused` with the slot where the walk can't go on; `Long` where it comes to more than `MAX_SLOTS` visits.
pub(crate) fn visits_of(alloc: Global, looping: Looping<'_>) -> Result<Vec<Visit>, UnrollFault>
    requires few { length looping.kinds.now ≤ 8 }
    requires back { length looping.back.now ≤ MAX_SLOTS }
    ensures refused { IfErr result (IsUnrollFault looping.entry.program.now looping.entry.decl looping.entry.kinds.now) }
{
    let mut walk = Walk::new(alloc, looping.program)?;
    go_through(alloc, &mut walk, looping, MAX_SLOTS)?;
    if walk.queue.take(looping.back).is_some() {
        let (slot, visits) = longest_loop(looping.back, &walk.visits);
        return Err(UnrollFault::Long { slot, visits });
    }
    let Walk {
        queue: _,
        mut visits,
        visit_of,
    } = walk;
    for visit in &mut visits {
        visit.fall = led_to(&visit_of, visit.fall);
        visit.jump = led_to(&visit_of, visit.jump);
    }
    Ok(visits)
}

// The visit that made the copy of a number.
fn led_to(visit_of: &[usize], number: Option<usize>) -> Option<usize> {
    visit_of.get(number?).copied()
}

/// Visits what is pending until nothing is, or until that many visits are made.
///
/// # Errors
/// `Flow` and `Refused` with the slot where the walk can't go on. The visits before are made.
pub(crate) fn go_through(
    alloc: Global,
    walk: &mut Walk,
    looping: Looping<'_>,
    most: usize,
) -> Result<(), UnrollFault>
    requires few { length looping.kinds.now ≤ 8 }
    requires most { most ≤ MAX_SLOTS }
    ensures refused { IfErr result (IsUnrollFault looping.entry.program.now looping.entry.decl looping.entry.kinds.now) }
{
    for visit in 0..most {
        let Some((slot, pending)) = walk.queue.take(looping.back) else {
            return Ok(());
        };
        if pending.number < walk.visit_of.len() {
            walk.visit_of[pending.number] = visit;
        }
        visit_slot(alloc, walk, looping, visit, slot, pending.state)?;
    }
    Ok(())
}

// Visits a slot: the rule of its instruction, and what that sends along its edges.
fn visit_slot(
    alloc: Global,
    walk: &mut Walk,
    looping: Looping<'_>,
    visit: usize,
    slot: usize,
    state: State,
) -> Result<(), UnrollFault>
    requires few { length looping.kinds.now ≤ 8 }
    requires visit { visit < MAX_SLOTS }
    ensures refused { IfErr result (IsUnrollFault looping.entry.program.now looping.entry.decl looping.entry.kinds.now) }
{
    let Looping {
        program,
        decl,
        kinds,
        ..
    } = looping;
    if slot >= program.slots() {
        return Err(UnrollFault::Unconfirmed);
    }
    let Some(insn) = program.at(slot) else {
        return Err(UnrollFault::Unconfirmed);
    };
    if let Some(code) = edge_fault(program, slot) {
        return Err(UnrollFault::Flow {
            slot: slot as u16,
            code,
        });
    }
    let fall = fall_of(*insn, slot);
    let jump = jump_of(*insn, slot);
    let compared = Compared::by(insn, &state);
    let (fallen, jumped) = match sent_by(alloc, insn, decl, kinds, visit, state) {
        Ok(sent) => sent,
        Err(VerifyFault::Refused { slot: _, code }) => {
            return Err(UnrollFault::Refused {
                slot: slot as u16,
                code,
                visit: visits_to(&walk.visits, slot) + 1,
            });
        }
        Err(VerifyFault::NoMemory) => return Err(UnrollFault::NoMemory),
    };
    let jump = send_on(&mut walk.queue, jump, jumped, 2 * visit + 1)?;
    let fall = send_on(&mut walk.queue, fall, fallen, 2 * visit + 2)?;
    walk.visits.push(Visit {
        slot,
        fall,
        jump,
        compared,
    })?;
    Ok(())
}

/// What the rule of an instruction sends on: where it falls, and where it jumps.
///
/// # Errors
/// `Refused` where the rule refuses what is known, and `NoMemory` where an allocation failed.
pub(crate) fn sent_by(
    alloc: Global,
    insn: &Insn,
    decl: Decl,
    kinds: &[KindRow],
    visit: usize,
    state: State,
) -> Result<(EntryState, EntryState), VerifyFault>
    requires few { length kinds.now ≤ 8 }
    requires visit { visit < MAX_SLOTS }
    ensures refused { IfErr result (IsSlotFault visit (refusal decl kinds.now insn.now state)) }
{
    let mut entries = Vec::with_capacity(alloc, 2)?;
    entries.push(EntryState::Unreached)?;
    entries.push(EntryState::Unreached)?;
    let edges = Edges {
        fall: Some(0),
        jump: Some(1),
    };
    pass_on(decl, kinds, insn, visit, state, edges, &mut entries)?;
    let fallen = mem::replace(&mut entries[0], EntryState::Unreached);
    let jumped = mem::replace(&mut entries[1], EntryState::Unreached);
    Ok((fallen, jumped))
}

// The number of the copy that an edge leads to, if a run goes along it: the number that is given, where that copy is new.
fn send_on(
    queue: &mut Queue,
    edge: Option<usize>,
    sent: EntryState,
    number: usize,
) -> Result<Option<usize>, AllocError> {
    match (edge, sent) {
        (Some(to), EntryState::Known(state)) => queue.add(to, number, state),
        _ => Ok(None),
    }
}

/// For each slot the last one that jumps back to it; 0 where none does.
pub(crate) fn back_edges(alloc: Global, program: &Program) -> Result<Vec<usize>, AllocError>
    ensures { IfOk result (λ back. length back.items ≤ MAX_SLOTS) }
{
    let slots = program.slots();
    let mut back = vec![in alloc; 0; slots]?;
    for slot in 0..slots {
        if let Some(to) = jump_at(program, slot) {
            if to <= slot {
                back[to] = slot;
            }
        }
    }
    Ok(back)
}

// The slot that a slot's jump leads to.
fn jump_at(program: &Program, slot: usize) -> Option<usize>
    requires { slot < MAX_SLOTS }
{
    jump_of(*program.at(slot)?, slot)
}

/// The loop head that was visited most often, and how often.
pub(crate) fn longest_loop(back: &[usize], visits: &[Visit]) -> (u16, usize)
    requires { length back.now ≤ MAX_SLOTS }
{
    let mut slot = 0;
    let mut most = visits_to(visits, 0);
    for head in 0..back.len() {
        if back[head] > 0 {
            let times = visits_to(visits, head);
            if times > most {
                slot = head as u16;
                most = times;
            }
        }
    }
    (slot, most)
}

// How many visits were of a slot.
fn visits_to(visits: &[Visit], slot: usize) -> usize
    ensures { result ≤ length visits.now }
{
    let mut count = 0;
    for visit in 0..visits.len() {
        if visits[visit].slot == slot {
            count += 1;
        }
    }
    count
}
