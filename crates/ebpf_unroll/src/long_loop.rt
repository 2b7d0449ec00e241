//! The loop that a walk goes round most often, for a sentence on why it doesn't come to an end.

ghost use Rattle.std.specs.Prelude.{◌≡◌, ◌<◌, All, IfOk, IfSome, true};
ghost use Rattle.ebpf_insn.specs.declared.program.TheConstants.{MAX_SLOTS};
ghost use Rattle.ebpf_verify.specs.Verdict.{AreRows};
ghost use Rattle.ebpf_unroll.specs.Branches.{IsBranch};

use crate::compared::Compared;
use crate::fault::UnrollFault;
use crate::walk::{Looping, Visit, Walk, back_edges, go_through, longest_loop};
use ebpf_flow::edges::{fall_of, jump_of};
use ebpf_insn::program::{MAX_SLOTS, Program};
use ebpf_state::kinds::KindRow;
use ebpf_verify::decl::Decl;
use std::alloc::{AllocError, Global};

/// A loop, and how often the walk went round it.
#[derive(Drop)]
pub struct LongLoop {
    /// The slot that it begins with.
    pub head: u16,
    /// The last slot that goes back to the head.
    pub last: u16,
    /// How often the walk came to the head.
    pub turns: usize,
    /// The branches that lead out of it, in the order of their slots.
    pub exits: Vec<LoopExit>,
}

/// A branch that leads out of a loop, and what it compares when the walk comes there at first and at last.
#[derive(Clone, Copy)]
pub struct LoopExit {
    pub slot: u16,
    pub first: Compared,
    pub last: Compared,
}

/// The loop whose head the walk over a program comes to most often.
///
/// # Errors
/// It fails only where an allocation fails.
pub fn long_loop(
    alloc: Global,
    program: &Program,
    decl: Decl,
    kinds: &[KindRow],
) -> Result<LongLoop, AllocError>
    requires { AreRows kinds.now }
    ensures { IfOk result (λ l. All (λ e. IsBranch program.now e.slot) l.exits.items) }
{
    let back = back_edges(alloc, program)?;
    let looping = Looping {
        program,
        back: &back,
        decl,
        kinds,
    };
    let mut walk = Walk::new(alloc, program)?;
    if let Err(UnrollFault::NoMemory) = go_through(alloc, &mut walk, looping, MAX_SLOTS) {
        return Err(AllocError);
    }
    let (head, turns) = longest_loop(&back, &walk.visits);
    let last = u16::try_from(back.get(head as usize).copied().unwrap_or(0)).unwrap_or(head);
    let exits = exits_of(alloc, program, head, &walk.visits)?;
    Ok(LongLoop {
        head,
        last,
        turns,
        exits,
    })
}

// The branches of the loop of a head that lead out of it, where the walk came to them.
fn exits_of(
    alloc: Global,
    program: &Program,
    head: u16,
    visits: &[Visit],
) -> Result<Vec<LoopExit>, AllocError>
    ensures { IfOk result (λ exits. All (λ e. IsBranch program.now e.slot) exits.items) }
{
    let members = members_of(alloc, program, head)?;
    let mut exits = Vec::new(alloc);
    for slot in 0..program.slots() as u16 {
        if let Some(exit) = way_out(program, &members, visits, slot) {
            exits.push(exit)?;
        }
    }
    Ok(exits)
}

// What a slot compares, if it leads out and the walk came to it.
fn way_out(program: &Program, members: &[bool], visits: &[Visit], slot: u16) -> Option<LoopExit>
    ensures { IfSome result (λ e. IsBranch program.now e.slot) }
{
    if leads_out(program, members, slot) {
        exit_at(visits, slot)
    } else {
        None
    }
}

// Whether a slot of a loop is a branch of which an edge leads to a slot that isn't.
fn leads_out(program: &Program, members: &[bool], slot: u16) -> bool
    ensures { result ≡ true → IsBranch program.now slot }
{
    if slot as usize >= program.slots() || !is_member(members, slot as usize) {
        return false;
    }
    let Some(insn) = program.at(slot as usize) else {
        return false;
    };
    match (fall_of(*insn, slot as usize), jump_of(*insn, slot as usize)) {
        (Some(fall), Some(jump)) => !is_member(members, fall) || !is_member(members, jump),
        _ => false,
    }
}

// Whether a slot is marked.
fn is_member(members: &[bool], slot: usize) -> bool {
    members.get(slot).copied().unwrap_or(false)
}

// The slots of the loop of a head: the head, and those from which a path leads back to it that doesn't pass it on the way.
fn members_of(alloc: Global, program: &Program, head: u16) -> Result<Vec<bool>, AllocError> {
    let slots = program.slots();
    let head = head as usize;
    let mut marks = vec![in alloc; false; slots]?;
    mark_last(program, head, &mut marks);
    for _ in 0..slots {
        if !mark_before(program, head, &mut marks) {
            mark(&mut marks, Some(head));
            return Ok(marks);
        }
    }
    mark(&mut marks, Some(head));
    Ok(marks)
}

// Marks the slots after a head that lead back to it.
fn mark_last(program: &Program, head: usize, marks: &mut Vec<bool>) {
    for slot in 0..program.slots() {
        let (fall, jump) = edges_of(program, slot);
        if head < slot && (fall == Some(head) || jump == Some(head)) {
            mark(marks, Some(slot));
        }
    }
}

// Marks the slots other than the head that lead to marked ones. Says whether there was one more.
fn mark_before(program: &Program, head: usize, marks: &mut Vec<bool>) -> bool {
    let mut more = false;
    for slot in 0..program.slots() {
        let (fall, jump) = edges_of(program, slot);
        if slot != head && (is_marked(marks, fall) || is_marked(marks, jump)) {
            more = mark(marks, Some(slot)) || more;
        }
    }
    more
}

// The edges of a slot.
fn edges_of(program: &Program, slot: usize) -> (Option<usize>, Option<usize>)
    requires { slot < MAX_SLOTS }
{
    match program.at(slot) {
        Some(insn) => (fall_of(*insn, slot), jump_of(*insn, slot)),
        None => (None, None),
    }
}

// Whether an edge leads to a marked slot.
fn is_marked(marks: &[bool], edge: Option<usize>) -> bool {
    match edge {
        Some(to) => is_member(marks, to),
        None => false,
    }
}

// Marks the slot that an edge leads to. Says whether it was not marked yet.
fn mark(marks: &mut Vec<bool>, edge: Option<usize>) -> bool {
    let Some(to) = edge else {
        return false;
    };
    if to >= marks.len() || marks[to] {
        return false;
    }
    marks[to] = true;
    true
}

// What a slot compares at the first of its visits, and at the last.
fn exit_at(visits: &[Visit], slot: u16) -> Option<LoopExit>
    ensures { IfSome result (λ e. e.slot ≡ slot) }
{
    let mut exit: Option<LoopExit> = None;
    for visit in visits {
        if visit.slot == slot as usize {
            let first = match exit {
                Some(before) => before.first,
                None => visit.compared,
            };
            exit = Some(LoopExit {
                slot,
                first,
                last: visit.compared,
            });
        }
    }
    exit
}
