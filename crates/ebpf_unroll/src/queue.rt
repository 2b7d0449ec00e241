//! The copies that are yet to be made, and which of them is next.
//!
//! The lowest slot is next, as in a walk over a program without loops. But a loop head waits while anything of its loop is pending
//! after it, up to the last slot that jumps back to it: so what is known in one turn is joined with itself alone, a counter stays one
//! number in each turn, and what comes after a loop waits for its last turn.

ghost use Rattle.std.specs.Prelude.{◌≡◌, ◌<◌, IfSome, length};

use ebpf_state::state::State;
use std::alloc::{AllocError, Global};

/// A copy that is yet to be made: its number, and what is known of all runs that come to it.
#[derive(Drop)]
pub(crate) struct Pending {
    pub(crate) number: usize,
    pub(crate) state: State,
}

/// The copies that are yet to be made.
#[derive(Drop)]
pub(crate) struct Queue {
    // Of each slot, in the order in which a state came first. Two of one slot hold different objects.
    pending: Vec<Vec<Pending>>,
    // Nothing is pending below it.
    low: usize,
}

impl Queue {
    /// A queue over that many slots, with nothing pending at any.
    pub(crate) fn new(alloc: Global, slots: usize) -> Result<Queue, AllocError> {
        let mut pending = Vec::with_capacity(alloc, slots)?;
        for _ in 0..slots {
            pending.push(Vec::new(alloc))?;
        }
        Ok(Queue { pending, low: 0 })
    }

    /// Adds what is known of a run that comes to a slot, and says which copy it comes to: one that is pending there and holds the
    /// same objects, or a new one of this number. Slots past the last one have no copies.
    pub(crate) fn add(
        &mut self,
        slot: usize,
        number: usize,
        state: State,
    ) -> Result<Option<usize>, AllocError> {
        if slot >= self.pending.len() {
            return Ok(None);
        }
        let there = &mut self.pending[slot];
        for k in 0..there.len() {
            if there[k].state.join_with(&state) {
                return Ok(Some(there[k].number));
            }
        }
        there.push(Pending { number, state })?;
        self.low = self.low.min(slot);
        Ok(Some(number))
    }

    /// Takes the next copy out, with its slot. `back` has for each slot the last one that jumps back to it, or 0.
    pub(crate) fn take(&mut self, back: &[usize]) -> Option<(usize, Pending)> {
        let (low, slot) = next(&self.pending, self.low, back)?;
        self.low = low;
        let there = &mut self.pending[slot];
        if there.is_empty() {
            return None;
        }
        Some((slot, there.remove(0)))
    }
}

// The lowest slot at which something is pending, and the slot of the next copy. Nothing is pending below `low`.
fn next(pending: &[Vec<Pending>], low: usize, back: &[usize]) -> Option<(usize, usize)>
    ensures { IfSome result (λ found. found.1 < length pending.now) }
{
    let mut found: Option<(usize, usize)> = None;
    let mut end = pending.len();
    for slot in low..pending.len() {
        if slot > end {
            return found;
        }
        if !pending[slot].is_empty() {
            let lowest = match found {
                Some((lowest, _)) => lowest,
                None => slot,
            };
            found = Some((lowest, slot));
            end = back.get(slot).copied().unwrap_or(0);
        }
    }
    found
}
