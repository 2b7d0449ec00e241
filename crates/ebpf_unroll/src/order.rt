//! The order in which the copies are laid out.
//!
//! Each visit comes before those that it leads to, so every edge leads forward in their own order. But a jump is saved where what a
//! copy falls to comes right after it, and it may once all copies that lead there are placed. Otherwise the lowest visit that isn't
//! placed comes next: all that leads there is.

use crate::walk::Visit;
use std::alloc::{AllocError, Global};

// What is placed so far.
#[derive(Drop)]
struct Placing {
    placed: Vec<bool>,
    // How many edges lead to each visit from copies that aren't placed.
    waits: Vec<usize>,
    // All visits below it are placed.
    low: usize,
}

/// The visits, in the order in which their copies are laid out.
pub(crate) fn order_of(alloc: Global, visits: &[Visit]) -> Result<Vec<usize>, AllocError> {
    let mut placing = Placing {
        placed: vec![in alloc; false; visits.len()]?,
        waits: waits_of(alloc, visits)?,
        low: 0,
    };
    let mut order = Vec::with_capacity(alloc, visits.len())?;
    let mut next = lowest(&mut placing);
    for _ in 0..visits.len() {
        let Some(visit) = next else {
            return Ok(order);
        };
        order.push(visit)?;
        next = after(&mut placing, visits, visit);
    }
    Ok(order)
}

// How many edges lead to each visit.
fn waits_of(alloc: Global, visits: &[Visit]) -> Result<Vec<usize>, AllocError> {
    let mut waits = vec![in alloc; 0; visits.len()]?;
    for visit in visits {
        wait_more(&mut waits, visit.fall);
        wait_more(&mut waits, visit.jump);
    }
    Ok(waits)
}

// One edge more leads to a visit.
fn wait_more(waits: &mut Vec<usize>, edge: Option<usize>) {
    if let Some(to) = edge {
        if to < waits.len() {
            waits[to] = waits[to].saturating_add(1);
        }
    }
}

// Places a visit, and says which one comes next.
fn after(placing: &mut Placing, visits: &[Visit], visit: usize) -> Option<usize> {
    if visit >= visits.len() || visit >= placing.placed.len() {
        return None;
    }
    placing.placed[visit] = true;
    wait_less(placing, visits[visit].jump);
    if wait_less(placing, visits[visit].fall) {
        return visits[visit].fall;
    }
    lowest(placing)
}

// One edge fewer leads to a visit. Says whether it may be placed now.
fn wait_less(placing: &mut Placing, edge: Option<usize>) -> bool {
    let Some(to) = edge else {
        return false;
    };
    if to >= placing.waits.len() {
        return false;
    }
    placing.waits[to] = placing.waits[to].saturating_sub(1);
    placing.waits[to] == 0
}

// The lowest visit that isn't placed.
fn lowest(placing: &mut Placing) -> Option<usize> {
    for visit in placing.low..placing.placed.len() {
        if !placing.placed[visit] {
            placing.low = visit;
            return Some(visit);
        }
    }
    None
}
