//! What fits: a free segment for a request, and the longest of all.
//!
//! *The idea* (Bonwick and Adams 2001, "Vmem": instant fit). Each segment of a class has as many pages as the
//! class has at least. So a request is met by any segment of a class of as many pages, and only where there is
//! none the class that the request itself falls in is walked.
//!
//! *The invariant.* The classes list the free segments and nothing else, as a `requires` of each function here.
//!
//! *The reason.* A segment that is longer than a request lies in the request's class or above, so the two
//! looks together miss none, and a refusal is right.

ghost use Rattle.std.specs.Prelude.{◌≡◌, ℕ, ◌+◌, ◌%◌, ◌<◌, ◌≤◌, IfSome, IfNone};
ghost use Rattle.vmem_arena.specs.Classes.{bit_of, IsListed};
ghost use Rattle.vmem_arena.specs.Segments.{free_len};
ghost use Rattle.vmem_arena.specs.declared.arena.TheConstants.{MAX_PAGES};

use crate::arena::MAX_PAGES;
use crate::classes::{Classes, PLACES, PLACES_OF_A_CLASS};
use crate::segment::Table;

/// The place of a free segment that has n pages or more.
pub fn fit(table: &Table, classes: &Classes, n: u32) -> Option<usize>
    requires some { 0 < n }
    requires listed { IsListed classes.now table.now }
    requires short { (page : ℕ) → 0 < free_len table.now page → page + free_len table.now page ≤ MAX_PAGES }
    ensures listed { IfSome result (λ place. (place < PLACES) × (bit_of classes.now place ≡ 1)) }
    ensures fits { IfSome result (λ place. n ≤ free_len table.now (place % PLACES_OF_A_CLASS)) }
    ensures none { IfNone result ((page : ℕ) → free_len table.now page < n) }
{
    if n > MAX_PAGES {
        return None;
    }
    let class = n.ilog2();
    let full = if n == 1 << class { class } else { class + 1 };
    match classes.lowest(full) {
        Some(place) => Some(place),
        None => walk(table, classes, class as usize * PLACES_OF_A_CLASS, n),
    }
}

/// The place of a free segment that has n pages or more, of the classes from a place on.
fn walk(table: &Table, classes: &Classes, start: usize, n: u32) -> Option<usize>
    requires start { start ≤ PLACES }
    requires listed { IsListed classes.now table.now }
    ensures listed { IfSome result (λ place. (place < PLACES) × (bit_of classes.now place ≡ 1)) }
    ensures fits { IfSome result (λ place. n ≤ free_len table.now (place % PLACES_OF_A_CLASS)) }
    ensures none { IfNone result ((i : ℕ) → start ≤ i → bit_of classes.now i ≡ 1 → free_len table.now (i % PLACES_OF_A_CLASS) < n) }
{
    let mut from = start;
    while let Some(place) = classes.next(from) {
        if table.free_at(place % PLACES_OF_A_CLASS) >= n {
            return Some(place);
        }
        from = place + 1;
    }
    None
}

/// The length of the longest free segment, 0 where none is free.
pub fn longest(table: &Table, classes: &Classes) -> u32
    requires listed { IsListed classes.now table.now }
    requires short { (page : ℕ) → 0 < free_len table.now page → page + free_len table.now page ≤ MAX_PAGES }
    ensures longest { (page : ℕ) → free_len table.now page ≤ result }
    ensures reached { (page : ℕ) × (free_len table.now page ≡ result) }
{
    let Some(last) = classes.last() else {
        return 0;
    };
    let mut longest = table.free_at(last % PLACES_OF_A_CLASS);
    let mut from = last / PLACES_OF_A_CLASS * PLACES_OF_A_CLASS;
    while let Some(place) = classes.next(from) {
        longest = longest.max(table.free_at(place % PLACES_OF_A_CLASS));
        from = place + 1;
    }
    longest
}
