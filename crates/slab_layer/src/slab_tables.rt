//! The two tables of the slabs of a kind, and the steps on each.
//!
//! *The idea* (Bonwick 1994, section 3.2). A cache finds the slab of an object by the object's page, and a slab
//! with a free object at the head of a list. Here the first is a table with a slab for each page number, the
//! second a stack of page numbers.
//!
//! *The invariant.* The table is empty or has all 256 places; those of pages that aren't had are vacant.
//!
//! *The reason.* A table of all places is filled once, with the first page, and never moves a slab: so a page
//! comes and goes by a write in its place, and only the stack has to be searched, when a page is given up.

ghost use Rattle.std.specs.Prelude.{◌≡◌, ◌⊎◌, List, ℕ, ◌≤◌, ◌<◌, ◌+◌, ◌==◌, if◌then◌else◌, []};
ghost use Rattle.std.specs.Prelude.{map, length, vec_len, vec_capacity, slice_index, slice_index_or, All, IfSome, IfNone, OnOk};
ghost use Rattle.std.specs.List.{AllWithin};
ghost use Rattle.slab_layer.specs.Slots.{outs_in};
ghost use Rattle.slab_layer.specs.Stacks.{times};
ghost use Rattle.slab_layer.specs.SlabTable.{page_of, pages_in, IsSlabTable, IsBusy};

use crate::kind::Kind;
use crate::slab::Slab;
use std::alloc::{AllocError, Global};
use vmem_arena::MAX_PAGES;

/// Makes room for all pages in both tables, where the first has none yet.
pub fn reserve_tables<K: Kind>(
    slabs: &mut Vec<Slab<K>>,
    partial: &mut Vec<u32>,
) -> Result<(), AllocError>
    ensures slabs { slabs.new.items ≡ slabs.old.items }
    ensures partial { partial.new.items ≡ partial.old.items }
    ensures room { OnOk result (vec_len slabs.old ≡ 0 → MAX_PAGES ≤ vec_capacity slabs.new) }
    ensures room_open { OnOk result (vec_len slabs.old ≡ 0 → MAX_PAGES ≤ vec_capacity partial.new) }
    ensures capacity { vec_capacity partial.old ≤ vec_capacity partial.new }
{
    if slabs.is_empty() {
        slabs.reserve(MAX_PAGES as usize)?;
        partial.reserve(MAX_PAGES as usize)?;
    }
    Ok(())
}

/// Fills the table with the places of pages that aren't had.
fn add_vacant<K: Kind>(slabs: &mut Vec<Slab<K>>, alloc: Global)
    requires none { vec_len slabs.old ≡ 0 }
    requires room { MAX_PAGES ≤ vec_capacity slabs.old }
    ensures all { length slabs.new.items ≡ MAX_PAGES }
    ensures vacant { (page : ℕ) → slice_index_or (pages_in slabs.new.items) page [] ≡ [] }
    ensures numbered { (page : ℕ) → page < MAX_PAGES → slice_index (map page_of slabs.new.items) page ≡ page }
{
    for page in 0..MAX_PAGES {
        slabs.push_reserved(Slab::vacant(alloc, page));
    }
}

/// Fills the table with the places of pages that aren't had, where it has none yet.
pub fn fill_table<K: Kind>(slabs: &mut Vec<Slab<K>>, alloc: Global)
    requires { vec_len slabs.old ≡ 0 → MAX_PAGES ≤ vec_capacity slabs.old }
    ensures stack { (partial : List ℕ) (out : ℕ)
        → IsSlabTable slabs.old.items partial out
        → IsSlabTable slabs.new.items partial out }
    ensures all { (length slabs.old.items ≡ 0) ⊎ (length slabs.old.items ≡ MAX_PAGES) → length slabs.new.items ≡ MAX_PAGES }
    ensures same { (page : ℕ) → slice_index_or (pages_in slabs.new.items) page []
        ≡ slice_index_or (pages_in slabs.old.items) page [] }
{
    if slabs.is_empty() {
        add_vacant(slabs, alloc);
    }
}

/// The place of the lowest slab that is idle.
pub fn idle_at<K: Kind>(slabs: &[Slab<K>]) -> Option<usize>
    ensures within { IfSome result (λ i. i < length slabs.now) }
    ensures had { IfSome result (λ i. 0 < length (slice_index_or (pages_in slabs.now) i [])) }
    ensures idle { IfSome result (λ i. outs_in (slice_index_or (pages_in slabs.now) i []) ≡ 0) }
    ensures lowest { IfSome result (λ i. AllWithin IsBusy slabs.now 0 i) }
    ensures none { IfNone result (All IsBusy slabs.now) }
{
    for (i, slab) in slabs.iter().enumerate() {
        if slab.is_idle() {
            return Some(i);
        }
    }
    None
}

/// Takes a number out of a list that has it.
pub fn take_number(numbers: &mut Vec<u32>, number: u32)
    requires { 0 < times number numbers.old.items }
    ensures each { (x : ℕ) → times x numbers.new.items + (if number == x then 1 else 0) ≡ times x numbers.old.items }
    ensures count { length numbers.new.items + 1 ≡ length numbers.old.items }
    ensures capacity { vec_capacity numbers.new ≡ vec_capacity numbers.old }
{
    for i in 0..numbers.len() {
        if numbers[i] == number {
            numbers.remove(i);
            return;
        }
    }
}
