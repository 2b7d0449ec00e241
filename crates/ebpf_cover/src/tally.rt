//! A tally of the stretches that runs of a program did.
//!
//! *The idea.* A stretch is instructions that lead to the slot after them and nowhere else, and the one after them: so it is known by
//! the slot at which it begins. Each adds one to the count of that slot, however long it is, and the counts of the other slots are
//! summed up once, at the end.

ghost use Rattle.std.specs.Prelude.{◌≡◌, ℕ, ◌+◌, ◌<◌, ◌==◌, cond, length, get_or, IfOk, OnOk};
ghost use Rattle.ebpf_cover.specs.Covered.{AreLong, executed_at, taken_at};
ghost use Rattle.ebpf_cover.specs.Stretches.{IsNoted, IsTally, IsWide, begun_at, executed_so_far, slots_in, taken_so_far};

use crate::counts::Counts;
use crate::straight::straight_in;
use ebpf_verify::verified::Verified;
use std::alloc::{AllocError, Global};

/// For each slot of a program: how many instructions from there on go straight on, how often a stretch began there, and how
/// often one ended there and did not go on to the next slot.
#[derive(Drop)]
pub(crate) struct Tally {
    straight: Vec<u16>,
    begun: Vec<u64>,
    taken: Vec<u64>,
}

impl Tally {
    /// A tally of nothing. It fails only where an allocation fails.
    pub(crate) fn none(alloc: Global, verified: &Verified) -> Result<Tally, AllocError>
        ensures tally { IfOk result (IsTally verified.now.program) }
        ensures begun { IfOk result (λ t. (slot : ℕ) → begun_at t slot ≡ 0) }
        ensures taken { IfOk result (λ t. (slot : ℕ) → taken_so_far t slot ≡ 0) }
    {
        let slots = verified.program().slots();
        Ok(Tally {
            straight: straight_in(alloc, verified)?,
            begun: vec![in alloc; 0; slots]?,
            taken: vec![in alloc; 0; slots]?,
        })
    }

    /// How many instructions from a slot on lead to the slot after them and nowhere else.
    pub(crate) fn straight_from(&self, slot: usize) -> usize
        requires inside { slot < slots_in self.now }
        requires wide { IsWide self.now }
        ensures value { result ≡ get_or self.now.straight.items slot 0 }
        ensures inside { slot + result < slots_in self.now }
    {
        self.straight[slot] as usize
    }

    /// Counts a stretch, from one slot to another, and the slot at which the run is after it. It fails only where a count would not fit
    /// 64 bits.
    pub(crate) fn note(&mut self, first: usize, last: usize, next: usize) -> Result<(), AllocError>
        requires wide { IsWide self.old }
        requires first { first < slots_in self.old }
        requires last { last < slots_in self.old }
        ensures noted { OnOk result (IsNoted first last next self.old self.new) }
        ensures wide { IsWide self.new }
        ensures straight { self.new.straight.items ≡ self.old.straight.items }
    {
        add_one(&mut self.begun, first)?;
        if next != last + 1 {
            add_one(&mut self.taken, last)?;
        }
        Ok(())
    }

    /// The counts that the stretches come to. It fails only if an allocation fails, or a count would not fit 64 bits.
    pub(crate) fn counts(&self, alloc: Global, verified: &Verified) -> Result<Counts, AllocError>
        requires { IsTally verified.now.program self.now }
        ensures long { IfOk result (AreLong verified.now.program) }
        ensures executed { IfOk result (λ c. (slot : ℕ) → executed_at c slot ≡ executed_so_far verified.now.program self.now slot) }
        ensures taken { IfOk result (λ c. (slot : ℕ) → taken_at c slot ≡ taken_so_far self.now slot) }
    {
        let taken = Vec::from_slice(alloc, &self.taken)?;
        let mut executed = Vec::from_slice(alloc, &self.begun)?;
        'slots: for slot in 1..self.straight.len() {
            if self.straight[slot - 1] > 0 {
                let before = executed[slot - 1];
                add(&mut executed, slot, before)?;
            }
        }
        Ok(Counts { executed, taken })
    }
}

// Adds one to a count. It fails only where the sum would not fit 64 bits.
fn add_one(counts: &mut Vec<u64>, at: usize) -> Result<(), AllocError>
    requires { at < length counts.old.items }
    ensures long { length counts.new.items ≡ length counts.old.items }
    ensures added { OnOk result ((slot : ℕ) → get_or counts.new.items slot 0 ≡ get_or counts.old.items slot 0 + cond (at == slot) 1 0) }
{
    add(counts, at, 1)
}

// Adds a number to a count. It fails only where the sum would not fit 64 bits.
#[inline(always)]
fn add(counts: &mut Vec<u64>, at: usize, number: u64) -> Result<(), AllocError>
    requires { at < length counts.old.items }
    ensures long { length counts.new.items ≡ length counts.old.items }
    ensures added { OnOk result ((slot : ℕ) → get_or counts.new.items slot 0 ≡ get_or counts.old.items slot 0 + cond (at == slot) number 0) }
{
    let Some(sum) = counts[at].checked_add(number) else {
        return Err(AllocError);
    };
    counts[at] = sum;
    Ok(())
}
