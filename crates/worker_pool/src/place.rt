//! Reports, counted by their workers, and those of each bundle in its place.
//!
//! *The reason.* Memory that is touched for the first time takes most of a short job's time, and what is done after all workers is done
//! by one thread. So a report stays where its worker wrote it, and only the list of a bundle's reports is moved.

ghost use Rattle.std.specs.Prelude.{◌≡◌, ◌≢◌, ◌≤◌, ◌<◌, ℕ, [], All, length, map, min, replicate, slice_set, vec_len, vec_capacity};
ghost use Rattle.ebpf_machine.specs.declared.report.Report.{Report};
ghost use Rattle.worker_pool.specs.Numbering.{times_of};
ghost use Rattle.worker_pool.specs.Places.{AreBlank, AreTheirsPlaced, IsThere, bundles_of, counted, weight, weight_in};

use crate::answered::{Answered, Bundle};
use job_list::JobReport;
use std::alloc::Global;
use std::mem;

/// Tells how many reports each worker made, in a list that has room for as many numbers.
pub(crate) fn count_all(answered: &[Answered], counts: &mut Vec<u64>)
    requires none { counts.old.items ≡ [] }
    requires room { length answered.now ≤ vec_capacity counts.old }
    ensures { counts.new.items ≡ map (λ a. counted a.bundles.items) answered.now }
{
    for one in answered {
        counts.push_reserved(count(&one.bundles));
    }
}

// How many reports bundles have, as far as there are numbers for it.
fn count(bundles: &[Bundle]) -> u64
    ensures { result ≡ counted bundles.now }
{
    let mut count = 0u64;
    for bundle in bundles {
        count = count.saturating_add(bundle.reports.len() as u64);
    }
    count
}

/// The reports of n bundles, by the bundles' numbers.
pub(crate) fn gather(
    alloc: Global,
    count: usize,
    places: Vec<Vec<JobReport>>,
    answered: Vec<Answered>,
) -> Vec<Vec<JobReport>>
    requires none { places.items ≡ [] }
    requires room { count ≤ vec_capacity places }
    requires inside { All (λ b. b.number < count) (bundles_of answered.items) }
    requires once { (x : ℕ) → x < count → times_of x (bundles_of answered.items) ≡ 1 }
    ensures len { vec_len result ≡ count }
    ensures there { (x : ℕ) → x < count → IsThere (bundles_of answered.items) result.items x }
    ensures weighed { (h : Report → ℕ) → weight h result.items ≡ weight_in h (bundles_of answered.items) }
{
    let mut places = places;
    make_places(alloc, count, &mut places);
    place_all(&mut places, answered);
    places
}

// Makes n empty places, for which there is memory.
fn make_places(alloc: Global, count: usize, places: &mut Vec<Vec<JobReport>>)
    requires none { places.old.items ≡ [] }
    requires room { count ≤ vec_capacity places.old }
    ensures { AreBlank count places.new.items }
{
    for _place in 0..count {
        places.push_reserved(Vec::new(alloc));
    }
}

// Puts all bundles in their places.
fn place_all(places: &mut Vec<Vec<JobReport>>, answered: Vec<Answered>)
    requires blank { AreBlank (vec_len places.old) places.old.items }
    requires inside { All (λ b. b.number < vec_len places.old) (bundles_of answered.items) }
    requires once { (x : ℕ) → x < vec_len places.old → times_of x (bundles_of answered.items) ≡ 1 }
    ensures len { vec_len places.new ≡ vec_len places.old }
    ensures there { (x : ℕ) → x < vec_len places.old → IsThere (bundles_of answered.items) places.new.items x }
    ensures weighed { (h : Report → ℕ) → weight h places.new.items ≡ weight_in h (bundles_of answered.items) }
{
    let mut answered = answered;
    while let Some(one) = answered.pop() {
        place(places, one.bundles);
    }
}

// Puts the bundles of one worker in their places.
fn place(places: &mut Vec<Vec<JobReport>>, bundles: Vec<Bundle>)
    requires { All (λ b. b.number < vec_len places.old) bundles.items }
    ensures len { vec_len places.new ≡ vec_len places.old }
    ensures placed { AreTheirsPlaced (vec_len places.old) bundles.items places.old.items places.new.items }
{
    let mut bundles = bundles;
    while let Some(Bundle { number, reports }) = bundles.pop() {
        put(places, number as usize, reports);
    }
}

// Puts the reports of a bundle in its place, where there are none.
fn put(places: &mut Vec<Vec<JobReport>>, number: usize, reports: Vec<JobReport>)
    requires { number < vec_len places.old }
    ensures { places.new.items ≡ slice_set places.old.items number reports }
{
    let _none = mem::replace(&mut places[number], reports);
}
