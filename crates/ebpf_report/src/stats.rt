//! What the caches and the workers did while jobs were done.

ghost use Rattle.std.specs.Prelude.{◌≡◌, All, sum_by};
ghost use Rattle.worker_pool.specs.Outcomes.{IsEvenTotal};

use ebpf_state::kinds::KINDS;
use object_cache::Totals;

/// What is said of an outcome beside its text. What adds up does so by its type: each cache got back what it gave, and the jobs
/// that the workers did are all that there were.
#[derive(Drop)]
pub struct Stats {
    /// What each cache did, in the order of the kinds' numbers.
    pub totals: [Totals; KINDS],
    /// How many objects went back to their cache since their slot had an owner.
    pub clashes: u64,
    /// How many objects that came off a shelf went back to their cache since the table had their slots as another's.
    pub strays: u64,
    /// How many calls of `swap` got nothing from a shelf that had been filled before.
    pub misses: u128,
    /// How many jobs there were.
    pub jobs: usize,
    /// How many of them each worker did.
    pub jobs_done: Vec<u64>,
    /// How many instructions they did together.
    pub steps: u128,
    ghost even: { All IsEvenTotal totals },
    ghost done: { sum_by (λ n. n) jobs_done.items ≡ jobs },
}
