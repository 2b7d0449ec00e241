//! What hands counted, added up.

ghost use Rattle.std.specs.Prelude.{◌≡◌, ◌+◌, ◌<◌, ◌^◌};

/// How often hands were given an object, gave one back, and were refused one, apart from those times that only another was in the way.
#[derive(Clone, Copy)]
pub struct Sums {
    pub allocs: u64,
    pub frees: u64,
    pub nulls: u64,
    pub busy: u64,
}

impl Sums {
    /// No hand.
    pub fn none() -> Sums
        ensures { result ≡ record { allocs = 0; frees = 0; nulls = 0; busy = 0 } }
    {
        Sums {
            allocs: 0,
            frees: 0,
            nulls: 0,
            busy: 0,
        }
    }

    /// These hands and others.
    pub fn add(self, other: Sums) -> Sums
        requires { (self.allocs + other.allocs < 2 ^ 64) × (self.frees + other.frees < 2 ^ 64)
            × (self.nulls + other.nulls < 2 ^ 64) × (self.busy + other.busy < 2 ^ 64) }
        ensures { result ≡ record {
          allocs = self.allocs + other.allocs;
          frees = self.frees + other.frees;
          nulls = self.nulls + other.nulls;
          busy = self.busy + other.busy;
        } }
    {
        Sums {
            allocs: self.allocs + other.allocs,
            frees: self.frees + other.frees,
            nulls: self.nulls + other.nulls,
            busy: self.busy + other.busy,
        }
    }
}
