//! What slabs counted when they were ended.

ghost use Rattle.std.specs.Prelude.{◌≡◌, ◌+◌, ◌<◌, ◌^◌};
ghost use Rattle.slab_layer.specs.Slots.{out_count};

use slab_layer::{Kind, Slabs};

/// How many slots of slabs were out when they were ended, and how many strangers had come home to them. Only the end of slabs makes it,
/// so no other numbers are reported.
#[derive(Clone, Copy)]
pub struct Remains {
    missing: u64,
    foreign: u64,
}

impl Remains {
    /// No slabs.
    pub fn none() -> Remains
        ensures { (result.missing ≡ 0) × (result.foreign ≡ 0) }
    {
        Remains {
            missing: 0,
            foreign: 0,
        }
    }

    /// Ends slabs, with the objects that are home.
    pub fn of<K: Kind>(slabs: Slabs<K>, foreign: u64) -> Remains
        ensures missing { result.missing ≡ out_count slabs }
        ensures foreign { result.foreign ≡ foreign }
        ensures few { result.missing < 2 ^ 32 }
    {
        let missing = u64::from(slabs.out());
        slabs.end();
        Remains { missing, foreign }
    }

    /// What these slabs and others counted.
    pub fn add(self, other: Remains) -> Remains
        requires room { (self.missing + other.missing < 2 ^ 64) × (self.foreign + other.foreign < 2 ^ 64) }
        ensures missing { result.missing ≡ self.missing + other.missing }
        ensures foreign { result.foreign ≡ self.foreign + other.foreign }
    {
        Remains {
            missing: self.missing + other.missing,
            foreign: self.foreign + other.foreign,
        }
    }

    /// How many slots were out.
    pub fn missing(self) -> u64
        ensures { result ≡ self.missing }
    {
        self.missing
    }

    /// How many strangers had come home.
    pub fn foreign(self) -> u64
        ensures { result ≡ self.foreign }
    {
        self.foreign
    }
}
