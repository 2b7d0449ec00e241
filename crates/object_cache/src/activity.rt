//! How much the depot and the slabs of a cache had to do, and how often a shelf was missed, for whoever looks after them.
//!
//! *The reason.* A hand that works as it should asks its layer, and only now and then the depot; the depot makes a magazine or the
//! slabs get a page while the load grows, and not later. These counts show where that is not so. They are counted where it is done,
//! under the lock that is held there anyway, and stop at the greatest number. No clause but those here speaks of them.

ghost use Rattle.std.specs.Prelude.{◌≡◌, false};

/// What the depot of a cache did.
#[derive(Clone, Copy)]
pub struct DepotCounts {
    /// How often a magazine of a hand was exchanged for one of the depot.
    pub exchanges: u64,
    /// How many magazines were made for it, beside the two that each hand begins with.
    pub magazines: u64,
}

impl DepotCounts {
    /// Nothing was done.
    pub(crate) fn none() -> DepotCounts
        ensures { (result.exchanges ≡ 0) × (result.magazines ≡ 0) }
    {
        DepotCounts {
            exchanges: 0,
            magazines: 0,
        }
    }

    /// One exchange more.
    pub(crate) fn exchange(&mut self) {
        self.exchanges = self.exchanges.saturating_add(1);
    }

    /// One magazine more.
    pub(crate) fn make(&mut self) {
        self.magazines = self.magazines.saturating_add(1);
    }

    /// What another part of the depot did as well.
    pub(crate) fn add(&mut self, other: DepotCounts) {
        self.exchanges = self.exchanges.saturating_add(other.exchanges);
        self.magazines = self.magazines.saturating_add(other.magazines);
    }
}

/// Which pages of the arena the slabs of a cache had.
#[derive(Clone, Copy)]
pub struct PageCounts {
    /// How many they took.
    pub taken: u64,
    /// How many passes of the reaper gave back, before the cache was closed.
    pub reaped: u64,
    /// The most that they had at one time.
    pub most: u64,
}

impl PageCounts {
    /// There was none.
    pub(crate) fn none() -> PageCounts
        ensures { (result.taken ≡ 0) × (result.reaped ≡ 0) × (result.most ≡ 0) }
    {
        PageCounts {
            taken: 0,
            reaped: 0,
            most: 0,
        }
    }

    /// One page more is had.
    pub(crate) fn take(&mut self) {
        self.taken = self.taken.saturating_add(1);
        self.most = self.most.max(self.taken.saturating_sub(self.reaped));
    }

    /// A pass of the reaper gave n pages back.
    pub(crate) fn reap(&mut self, pages: u32) {
        self.reaped = self.reaped.saturating_add(u64::from(pages));
    }
}

/// How often a shelf was found empty that had been filled before.
#[derive(Clone, Copy)]
pub(crate) struct Misses {
    // An object was put there.
    filled: bool,
    count: u64,
}

impl Misses {
    /// Nothing was put there.
    pub(crate) fn none() -> Misses
        ensures { (result.filled ≡ false) × (result.count ≡ 0) }
    {
        Misses {
            filled: false,
            count: 0,
        }
    }

    /// One exchange more: whether an object was given, and whether one was got.
    pub(crate) fn exchange(&mut self, given: bool, got: bool) {
        if self.filled && !got {
            self.count = self.count.saturating_add(1);
        }
        self.filled = self.filled || given;
    }

    /// How often it was.
    pub(crate) fn count(self) -> u64
        ensures { result ≡ self.count }
    {
        self.count
    }
}
