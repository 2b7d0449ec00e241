//! Hands: what one thread takes objects with, and gives them back.
//!
//! *The idea* (Bonwick and Adams 2001, section 3.1). Each thread has a layer of its own, from which it takes and to which it gives
//! without asking anybody. What the layer can't do the rack does, which goes to the places of the cache.
//!
//! *The invariant.* What the hand's pass gained and the frees are what it lost, the allocs, and the objects that the hand has. What is
//! lent and what lies aside together are few enough to lie aside.
//!
//! *The reason.* So an object that comes back finds room, whatever other hands have. And when all passes are together again, the
//! counts of all hands can be compared with what is out of the slabs.

ghost use Rattle.std.specs.Prelude.{◌≡◌, ◌⊎◌, ◌↔◌, ◌+◌, ◌<◌, ◌≤◌, ◌^◌, [], ◌∷◌, ◌++◌, length, replicate};
ghost use Rattle.std.specs.Prelude.{IsTrue, false, IfOk, OnOk, IfErr, OnErr, MatchResult, IsPermutation};
ghost use Rattle.magazine.specs.LayerView.{rounds_of, IsEmpty, IsFull};
ghost use Rattle.shared_row.specs.Views.{IsIdleAt, fresh_pass};
ghost use Rattle.shared_cache.specs.Asking.{AllAsked, Found, FoundBusy, FoundFree, Moves};
ghost use Rattle.shared_cache.specs.Faults.{InSlabs};
ghost use Rattle.shared_cache.specs.HandView.{Counted, GivesRound, HasNone, HasRoom, HasRound, IsLaden, IsRelieved, IsSpent, LiesAside, TakesAside, TakesRound};
ghost use Rattle.shared_cache.specs.HandView.{adopts, fresh_hand, gets_back, lends, objects, passes_on, refuses};
ghost use Rattle.shared_cache.specs.declared.count.TheConstants.{MOST, MOST_LENT};
ghost use Rattle.shared_cache.specs.declared.fault.TakeFault.TheVariants.{Busy, Full};

use crate::arena::{ArenaPass, SharedArena};
use crate::cache::Cache;
use crate::count::{MOST, MOST_LENT, count_up};
use crate::fault::TakeFault;
use crate::place::PlacePass;
use crate::rack::Rack;
use crate::soon::PAUSES;
use crate::sums::Sums;
use slab_layer::{Held, Kind, Obj};
use std::alloc::{AllocError, Global};
use std::marker::Model;
use std::sync::Wait;

/// What a thread takes objects of a cache with. One that is dropped takes the objects with it that it has, and then the cache can't be
/// closed any more.
#[derive(Drop)]
pub struct Hand<K: Kind> {
    rack: Rack<K>,
    pub(crate) pass: PlacePass<K>,
    // No two counts that one call changes are neighbours: the compiler would load both at once, and wait for the store to one of them.
    allocs: u64,
    adopted: u64,
    frees: u64,
    passed: u64,
    busy: u64,
    lent: u64,
    nulls: u64,
    // It keeps hands that lie one after another off one pair of lines of the processor's cache.
    apart: [u64; 16],
}

impl<K: Kind> Model for Hand<K> {
    ghost use Rattle.std.specs.Prelude.{map, vec_capacity};
    ghost use Rattle.shared_cache.specs.HandView.{HandView, IsHand};

    ghost Value = { HandView };

    ghost view = { λ h. record {
      table = h.pass.table;
      layer = h.rack.layer;
      aside = map (λ o. o.slot) h.rack.aside.items;
      counts = record { allocs = h.allocs; frees = h.frees; adopted = h.adopted; passed = h.passed; lent = h.lent; nulls = h.nulls; busy = h.busy };
      notes = h.pass.notes;
    } };

    ghost invariant = { λ h. IsHand (record {
      table = h.pass.table;
      layer = h.rack.layer;
      aside = map (λ o. o.slot) h.rack.aside.items;
      counts = record { allocs = h.allocs; frees = h.frees; adopted = h.adopted; passed = h.passed; lent = h.lent; nulls = h.nulls; busy = h.busy };
      notes = h.pass.notes;
    })
        h.pass (vec_capacity h.rack.aside) };
}

impl<K: Kind> Hand<K> {
    /// A hand with no object, whose home has this number.
    pub(crate) fn new(alloc: Global, home: usize, pass: PlacePass<K>) -> Result<Hand<K>, AllocError>
        requires { pass ≡ fresh_pass pass.table }
        ensures { IfOk result (λ h. h ≡ fresh_hand pass.table) }
    {
        Ok(Hand {
            rack: Rack::new(alloc, home)?,
            pass,
            allocs: 0,
            frees: 0,
            adopted: 0,
            passed: 0,
            lent: 0,
            nulls: 0,
            busy: 0,
            apart: [0; 16],
        })
    }

    // Counts a refusal, and is it.
    fn refuse(&mut self, fault: TakeFault) -> Result<Obj<K, Held>, TakeFault>
        ensures is { result ≡ Err fault }
        ensures counts { self.new.counts ≡ refuses fault self.old.counts }
        ensures rest { (self.new.table ≡ self.old.table) × (self.new.layer ≡ self.old.layer)
            × (self.new.aside ≡ self.old.aside) × (self.new.notes ≡ self.old.notes) }
    {
        match fault {
            TakeFault::Busy => count_up(&mut self.busy),
            TakeFault::NoSpan | TakeFault::NoMemory | TakeFault::Full => count_up(&mut self.nulls),
        }
        Err(fault)
    }

    /// Takes an object, with its image: a round of this hand; else one that lies aside; else one of a full magazine of a depot that is
    /// free, which this hand then has; else one of the slabs, which grow by a page of the arena where none is home. It waits for
    /// nobody: where another hand has the slabs or the arena it pauses so often, each time longer, and then gives up.
    ///
    /// # Errors
    /// [`TakeFault`] says why. Nothing was taken, which is counted.
    #[inline(always)]
    pub fn take(
        &mut self,
        cache: &Cache<K>,
        arena: &SharedArena,
        pages: &mut ArenaPass,
        pauses: u32,
    ) -> Result<Obj<K, Held>, TakeFault>
        requires hand { self.old.table ≡ cache.now.table }
        requires pages { IsIdleAt arena.now.table pages.old }
        ensures table { self.new.table ≡ self.old.table }
        ensures pages { Moves pages.old pages.new 0 0 }
        ensures counts { MatchResult result (λ _. self.new.counts ≡ lends self.old.counts) (λ fault. self.new.counts ≡ refuses fault self.old.counts) }
        ensures few { OnOk result (self.new.counts.allocs ≤ 2 ^ 56) }
        ensures image { IfOk result (λ object. object.bytes.value.items ≡ replicate K.SIZE K.FILL) }

        // A round of this hand goes before all else, and then what lies aside: no place is asked for these.
        ensures round { IfOk result (λ object. HasRound self.old.layer → TakesRound self.old self.new object.slot) }
        ensures aside { IfOk result (λ object. IsEmpty self.old.layer → 0 < length self.old.aside → TakesAside self.old self.new object.slot) }

        // What a depot has goes before an object of the slabs.
        ensures order { IfOk result (λ _. HasNone self.old → FoundFree self.old.notes self.new.notes cache.now.hands
            ⊎ AllAsked self.old.notes self.new.notes cache.now.hands) }

        // What it may lend is out, or it has none, and each place was asked.
        ensures full { result ≡ Err Full ↔ IsSpent self.old }
        ensures none { OnErr result ((self.new.layer ≡ self.old.layer) × (self.new.aside ≡ self.old.aside)) }
        ensures why { IfErr result (λ fault. (fault ≡ Full) ⊎ (HasNone self.old × AllAsked self.old.notes self.new.notes cache.now.hands
            × InSlabs fault cache.now.hands self.old.notes self.new.notes pages.old.notes pages.new.notes)) }
    {
        match self.attempt(cache, arena, pages, pauses) {
            Ok(object) => Ok(object),
            Err(fault) => self.refuse(fault),
        }
    }

    // The same, where a refusal isn't counted.
    #[inline(always)]
    fn attempt(
        &mut self,
        cache: &Cache<K>,
        arena: &SharedArena,
        pages: &mut ArenaPass,
        pauses: u32,
    ) -> Result<Obj<K, Held>, TakeFault>
        requires hand { self.old.table ≡ cache.now.table }
        requires pages { IsIdleAt arena.now.table pages.old }
        ensures table { self.new.table ≡ self.old.table }
        ensures pages { Moves pages.old pages.new 0 0 }
        ensures counts { MatchResult result (λ _. self.new.counts ≡ lends self.old.counts) (λ _. self.new.counts ≡ self.old.counts) }
        ensures few { OnOk result (self.new.counts.allocs ≤ 2 ^ 56) }
        ensures image { IfOk result (λ object. object.bytes.value.items ≡ replicate K.SIZE K.FILL) }
        ensures round { IfOk result (λ object. HasRound self.old.layer → TakesRound self.old self.new object.slot) }
        ensures aside { IfOk result (λ object. IsEmpty self.old.layer → 0 < length self.old.aside → TakesAside self.old self.new object.slot) }
        ensures order { IfOk result (λ _. HasNone self.old → FoundFree self.old.notes self.new.notes cache.now.hands
            ⊎ AllAsked self.old.notes self.new.notes cache.now.hands) }
        ensures full { result ≡ Err Full ↔ IsSpent self.old }
        ensures none { OnErr result ((self.new.layer ≡ self.old.layer) × (self.new.aside ≡ self.old.aside)) }
        ensures why { IfErr result (λ fault. (fault ≡ Full) ⊎ (HasNone self.old × AllAsked self.old.notes self.new.notes cache.now.hands
            × InSlabs fault cache.now.hands self.old.notes self.new.notes pages.old.notes pages.new.notes)) }
    {
        if self.allocs >= MOST || self.lent + self.rack.aside.len() as u64 >= MOST_LENT {
            return Err(TakeFault::Full);
        }
        if let Some(object) = self.rack.layer.try_take() {
            self.allocs += 1;
            self.lent += 1;
            return Ok(object.hold());
        }
        let (row, pass) = (&cache.row, &mut self.pass);
        let object = self.rack.find(row, pass, arena, pages, pauses)?;
        self.allocs += 1;
        self.lent += 1;
        Ok(object.hold())
    }

    /// Takes an object as [`Hand::take`] does, but never gives up because another hand has the slabs or the arena: it waits for them.
    ///
    /// # Errors
    /// [`TakeFault`] says why, and it is not `Busy`. Nothing was taken, which is counted.
    pub fn take_waiting<R: Wait>(
        &mut self,
        rt: &R,
        cache: &Cache<K>,
        arena: &SharedArena,
        pages: &mut ArenaPass,
    ) -> Result<Obj<K, Held>, TakeFault>
        requires hand { self.old.table ≡ cache.now.table }
        requires pages { IsIdleAt arena.now.table pages.old }
        ensures table { self.new.table ≡ self.old.table }
        ensures pages { Moves pages.old pages.new 0 0 }
        ensures counts { MatchResult result (λ _. self.new.counts ≡ lends self.old.counts) (λ fault. self.new.counts ≡ refuses fault self.old.counts) }
        ensures image { IfOk result (λ object. object.bytes.value.items ≡ replicate K.SIZE K.FILL) }
        ensures round { IfOk result (λ object. HasRound self.old.layer → TakesRound self.old self.new object.slot) }
        ensures aside { IfOk result (λ object. IsEmpty self.old.layer → 0 < length self.old.aside → TakesAside self.old self.new object.slot) }
        ensures full { result ≡ Err Full ↔ IsSpent self.old }
        ensures waits { result ≡ Err Busy → ⊥ }
        ensures none { OnErr result ((self.new.layer ≡ self.old.layer) × (self.new.aside ≡ self.old.aside)) }
    {
        for _ in rt.forever() {
            match self.attempt(cache, arena, pages, PAUSES) {
                Ok(object) => return Ok(object),
                Err(TakeFault::Busy) => {}
                Err(fault) => return self.refuse(fault),
            }
        }
        unreachable!()
    }

    /// Takes an object back that was lent, with its image restored: into this hand's layer; where that has no room, a magazine of a
    /// depot that is free makes some, or a new one; else it lies aside. It can't fail, and waits for nobody.
    #[inline(always)]
    pub fn give(&mut self, cache: &Cache<K>, object: Obj<K, Held>)
        requires hand { self.old.table ≡ cache.now.table }
        requires lent { 0 < self.old.counts.lent }
        ensures table { self.new.table ≡ self.old.table }
        ensures counts { self.new.counts ≡ gets_back self.old.counts }
        ensures room { HasRoom K.ROUNDS self.old.layer → GivesRound self.old self.new object.slot }

        // Where there is no room, the object is the one round of an empty magazine, or each depot was asked for one.
        ensures full { IsFull K.ROUNDS self.old.layer → IsRelieved self.old self.new object.slot
            ⊎ (LiesAside self.old self.new object.slot × AllAsked self.old.notes self.new.notes cache.now.hands) }
    {
        let Err(back) = self.rack.layer.try_give(object.restore()) else {
            self.frees += 1;
            self.lent -= 1;
            return;
        };
        self.rack.keep(&cache.row, &mut self.pass, back);
        self.frees += 1;
        self.lent -= 1;
    }

    /// Takes over an object that another hand of this cache lent: from now on it is this hand's to give back. False if there is no room
    /// aside for one more; then nothing changed.
    pub fn adopt(&mut self) -> bool
        ensures adopted { IsTrue result → Counted self.old self.new (adopts self.old.counts) }
        ensures same { result ≡ false → self.new ≡ self.old }
        ensures laden { (result ≡ false) ↔ IsLaden self.old }
        ensures few { self.new.counts.adopted ≤ 2 ^ 56 }
    {
        if !self.can_adopt() {
            return false;
        }
        self.adopted += 1;
        self.lent += 1;
        true
    }

    /// Whether there is room to take over an object.
    pub fn can_adopt(&self) -> bool
        ensures { (result ≡ false) ↔ IsLaden self.now }
    {
        let aside = self.rack.aside.len() as u64;
        self.adopted < MOST && self.lent + aside < MOST_LENT
    }

    /// Leaves an object that this hand lent to whoever takes it over: it is no longer this hand's to give back.
    pub fn pass_on(&mut self)
        requires lent { 0 < self.old.counts.lent }
        ensures { Counted self.old self.new (passes_on self.old.counts) }
    {
        self.passed += 1;
        self.lent -= 1;
    }

    /// Sends all objects that this hand has home to the slabs. False where some stay: another hand has the slabs, also after as many
    /// pauses.
    pub fn flush(&mut self, cache: &Cache<K>, pauses: u32) -> bool
        requires hand { self.old.table ≡ cache.now.table }
        ensures table { self.new.table ≡ self.old.table }
        ensures counts { self.new.counts ≡ self.old.counts }
        ensures all { IsTrue result → HasNone self.new }
        ensures why { (FoundBusy self.old.notes self.new.notes cache.now.hands × (self.new.layer ≡ self.old.layer) × (self.new.aside ≡ self.old.aside))
            ⊎ Found self.old.notes self.new.notes cache.now.hands 0 }
    {
        self.rack.send_home(&cache.row, &mut self.pass, pauses)
    }

    /// What the hand has, its pass, and what it did.
    pub(crate) fn end(self) -> (Rack<K>, PlacePass<K>, Sums)
        ensures pass { (result.1.table ≡ self.table) × (result.1.out ≡ []) × (result.1.parts ≡ 1) }
        ensures sums { result.2 ≡ record { allocs = self.counts.allocs; frees = self.counts.frees; nulls = self.counts.nulls; busy = self.counts.busy } }
        ensures few { (result.2.allocs ≤ 2 ^ 56) × (result.2.frees ≤ 2 ^ 57) × (result.2.nulls ≤ 2 ^ 56) × (result.2.busy ≤ 2 ^ 56) }
        ensures even { result.1.right + result.2.frees ≡ result.1.left + result.2.allocs + objects result.0.layer result.0.aside.items }
    {
        let Hand {
            rack,
            pass,
            allocs,
            frees,
            adopted: _,
            passed: _,
            lent: _,
            nulls,
            busy,
            apart: _,
        } = self;
        let sums = Sums {
            allocs,
            frees,
            nulls,
            busy,
        };
        (rack, pass, sums)
    }
}
