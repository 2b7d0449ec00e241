//! The client of all caches that a worker is.
//!
//! It claims and fetches the slots of its objects for the job that it does, and counts those that it can't have.

ghost use Rattle.std.specs.Prelude.{◌≡◌, ◌≢◌, ◌≤◌, ◌<◌, ◌+◌, ◌^◌, [], Some, length, option_map, IfOk, OnOk, IfErr, OnErr};
ghost use Rattle.owners_table.specs.Marking.{mark_word};
ghost use Rattle.owners_table.specs.Owning.{Holds, without};
ghost use Rattle.owners_table.specs.declared.mark.TheConstants.{SHELVES, WORDS_OF_A_RUN};
ghost use Rattle.owners_table.specs.declared.owners.TheConstants.{ARENA_SLOTS};
ghost use Rattle.ebpf_object.specs.Object.{kind_of, slot_of};
ghost use Rattle.ebpf_owned.specs.Claims.{IsClaimed, IsStray, Once, lost};
ghost use Rattle.ebpf_owned.specs.Exchanges.{IsSwappable, less};

use crate::count::count;
use ebpf_object::Object;
use ebpf_owned::{Owned, shelved};
use object_cache::ArenaLock;
use owners_table::mark::Mark;
use owners_table::owners::{OwnerSeat, Owners};
use std::sync::Wait;

/// What a worker needs to take objects of any kind, and to claim their slots for the job that it does.
///
/// The seat has each slot once at most. Each clash that is counted is a claim that it noted, which found an owner.
pub struct Client<'a, R: Wait> {
    pub(crate) rt: &'a R,
    pub(crate) arena: &'a ArenaLock,
    pub(crate) owners: &'a Owners,
    pub(crate) seat: OwnerSeat,
    /// The number of the job that is being done.
    pub(crate) job: u32,
    /// How many objects went back since their slots had an owner.
    pub(crate) clashes: u64,
    /// How many objects that came off a shelf went back since the table had their slots as another's.
    pub(crate) strays: u64,
    ghost slots: { ARENA_SLOTS ≤ owners.now.slots },
    ghost seated: { seat.table ≡ owners.now.table },
    ghost once: { Once seat.held },
    ghost few: { (clashes ≤ 2 ^ 56) × (strays ≤ 2 ^ 56) },
    ghost clashed: { clashes ≤ lost seat.notes },
}

impl<'a, R: Wait> Client<'a, R> {
    /// A client with a seat that holds nothing, before its first job.
    pub(crate) fn new(
        rt: &'a R,
        arena: &'a ArenaLock,
        owners: &'a Owners,
        seat: OwnerSeat,
    ) -> Client<'a, R>
        requires slots { ARENA_SLOTS ≤ owners.now.slots }
        requires seated { seat.table ≡ owners.now.table }
        requires empty { seat.held ≡ [] }
        ensures seat { result.seat ≡ seat }
        ensures none { (result.clashes ≡ 0) × (result.strays ≡ 0) }
    {
        Client {
            rt,
            arena,
            owners,
            seat,
            job: 0,
            clashes: 0,
            strays: 0,
        }
    }

    /// The seat, back, and how many clashes and strays there were.
    pub(crate) fn end(self) -> (OwnerSeat, u64, u64)
        ensures parts { result ≡ (self.entry.seat, self.entry.clashes, self.entry.strays) }
        ensures few { (result.1 ≤ 2 ^ 56) × (result.2 ≤ 2 ^ 56) }
    {
        let Client {
            rt: _,
            arena: _,
            owners: _,
            seat,
            job: _,
            clashes,
            strays,
        } = self;
        (seat, clashes, strays)
    }

    /// Claims the slot of an object for the client's job and for the call at this slot of its program.
    ///
    /// # Errors
    /// The object as it was, if its slot has an owner. That is counted as a clash.
    pub(crate) fn claim(&mut self, object: Object, at: u16) -> Result<Owned, Object>
        requires at { at < WORDS_OF_A_RUN }
        ensures object { IfOk result (λ o. o ≡ object) }
        ensures claimed { OnOk result (IsClaimed (slot_of object) (mark_word self.old.job at) self.old.seat.held self.new.seat.held) }
        ensures no_clash { OnOk result (self.new.clashes ≡ self.old.clashes) }
        ensures back { IfErr result (λ o. o ≡ object) }
        ensures clash { OnErr result ((self.new.seat.held ≡ self.old.seat.held) × (self.new.clashes ≡ self.old.clashes + 1)) }
        ensures notes { (length self.new.seat.notes ≡ length self.old.seat.notes + 1) × (self.new.seat.fetches ≡ self.old.seat.fetches) }
        ensures lost { lost self.new.seat.notes + self.old.clashes ≡ lost self.old.seat.notes + self.new.clashes }
        ensures table { self.new.seat.table ≡ self.old.seat.table }
        ensures rest { (self.new.strays ≡ self.old.strays) × (self.new.job ≡ self.old.job) }
    {
        let mark = Mark { run: self.job, at };
        match Owned::claim(object, self.owners, &mut self.seat, mark) {
            Ok(owned) => Ok(owned),
            Err(object) => {
                count(self.rt, &mut self.clashes);
                Err(object)
            }
        }
    }

    /// Releases the slot, and then returns the object.
    #[inline(always)]
    pub(crate) fn release(&mut self, owned: Owned) -> Object
        requires held { Holds (slot_of owned) self.old.seat.held }
        ensures object { result ≡ owned }
        ensures seat { self.new.seat ≡ record self.old.seat { held = without (slot_of owned) self.old.seat.held } }
        ensures rest { (self.new.clashes ≡ self.old.clashes) × (self.new.strays ≡ self.old.strays) × (self.new.job ≡ self.old.job) }
    {
        owned.release(self.owners, &mut self.seat)
    }

    /// Passes the slot of an object to the shelf of this number, if there is one, and then returns the object.
    pub(crate) fn shelved(&mut self, given: Option<Owned>, shelf: u8) -> Option<Object>
        requires given { IsSwappable given shelf self.old.seat.held }
        requires shelf { shelf < SHELVES }
        ensures same { result ≡ given }
        ensures held { self.new.seat.held ≡ less (option_map slot_of given) self.old.seat.held }
        ensures notes { (self.new.seat.notes ≡ self.old.seat.notes) × (self.new.seat.fetches ≡ self.old.seat.fetches) }
        ensures table { self.new.seat.table ≡ self.old.seat.table }
        ensures rest { (self.new.clashes ≡ self.old.clashes) × (self.new.strays ≡ self.old.strays) × (self.new.job ≡ self.old.job) }
    {
        shelved(given, self.owners, &mut self.seat, shelf)
    }

    /// Fetches the slot of an object that came off the shelf of this number, that of its kind, for the client's job and for the call at
    /// this slot of its program.
    ///
    /// # Errors
    /// The object as it was, if the table has its slot as another's. So too if what was left on the shelf for it was in this slot, since
    /// then one of the two isn't what its slot says. That is counted as a stray.
    pub(crate) fn fetch(
        &mut self,
        object: Object,
        shelf: u8,
        left: Option<u32>,
        at: u16,
    ) -> Result<Owned, Object>
        requires shelf { shelf < SHELVES }
        requires kind { kind_of object ≡ shelf }
        requires at { at < WORDS_OF_A_RUN }
        ensures object { IfOk result (λ o. o ≡ object) }
        ensures fetched { OnOk result (IsClaimed (slot_of object) (mark_word self.old.job at) self.old.seat.held self.new.seat.held) }
        ensures apart { OnOk result (left ≢ Some (slot_of object)) }
        ensures no_stray { OnOk result (self.new.strays ≡ self.old.strays) }
        ensures back { IfErr result (λ o. o ≡ object) }
        ensures due { OnErr result (IsStray shelf left (slot_of object) self.old.seat.fetches self.new.seat.fetches) }
        ensures stray { OnErr result ((self.new.seat.held ≡ self.old.seat.held) × (self.new.strays ≡ self.old.strays + 1)) }
        ensures notes { (self.new.seat.notes ≡ self.old.seat.notes) × (length self.new.seat.fetches ≡ length self.old.seat.fetches + 1) }
        ensures table { self.new.seat.table ≡ self.old.seat.table }
        ensures rest { (self.new.clashes ≡ self.old.clashes) × (self.new.job ≡ self.old.job) }
    {
        let mark = Mark { run: self.job, at };
        match Owned::fetch(object, self.owners, &mut self.seat, shelf, left, mark) {
            Ok(owned) => Ok(owned),
            Err(object) => {
                count(self.rt, &mut self.strays);
                Err(object)
            }
        }
    }
}
