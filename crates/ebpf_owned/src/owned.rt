//! An object whose slot a seat holds.
//!
//! *The idea.* Who takes an object from a cache is to find its slot free, and who gets one off a shelf is to find its slot the shelf's.
//! So a run's object goes back only after its slot was released, and onto a shelf only after its slot was passed to the shelf. Here that
//! order is one of types: an object of a run is an [`Owned`], and caches and shelves take only bare objects. [`Owned::claim`] and
//! [`Owned::fetch`] make an `Owned` of a bare object, and [`Owned::release`] and [`Owned::shelve`] a bare object of an `Owned`.
//!
//! *The reason.* The field is private to this file, so there is no other way from the one to the other.

ghost use Rattle.std.specs.Prelude.{◌≡◌, ◌≢◌, ◌+◌, ◌<◌, ◌≤◌, ◌∷◌, ◌++◌, [], Some, length, IfOk, OnOk, IfErr, OnErr};
ghost use Rattle.owners_table.specs.Marking.{mark_word};
ghost use Rattle.owners_table.specs.Owning.{Holds, without};
ghost use Rattle.owners_table.specs.declared.mark.TheConstants.{SHELVES};
ghost use Rattle.owners_table.specs.declared.owners.TheConstants.{ARENA_SLOTS};
ghost use Rattle.ebpf_owned.specs.Claims.{HasFound, IsClaimed, IsStray, lost, shelved_by};
ghost use Rattle.ebpf_object.specs.Object.{bytes_of, kind_of, slot_of};
ghost use Rattle.slab_layer.specs.Images.{patched};

use ebpf_object::Object;
use owners_table::mark::Mark;
use owners_table::owners::{OwnerSeat, Owners};
use std::marker::Model;

/// An object of a run. It must be spent, and can't be dropped. Contracts see the object.
pub struct Owned {
    object: Object,
}

impl Model for Owned {
    ghost use Rattle.ebpf_object.specs.declared.object.Object.{Object};

    ghost Value = { Object };

    ghost view = { λ o. o.object };
}

impl Owned {
    /// Claims the slot of an object for the mark.
    ///
    /// # Errors
    /// The object as it was, if its slot has an owner. The seat notes the owner that was found.
    pub fn claim(
        object: Object,
        owners: &Owners,
        seat: &mut OwnerSeat,
        mark: Mark,
    ) -> Result<Owned, Object>
        requires slots { ARENA_SLOTS ≤ owners.now.slots }
        requires seated { seat.old.table ≡ owners.now.table }
        ensures object { IfOk result (λ o. o ≡ object) }
        ensures claimed { OnOk result (IsClaimed (slot_of object) (mark_word mark.run mark.at) seat.old.held seat.new.held) }
        ensures free { OnOk result (seat.new.notes ≡ seat.old.notes ++ (slot_of object, 0) ∷ []) }
        ensures none_lost { OnOk result (lost seat.new.notes ≡ lost seat.old.notes) }
        ensures back { IfErr result (λ o. o ≡ object) }
        ensures kept { OnErr result (seat.new.held ≡ seat.old.held) }
        ensures taken { OnErr result (HasFound (slot_of object) seat.old.notes seat.new.notes) }
        ensures one_lost { OnErr result (lost seat.new.notes ≡ lost seat.old.notes + 1) }
        ensures notes { (length seat.new.notes ≡ length seat.old.notes + 1) × (seat.new.fetches ≡ seat.old.fetches) }
        ensures table { seat.new.table ≡ seat.old.table }
        ensures rest { (seat.new.tries ≡ seat.old.tries + 1) × (seat.new.shelved ≡ seat.old.shelved) × (seat.new.got ≡ seat.old.got) }
    {
        let Err(_) = owners.claim(seat, slot(&object), mark) else {
            return Ok(Owned { object });
        };
        Err(object)
    }

    /// Releases the slot, and then returns the object.
    pub fn release(self, owners: &Owners, seat: &mut OwnerSeat) -> Object
        requires slots { ARENA_SLOTS ≤ owners.now.slots }
        requires seated { seat.old.table ≡ owners.now.table }
        requires held { Holds (slot_of self) seat.old.held }
        ensures object { result ≡ self }
        ensures seat { seat.new ≡ record seat.old { held = without (slot_of self) seat.old.held } }
    {
        let Owned { object } = self;
        owners.release(seat, slot(&object));
        object
    }

    /// Passes the slot to the shelf of this number, which is that of the object's kind, and then returns the object.
    pub fn shelve(self, owners: &Owners, seat: &mut OwnerSeat, shelf: u8) -> Object
        requires slots { ARENA_SLOTS ≤ owners.now.slots }
        requires seated { seat.old.table ≡ owners.now.table }
        requires held { Holds (slot_of self) seat.old.held }
        requires shelf { shelf < SHELVES }
        requires kind { kind_of self ≡ shelf }
        ensures object { result ≡ self }
        ensures seat { seat.new ≡ shelved_by seat.old (slot_of self) shelf }
    {
        let Owned { object } = self;
        owners.shelve(seat, slot(&object), shelf);
        object
    }

    /// Fetches the slot of an object that came off the shelf of this number, that of its kind, for the mark. What was `left` on the
    /// shelf for it, if anything, was in that slot.
    ///
    /// # Errors
    /// The object as it was, if the table has its slot as another's. So too if what was left was in this slot, since then one of the
    /// two isn't what its slot says; the slot is free then.
    pub fn fetch(
        object: Object,
        owners: &Owners,
        seat: &mut OwnerSeat,
        shelf: u8,
        left: Option<u32>,
        mark: Mark,
    ) -> Result<Owned, Object>
        requires slots { ARENA_SLOTS ≤ owners.now.slots }
        requires seated { seat.old.table ≡ owners.now.table }
        requires shelf { shelf < SHELVES }
        requires kind { kind_of object ≡ shelf }
        ensures object { IfOk result (λ o. o ≡ object) }
        ensures fetched { OnOk result (IsClaimed (slot_of object) (mark_word mark.run mark.at) seat.old.held seat.new.held) }
        ensures apart { OnOk result (left ≢ Some (slot_of object)) }
        ensures noted { OnOk result (seat.new.fetches ≡ seat.old.fetches ++ (slot_of object, shelf + 1) ∷ []) }
        ensures got { OnOk result (seat.new.got ≡ (slot_of object, shelf + 1) ∷ seat.old.got) }
        ensures back { IfErr result (λ o. o ≡ object) }
        ensures kept { OnErr result (seat.new.held ≡ seat.old.held) }
        ensures due { OnErr result (IsStray shelf left (slot_of object) seat.old.fetches seat.new.fetches) }
        ensures none_got { OnErr result (left ≢ Some (slot_of object) → seat.new.got ≡ seat.old.got) }
        ensures notes { (seat.new.notes ≡ seat.old.notes) × (length seat.new.fetches ≡ length seat.old.fetches + 1) }
        ensures table { seat.new.table ≡ seat.old.table }
        ensures rest { (seat.new.tries ≡ seat.old.tries + 1) × (seat.new.shelved ≡ seat.old.shelved) }
    {
        let slot = slot(&object);
        let Ok(()) = owners.fetch(seat, slot, shelf, mark) else {
            return Err(object);
        };
        if left == Some(slot) {
            owners.release(seat, slot);
            return Err(object);
        }
        Ok(Owned { object })
    }

    /// Its slot.
    pub fn slot(&self) -> u32
        ensures { result ≡ slot_of self.now }
    {
        slot(&self.object)
    }

    /// Its bytes.
    pub fn bytes(&self) -> &[u8]
        ensures { result.now ≡ bytes_of self.now }
    {
        self.object.bytes()
    }

    /// Writes these bytes over those from `place` on.
    pub fn write(&mut self, place: usize, with: &[u8])
        requires { place + length with.now ≤ length (bytes_of self.old) }
        ensures kind { kind_of self.new ≡ kind_of self.old }
        ensures slot { slot_of self.new ≡ slot_of self.old }
        ensures bytes { bytes_of self.new ≡ patched (bytes_of self.old) place with.now }
    {
        self.object.write(place, with);
    }
}

// The slot of an object, which the table has.
fn slot(object: &Object) -> u32
    ensures is { result ≡ slot_of object.now }
    ensures below { result < ARENA_SLOTS }
{
    match object {
        Object::Cell(object) => object.slot(),
        Object::Record(object) => object.slot(),
        Object::Block(object) => object.slot(),
    }
}
