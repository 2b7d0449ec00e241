//! Where the slots of the ledgers are.

ghost use Rattle.std.specs.Prelude.{◌≡◌, ℕ, IfSome, IsSome, option_copied};
ghost use Rattle.ebpf_core.specs.Places.{place_at, is_home_of, IsLendable, lent_by, place_lent, place_returned, place_set, place_exchanged};

use crate::event::Answer;
use ebpf_shelves::object::Object;
use std::collections::BTreeMap;
use std::mem;

/// Where a slot of a ledger is.
#[derive(Drop)]
pub enum Place {
    /// Nobody's, with its object.
    Home(Object),
    /// With a run, by the call at this slot of its program. The run has the object.
    Held { run: usize, at: u16 },
    /// On a shelf, which has the object.
    Shelved { shelf: u8 },
}

/// The object of the slot that is answered, where one is: it is with this run from now on. No memory is taken.
pub(crate) fn lend(
    places: &mut BTreeMap<u32, Place>,
    answer: Answer,
    run: usize,
    at: u16,
) -> Option<Object>
    requires home { IsLendable answer places.old.entries }
    ensures object { result ≡ lent_by answer places.old.entries }
    ensures places { (q : ℕ) → place_at places.new.entries q ≡ place_lent answer run at places.old.entries q }
{
    let Answer::Slot(slot) = answer else {
        return None;
    };
    let Some(place) = places.get_mut(&slot) else {
        unreachable!()
    };
    let Place::Home(object) = mem::replace(place, Place::Held { run, at }) else {
        unreachable!()
    };
    Some(object)
}

/// An object that a run freed is at home again. No memory is taken.
pub(crate) fn put(places: &mut BTreeMap<u32, Place>, freed: Option<Object>)
    requires known { IfSome freed (λ o. IsSome (place_at places.old.entries o.slot)) }
    ensures places { (q : ℕ) → place_at places.new.entries q ≡ place_returned freed places.old.entries q }
{
    let Some(object) = freed else {
        return;
    };
    let Some(place) = places.get_mut(&object.slot) else {
        unreachable!()
    };
    *place = Place::Home(object);
}

/// What was on the shelf that an instruction reached is with this run from now on, and what it put there is there. No memory is
/// taken.
pub(crate) fn exchange(
    places: &mut BTreeMap<u32, Place>,
    reached: Option<u8>,
    stood: Option<u32>,
    stands: Option<u32>,
    run: usize,
    at: u16,
)
    requires stood { IfSome stood (λ s. IsSome (place_at places.old.entries s)) }
    requires stands { IfSome stands (λ s. IsSome (place_at places.old.entries s)) }
    ensures places { (q : ℕ) → place_at places.new.entries q ≡ place_exchanged reached stood stands run at places.old.entries q }
{
    let Some(shelf) = reached else {
        return;
    };
    set(places, stood, Place::Held { run, at });
    set(places, stands, Place::Shelved { shelf });
}

// The slot, if it is one, is at this place.
fn set(places: &mut BTreeMap<u32, Place>, slot: Option<u32>, place: Place)
    requires known { IfSome slot (λ s. IsSome (place_at places.old.entries s)) }
    ensures places { (q : ℕ) → place_at places.new.entries q ≡ place_set place slot places.old.entries q }
{
    let Some(slot) = slot else {
        return;
    };
    let Some(old) = places.get_mut(&slot) else {
        unreachable!()
    };
    *old = place;
}

/// Whether a slot at this place is home, and of this kind.
pub(crate) fn is_home_of(place: Option<&Place>, kind: u8) -> bool
    ensures { result ≡ is_home_of (option_copied place.entry) kind }
{
    match place {
        Some(Place::Home(object)) => object.kind == kind,
        _ => false,
    }
}
