//! The end of a cache, step by step.
//!
//! *The order.* All hands are taken apart, which gives all passes of the row; so the row can be closed, which gives its places. Then the
//! rounds of depots and racks go home, and what is out after that is missing.
//!
//! *The reason.* The passes together weigh what the places weigh, and each hand knows what its own pass weighs. So each step keeps one
//! equation, of which the last form is that of the totals. It bounds each count too: no more strangers can come home than slots are out.

ghost use Rattle.std.specs.Prelude.{◌≡◌, ◌+◌, ◌*◌, ◌<◌, ◌≤◌, ◌^◌, [], length, vec_len, vec_capacity, sum_by, All};
ghost use Rattle.slab_layer.specs.Slots.{out_count};
ghost use Rattle.shared_row.specs.Views.{IsIdleAt};
ghost use Rattle.shared_cache.specs.HandView.{objects};
ghost use Rattle.shared_cache.specs.PlaceView.{ins, outs};
ghost use Rattle.shared_cache.specs.Last.{one_if};
ghost use Rattle.shared_cache.specs.declared.count.TheConstants.{MAX_HANDS};

use crate::hand::Hand;
use crate::place::{Place, PlacePass, Places};
use crate::rack::Rack;
use crate::sums::Sums;
use homing::{Remains, go_home, unload};
use magazine::Depot;
use slab_layer::{Held, Kind, Obj, Slabs};

/// Takes hands apart, into lists that have room for what they are.
pub fn parted<K: Kind>(
    row: &Places<K>,
    mut hands: Vec<Hand<K>>,
    mut passes: Vec<PlacePass<K>>,
    mut racks: Vec<Rack<K>>,
) -> (Vec<PlacePass<K>>, Vec<Rack<K>>, Sums)
    requires table { All (λ h. h.table ≡ row.now.table) hands.items }
    requires few { vec_len hands ≤ MAX_HANDS }
    requires none { (passes.items ≡ []) × (racks.items ≡ []) }
    requires room { (vec_len hands ≤ vec_capacity passes) × (vec_len hands ≤ vec_capacity racks) }
    ensures passes { All (IsIdleAt row.now.table) result.0.items × (vec_len result.0 ≡ vec_len hands) }
    ensures parts { sum_by (λ p. p.parts) result.0.items ≡ vec_len hands }
    ensures allocs { result.2.allocs ≡ sum_by (λ h. h.counts.allocs) hands.items }
    ensures frees { result.2.frees ≡ sum_by (λ h. h.counts.frees) hands.items }
    ensures nulls { result.2.nulls ≡ sum_by (λ h. h.counts.nulls) hands.items }
    ensures busy { result.2.busy ≡ sum_by (λ h. h.counts.busy) hands.items }
    ensures even { sum_by (λ p. p.right) result.0.items + result.2.frees ≡
        sum_by (λ p. p.left) result.0.items + result.2.allocs + sum_by (λ r. objects r.layer r.aside.items) result.1.items }
    ensures few { (result.2.frees ≤ MAX_HANDS * 2 ^ 57) × (result.2.allocs ≤ MAX_HANDS * 2 ^ 56) }
{
    let mut sums = Sums::none();
    while let Some(hand) = hands.pop() {
        let (rack, pass, counts) = hand.end();
        passes.push_reserved(pass);
        racks.push_reserved(rack);
        sums = sums.add(counts);
    }
    hands.destroy_empty();
    (passes, racks, sums)
}

/// How many slots are out of the slabs of all places.
pub fn out_of<K: Kind>(places: &[Box<Place<K>>]) -> u64
    requires { length places.now ≤ MAX_HANDS + 1 }
    ensures counted { result ≡ sum_by (λ b. outs b.value) places.now }
    ensures few { result ≤ (MAX_HANDS + 1) * 2 ^ 32 }
{
    let mut out = 0;
    for place in places {
        out += u64::from(place.out());
    }
    out
}

// Sends the rounds of a depot home, and ends it.
fn take_in<K: Kind>(slabs: &mut Slabs<K>, foreign: &mut u64, mut depot: Depot<K>)
    requires room { foreign.old + length depot.rounds < 2 ^ 64 }
    ensures counted { out_count slabs.new + foreign.old + length depot.rounds ≡ out_count slabs.old + foreign.new }
    ensures few { foreign.new ≤ foreign.old + length depot.rounds }
{
    while let Some(magazine) = depot.drain_full() {
        unload(slabs, foreign, magazine);
    }
    depot.end();
}

/// The slabs of the last place, after the rounds of all depots came home; how many strangers came there; and what the other slabs, which
/// have no page, counted.
pub fn gathered<K: Kind>(mut places: Vec<Box<Place<K>>>) -> (Slabs<K>, u64, Remains)
    requires some { 0 < vec_len places }
    requires few { vec_len places ≤ MAX_HANDS + 1 }
    requires room { sum_by (λ b. ins b.value) places.items < 2 ^ 64 }
    ensures counted { out_count result.0 + result.2.missing + sum_by (λ b. ins b.value) places.items ≡
        sum_by (λ b. outs b.value) places.items + result.1 + result.2.foreign }
    ensures few { result.1 + result.2.foreign ≤ sum_by (λ b. ins b.value) places.items }
    ensures missing { result.2.missing ≤ (MAX_HANDS + 1) * 2 ^ 32 }
{
    let Some(last) = places.pop() else {
        unreachable!()
    };
    let (depot, mut slabs, mut foreign) = Box::into_inner(last).end();
    take_in(&mut slabs, &mut foreign, depot);
    let mut others = Remains::none();
    while let Some(place) = places.pop() {
        let (depot, rest, strangers) = Box::into_inner(place).end();
        take_in(&mut slabs, &mut foreign, depot);
        others = others.add(Remains::of(rest, strangers));
    }
    places.destroy_empty();
    (slabs, foreign, others)
}

/// Sends the objects of racks home.
pub fn emptied<K: Kind>(mut racks: Vec<Rack<K>>, slabs: &mut Slabs<K>, foreign: &mut u64)
    requires room { foreign.old + sum_by (λ r. objects r.layer r.aside.items) racks.items < 2 ^ 64 }
    ensures counted { out_count slabs.new + foreign.old + sum_by (λ r. objects r.layer r.aside.items) racks.items ≡ out_count slabs.old + foreign.new }
    ensures few { foreign.new ≤ foreign.old + sum_by (λ r. objects r.layer r.aside.items) racks.items }
{
    while let Some(rack) = racks.pop() {
        rack.end(slabs, foreign);
    }
    racks.destroy_empty();
}

/// Sends an object home that no hand has, if there is one, with its image restored. The answer is how many there were.
pub fn sent_home<K: Kind>(
    slabs: &mut Slabs<K>,
    foreign: &mut u64,
    last: Option<Obj<K, Held>>,
) -> u64
    requires room { foreign.old + 1 < 2 ^ 64 }
    ensures counted { out_count slabs.new + foreign.old + one_if last ≡ out_count slabs.old + foreign.new }
    ensures one { result ≡ one_if last }
{
    match last {
        Some(object) => {
            go_home(slabs, foreign, object.restore());
            1
        }
        None => 0,
    }
}
