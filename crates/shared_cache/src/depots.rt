//! The depots of a cache, asked one after another.
//!
//! *The order.* A hand asks the depot of its own place first, its home, and then the others. A place that another hand has is passed
//! over.
//!
//! *The reason.* What may be done only where no depot has a magazine to give is done after each of them was asked: the notes of the
//! pass say so.

ghost use Rattle.std.specs.Prelude.{◌≡◌, ℕ, ◌+◌, ◌-◌, ◌<◌, ◌∷◌, ◌++◌, [], length, false, IsTrue};
ghost use Rattle.magazine.specs.LayerView.{rounds_of, IsEmpty, IsFull};
ghost use Rattle.shared_cache.specs.Asking.{AllAsked, FoundFree, IsTurn, Moves};

use crate::place::{PlacePass, Places};
use magazine::Layer;
use slab_layer::Kind;

// The place that is asked in a step.
fn turn(first: usize, places: usize, step: usize) -> usize
    requires { (first < places) × (step < places) }
    ensures { IsTurn first places step result }
{
    if step < places - first {
        first + step
    } else {
        step - (places - first)
    }
}

// Gives a full magazine of a place to a layer that has no round. False where there is none, or another hand has the place.
fn refill_at<K: Kind>(
    row: &Places<K>,
    pass: &mut PlacePass<K>,
    layer: &mut Layer<K>,
    place: usize,
) -> bool
    requires table { pass.old.table ≡ row.now.table }
    requires place { place < row.now.places }
    requires idle { pass.old.out ≡ [] }
    requires empty { IsEmpty layer.old }
    ensures moves { Moves pass.old pass.new (length (rounds_of layer.new)) (length (rounds_of layer.old)) }
    ensures asked { (word : ℕ) × (pass.new.notes ≡ pass.old.notes ++ (place, word) ∷ []) }
    ensures loaded { IsTrue result → (length layer.new.loaded ≡ K.ROUNDS) × (layer.new.previous ≡ []) }
    ensures found { IsTrue result → pass.new.notes ≡ pass.old.notes ++ (place, 0) ∷ [] }
    ensures same { result ≡ false → layer.new ≡ layer.old }
{
    let Some(mut held) = row.take(pass, place) else {
        return false;
    };
    let is_done = held.refill(layer);
    row.put(pass, place, held);
    is_done
}

// Gives an empty magazine of a place to a layer that has no room, or a new one. False where there is no memory, or another hand has the
// place.
fn relieve_at<K: Kind>(
    row: &Places<K>,
    pass: &mut PlacePass<K>,
    layer: &mut Layer<K>,
    place: usize,
) -> bool
    requires table { pass.old.table ≡ row.now.table }
    requires place { place < row.now.places }
    requires idle { pass.old.out ≡ [] }
    requires full { IsFull K.ROUNDS layer.old }
    ensures moves { Moves pass.old pass.new (length (rounds_of layer.new)) (length (rounds_of layer.old)) }
    ensures asked { (word : ℕ) × (pass.new.notes ≡ pass.old.notes ++ (place, word) ∷ []) }
    ensures made { IsTrue result → layer.new ≡ record { loaded = []; previous = layer.old.loaded } }
    ensures same { result ≡ false → layer.new ≡ layer.old }
{
    let Some(mut held) = row.take(pass, place) else {
        return false;
    };
    let is_done = held.relieve(layer);
    row.put(pass, place, held);
    is_done
}

/// Gives a full magazine of any depot that is free to a layer that has no round, the first depot's before all. False only where each
/// depot was asked.
pub fn refill_anywhere<K: Kind>(
    row: &Places<K>,
    pass: &mut PlacePass<K>,
    layer: &mut Layer<K>,
    first: usize,
) -> bool
    requires table { pass.old.table ≡ row.now.table }
    requires first { first + 1 < row.now.places }
    requires idle { pass.old.out ≡ [] }
    requires empty { IsEmpty layer.old }
    ensures moves { Moves pass.old pass.new (length (rounds_of layer.new)) (length (rounds_of layer.old)) }
    ensures loaded { IsTrue result → (length layer.new.loaded ≡ K.ROUNDS) × (layer.new.previous ≡ []) }
    ensures found { IsTrue result → FoundFree pass.old.notes pass.new.notes (row.now.places - 1) }
    ensures same { result ≡ false → layer.new ≡ layer.old }
    ensures asked { result ≡ false → AllAsked pass.old.notes pass.new.notes (row.now.places - 1) }
{
    let depots = row.places() - 1;
    for step in 0..depots {
        if refill_at(row, pass, layer, turn(first, depots, step)) {
            return true;
        }
    }
    false
}

/// Gives an empty magazine of any depot that is free to a layer that has no room, or a new one, the first depot's before all. False only
/// where each depot was asked.
pub fn relieve_anywhere<K: Kind>(
    row: &Places<K>,
    pass: &mut PlacePass<K>,
    layer: &mut Layer<K>,
    first: usize,
) -> bool
    requires table { pass.old.table ≡ row.now.table }
    requires first { first + 1 < row.now.places }
    requires idle { pass.old.out ≡ [] }
    requires full { IsFull K.ROUNDS layer.old }
    ensures moves { Moves pass.old pass.new (length (rounds_of layer.new)) (length (rounds_of layer.old)) }
    ensures made { IsTrue result → layer.new ≡ record { loaded = []; previous = layer.old.loaded } }
    ensures same { result ≡ false → layer.new ≡ layer.old }
    ensures asked { result ≡ false → AllAsked pass.old.notes pass.new.notes (row.now.places - 1) }
{
    let depots = row.places() - 1;
    for step in 0..depots {
        if relieve_at(row, pass, layer, turn(first, depots, step)) {
            return true;
        }
    }
    false
}
