//! The parts of a depot, asked one after another.
//!
//! *The reason.* What may be done only where no part has a magazine to give wants refusals. The parts alone make them, and the
//! functions here gather one for each part that they ask. So neither an object of the slabs nor a new magazine is got past the
//! depot.

ghost use Rattle.std.specs.Prelude.{◌≡◌, ◌+◌, ◌<◌, ◌≤◌, ◌^◌, [], length, IfErr, OnOk, OnErr};
ghost use Rattle.magazine.specs.LayerView.{rounds_of, IsEmpty, IsFull};
ghost use Rattle.object_cache.specs.CacheView.{AreHomes};

use crate::cache::Cache;
use crate::part::Refusals;
use magazine::Layer;
use slab_layer::Kind;
use std::sync::Wait;
use std::sync::ledger::{Ledger, Share};

/// Gives a full magazine of any part to a layer that has no round. The answer is the number of the part.
pub fn refill_anywhere<K: Kind, A: Ledger, B: Ledger, R: Wait>(
    rt: &R,
    cache: &Cache<K, A, B>,
    layer: &mut Layer<K>,
    share: &mut Share<A>,
) -> Result<usize, Refusals>
    requires empty { IsEmpty layer.old }
    requires part { 0 < share.old.parts }
    ensures parts { share.new.parts ≡ share.old.parts }
    ensures loaded { OnOk result ((length layer.new.loaded ≡ K.ROUNDS) × (layer.new.previous ≡ [])) }
    ensures amount { OnOk result (share.new.amount ≡ share.old.amount + K.ROUNDS) }
    ensures all { IfErr result (λ refusals. AreHomes cache.now.hands refusals.count) }
    ensures unchanged { OnErr result ((layer.new ≡ layer.old) × (share.new.amount ≡ share.old.amount)) }
{
    let homes = cache.homes();
    let mut refusals = Refusals::none();
    for (number, part) in homes.iter().enumerate() {
        match part.lock(rt).refill(layer, share) {
            Ok(()) => return Ok(number),
            Err(refusal) => refusals.add(refusal),
        }
    }
    Err(refusals)
}

/// Gives an empty magazine of any part to a layer that has no room.
pub fn relieve_anywhere<K: Kind, A: Ledger, B: Ledger, R: Wait>(
    rt: &R,
    cache: &Cache<K, A, B>,
    layer: &mut Layer<K>,
    share: &mut Share<A>,
) -> Result<(), Refusals>
    requires full { IsFull K.ROUNDS layer.old }
    requires part { 0 < share.old.parts }
    requires amount { K.ROUNDS ≤ share.old.amount }
    ensures parts { share.new.parts ≡ share.old.parts }
    ensures made { OnOk result (layer.new ≡ record { loaded = []; previous = layer.old.loaded }) }
    ensures amount { OnOk result (share.new.amount + K.ROUNDS ≡ share.old.amount) }
    ensures even { share.new.amount + length (rounds_of layer.old) ≡ share.old.amount + length (rounds_of layer.new) }
    ensures all { IfErr result (λ refusals. AreHomes cache.now.hands refusals.count) }
    ensures unchanged { OnErr result ((layer.new ≡ layer.old) × (share.new.amount ≡ share.old.amount)) }
{
    let homes = cache.homes();
    let mut refusals = Refusals::none();
    for part in homes {
        match part.lock(rt).relieve(layer, share) {
            Ok(()) => return Ok(()),
            Err(refusal) => refusals.add(refusal),
        }
    }
    Err(refusals)
}
