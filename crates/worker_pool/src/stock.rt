//! The hands of one kind, with the cache and the shelf that made them.

ghost use Rattle.std.specs.Prelude.{◌≡◌, ◌≤◌, ◌^◌, replicate, IfSome, IfNone};
ghost use Rattle.object_cache.specs.ShelfView.{one_if};
ghost use Rattle.worker_pool.specs.Hands.{unused_pair};
ghost use Rattle.worker_pool.specs.Moves.{Moved};

use crate::hands::HandPair;
use crate::ledgers::Names;
use crate::supply::Supply;
use object_cache::ArenaLock;
use slab_layer::{Held, Kind, Obj};
use std::sync::Wait;

/// What a worker takes objects of one kind from, and leaves them on for others.
pub struct Stock<'a, K: Kind, L: Names> {
    pub(crate) supply: &'a Supply<K, L>,
    pub(crate) pair: HandPair<K, L>,
    ghost few: { (pair.hand.frees ≤ 2 ^ 56) × (pair.shelf_hand.puts ≤ 2 ^ 56) },
}

impl<'a, K: Kind, L: Names> Stock<'a, K, L> {
    /// A stock of hands that gave nothing away yet.
    pub(crate) fn new(supply: &'a Supply<K, L>, pair: HandPair<K, L>) -> Stock<'a, K, L>
        requires { pair ≡ unused_pair }
        ensures { result.pair ≡ pair }
    {
        Stock { supply, pair }
    }

    /// The hands, back.
    pub(crate) fn end(self) -> HandPair<K, L>
        ensures { result ≡ self.entry.pair }
    {
        let Stock { supply: _, pair } = self;
        pair
    }

    /// Takes an object. None where the cache has none.
    pub(crate) fn take<R: Wait>(&mut self, rt: &R, arena: &ArenaLock) -> Option<Obj<K, Held>>
        ensures image { IfSome result (λ o. o.bytes.value.items ≡ replicate K.SIZE K.FILL) }
        ensures taken { IfSome result (λ _. Moved 1 0 0 0 0 self.old.pair self.new.pair) }
        ensures refused { IfNone result (Moved 0 0 1 0 0 self.old.pair self.new.pair) }
    {
        match self.pair.hand.take(rt, &self.supply.cache, arena) {
            Ok(object) => Some(object),
            Err(_) => None,
        }
    }

    /// Gives an object back.
    #[inline(always)]
    pub(crate) fn give<R: Wait>(&mut self, rt: &R, object: Obj<K, Held>)
        ensures { Moved 0 1 0 0 0 self.old.pair self.new.pair }
    {
        self.pair.hand.give(rt, &self.supply.cache, object);
    }

    /// Exchanges what is given, if anything, for what is on the shelf.
    pub(crate) fn swap<R: Wait>(
        &mut self,
        rt: &R,
        given: Option<Obj<K, Held>>,
    ) -> Option<Obj<K, Held>>
        ensures { Moved 0 0 0 (one_if given) (one_if result) self.old.pair self.new.pair }
    {
        self.supply.shelf.swap(rt, &mut self.pair.shelf_hand, given)
    }
}
