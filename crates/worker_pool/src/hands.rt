//! What a worker takes, leaves and owns with, and the hands of one kind that no worker has.

ghost use Rattle.std.specs.Prelude.{IfOk};
ghost use Rattle.worker_pool.specs.Hands.{IsNone, HasNone, HasHand, HasPlace, IsOneMore};

use crate::each_kind::Hands;
use crate::ledgers::{Gets, Ins, Names, Outs, Puts};
use object_cache::{Hand, ShelfHand};
use owners_table::owners::OwnerSeat;
use slab_layer::Kind;
use std::alloc::{AllocError, Global};

/// The two hands of one kind: at its cache and at its shelf.
pub struct HandPair<K: Kind, L: Names> {
    pub(crate) hand: Hand<K, Outs<K, L>, Ins<K, L>>,
    pub(crate) shelf_hand: ShelfHand<Puts<K, L>, Gets<K, L>>,
}

/// What a worker works with: its hands and its seat at the table of owners, with its counts.
pub(crate) struct Tools<L: Names> {
    pub(crate) hands: Hands<L>,
    pub(crate) seat: OwnerSeat,
    /// How many objects went back since their slots had an owner.
    pub(crate) clashes: u64,
    /// How many objects that came off a shelf went back since the table had their slots as another's.
    pub(crate) strays: u64,
}

/// Pairs of hands of one kind that no worker has.
pub(crate) struct FreePairs<K: Kind, L: Names> {
    pub(crate) hands: Vec<Hand<K, Outs<K, L>, Ins<K, L>>>,
    pub(crate) shelf_hands: Vec<ShelfHand<Puts<K, L>, Gets<K, L>>>,
}

impl<K: Kind, L: Names> FreePairs<K, L> {
    /// No pair, and room for `count`.
    pub(crate) fn new(alloc: Global, count: usize) -> Result<FreePairs<K, L>, AllocError>
        ensures { IfOk result (IsNone count) }
    {
        let hands = Vec::with_capacity(alloc, count)?;
        let Ok(shelf_hands) = Vec::with_capacity(alloc, count) else {
            hands.destroy_empty();
            return Err(AllocError);
        };
        Ok(FreePairs { hands, shelf_hands })
    }

    /// Ends a list that has no pair.
    pub(crate) fn destroy_empty(self)
        requires { HasNone self }
    {
        let FreePairs { hands, shelf_hands } = self;
        hands.destroy_empty();
        shelf_hands.destroy_empty();
    }

    /// The last pair.
    pub(crate) fn take_last(&mut self) -> HandPair<K, L>
        requires { HasHand self.old }
        ensures { IsOneMore self.new self.old result }
    {
        HandPair {
            hand: self.hands.take_last(),
            shelf_hand: self.shelf_hands.take_last(),
        }
    }

    /// Puts a pair after the others, for which there is room.
    pub(crate) fn push_reserved(&mut self, pair: HandPair<K, L>)
        requires { HasPlace self.old }
        ensures { IsOneMore self.old self.new pair }
    {
        let HandPair { hand, shelf_hand } = pair;
        self.hands.push_reserved(hand);
        self.shelf_hands.push_reserved(shelf_hand);
    }
}
