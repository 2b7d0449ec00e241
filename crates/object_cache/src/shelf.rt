//! Shelves, on which workers leave objects of a kind for one another.
//!
//! *The idea.* A shelf has room for one object. A worker brings one, or none, and takes what was there: one exchange under
//! the shelf's lock, by a hand of its own, so that no object is ever with two workers or with none.
//!
//! *The invariant.* Two books count what was put on the shelf and what was got from there. What was put is what was got, and
//! what is there.
//!
//! *The reason.* No clause names what a lock holds between two calls. But each exchange is entered in the books and in the shares
//! of them that the hand has, so when a shelf is closed with all its hands, what they count is what the books count.

ghost use Rattle.std.specs.Prelude.{◌≡◌, ◌+◌, ◌^◌, ◌<◌, ◌≤◌, vec_len, sum_by};
ghost use Rattle.object_cache.specs.ShelfView.{HasSpares, new_hand, one_if};
ghost use Rattle.object_cache.specs.declared.count.TheConstants.{MAX_HANDS, PARTS};

use crate::activity::Misses;
use crate::brief_lock::lock_briefly;
use crate::count::{MAX_HANDS, count};
use crate::spare::Spare;
use slab_layer::{Held, Kind, Obj};
use std::marker::Model;
use std::sync::ledger::{Blank, Book, Ledger, Share};
use std::sync::{Mutex, Wait};
use std::{array, mem};

/// What lies under the lock of a shelf: what is there, and the books, with a part of each that no hand has.
struct Board<K: Kind, A: Ledger, B: Ledger> {
    object: Option<Obj<K, Held>>,
    puts: Book<A>,
    gets: Book<B>,
    own: Spare<A, B>,
    misses: Misses,
    ghost even: { puts.total ≡ gets.total + one_if object },
}

impl<K: Kind, A: Ledger, B: Ledger> Board<K, A, B> {
    // What was there, for what is brought.
    fn swap(
        &mut self,
        puts: &mut Share<A>,
        gets: &mut Share<B>,
        given: Option<Obj<K, Held>>,
    ) -> Option<Obj<K, Held>>
        requires parts { (0 < puts.old.parts) × (0 < gets.old.parts) }
        ensures got { result ≡ self.old.object }
        ensures given { self.new.object ≡ given }
        ensures parts { (puts.new.parts ≡ puts.old.parts) × (gets.new.parts ≡ gets.old.parts) }
        ensures puts { puts.new.amount ≡ puts.old.amount + one_if given }
        ensures gets { gets.new.amount ≡ gets.old.amount + one_if result }
    {
        let Board {
            object,
            puts: put_book,
            gets: get_book,
            misses,
            ..
        } = self;
        let is_given = given.is_some();
        if is_given {
            put_book.add(puts, 1);
        }
        let got = mem::replace(object, given);
        let is_got = got.is_some();
        if is_got {
            get_book.add(gets, 1);
        }
        misses.exchange(is_given, is_got);
        got
    }
}

// The shares of all parts of the books with which no hand was made, where n hands were.
fn gathered<A: Ledger, B: Ledger>(
    own: Spare<A, B>,
    mut spares: [Option<Mutex<Spare<A, B>>>; MAX_HANDS as usize],
    hands: usize,
) -> (Share<A>, Share<B>)
    requires few { hands ≤ MAX_HANDS }
    requires spares { HasSpares hands spares }
    ensures parts { (result.0.parts + hands ≡ PARTS) × (result.1.parts + hands ≡ PARTS) }
    ensures unused { (result.0.amount ≡ 0) × (result.1.amount ≡ 0) }
{
    let (mut all_puts, mut all_gets) = own.end();
    for place in hands..MAX_HANDS as usize {
        let Some(spare) = spares[place].take() else {
            unreachable!()
        };
        let (puts, gets) = spare.into_inner().end();
        all_puts.merge(puts);
        all_gets.merge(gets);
    }
    (all_puts, all_gets)
}

/// What a shelf was left with, and how often an object was put there and got from there. It must be taken apart: what is
/// there is an object of a cache.
pub struct Left<K: Kind> {
    /// What is there.
    pub object: Option<Obj<K, Held>>,
    /// How often an object was put there.
    pub puts: u64,
    /// How often one was got.
    pub gets: u64,
    /// How often nothing was got, though an object had been put there before. It stops at the greatest number.
    pub misses: u64,
    pub ghost even: { puts ≡ gets + one_if object },
}

/// What a worker exchanges objects over a shelf with. It must be handed to `Shelf::close`. Its type says by the two ledgers
/// which shelf made it.
pub struct ShelfHand<A: Ledger, B: Ledger> {
    put_share: Share<A>,
    get_share: Share<B>,
    puts: u64,
    gets: u64,
}

impl<A: Ledger, B: Ledger> Model for ShelfHand<A, B> {
    ghost use Rattle.object_cache.specs.ShelfView.{ShelfHandView, IsShelfHand};

    ghost Value = { ShelfHandView };

    ghost view = { λ h. record { puts = h.puts; gets = h.gets } };

    ghost invariant = { λ h. IsShelfHand (record { puts = h.puts; gets = h.gets }) h.put_share.parts h.put_share.amount h.get_share.parts h.get_share.amount };
}

/// A shelf for one object of a kind, which all hands share. It must be closed.
pub struct Shelf<K: Kind, A: Ledger, B: Ledger> {
    // It keeps what all workers write here off the line of the processor's cache that ends before: they may read what is there.
    apart: [u64; 8],
    board: Mutex<Board<K, A, B>>,
    spares: [Option<Mutex<Spare<A, B>>>; MAX_HANDS as usize],
    hands: u64,
}

impl<K: Kind, A: Ledger, B: Ledger> Model for Shelf<K, A, B> {
    ghost use Rattle.std.specs.Prelude.{◌≤◌};
    ghost use Rattle.object_cache.specs.ShelfView.{ShelfView, HasSpares};
    ghost use Rattle.object_cache.specs.declared.count.TheConstants.{MAX_HANDS};

    ghost Value = { ShelfView };

    ghost view = { λ s. record { hands = s.hands } };

    ghost invariant = { λ s. (s.hands ≤ MAX_HANDS) × HasSpares s.hands s.spares };
}

impl<K: Kind, A: Ledger, B: Ledger> Shelf<K, A, B> {
    /// A shelf on which nothing is, for up to `MAX_HANDS` hands. The blanks become its two books: of what is put there, and of what
    /// is got. It takes no memory.
    pub fn new(puts: Blank, gets: Blank) -> Shelf<K, A, B>
        requires names { (puts.name ≡ A.name) × (gets.name ≡ B.name) }
        requires parts { (puts.parts ≡ A.parts) × (gets.parts ≡ B.parts) }
        requires all { (A.parts ≡ PARTS) × (B.parts ≡ PARTS) }
        ensures { result.hands ≡ 0 }
    {
        let (puts, mut put_rest) = puts.open::<A>();
        let (gets, mut get_rest) = gets.open::<B>();
        let mut spares = array::from_fn(|_| None);
        for place in 0..MAX_HANDS as usize {
            let spare = Spare::new(put_rest.split_off(1, 0), get_rest.split_off(1, 0));
            spares[place] = Some(Mutex::new(spare));
        }
        Shelf {
            apart: [0; 8],
            board: Mutex::new(Board {
                object: None,
                puts,
                gets,
                own: Spare::new(put_rest, get_rest),
                misses: Misses::none(),
            }),
            spares,
            hands: 0,
        }
    }

    /// Makes a hand, one of `MAX_HANDS` at most.
    pub fn hand(&mut self) -> ShelfHand<A, B>
        requires { self.old.hands < MAX_HANDS }
        ensures made { self.new.hands ≡ self.old.hands + 1 }
        ensures fresh { result ≡ new_hand }
    {
        let Some(spare) = self.spares[self.hands as usize].take() else {
            unreachable!()
        };
        self.hands += 1;
        let (put_share, get_share) = spare.into_inner().end();
        ShelfHand {
            put_share,
            get_share,
            puts: 0,
            gets: 0,
        }
    }

    /// Exchanges what is on the shelf for what is given, if anything; the answer is what was there. Both are as they were,
    /// with their bytes. It waits for the shelf's lock, and for ever past 2^56 calls. The shelf is the one that made the hand.
    pub fn swap<R: Wait>(
        &self,
        rt: &R,
        hand: &mut ShelfHand<A, B>,
        given: Option<Obj<K, Held>>,
    ) -> Option<Obj<K, Held>>
        ensures puts { hand.new.puts ≡ hand.old.puts + one_if given }
        ensures gets { hand.new.gets ≡ hand.old.gets + one_if result }
        ensures few { hand.new.puts ≤ 2 ^ 56 }
    {
        if given.is_some() {
            count(rt, &mut hand.puts);
        }
        let got = lock_briefly(rt, &self.board).swap(
            &mut hand.put_share,
            &mut hand.get_share,
            given,
        );
        if got.is_some() {
            count(rt, &mut hand.gets);
        }
        got
    }

    /// Ends the shelf with all hands that it made: what is there, and what they did, added up. What was put there is what was
    /// got, and what is left.
    pub fn close(self, mut hands: Vec<ShelfHand<A, B>>) -> Left<K>
        requires all { vec_len hands ≡ self.hands }
        requires parts { (A.parts ≡ PARTS) × (B.parts ≡ PARTS) }
        ensures puts { result.puts ≡ sum_by (λ h. h.puts) hands.items }
        ensures gets { result.gets ≡ sum_by (λ h. h.gets) hands.items }
        ensures balance { result.puts ≡ result.gets + one_if result.object }
    {
        let Shelf {
            apart: _,
            board,
            spares,
            hands: made,
        } = self;
        let Board {
            object,
            puts: mut put_book,
            gets: mut get_book,
            own,
            misses,
        } = board.into_inner();
        let (mut all_puts, mut all_gets) = gathered(own, spares, made as usize);
        let mut puts = 0;
        let mut gets = 0;
        while let Some(hand) = hands.pop() {
            let ShelfHand {
                put_share,
                get_share,
                puts: put,
                gets: got,
            } = hand;
            all_puts.merge(put_share);
            all_gets.merge(get_share);
            puts += put;
            gets += got;
        }
        hands.destroy_empty();
        put_book.audit(&mut all_puts);
        get_book.audit(&mut all_gets);
        Left {
            object,
            puts,
            gets,
            misses: misses.count(),
        }
    }
}
