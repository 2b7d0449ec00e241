//! The shelf.

ghost use Rattle.std.specs.Prelude.{◌≡◌, ◌<◌, ◌≤◌, ◌+◌, ◌%◌, ◌^◌, [], All, sum_by, slice_index, vec_len, vec_capacity, IfOk};
ghost use Rattle.std.specs.Slots.{slots_items, IsFull};
ghost use mathlib.Core.Option.{some};
ghost use lib.ListN.{get_elem?};
ghost use Rattle.exchange_shelf.specs.Passing.{first_sheet, of_slot, AreBare};
ghost use Rattle.shared_row.specs.Spread.{spot};
ghost use Rattle.exchange_shelf.specs.Views.{fresh_hand, one_if, swapped};
ghost use Rattle.exchange_shelf.specs.declared.shelf.TheConstants.{WORD};

use crate::hand::{ShelfHand, counted};
use crate::passing::{Drawing, Exchanging, Hands, Passing, Returning, Sheet, Size};
use atomic_table::{Closed, Seat, Table};
use std::alloc::{AllocError, Global};
use std::marker::Model;

// How far slots are apart. As many before the first are unused.
const STRIDE: usize = 16;

// The word, with unused ones before it and after it, so that what other threads write in the memory around is not on its lines.
const WORD: usize = 16;

// The words at the start: the word has the number of the first slot.
static WORDS: [u64; 32] = [16; 32];

/// A shelf for one value, which all its hands share.
///
/// Contracts see which shelf it is, and how many hands were made.
#[derive(Drop)]
pub struct Shelf<T> {
    table: Table<Option<T>, Sheet, Size, Passing<T>, Global>,
    hands: u32,
}

impl<T> Model for Shelf<T> {
    ghost use Rattle.std.specs.Prelude.{◌≡◌, ◌+◌};
    ghost use Rattle.shared_row.specs.Spread.{spot};
    ghost use Rattle.exchange_shelf.specs.Views.{ShelfView};

    ghost Value = { ShelfView };

    ghost view = { λ s. record { table = s.table.shared.table_id; hands = s.hands } };

    ghost invariant = { λ s. (s.table.shared.table_id.words ≡ 32) × (s.table.shared.table_id.slots ≡ spot (s.hands + 1)) ×
        (s.table.shared.key.slots ≡ spot (s.hands + 1)) × (s.table.shared.key.hands ≡ s.hands) };
}

/// What a shelf was left with, and what all its hands did.
#[derive(Drop)]
pub struct Left<T> {
    /// What is there.
    pub object: Option<T>,
    /// How often a value was put there. After 2^64 - 1 comes 0.
    pub puts: u64,
    /// How often one was got. After 2^64 - 1 comes 0.
    pub gets: u64,
}

impl<T> Shelf<T> {
    /// A shelf on which nothing is, and its hands. It is the one call that takes memory.
    ///
    /// # Errors
    /// There was no memory: nothing was made.
    pub fn new(alloc: Global, hands: u32) -> Result<(Shelf<T>, Vec<ShelfHand<T>>), AllocError>
        requires some { 0 < hands }
        ensures shelf { IfOk result (λ r. r.0.hands ≡ hands) }
        ensures hands { IfOk result (λ r. (vec_len r.1 ≡ hands) × All (λ h. h ≡ fresh_hand r.0.table) r.1.items) }
    {
        let all = Vec::with_capacity(alloc, hands as usize)?;
        let slots = slot_of(hands) + STRIDE;
        let size = Size {
            slots: slots as u64,
            hands: u64::from(hands),
        };
        match Table::vacant(alloc, &WORDS, slots, &size) {
            Ok((table, rest)) => {
                let shelf = Shelf { table, hands };
                let all = dealt(&shelf, all, rest, hands);
                Ok((shelf, all))
            }
            Err(error) => {
                all.destroy_empty();
                Err(error)
            }
        }
    }

    /// Exchanges what is on the shelf for what is given, if anything, by one exchange of a word, which is when both change places. The answer is
    /// what was there.
    pub fn swap(&self, hand: &mut ShelfHand<T>, given: Option<T>) -> Option<T>
        requires { hand.old.table ≡ self.now.table }
        ensures { hand.new ≡ swapped hand.old (one_if given) (one_if result) }
    {
        let table = &self.table.shared;
        hand.puts = counted(hand.puts, &given);
        match table.exchange(&mut hand.seat, hand.mine, given) {
            Some(_) => unreachable!(),
            None => {}
        }
        let found = table.swap::<Exchanging<T>>(&mut hand.seat, WORD, hand.mine as u64);
        hand.mine = found as usize;
        let got = table.exchange(&mut hand.seat, hand.mine, None);
        hand.gets = counted(hand.gets, &got);
        got
    }

    // A hand that takes the slot that it is to take.
    fn hand(&self, mut seat: Seat<Option<T>, Sheet>, slot: usize) -> ShelfHand<T>
        requires table { seat.table_id ≡ self.now.table }
        requires due { seat.me ≡ (of_slot slot, []) }
        ensures { result ≡ fresh_hand self.now.table }
    {
        self.table.shared.load::<Drawing<T>>(&mut seat, WORD);
        ShelfHand {
            seat,
            mine: slot,
            puts: 0,
            gets: 0,
        }
    }

    // Gives the hand's slot back, and leaves what it knows.
    fn returned(&self, hand: ShelfHand<T>) -> Returned<T>
        requires { hand.table ≡ self.now.table }
        ensures table { result.seat.table_id ≡ self.now.table }
        ensures empty { (result.seat.me.1 ≡ []) × (result.seat.me.0.held ≡ []) × (0 < result.seat.me.0.parts) }
        ensures parts { result.seat.me.0.parts ≡ hand.parts }
        ensures exact { (result.seat.me.0.puts ≡ hand.puts) × (result.seat.me.0.gets ≡ hand.gets) }
        ensures counts { (result.puts ≡ hand.puts % 2 ^ 64) × (result.gets ≡ hand.gets % 2 ^ 64) }
    {
        let ShelfHand {
            mut seat,
            mine: _,
            puts,
            gets,
        } = hand;
        self.table.shared.load::<Returning<T>>(&mut seat, WORD);
        Returned { seat, puts, gets }
    }

    // All hands as one, which has no slot.
    fn joined(&self, mut hands: Vec<ShelfHand<T>>) -> Returned<T>
        requires some { 0 < vec_len hands }
        requires hands { All (λ h. h.table ≡ self.now.table) hands.items }
        ensures table { result.seat.table_id ≡ self.now.table }
        ensures empty { (result.seat.me.1 ≡ []) × (result.seat.me.0.held ≡ []) }
        ensures parts { result.seat.me.0.parts ≡ sum_by (λ h. h.parts) hands.items }
        ensures exact { (result.seat.me.0.puts ≡ sum_by (λ h. h.puts) hands.items) × (result.seat.me.0.gets ≡ sum_by (λ h. h.gets) hands.items) }
        ensures counts { (result.puts ≡ sum_by (λ h. h.puts) hands.items % 2 ^ 64) × (result.gets ≡ sum_by (λ h. h.gets) hands.items % 2 ^ 64) }
    {
        let first = match hands.pop() {
            Some(first) => first,
            None => unreachable!(),
        };
        let mut all = self.returned(first);
        while let Some(other) = hands.pop() {
            let Returned { seat, puts, gets } = self.returned(other);
            self.table.shared.join_seat::<Hands>(&mut all.seat, seat);
            all.puts = all.puts.wrapping_add(puts);
            all.gets = all.gets.wrapping_add(gets);
        }
        hands.destroy_empty();
        all
    }

    /// Ends the shelf with all its hands: what is there, and what they did, added up. What they put there is what they got and what is left.
    pub fn close(self, hands: Vec<ShelfHand<T>>) -> Left<T>
        requires some { 0 < vec_len hands }
        requires hands { All (λ h. h.table ≡ self.table) hands.items }
        requires whole { sum_by (λ h. h.parts) hands.items ≡ self.hands }
        ensures puts { result.puts ≡ sum_by (λ h. h.puts) hands.items % 2 ^ 64 }
        ensures gets { result.gets ≡ sum_by (λ h. h.gets) hands.items % 2 ^ 64 }
        ensures even { sum_by (λ h. h.puts) hands.items ≡ sum_by (λ h. h.gets) hands.items + one_if result.object }
    {
        let Returned { seat, puts, gets } = self.joined(hands);
        let Shelf { table, hands: _ } = self;
        let object = emptied(table.close_with(seat));
        Left { object, puts, gets }
    }
}

// What a hand knows that has given its slot back, and what it counts.
struct Returned<T> {
    seat: Seat<Option<T>, Sheet>,
    puts: u64,
    gets: u64,
}

// What is in the slot of the word, when all others are empty.
fn emptied<T>(mut closed: Closed<Option<T>, Global>) -> Option<T>
    requires full { IsFull closed.words × IsFull closed.slots }
    requires empty { AreBare (slots_items closed.words) (slots_items closed.slots) }
    ensures { get_elem? (slots_items closed.slots) (slice_index (slots_items closed.words) WORD) ≡ some result }
{
    let shelf = closed.word(WORD) as usize;
    let object = closed.take(shelf);
    for slot in 0..closed.slot_count() {
        if slot != shelf {
            match closed.take(slot) {
                Some(_) => unreachable!(),
                None => {}
            }
        }
    }
    closed.free();
    object
}

// The slot that a hand has at the start, of those after this one.
fn slot_of(hands: u32) -> usize
    ensures { result ≡ spot hands }
{
    hands as usize * STRIDE + STRIDE
}

// The hands, dealt out of the first one, which is all.
fn dealt<T>(
    shelf: &Shelf<T>,
    mut all: Vec<ShelfHand<T>>,
    mut rest: Seat<Option<T>, Sheet>,
    hands: u32,
) -> Vec<ShelfHand<T>>
    requires none { all.items ≡ [] }
    requires room { hands ≤ vec_capacity all }
    requires rest { (rest.table_id ≡ shelf.now.table) × (rest.me ≡ (first_sheet hands 0, [])) }
    ensures { (vec_len result ≡ hands) × All (λ h. h ≡ fresh_hand shelf.now.table) result.items }
{
    for place in 0..hands {
        let seat = shelf.table.shared.split_seat::<Hands>(&mut rest);
        all.push_reserved(shelf.hand(seat, slot_of(place + 1)));
    }
    all
}
