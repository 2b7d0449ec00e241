//! The table of owners.

ghost use Rattle.std.specs.Prelude.{◌≡◌, ◌+◌, ◌<◌, ◌≤◌, [], ◌∷◌, ◌++◌, ℕ};
ghost use Rattle.std.specs.Prelude.{length, map, replicate, reverse, slice_index, vec_len, All, IfSome, IfNone, IfOk, OnOk, IfErr, IsErrAnd};
ghost use Rattle.std.specs.Slots.{slots_items, slots_len, IsFull};
ghost use Rattle.owners_table.specs.Marking.{mark_word};
ghost use Rattle.owners_table.specs.Place.{words_in};
ghost use Rattle.owners_table.specs.Owning.{Holds, Apart, HasOneOwner, EachHasOneOwner, IsLeft, IsOwner};
ghost use Rattle.owners_table.specs.Owning.{IsSlotWord, IsClaimed, IsTaken, IsFetched, IsElsewhere};
ghost use Rattle.owners_table.specs.Owning.{fresh, sheet, held_by, blank, owner_word, found_word, run_word, without, word_at};
ghost use Rattle.owners_table.specs.declared.mark.TheConstants.{SHELVES};
ghost use Rattle.owners_table.specs.declared.owners.TheConstants.{ARENA_SLOTS};

use crate::mark::{Mark, Owner, SHELVES, WORDS_OF_A_RUN};
use crate::owning::{Claim, Fetch, Look, OwnerSheet, Owning, Release, Shelve, Size};
use crate::place::{place, words_in};
use crate::sheets::Sheets;
use atomic_table::{Closed, Seat, Table};
use std::alloc::{AllocError, Global};
use std::collections::LinkedList;
use std::marker::Model;

/// How many slots an arena has at most: 256 pages of 256 objects.
pub const ARENA_SLOTS: u32 = 65_536;

// The words of a table of as many slots, which are all free. The compiler knows them, so a table is filled without a list of them,
// whose memory would be touched for the first time.
static FREE: [u64; 65_537] = [0; 65_537];

/// A claim found that the slot has this owner.
#[derive(Clone, Copy)]
pub struct Taken {
    pub owner: Owner,
}

/// A fetch found that the slot has this owner and not the shelf. `None` where it is free.
#[derive(Clone, Copy)]
pub struct Other {
    pub found: Option<Owner>,
}

/// A word for each slot, which says who owns it, and words between and after them that stay 0.
///
/// Contracts see which table it is, its slots, and how many seats were made.
#[derive(Drop)]
pub struct Owners {
    table: Table<(), LinkedList<OwnerSheet>, Size, Owning, Global>,
    slots: u32,
}

impl Model for Owners {
    ghost use Rattle.std.specs.Prelude.{◌≡◌};
    ghost use Rattle.owners_table.specs.Owning.{OwnersView};
    ghost use Rattle.owners_table.specs.Place.{words_in};

    ghost Value = { OwnersView };

    ghost view = { λ o. record { table = o.table.shared.table_id; slots = o.slots; seats = o.table.shared.key.seats } };

    ghost invariant = { λ o. (o.table.shared.table_id.words ≡ words_in o.slots) × (o.table.shared.table_id.slots ≡ 0) × (o.table.shared.key.slots ≡ o.slots) };
}

/// What a thread claims slots with. It has no bytes. One that is dropped leaves its slots owned.
///
/// Contracts see its table, the slots that it holds, each with its word, how many claims and fetches it made, the word that
/// each claim found, the word that each fetch found, and the slots that it shelved, each with the shelf's word.
#[derive(Drop)]
pub struct OwnerSeat {
    seat: Seat<(), LinkedList<OwnerSheet>>,
}

impl Model for OwnerSeat {
    ghost use Rattle.owners_table.specs.Owning.{SeatView, blank, seat_view};
    ghost use Rattle.owners_table.specs.Sheets.{IsSingle};

    ghost Value = { SeatView };

    ghost view = { λ s. seat_view s.seat };

    ghost invariant = { λ s. IsSingle blank s.seat };
}

impl Owners {
    /// A table whose slots are all free, and its seats. Each number below `slots` is a slot.
    ///
    /// # Errors
    /// There was no memory: nothing was made.
    pub fn new(
        alloc: Global,
        slots: u32,
        seats: u32,
    ) -> Result<(Owners, Vec<OwnerSeat>), AllocError>
        requires { 0 < seats }
        ensures table { IfOk result (λ r. (r.0.slots ≡ slots) × (r.0.seats ≡ seats)) }
        ensures seats { IfOk result (λ r. (vec_len r.1 ≡ seats) × All (λ s. s ≡ fresh r.0.table) r.1.items) }
    {
        let free = vec![in alloc; 0; words_in(slots)]?;
        let size = Size {
            slots: u64::from(slots),
            seats: u64::from(seats),
        };
        let (table, rest) = Table::of_words(alloc, free.as_slice(), &size)?;
        dealt(alloc, table, rest, slots, seats)
    }

    /// As [`Owners::new`] with [`ARENA_SLOTS`] slots, in half the time.
    ///
    /// # Errors
    /// There was no memory: nothing was made.
    pub fn of_arena(alloc: Global, seats: u32) -> Result<(Owners, Vec<OwnerSeat>), AllocError>
        requires { 0 < seats }
        ensures table { IfOk result (λ r. (r.0.slots ≡ ARENA_SLOTS) × (r.0.seats ≡ seats)) }
        ensures seats { IfOk result (λ r. (vec_len r.1 ≡ seats) × All (λ s. s ≡ fresh r.0.table) r.1.items) }
    {
        let size = Size {
            slots: u64::from(ARENA_SLOTS),
            seats: u64::from(seats),
        };
        let (table, rest) = Table::of_words(alloc, &FREE, &size)?;
        dealt(alloc, table, rest, ARENA_SLOTS, seats)
    }

    /// Takes the slot for the mark where it is free, by one compare-exchange, which is when the claim takes effect.
    ///
    /// # Errors
    /// The owner that was found: nothing was taken.
    pub fn claim(&self, seat: &mut OwnerSeat, slot: u32, mark: Mark) -> Result<(), Taken>
        requires table { seat.old.table ≡ self.now.table }
        requires slot { slot < self.now.slots }
        ensures table { seat.new.table ≡ seat.old.table }
        ensures tries { seat.new.tries ≡ seat.old.tries + 1 }
        ensures ok { OnOk result (IsClaimed slot (mark_word mark.run mark.at) seat.old seat.new) }
        ensures taken { IfErr result (λ t. IsTaken slot (owner_word t.owner) seat.old seat.new) }
        // A shelf that is reported is one that there is, so the word and its owner determine each other.
        ensures owner { IfErr result (λ t. IsOwner t.owner) }
        ensures rest { (seat.new.fetches ≡ seat.old.fetches) × (seat.new.shelved ≡ seat.old.shelved) × (seat.new.got ≡ seat.old.got) }
        // A seat that has the slot already is given its own.
        ensures own { Holds slot seat.old.held → IsErrAnd result (λ t. owner_word t.owner ≡ word_at slot seat.old.held) }
    {
        let found = self
            .table
            .shared
            .compare_exchange::<Claim>(&mut seat.seat, place(slot), 0, mark.word());
        let Some(owner) = owner_with(found) else {
            return Ok(());
        };
        Err(Taken { owner })
    }

    /// Gives the slot up, by one exchange, which is when the release takes effect.
    pub fn release(&self, seat: &mut OwnerSeat, slot: u32)
        requires table { seat.old.table ≡ self.now.table }
        requires slot { slot < self.now.slots }
        requires holds { Holds slot seat.old.held }
        ensures { seat.new ≡ record seat.old { held = without slot seat.old.held } }
    {
        self.table
            .shared
            .swap::<Release>(&mut seat.seat, place(slot), 0);
    }

    /// Gives the slot up to the shelf of this number, below `SHELVES`, by one exchange, which is when the shelf owns the slot.
    pub fn shelve(&self, seat: &mut OwnerSeat, slot: u32, shelf: u8)
        requires table { seat.old.table ≡ self.now.table }
        requires slot { slot < self.now.slots }
        requires holds { Holds slot seat.old.held }
        requires shelf { shelf < SHELVES }
        ensures { seat.new ≡ record seat.old { held = without slot seat.old.held; shelved = seat.old.shelved ++ (slot, shelf + 1) ∷ [] } }
    {
        self.table
            .shared
            .swap::<Shelve>(&mut seat.seat, place(slot), u64::from(shelf) + 1);
    }

    /// Takes the slot for the mark where the shelf of this number, below `SHELVES`, owns it, by one compare-exchange, which is
    /// when the fetch takes effect.
    ///
    /// # Errors
    /// Another owner was found, or none: nothing was taken.
    pub fn fetch(&self, seat: &mut OwnerSeat, slot: u32, shelf: u8, mark: Mark) -> Result<(), Other>
        requires table { seat.old.table ≡ self.now.table }
        requires slot { slot < self.now.slots }
        requires shelf { shelf < SHELVES }
        ensures table { seat.new.table ≡ seat.old.table }
        ensures tries { seat.new.tries ≡ seat.old.tries + 1 }
        ensures ok { OnOk result (IsFetched slot (shelf + 1) (mark_word mark.run mark.at) seat.old seat.new) }
        ensures other { IfErr result (λ o. IsElsewhere slot (shelf + 1) (found_word o.found) seat.old seat.new) }
        // A shelf that is reported is one that there is, so the word and its owner determine each other.
        ensures found { IfErr result (λ o. IfSome o.found IsOwner) }
        ensures rest { (seat.new.notes ≡ seat.old.notes) × (seat.new.shelved ≡ seat.old.shelved) }
        // A seat that has the slot already is given its own.
        ensures own { Holds slot seat.old.held → IsErrAnd result (λ o. found_word o.found ≡ word_at slot seat.old.held) }
    {
        let wanted = u64::from(shelf) + 1;
        let found = self
            .table
            .shared
            .compare_exchange::<Fetch>(&mut seat.seat, place(slot), wanted, mark.word());
        if found != wanted {
            return Err(Other {
                found: owner_with(found),
            });
        }
        Ok(())
    }

    /// Gives both seats back as they were: they hold no slot in common.
    pub fn meet(&self, first: OwnerSeat, second: OwnerSeat) -> (OwnerSeat, OwnerSeat)
        requires first { first.table ≡ self.now.table }
        requires second { second.table ≡ self.now.table }
        ensures same { (result.0 ≡ first) × (result.1 ≡ second) }
        ensures apart { Apart first.held second.held }
    {
        let OwnerSeat { seat: mut both } = first;
        let OwnerSeat { seat: other } = second;
        let shared = &self.table.shared;
        shared.join_seat::<Sheets>(&mut both, other);
        shared.load::<Look>(&mut both, 0);
        let one = shared.split_seat::<Sheets>(&mut both);
        (OwnerSeat { seat: one }, OwnerSeat { seat: both })
    }

    // All seats as one, with their sheets, the last one's first. `None` where there is no seat.
    fn joined(&self, mut seats: Vec<OwnerSeat>) -> Option<Seat<(), LinkedList<OwnerSheet>>>
        requires { All (λ s. s.table ≡ self.now.table) seats.items }
        ensures none { IfNone result (seats.items ≡ []) }
        ensures some { IfSome result (λ p. (p.table_id ≡ self.now.table) × (p.me ≡ (reverse (map sheet seats.items), []))) }
    {
        let OwnerSeat { seat: mut all } = seats.pop()?;
        while let Some(other) = seats.pop() {
            let OwnerSeat { seat } = other;
            self.table.shared.join_seat::<Sheets>(&mut all, seat);
        }
        Some(all)
    }

    // Ends the table, and leaves its words.
    fn ended(self, seats: Vec<OwnerSeat>) -> Closed<(), Global>
        requires { All (λ s. s.table ≡ self.table) seats.items }
        ensures full { IsFull result.words × (slots_len result.words ≡ words_in self.slots) × (slots_len result.slots ≡ 0) }
        ensures left { IsLeft self seats.items (slots_items result.words) }
    {
        let joined = self.joined(seats);
        let Owners { table, slots: _ } = self;
        let Some(all) = joined else {
            return table.close();
        };
        table.close_with(all)
    }

    /// Ends the table, and gives the words of its slots, in order: 0 for a slot that is free, 1 more than the shelf's number
    /// for one that a shelf owns, else the word of its owner's mark. The slots of a seat that isn't among these stay owned,
    /// and their words are reported as they are.
    ///
    /// # Errors
    /// There was no memory for the words: the table and the seats are gone.
    pub fn close(self, alloc: Global, seats: Vec<OwnerSeat>) -> Result<Vec<u64>, AllocError>
        requires { All (λ s. s.table ≡ self.table) seats.items }
        ensures len { IfOk result (λ ws. vec_len ws ≡ self.slots) }
        // Each is 0, the word of a shelf, or that of a mark.
        ensures marks { IfOk result (λ ws. (slot : ℕ) → slot < self.slots → IsSlotWord (slice_index ws.items slot)) }
        // A slot that one of the seats holds has the word that its list says.
        ensures held { IfOk result (λ ws. (slot : ℕ) → Holds slot (held_by seats.items) →
            (slot < self.slots) × (slice_index ws.items slot ≡ word_at slot (held_by seats.items))) }
        // Where these are all the seats that were made, each word of a run is the one in their lists, and where they have none the
        // word is no run's.
        ensures words { IfOk result (λ ws. vec_len seats ≡ self.seats → (slot : ℕ) → slot < self.slots →
            run_word (slice_index ws.items slot) ≡ word_at slot (held_by seats.items)) }
        ensures one { IfOk result (λ ws. vec_len seats ≡ self.seats → (slot : ℕ) → slot < self.slots →
            HasOneOwner (slice_index ws.items slot) (held_by seats.items) slot) }
        // Where besides they hold nothing, each slot is free or a shelf's.
        ensures free { IfOk result (λ ws. vec_len seats ≡ self.seats → All (λ s. s.held ≡ []) seats.items → All (λ w. w ≤ SHELVES) ws.items) }
    {
        let slots = self.slots;
        let mut words = Vec::with_capacity(alloc, slots as usize)?;
        let closed = self.ended(seats);
        for slot in 0..slots {
            words.push_reserved(closed.word(place(slot)));
        }
        closed.free();
        Ok(words)
    }

    /// Ends the table, and counts the slots that a run still owns. It takes no memory.
    pub fn end(self, seats: Vec<OwnerSeat>) -> u32
        requires { All (λ s. s.table ≡ self.table) seats.items }
        // No fewer than these seats hold.
        ensures some { length (held_by seats.items) ≤ result }
        // Where these are all the seats that were made, as many as they hold.
        ensures all { vec_len seats ≡ self.seats → result ≡ length (held_by seats.items) }
        // Where besides they hold nothing, each slot is free or a shelf's.
        ensures none { vec_len seats ≡ self.seats → All (λ s. s.held ≡ []) seats.items → result ≡ 0 }
    {
        let words = words_in(self.slots);
        let closed = self.ended(seats);
        let mut owned = 0;
        for at in 0..words {
            if closed.word(at) >= WORDS_OF_A_RUN {
                owned += 1;
            }
        }
        closed.free();
        owned
    }
}

// The owner that has this word. None for 0, which is a free slot's.
fn owner_with(word: u64) -> Option<Owner>
    requires { IsSlotWord word }
    ensures word { found_word result ≡ word }
    ensures owner { IfSome result IsOwner }
{
    if word == 0 {
        return None;
    }
    if word <= u64::from(SHELVES) {
        return Some(Owner::Shelf((word - 1) as u8));
    }
    Some(Owner::Run(Mark::of_word(word)))
}

/// The rule of every table, in other words: where a slot's word is a run's, the lists of all its seats together have one
/// entry of the slot, and that has this word; where it is not, they have none. Nothing is computed.
pub fn each_slot_has_one_owner()
    ensures { EachHasOneOwner }
{}

// The table with its seats, which the first one deals out.
fn dealt(
    alloc: Global,
    table: Table<(), LinkedList<OwnerSheet>, Size, Owning, Global>,
    mut rest: Seat<(), LinkedList<OwnerSheet>>,
    slots: u32,
    seats: u32,
) -> Result<(Owners, Vec<OwnerSeat>), AllocError>
    requires some { 0 < seats }
    requires words { (table.shared.table_id.words ≡ words_in slots) × (table.shared.table_id.slots ≡ 0) }
    requires slots { table.shared.key.slots ≡ slots }
    requires seats { table.shared.key.seats ≡ seats }
    requires rest { (rest.table_id ≡ table.shared.table_id) × (rest.me ≡ (replicate seats blank, [])) }
    ensures table { IfOk result (λ r. (r.0.slots ≡ slots) × (r.0.seats ≡ seats)) }
    ensures seats { IfOk result (λ r. (vec_len r.1 ≡ seats) × All (λ s. s ≡ fresh r.0.table) r.1.items) }
{
    let mut all = Vec::with_capacity(alloc, seats as usize)?;
    for _i in 1..seats {
        let seat = table.shared.split_seat::<Sheets>(&mut rest);
        all.push_reserved(OwnerSeat { seat });
    }
    all.push_reserved(OwnerSeat { seat: rest });
    Ok((Owners { table, slots }, all))
}
