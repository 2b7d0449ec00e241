//! Numbers that threads draw, each once.

ghost use Rattle.std.specs.Prelude.{◌≡◌, ◌<◌, ◌≤◌, ℕ, true, false, [], ◌∷◌, ◌++◌, map, reverse, replicate, vec_len, All, Any, IfOk, IfSome, IfNone, MatchBool};
ghost use Rattle.owners_table.specs.Drawing.{IsOf, NeverWraps, fresh, sheet, times_drawn};

use crate::drawing::{Bounds, Draw, Drawing, TicketSheet};
use crate::sheets::Sheets;
use atomic_table::{Seat, Table};
use std::alloc::{AllocError, Global};
use std::collections::LinkedList;
use std::marker::Model;

/// The numbers from 0 up to a limit, of which the next one is a word.
///
/// Contracts see which tickets they are, the limit, and how many seats were made.
#[derive(Drop)]
pub struct Tickets {
    table: Table<(), LinkedList<TicketSheet>, Bounds, Drawing, Global>,
    limit: u64,
}

impl Model for Tickets {
    ghost use Rattle.std.specs.Prelude.{◌≡◌};
    ghost use Rattle.owners_table.specs.Drawing.{TicketsView};

    ghost Value = { TicketsView };

    ghost view = { λ t. record { table = t.table.shared.table_id; limit = t.limit; seats = t.table.shared.key.seats } };

    ghost invariant = { λ t. (t.table.shared.table_id.words ≡ 1) × (t.table.shared.table_id.slots ≡ 0) × (t.limit ≡ t.table.shared.key.limit) };
}

/// What a thread draws with.
///
/// Contracts see its tickets, their limit, the numbers that it drew, and whether one of them was not below the limit.
#[derive(Drop)]
pub struct TicketSeat {
    seat: Seat<(), LinkedList<TicketSheet>>,
    passed: bool,
}

impl Model for TicketSeat {
    ghost use Rattle.std.specs.Prelude.{◌≡◌};
    ghost use Rattle.owners_table.specs.Drawing.{TicketView, blank, ticket_view};
    ghost use Rattle.owners_table.specs.Sheets.{sheet_of, IsSingle};

    ghost Value = { TicketView };

    ghost view = { λ s. ticket_view s.seat };

    ghost invariant = { λ s. IsSingle (blank 0) s.seat × ((sheet_of (blank 0) s.seat).passed ≡ s.passed) };
}

impl Tickets {
    /// Tickets with the numbers from 0 up to the limit, none drawn, and their seats.
    ///
    /// # Errors
    /// There was no memory: nothing was made.
    pub fn new(
        alloc: Global,
        limit: u64,
        seats: u32,
    ) -> Result<(Tickets, Vec<TicketSeat>), AllocError>
        requires { 0 < seats }
        ensures tickets { IfOk result (λ r. (r.0.limit ≡ limit) × (r.0.seats ≡ seats)) }
        ensures seats { IfOk result (λ r. (vec_len r.1 ≡ seats) × All (λ s. s ≡ fresh r.0.table limit) r.1.items) }
    {
        let bounds = Bounds {
            limit,
            seats: u64::from(seats),
        };
        let (table, mut rest) = Table::of_words(alloc, &[0], &bounds)?;
        let mut all = Vec::with_capacity(alloc, seats as usize)?;
        for _i in 1..seats {
            let seat = table.shared.split_seat::<Sheets>(&mut rest);
            all.push_reserved(TicketSeat {
                seat,
                passed: false,
            });
        }
        all.push_reserved(TicketSeat {
            seat: rest,
            passed: false,
        });
        Ok((Tickets { table, limit }, all))
    }

    /// Draws the next number, by one fetch-add. `None` where that number is not below the limit, and, with no step, for a
    /// seat that was answered `None` before.
    pub fn draw(&self, seat: &mut TicketSeat) -> Option<u64>
        requires { IsOf self.now seat.old }
        ensures some { IfSome result (λ n. (n < self.now.limit) × (seat.old.passed ≡ false) ×
            (seat.new ≡ record seat.old { drawn = seat.old.drawn ++ n ∷ [] })) }
        ensures none { IfNone result (MatchBool seat.old.passed (seat.new ≡ seat.old)
            ((n : ℕ) × (self.now.limit ≤ n) × (seat.new ≡ record seat.old { drawn = seat.old.drawn ++ n ∷ []; passed = true }))) }
    {
        if seat.passed {
            return None;
        }
        let n = self.table.shared.fetch_add::<Draw>(&mut seat.seat, 0, 1);
        if n < self.limit {
            return Some(n);
        }
        seat.passed = true;
        None
    }

    // All seats as one, with their sheets, the last one's first. `None` where there is no seat.
    fn joined(&self, mut seats: Vec<TicketSeat>) -> Option<Seat<(), LinkedList<TicketSheet>>>
        requires { All (IsOf self.now) seats.items }
        ensures none { IfNone result (seats.items ≡ []) }
        ensures some { IfSome result (λ p. (p.table_id ≡ self.now.table) × (p.me ≡ (reverse (map sheet seats.items), []))) }
    {
        let TicketSeat {
            seat: mut all,
            passed: _,
        } = seats.pop()?;
        while let Some(other) = seats.pop() {
            let TicketSeat { seat, passed: _ } = other;
            self.table.shared.join_seat::<Sheets>(&mut all, seat);
        }
        Some(all)
    }

    /// Ends the tickets. Where the limit and the number of seats add up to less than 2^64, so that the word never wraps, no
    /// number was drawn twice. If these are also all the seats that were made, and one of them was answered `None`, then each
    /// number below the limit was drawn.
    pub fn close(self, seats: Vec<TicketSeat>)
        requires { All (IsOf self) seats.items }
        ensures once { NeverWraps self.limit self.seats → (x : ℕ) → times_drawn x seats.items ≤ 1 }
        ensures each { NeverWraps self.limit self.seats → vec_len seats ≡ self.seats →
            Any (λ s. s.passed ≡ true) seats.items → (x : ℕ) → x < self.limit → times_drawn x seats.items ≡ 1 }
    {
        let joined = self.joined(seats);
        let Tickets { table, limit: _ } = self;
        if let Some(all) = joined {
            table.close_with(all).free();
        }
    }
}
