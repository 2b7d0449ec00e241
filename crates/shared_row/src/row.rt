//! Places with values.

ghost use Rattle.std.specs.Prelude.{◌≡◌, ◌≢◌, ◌<◌, ◌≤◌, ◌+◌, ◌∷◌, [], ℕ, List, All, sum_by};
ghost use Rattle.std.specs.Prelude.{vec_len, vec_capacity, IfSome, IfNone, IfOk, IfErr};
ghost use Rattle.shared_row.specs.Weighing.{first_sheet};
ghost use Rattle.shared_row.specs.Views.{IsIdleAt, fresh_pass, noted, opened};

use crate::pass::Pass;
use crate::spread::{gathered, gathered_from, room_for, spot, spread};
use crate::weighing::{Even, Putting, Scale, Sheet, Sheets, Size, Taking};
use atomic_table::{Refused, Seat, Table};
use std::alloc::Global;
use std::marker::{Model, PhantomData};

/// Places with values, numbered from 0 up. The value of a place is there, or one pass has it.
///
/// Contracts see which row it is, its places, and how many passes were made.
#[derive(Drop)]
pub struct Row<T, P: Scale<T>> {
    table: Table<Option<T>, Sheet, Size, Even<T, P>, Global>,
    places: usize,
}

impl<T, P: Scale<T>> Model for Row<T, P> {
    ghost use Rattle.std.specs.Prelude.{◌≡◌, ◌<◌, ◌^◌};
    ghost use Rattle.shared_row.specs.Spread.{spot};
    ghost use Rattle.shared_row.specs.Views.{RowView};

    ghost Value = { RowView };

    ghost view = { λ r. record { table = r.table.shared.table_id; places = r.places; passes = r.table.shared.key.passes } };

    ghost invariant = { λ r. (r.table.shared.key.places ≡ r.places) × (r.table.shared.table_id.words ≡ spot r.places) ×
        (r.table.shared.table_id.slots ≡ spot r.places) × (spot r.places < 2 ^ 64) };
}

impl<T, P: Scale<T>> Row<T, P> {
    /// A row with these values, the first one in place 0, and this many passes. The values weigh the same on both sides.
    ///
    /// # Errors
    /// There was no memory for that many places and passes: the values come back.
    pub fn new(
        alloc: Global,
        values: Vec<T>,
        passes: u32,
    ) -> Result<(Row<T, P>, Vec<Pass<T, P>>), Vec<T>>
        requires some { 0 < passes }
        requires even { sum_by P.left values.items ≡ sum_by P.right values.items }
        ensures row { IfOk result (λ r. (r.0.places ≡ vec_len values) × (r.0.passes ≡ passes)) }
        ensures passes { IfOk result (λ r. (vec_len r.1 ≡ passes) × All (λ p. p ≡ fresh_pass r.0.table) r.1.items) }
        ensures back { IfErr result (λ v. v.items ≡ values.items) }
    {
        let places = values.len();
        let Some(room) = room_for(places) else {
            return Err(values);
        };
        let Ok(words) = vec![in alloc; 0; room] else {
            return Err(values);
        };
        let Ok(mut slots) = Vec::with_capacity(alloc, room) else {
            return Err(values);
        };
        let Ok(all) = Vec::with_capacity(alloc, passes as usize) else {
            slots.destroy_empty();
            return Err(values);
        };
        let mut values = values;
        spread(&mut values, &mut slots);
        let size = Size {
            places: places as u64,
            passes: u64::from(passes),
        };
        match Table::new(alloc, words.as_slice(), slots, &size) {
            Ok((table, rest)) => {
                values.destroy_empty();
                let row = Row { table, places };
                let all = dealt(&row, all, rest, passes);
                Ok((row, all))
            }
            Err(Refused { slots }) => {
                all.destroy_empty();
                Err(gathered(slots, values))
            }
        }
    }

    /// How many places it has.
    pub fn places(&self) -> usize
        ensures { result ≡ self.now.places }
    {
        self.places
    }

    /// Takes the value of a place, by one compare-exchange of its word, and notes what that found: 0, or another word where a pass has the value
    /// already, this one or another. Then the answer is `None`, and nothing else changed.
    pub fn take(&self, pass: &mut Pass<T, P>, place: usize) -> Option<T>
        requires table { pass.old.table ≡ self.now.table }
        requires place { place < self.now.places }
        ensures taken { IfSome result (λ x. pass.new ≡ opened (noted pass.old place 0) (P.left x) (P.right x) (place ∷ pass.old.out)) }
        ensures none { IfNone result ((found : ℕ) × (found ≢ 0) × (pass.new ≡ noted pass.old place found)) }
    {
        let table = &self.table.shared;
        let spot = spot(place);
        let found = table.compare_exchange::<Taking<T, P>>(&mut pass.seat, spot, 0, 1);
        if found != 0 {
            return None;
        }
        table.exchange(&mut pass.seat, spot, None)
    }

    /// Puts a value into the place that the pass took from last, by one store. It may weigh other than what was taken.
    pub fn put(&self, pass: &mut Pass<T, P>, place: usize, value: T)
        requires table { pass.old.table ≡ self.now.table }
        requires place { place < self.now.places }
        requires open { (others : List ℕ) × (pass.old.out ≡ place ∷ others) }
        ensures { (others : List ℕ) → pass.old.out ≡ place ∷ others → pass.new ≡ opened pass.old (P.right value) (P.left value) others }
    {
        let table = &self.table.shared;
        let spot = spot(place);
        match table.exchange(&mut pass.seat, spot, Some(value)) {
            Some(_) => unreachable!(),
            None => {}
        }
        table.store::<Putting<T, P>>(&mut pass.seat, spot, 0);
    }

    // All passes as one.
    fn joined(&self, mut passes: Vec<Pass<T, P>>) -> Seat<Option<T>, Sheet>
        requires some { 0 < vec_len passes }
        requires passes { All (IsIdleAt self.now.table) passes.items }
        ensures table { result.table_id ≡ self.now.table }
        ensures empty { (result.me.1 ≡ []) × (result.me.0.held ≡ []) }
        ensures parts { result.me.0.parts ≡ sum_by (λ p. p.parts) passes.items }
        ensures left { result.me.0.left ≡ sum_by (λ p. p.left) passes.items }
        ensures right { result.me.0.right ≡ sum_by (λ p. p.right) passes.items }
    {
        let first = match passes.pop() {
            Some(first) => first,
            None => unreachable!(),
        };
        let Pass {
            seat: mut all,
            of: _,
        } = first;
        while let Some(other) = passes.pop() {
            let Pass { seat, of: _ } = other;
            self.table.shared.join_seat::<Sheets>(&mut all, seat);
        }
        passes.destroy_empty();
        all
    }

    /// Ends the row with all its passes, of which none has a value, and gives the values in the order of their places, in a list that has room
    /// for them. The values and all passes together weigh the same on both sides.
    pub fn close(self, passes: Vec<Pass<T, P>>, into: Vec<T>) -> Vec<T>
        requires some { 0 < vec_len passes }
        requires passes { All (IsIdleAt self.table) passes.items }
        requires whole { sum_by (λ p. p.parts) passes.items ≡ self.passes }
        requires none { into.items ≡ [] }
        requires room { self.places ≤ vec_capacity into }
        ensures len { vec_len result ≡ self.places }
        ensures even { sum_by P.left result.items + sum_by (λ p. p.left) passes.items ≡
            sum_by P.right result.items + sum_by (λ p. p.right) passes.items }
    {
        let all = self.joined(passes);
        let Row { table, places: _ } = self;
        gathered_from(table.close_with(all), into)
    }
}

// The passes, dealt out of the first one, which is all.
fn dealt<T, P: Scale<T>>(
    row: &Row<T, P>,
    mut all: Vec<Pass<T, P>>,
    mut rest: Seat<Option<T>, Sheet>,
    passes: u32,
) -> Vec<Pass<T, P>>
    requires none { all.items ≡ [] }
    requires room { passes ≤ vec_capacity all }
    requires rest { (rest.table_id ≡ row.now.table) × (rest.me ≡ (first_sheet passes, [])) }
    ensures { (vec_len result ≡ passes) × All (λ p. p ≡ fresh_pass row.now.table) result.items }
{
    for _i in 0..passes {
        let seat = row.table.shared.split_seat::<Sheets>(&mut rest);
        all.push_reserved(Pass {
            seat,
            of: PhantomData,
        });
    }
    all
}
