//! Places with values.

ghost use Rattle.std.specs.Prelude.{◌≡◌, ◌<◌, All, vec_len, IfOk, IfErr};

use crate::filling::{emptied, fill};
use crate::lending::{Entry, Fitting, Lending, Putting, Taking};
use crate::loan::{Lent, Loan, Returned};
use atomic_table::{Refused, Table};
use std::alloc::Global;
use std::marker::Model;

/// Places with values, numbered from 0 up. The value of a place is there, or it is lent.
///
/// Contracts see which row it is, its places, and what it was told when it was made.
#[derive(Drop)]
pub struct LendingRow<T, K, F: Fitting<T, K>> {
    table: Table<Option<T>, Entry<K>, K, Lending<T, K, F>, Global>,
}

impl<T, K, F: Fitting<T, K>> Model for LendingRow<T, K, F> {
    ghost use Rattle.std.specs.Prelude.{◌≡◌};
    ghost use Rattle.lending_row.specs.Views.{RowView};

    ghost Value = { RowView K };

    ghost view = { λ r. record { table = r.table.shared.table_id; places = r.table.shared.table_id.words; key = r.table.shared.key } };

    ghost invariant = { λ r. r.table.shared.table_id.slots ≡ r.table.shared.table_id.words };
}

impl<T, K, F: Fitting<T, K>> LendingRow<T, K, F> {
    /// A row with these values, the first one in place 0. Each one fits what the row is told. It is the one call that takes memory.
    ///
    /// # Errors
    /// There was no memory: the values come back.
    pub fn new(alloc: Global, values: Vec<T>, key: &K) -> Result<LendingRow<T, K, F>, Vec<T>>
        requires { All (F.fits key.now) values.items }
        ensures row { IfOk result (λ r. (r.places ≡ vec_len values) × (r.key ≡ key.now)) }
        ensures back { IfErr result (λ v. v.items ≡ values.items) }
    {
        let places = values.len();
        let Ok(words) = vec![in alloc; 0; places] else {
            return Err(values);
        };
        let Ok(mut slots) = Vec::with_capacity(alloc, places) else {
            return Err(values);
        };
        let mut values = values;
        fill(&mut values, &mut slots);
        match Table::new(alloc, words.as_slice(), slots, key) {
            Ok((table, _)) => {
                values.destroy_empty();
                Ok(LendingRow { table })
            }
            Err(Refused { slots }) => Err(emptied(slots, values)),
        }
    }

    /// How many places it has.
    pub fn places(&self) -> usize
        ensures { result ≡ self.now.places }
    {
        self.table.word_count()
    }

    /// Takes the value of a place, by one swap of its word, with the loan to bring it back with.
    ///
    /// # Errors
    /// The value is lent: nothing changed.
    pub fn take(&self, place: usize) -> Result<(T, Loan<T, K>), Lent<T, K>>
        requires { place < self.now.places }
        ensures fits { IfOk result (λ r. F.fits self.now.key r.0) }
        ensures loan { IfOk result (λ r. (r.1.table ≡ self.now.table) × (r.1.place ≡ place)) }
        ensures lent { IfErr result (λ l. (l.table ≡ self.now.table) × (l.place ≡ place)) }
    {
        let table = &self.table.shared;
        let (found, mut seat) = table.swap_new_seat::<Taking<T, K, F>>(place, 1);
        if found != 0 {
            return Err(Lent { seat });
        }
        match table.exchange(&mut seat, place, None) {
            Some(value) => Ok((value, Loan { seat, place })),
            None => unreachable!(),
        }
    }

    /// Puts a value that fits into the place of the loan, by one store. The answer is what the loan becomes.
    pub fn put(&self, loan: Loan<T, K>, value: T) -> Returned<T, K>
        requires loan { loan.table ≡ self.now.table }
        requires fits { F.fits self.now.key value }
        ensures { result ≡ loan }
    {
        let table = &self.table.shared;
        let Loan { mut seat, place } = loan;
        match table.exchange(&mut seat, place, Some(value)) {
            Some(_) => unreachable!(),
            None => {}
        }
        table.store::<Putting<T, K>>(&mut seat, place, 0);
        Returned { seat }
    }
}
