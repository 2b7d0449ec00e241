//! A part of both books of a shelf that no hand has.

ghost use Rattle.std.specs.Prelude.{◌≡◌};

use std::sync::ledger::{Ledger, Share};

/// One part of each book, of which nothing was counted.
#[derive(Drop)]
pub struct Spare<A: Ledger, B: Ledger> {
    puts: Share<A>,
    gets: Share<B>,
    ghost one_each: { (puts.parts ≡ 1) × (gets.parts ≡ 1) },
    ghost unused: { (puts.amount ≡ 0) × (gets.amount ≡ 0) },
}

impl<A: Ledger, B: Ledger> Spare<A, B> {
    /// The part that these are.
    pub fn new(puts: Share<A>, gets: Share<B>) -> Spare<A, B>
        requires one_each { (puts.parts ≡ 1) × (gets.parts ≡ 1) }
        requires unused { (puts.amount ≡ 0) × (gets.amount ≡ 0) }
    {
        Spare { puts, gets }
    }

    /// Its shares.
    pub fn end(self) -> (Share<A>, Share<B>)
        ensures one_each { (result.0.parts ≡ 1) × (result.1.parts ≡ 1) }
        ensures unused { (result.0.amount ≡ 0) × (result.1.amount ≡ 0) }
    {
        (self.puts, self.gets)
    }
}
