//! The stocks of a machine as the store of its runs.

ghost use Rattle.std.specs.Prelude.{◌≡◌, ◌<◌, option_map, IfSome, length};
ghost use Rattle.ebpf_machine.specs.Kinds.{known_kinds};
ghost use Rattle.ebpf_object.specs.Object.{kind_of};
ghost use Rattle.ebpf_host.specs.Stock.{Exchanges};
ghost use Rattle.ebpf_host.specs.Stocks.{Holds, OthersStay, as_shelved, stock_of};

use crate::stocks::Stocks;
use ebpf_machine::objects::Objects;
use ebpf_object::Object;

impl Objects for Stocks {
    ghost use Rattle.std.specs.Prelude.{◌≡◌, ◌≢◌, ◌<◌, ◌+◌, ℕ, length, Option, option_map, IfSome, IfNone};
    ghost use Rattle.std.proofs.Common.{refl, ◌∙◌};
    ghost use Rattle.ebpf_machine.specs.Kinds.{known_kinds};
    ghost use Rattle.ebpf_object.specs.Object.{kind_of, bytes_of, has_size};
    ghost use Rattle.ebpf_host.specs.Stock.{Exchanges};
    ghost use Rattle.ebpf_host.specs.Stocks.{Holds, OthersStay, StandsThere, StandsNone, as_shelved, held_of, number_of, standing_on, stock_of};

    type Held = Object;

    // Any call of `new` may be refused, and any slot that no run holds be granted. What comes off a shelf is what is there. The arena
    // keeps its pages.
    ghost store = { record {
      kinds = known_kinds;
      kind_of = λ o. kind_of o;
      slot_of = λ o. number_of o;
      is_out = λ s o. Holds s o;
      bytes_of = λ s o. bytes_of o;
      can_grant = λ s kind at slot. Unit {0};
      can_refuse = λ s kind. Unit {0};
      can_fetch = λ s shelf slot bytes. StandsThere s shelf slot bytes;
      can_miss = λ s shelf. StandsNone s shelf;
      stand = λ s shelf what. what ≡ standing_on s shelf;
      can_give = λ s. Unit {0};
      outs = λ s kind. held_of s kind;
      goes = λ s told t. t.arena.pages ≡ s.arena.pages;
      stays = λ s. refl;
      goes_on = λ s t u told more first then. then ∙ first;
    } };

    fn take(&mut self, kind: u8, _at: u16) -> Option<Object> {
        Stocks::take(self, kind)
    }

    fn give(&mut self, _kind: u8, object: Object) {
        Stocks::give(self, object);
    }

    // Its clauses are those of the trait in words of this store, since no parameter of such a type takes them from there.
    fn swap(&mut self, shelf: u8, given: Option<Object>, _at: u16) -> Option<Object>
        requires shelf { shelf < length known_kinds }
        requires given { IfSome given (λ g. Holds self.old g × (kind_of g ≡ shelf)) }
        ensures kind { IfSome result (λ o. kind_of o ≡ shelf) }
        ensures exchanged { Exchanges (stock_of self.old shelf) (stock_of self.new shelf) (option_map as_shelved given) (option_map as_shelved result) }
        ensures others { OthersStay self.old self.new shelf }
        ensures pages { self.new.arena.pages ≡ self.old.arena.pages }
    {
        Stocks::swap(self, shelf, given)
    }

    fn bytes<'a>(&'a self, held: &'a Object) -> &'a [u8] {
        held.bytes()
    }

    fn write(&mut self, held: &mut Object, place: usize, bytes: &[u8]) {
        held.write(place, bytes);
    }

    ghost has_size = { λ s o out. has_size o };
}
