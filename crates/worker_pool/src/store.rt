//! The store of a worker's runs.

ghost use Rattle.std.specs.Prelude.{◌≡◌, ◌≤◌, ◌<◌, ◌+◌, ◌^◌, ◌⊎◌, ℕ, [], length, option_map, IfSome, IfNone};
ghost use Rattle.ebpf_machine.specs.Store.{one_of};
ghost use Rattle.object_cache.specs.ShelfView.{one_if};
ghost use Rattle.owners_table.specs.Marking.{mark_word};
ghost use Rattle.owners_table.specs.Owning.{Holds};
ghost use Rattle.owners_table.specs.declared.mark.TheConstants.{WORDS_OF_A_RUN};
ghost use Rattle.worker_pool.specs.EachKind.{unused_hands, all_allocs, all_gets, outs_of, hands_of};
ghost use Rattle.ebpf_owned.specs.Claims.{IsStray};
ghost use Rattle.ebpf_owned.specs.Exchanges.{HasSwapped, IsSwappable};
ghost use Rattle.worker_pool.specs.Counts.{all_come, all_gone};
ghost use Rattle.worker_pool.specs.Going.{HasAnswered, GoesBy, answered_on, none_answered, tools_of};
ghost use Rattle.ebpf_object.specs.Object.{kind_of, slot_of};

use crate::client::Client;
use crate::each_kind::Stocks;
use crate::hands::Tools;
use crate::ledgers::Names;
use ebpf_machine::objects::Objects;
use ebpf_owned::{Owned, slot_in};
use std::sync::Wait;

/// A worker's client and its stocks.
///
/// Each object that came out of a cache was claimed, and each that came off a shelf was tried to be fetched. Those that the seat
/// holds came from there, and went neither back nor onto a shelf.
pub struct Store<'a, L: Names, R: Wait> {
    pub(crate) client: Client<'a, R>,
    pub(crate) stocks: Stocks<'a, L>,
    ghost noted: { all_allocs (hands_of stocks) ≤ length client.seat.notes },
    ghost fetched: { all_gets (hands_of stocks) ≤ length client.seat.fetches },
    ghost held: { length client.seat.held + all_gone (hands_of stocks) ≡ all_come (hands_of stocks) },
    ghost clashes: { client.clashes ≤ all_allocs (hands_of stocks) },
    ghost strays: { client.strays ≤ all_gets (hands_of stocks) },
}

impl<'a, L: Names, R: Wait> Store<'a, L, R> {
    /// A store with nothing out, of hands that did nothing.
    pub(crate) fn new(client: Client<'a, R>, stocks: Stocks<'a, L>) -> Store<'a, L, R>
        requires empty { client.seat.held ≡ [] }
        requires none { (client.clashes ≡ 0) × (client.strays ≡ 0) }
        requires hands { hands_of stocks ≡ unused_hands }
        ensures client { (result.client.seat ≡ client.entry.seat) × (result.client.clashes ≡ 0) × (result.client.strays ≡ 0) }
        ensures hands { hands_of result.stocks ≡ unused_hands }
    {
        Store { client, stocks }
    }

    /// Its hands and its seat, back, with its counts.
    pub(crate) fn end(self) -> Tools<L>
        ensures hands { result.hands ≡ hands_of self.entry.stocks }
        ensures seat { result.seat ≡ self.entry.client.seat }
        ensures counts { (result.clashes ≡ self.entry.client.clashes) × (result.strays ≡ self.entry.client.strays) }
    {
        let Store { client, stocks } = self;
        let (seat, clashes, strays) = client.end();
        Tools {
            hands: stocks.end(),
            seat,
            clashes,
            strays,
        }
    }
}

impl<'a, L: Names, R: Wait> Objects for Store<'a, L, R> {
    ghost use Rattle.std.specs.Prelude.{◌≡◌, ◌<◌, ◌+◌, ◌⊎◌, ℕ, option_map, IfSome, IfNone};
    ghost use Rattle.owners_table.specs.Marking.{mark_word};
    ghost use Rattle.ebpf_owned.specs.Claims.{IsStray};
    ghost use Rattle.ebpf_owned.specs.Exchanges.{HasSwapped, IsSwappable};
    ghost use Rattle.worker_pool.specs.EachKind.{hands_of, outs_of};
    ghost use Rattle.ebpf_machine.specs.Kinds.{known_kinds};
    ghost use Rattle.ebpf_machine.specs.Store.{one_of};
    ghost use Rattle.object_cache.specs.ShelfView.{one_if};
    ghost use Rattle.owners_table.specs.Owning.{Holds};
    ghost use Rattle.owners_table.specs.declared.mark.TheConstants.{WORDS_OF_A_RUN};
    ghost use Rattle.worker_pool.specs.Going.{HasAnswered, GoesBy, answered_on, none_answered, tools_of};
    ghost use Rattle.ebpf_object.specs.Object.{kind_of, bytes_of, has_size, slot_of};

    type Held = Owned;

    // An object is out while the seat holds its slot. Any call may be refused, and any slot that is free be granted. Anything may
    // come off a shelf, or nothing, since other workers change it.
    ghost store = { record {
      kinds = known_kinds;
      kind_of = λ o. kind_of o;
      slot_of = λ o. slot_of o;
      is_out = λ s o. Holds (slot_of o) s.client.seat.held;
      bytes_of = λ s o. bytes_of o;
      can_grant = λ s kind at slot. Unit {0};
      can_refuse = λ s kind. Unit {0};
      can_fetch = λ s shelf slot bytes. Unit {0};
      can_miss = λ s shelf. Unit {0};
      stand = λ s shelf what. ⊥;
      can_give = λ s. Unit {0};
      outs = λ s kind. outs_of (hands_of s.stocks) kind;
      goes = λ s told t. GoesBy (tools_of s.stocks s.client) told (tools_of t.stocks t.client);
      stays = λ s. none_answered (tools_of s.stocks s.client);
      goes_on = λ s t u told more first then.
          answered_on (tools_of s.stocks s.client) (tools_of t.stocks t.client) (tools_of u.stocks u.client) told more first then;
    } };

    // The object goes back where its slot has an owner.
    fn take(&mut self, kind: u8, at: u16) -> Option<Owned> {
        let Some(object) = self.stocks.take(self.client.rt, self.client.arena, kind) else {
            return None;
        };
        match self.client.claim(object, at) {
            Ok(owned) => Some(owned),
            Err(object) => {
                self.stocks.give(self.client.rt, object);
                None
            }
        }
    }

    #[inline(always)]
    fn give(&mut self, _kind: u8, object: Owned) {
        let bare = self.client.release(object);
        self.stocks.give(self.client.rt, bare);
    }

    // The slot of what is given is the shelf's before it is there, and that of what comes off is claimed for the job and for the call at
    // this slot of its program after that. None where nothing was there, or where what was is a stray, whose slot couldn't be fetched:
    // that goes back to the cache. Its clauses are those of the trait in words of this store, since no parameter of such a type takes
    // them from there.
    fn swap(&mut self, shelf: u8, given: Option<Owned>, at: u16) -> Option<Owned>
        requires shelf { shelf < 3 }
        requires at { at < WORDS_OF_A_RUN }
        requires given { IsSwappable given shelf self.old.client.seat.held }
        ensures seat { HasSwapped given result (mark_word self.old.client.job at) self.old.client.seat.held self.new.client.seat.held }
        ensures kind { IfSome result (λ h. kind_of h ≡ shelf) }
        // Where nothing is got, a stray is counted only with its cause.
        ensures due { IfNone result ((self.new.client.strays ≡ self.old.client.strays) ⊎ ((slot : ℕ) ×
            IsStray shelf (option_map slot_of given) slot self.old.client.seat.fetches self.new.client.seat.fetches)) }
        ensures goes { HasAnswered (tools_of self.old.stocks self.old.client) (tools_of self.new.stocks self.new.client) 0 0 (one_if result) }
        ensures outs { (k : ℕ) → outs_of (hands_of self.new.stocks) k + one_of given shelf k ≡
            outs_of (hands_of self.old.stocks) k + one_of result shelf k }
    {
        let left = slot_in(&given);
        let given = self.client.shelved(given, shelf);
        let Some(object) = self.stocks.swap(self.client.rt, shelf, given) else {
            return None;
        };
        match self.client.fetch(object, shelf, left, at) {
            Ok(owned) => Some(owned),
            Err(stray) => {
                self.stocks.give(self.client.rt, stray);
                None
            }
        }
    }

    fn bytes<'b>(&'b self, held: &'b Owned) -> &'b [u8] {
        held.bytes()
    }

    fn write(&mut self, held: &mut Owned, place: usize, bytes: &[u8]) {
        held.write(place, bytes);
    }

    ghost has_size = { λ s o out. has_size o };
}
