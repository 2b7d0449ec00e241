//! The store of a worker's runs.
//!
//! It answers the calls of `new`, `free` and `swap` of the runs that the worker makes, from what it shares with others. A worker does one
//! run at a time, and a run ends holding nothing: so the mark by which it owns a slot has the worker's number.

ghost use Rattle.std.specs.Prelude.{◌≡◌, ◌+◌, ◌<◌, ℕ, option_map, IfOk, IfSome, IsTrue, length};
ghost use Rattle.std.specs.Arc.{arc_value};
ghost use Rattle.ebpf_machine.specs.Kinds.{known_kinds};
ghost use Rattle.ebpf_object.specs.Object.{kind_of, slot_of};
ghost use Rattle.owners_table.specs.Marking.{mark_word};
ghost use Rattle.owners_table.specs.Owning.{Holds};
ghost use Rattle.owners_table.specs.declared.mark.TheConstants.{WORDS_OF_A_RUN};
ghost use Rattle.ebpf_owned.specs.Exchanges.{HasPassed, one_if};
ghost use Rattle.shared_store.specs.Tools.{AreOf, AreStocks, HaveAnswered, HoldNothing, Replies, held_at, puts_at, stock_at};
ghost use Rattle.shared_cache.specs.HandView.{IsLaden};
ghost use Rattle.ebpf_object.specs.KindName.{number_of as kind_number};

use crate::house::{Home, House};
use crate::tools::Tools;
use ebpf_machine::objects::Objects;
use ebpf_object::{KindName, Object};
use owners_table::mark::Mark;
use std::sync::Arc;
use thiserror::Error;

// How many words are unused before and after what a worker writes: two lines of the processor's cache, since they may be fetched together.
const WORDS_APART: usize = 16;

/// Why no worker was opened.
#[derive(Clone, Copy, Debug, Error)]
pub enum OpenFault {
    /// It is open, or all are.
    #[error("all workers are open")]
    Busy,
    /// An allocation failed.
    #[error("no memory")]
    NoMemory,
}

/// What a worker takes objects from, and the tools by which it does. It must be ended, when it holds nothing: its tools go home then.
pub struct Store {
    // It and `after` keep what other threads use off the lines of the processor's cache on which runs write here.
    before: [u64; WORDS_APART],
    pub(crate) house: Arc<House>,
    pub(crate) tools: Tools,
    pub(crate) home: Home,
    // The worker's number.
    pub(crate) worker: u32,
    after: [u64; WORDS_APART],
    ghost of: { AreOf (arc_value house).commons tools },
    ghost home_is: { home.table ≡ (arc_value house).homes.table },
}

impl Store {
    /// Takes the tools of a worker that isn't open.
    ///
    /// # Errors
    /// `Busy` if it is open; `NoMemory` if what is shared has as many owners as can be counted.
    pub(crate) fn open(house: &Arc<House>, worker: u32) -> Result<Store, OpenFault>
        requires { worker < (arc_value house.now).homes.places }
        ensures none { IfOk result (λ s. HoldNothing s.tools) }
    {
        let Ok(house) = Arc::try_clone(house) else {
            return Err(OpenFault::NoMemory);
        };
        let Ok((tools, home)) = house.homes.take(worker as usize) else {
            return Err(OpenFault::Busy);
        };
        Ok(Store {
            before: [0; WORDS_APART],
            house,
            tools,
            home,
            worker,
            after: [0; WORDS_APART],
        })
    }

    /// Whether there is room for an object that comes off the shelf of a kind, also for that of the host. What the worker has of the kind is sent
    /// home to make some.
    pub fn can_get(&mut self, kind: KindName) -> bool
        ensures room { IsTrue result → IsLaden (stock_at self.new.tools (kind_number kind)).hand → ⊥ }
        ensures same { (k : ℕ) → held_at self.new.tools k ≡ held_at self.old.tools k }
        ensures answered { HaveAnswered self.old.tools self.new.tools 0 0 0 }
        ensures puts { (k : ℕ) → puts_at self.new.tools k ≡ puts_at self.old.tools k }
    {
        self.tools.can_get(&self.house.commons, kind)
    }

    /// Ends a store that holds nothing. Its tools are at home then, for the next that opens a worker of this number. What they kept goes back to the
    /// caches first, but for objects of kinds whose slabs another thread has for too long.
    pub fn end(self)
        requires { HoldNothing self.tools }
    {
        let Store {
            before: _,
            house,
            mut tools,
            home,
            worker: _,
            after: _,
        } = self;
        let _is_empty = tools.flush(&house.commons);
        house.homes.put(home, tools);
    }
}

impl Objects for Store {
    ghost use Rattle.std.specs.Prelude.{◌≡◌, ◌≢◌, ◌<◌, ◌+◌, ℕ, length, Option, option_map, IfSome, IfNone};
    ghost use Rattle.ebpf_machine.specs.Kinds.{known_kinds};
    ghost use Rattle.ebpf_object.specs.Object.{kind_of, bytes_of, has_size, number_of, slot_of};
    ghost use Rattle.owners_table.specs.Marking.{mark_word};
    ghost use Rattle.owners_table.specs.Owning.{Holds};
    ghost use Rattle.ebpf_owned.specs.Exchanges.{HasPassed, one_if};
    ghost use Rattle.shared_cache.specs.HandView.{IsLaden};
    ghost use Rattle.shared_store.specs.Tools.{AreStocks, Replies, held_at, puts_at, stock_at};
    ghost use Rattle.shared_store.specs.Going.{GoesBy, answered_on, none_answered};

    type Held = Object;

    // An object is out while a seat holds its slot. Any call may be refused, and any slot that is free be granted. Anything may come
    // off a shelf, or nothing, since other workers change it.
    ghost store = { record {
      kinds = known_kinds;
      kind_of = λ o. kind_of o;
      slot_of = λ o. number_of o;
      is_out = λ s o. Holds (slot_of o) (held_at s.tools (kind_of o));
      bytes_of = λ s o. bytes_of o;
      can_grant = λ s kind at slot. Unit {0};
      can_refuse = λ s kind. Unit {0};
      can_fetch = λ s shelf slot bytes. Unit {0};
      can_miss = λ s shelf. Unit {0};
      stand = λ s shelf what. ⊥;
      can_give = λ s. Unit {0};
      outs = λ s kind. length (held_at s.tools kind);
      goes = λ s told t. GoesBy s.tools told t.tools;
      stays = λ s. none_answered s.tools;
      goes_on = λ s t u told more first then. answered_on s.tools t.tools u.tools told more first then;
    } };

    fn take(&mut self, kind: u8, at: u16) -> Option<Object> {
        let mark = Mark {
            run: self.worker,
            at,
        };
        self.tools.take(&self.house.commons, kind, mark)
    }

    #[inline(always)]
    fn give(&mut self, _kind: u8, object: Object) {
        self.tools.known();
        self.tools.give(&self.house.commons, object);
    }

    // Its clauses are those of the trait in words of this store, since no parameter of such a type takes them from there.
    fn swap(&mut self, shelf: u8, given: Option<Object>, at: u16) -> Option<Object>
        requires shelf { shelf < length known_kinds }
        requires at { at < WORDS_OF_A_RUN }
        requires given { IfSome given (λ g. Holds (slot_of g) (held_at self.old.tools (kind_of g)) × (kind_of g ≡ shelf)) }
        ensures kind { IfSome result (λ o. kind_of o ≡ shelf) }
        ensures passed { HasPassed (option_map slot_of given) (option_map slot_of result) (mark_word self.old.worker at)
            (held_at self.old.tools shelf) (held_at self.new.tools shelf) }
        ensures replies { Replies shelf 0 0 (one_if result) self.old.tools self.new.tools }
        ensures stocks { AreStocks self.old.tools }
        ensures put { (IsLaden (stock_at self.old.tools shelf).hand → ⊥) → puts_at self.new.tools shelf ≡ puts_at self.old.tools shelf + one_if given }
    {
        let mark = Mark {
            run: self.worker,
            at,
        };
        self.tools.known();
        self.tools.swap(&self.house.commons, shelf, given, mark)
    }

    fn bytes<'a>(&'a self, held: &'a Object) -> &'a [u8] {
        held.bytes()
    }

    fn write(&mut self, held: &mut Object, place: usize, bytes: &[u8]) {
        held.write(place, bytes);
    }

    ghost has_size = { λ s o out. has_size o };
}
