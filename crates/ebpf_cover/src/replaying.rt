//! A store that answers a run as a report says.

ghost use Rattle.std.specs.Prelude.{◌≡◌, ◌<◌, None, length, IfSome};
ghost use Rattle.ebpf_insn.specs.declared.program.TheConstants.{MAX_SLOTS};
ghost use Rattle.ebpf_machine.specs.Kinds.{known_kinds};
ghost use Rattle.ebpf_shelves.specs.Store.{IsOut, out_of_kind};
ghost use Rattle.ebpf_cover.specs.Exchange.{IsExchange};

use ebpf_machine::objects::Objects;
use ebpf_machine::report::Reply;
use ebpf_shelves::object::Object;
use ebpf_shelves::store::Store;
use std::alloc::Global;

/// A store for one run. The call of number n is answered as the reply of number n says, while memory lasts: a call of `new` is granted
/// a fresh slot or answered null, and a call of `swap` gets the next of the taken bytes, in a fresh slot, or nothing.
#[derive(Drop)]
pub(crate) struct Replaying<'r> {
    inner: Store,
    answers: &'r [Reply],
    taken: &'r [u8],
    calls: usize,
    place: usize,
}

impl<'r> Replaying<'r> {
    /// A store that has answered nothing yet.
    pub(crate) fn new(alloc: Global, answers: &'r [Reply], taken: &'r [u8]) -> Replaying<'r> {
        Replaying {
            inner: Store::new(alloc, false),
            answers,
            taken,
            calls: 0,
            place: 0,
        }
    }

    // The reply to the next call, if there is one.
    fn next_reply(&mut self) -> Option<Reply>
        ensures { self.new.inner ≡ self.old.inner }
    {
        let reply = self.answers.get(self.calls).copied();
        self.calls = self.calls.saturating_add(1);
        reply
    }

    // What a call of `swap` gets: an object of the shelf's kind with the next of the taken bytes, where the next reply says so.
    fn fetch(&mut self, shelf: u8, at: u16) -> Option<Object>
        requires shelf { shelf < length known_kinds }
        requires at { at < MAX_SLOTS }
        ensures { IsExchange None result shelf self.old.inner.table.items self.new.inner.table.items }
    {
        let Some(Reply::Shelf) = self.next_reply() else {
            return None;
        };
        let mut object = self.inner.take(shelf, at)?;
        self.fill(&mut object);
        Some(object)
    }

    // Writes the next of the taken bytes into an object.
    fn fill(&mut self, object: &mut Object)
        ensures inner { self.new.inner ≡ self.old.inner }
        ensures same { (object.new.slot ≡ object.old.slot) × (object.new.kind ≡ object.old.kind) }
        ensures sized { length object.new.bytes.items ≡ length object.old.bytes.items }
    {
        'filled: for index in 0..object.bytes.len() {
            if let Some(byte) = self.taken.get(self.place) {
                object.bytes[index] = *byte;
            }
            self.place = self.place.saturating_add(1);
        }
    }
}

impl<'r> Objects for Replaying<'r> {
    ghost use Rattle.std.specs.Prelude.{◌≡◌, ◌<◌, ◌+◌, length, IfSome, IfNone};
    ghost use Rattle.ebpf_machine.specs.Kinds.{known_kinds};
    ghost use Rattle.ebpf_shelves.specs.Store.{IsOut, out_of_kind};
    ghost use Rattle.ebpf_insn.specs.declared.program.TheConstants.{MAX_SLOTS};
    ghost use Rattle.ebpf_cover.specs.Answering.{answering};
    ghost use Rattle.ebpf_cover.specs.Exchange.{IsExchange};

    type Held = Object;

    ghost store = { answering };

    fn take(&mut self, kind: u8, at: u16) -> Option<Object> {
        match self.next_reply() {
            Some(Reply::Granted) => self.inner.take(kind, at),
            _ => None,
        }
    }

    fn give(&mut self, kind: u8, object: Object) {
        self.inner.give(kind, object);
    }

    // Its clauses are those of the trait in words of this store, since no parameter of such a type takes them from there.
    fn swap(&mut self, shelf: u8, given: Option<Object>, at: u16) -> Option<Object>
        requires shelf { shelf < length known_kinds }
        requires at { at < MAX_SLOTS }
        requires given { IfSome given (λ g. IsOut self.old.inner.table.items g × (g.kind ≡ shelf)) }
        ensures exchanged { IsExchange given result shelf self.old.inner.table.items self.new.inner.table.items }
    {
        let got = self.fetch(shelf, at);
        if let Some(object) = given {
            self.inner.give(shelf, object);
        }
        got
    }

    fn bytes<'a>(&'a self, held: &'a Object) -> &'a [u8] {
        &held.bytes
    }

    fn write(&mut self, held: &mut Object, place: usize, bytes: &[u8]) {
        held.bytes[place..place + bytes.len()].copy_from_slice(bytes);
    }

    ghost has_size = { λ s o out. (out.sized.size, out.sized.known) };
}
