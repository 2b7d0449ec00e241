//! The objects of the world, and the store through which one of them passes to or from a run.

ghost use Rattle.std.specs.Prelude.{◌≡◌, ◌<◌, length, IfSome};
ghost use Rattle.std.specs.Option.{option_and_then};
ghost use Rattle.std.proofs.Props.{props};
ghost use Rattle.ebpf_machine.specs.World.{image_at};
ghost use Rattle.ebpf_machine.specs.Kinds.{known_kinds};
ghost use Rattle.ebpf_shelves.specs.Shelves.{slot_on};
ghost use Rattle.ebpf_core.specs.Passing.{AreAway, is_of_kind};

use ebpf_machine::kinds::row_of;
use ebpf_machine::objects::Objects;
use ebpf_shelves::object::Object;
use ebpf_shelves::shelves::Shelves;

/// The store of one instruction of a run. An object that is lent to it goes to the run where a call of `new` takes it, and
/// one that the run frees is here afterwards; a call of `swap` reaches the shelves; all others are out of the instruction's reach.
#[derive(Drop)]
pub struct Passing {
    object: Option<Object>,
    shelves: Shelves,
    ghost image: { IfSome object (λ o. o.bytes.items ≡ image_at known_kinds o.kind) } by { Prim.hlevel props },
    ghost known: { IfSome object (λ o. o.kind < length known_kinds) } by { Prim.hlevel props },
    ghost away: { AreAway object shelves } by { Prim.hlevel props },
}

impl Passing {
    /// A store that is lent this object, or none, over these shelves.
    pub(crate) fn new(object: Option<Object>, shelves: Shelves) -> Passing
        requires lent { IfSome object (λ o. (o.bytes.items ≡ image_at known_kinds o.kind) × (o.kind < length known_kinds)) }
        requires away { AreAway object shelves }
        ensures object { result.object ≡ object }
        ensures shelves { result.shelves ≡ shelves }
    {
        Passing { object, shelves }
    }

    /// The object that lies here after the instruction, where one does: it has its kind's image. And what is on the shelves.
    pub(crate) fn into_parts(self) -> (Option<Object>, Shelves)
        ensures same { result ≡ (self.object, self.shelves) }
        ensures image { IfSome result.0 (λ o. o.bytes.items ≡ image_at known_kinds o.kind) }
        ensures known { IfSome result.0 (λ o. o.kind < length known_kinds) }
    {
        (self.object, self.shelves)
    }
}

/// The slot of what is on the shelf that is reached, if one is.
pub(crate) fn slot_reached(shelves: &Shelves, reached: Option<u8>) -> Option<u32>
    ensures { result ≡ option_and_then (slot_on shelves.now) reached }
{
    shelves.slot_on(reached?)
}

// An object of this kind is here.
fn is_of_kind(object: &Option<Object>, kind: u8) -> bool
    ensures { result ≡ is_of_kind object.now kind }
{
    match object {
        Some(object) => object.kind == kind,
        None => false,
    }
}

// The object with its kind's fill in all its bytes.
fn restored(object: Object) -> Object
    requires size { length object.bytes.items ≡ length (image_at known_kinds object.kind) }
    requires known { object.kind < length known_kinds }
    ensures same { (result.slot ≡ object.slot) × (result.kind ≡ object.kind) }
    ensures image { result.bytes.items ≡ image_at known_kinds object.kind }
{
    let Object {
        slot,
        kind,
        mut bytes,
    } = object;
    bytes.as_mut_slice().fill(row_of(kind).fill);
    Object { slot, kind, bytes }
}

impl Objects for Passing {
    ghost use Rattle.std.specs.Prelude.{◌≡◌, ◌<◌, ◌+◌, length, None, IfSome, IfNone};
    ghost use Rattle.ebpf_machine.specs.Kinds.{known_kinds};
    ghost use Rattle.ebpf_shelves.specs.Shelves.{IsExchanged, StandsNone, StandsThere, standing_on};
    ghost use Rattle.ebpf_core.specs.Passing.{IsOut, Lends, LendsNone, out_of_kind};

    type Held = Object;

    ghost store = { record {
      kinds = known_kinds;
      kind_of = λ o. o.kind;
      slot_of = λ o. o.slot;
      is_out = λ p o. IsOut p.object p.shelves o;
      bytes_of = λ p o. o.bytes.items;
      can_grant = λ p kind at slot. Lends p.object kind at slot;
      can_refuse = λ p kind. LendsNone p.object kind;
      can_fetch = λ p shelf slot bytes. StandsThere p.shelves shelf slot bytes;
      can_miss = λ p shelf. StandsNone p.shelves shelf;
      stand = λ p shelf what. what ≡ standing_on p.shelves shelf;
      can_give = λ p. p.object ≡ None;
      outs = λ p kind. out_of_kind p.object p.shelves kind;
      goes = λ p told q. Unit {0};
      stays = λ p. tt;
      goes_on = λ p q r told more first then. tt;
    } };

    fn take(&mut self, kind: u8, _at: u16) -> Option<Object> {
        if is_of_kind(&self.object, kind) {
            return self.object.take();
        }
        None
    }

    fn give(&mut self, _kind: u8, object: Object) {
        self.object = Some(restored(object));
    }

    // Its clauses are those of the trait in words of this store, since no parameter of such a type takes them from there.
    fn swap(&mut self, shelf: u8, given: Option<Object>, _at: u16) -> Option<Object>
        requires shelf { shelf < length known_kinds }
        requires given { IfSome given (λ g. IsOut self.old.object self.old.shelves g × (g.kind ≡ shelf)) }
        ensures object { self.new.object ≡ self.old.object }
        ensures exchanged { IsExchanged shelf given result self.old.shelves self.new.shelves }
    {
        self.shelves.exchange(shelf, given)
    }

    fn bytes<'a>(&'a self, held: &'a Object) -> &'a [u8] {
        &held.bytes
    }

    fn write(&mut self, held: &mut Object, place: usize, bytes: &[u8]) {
        held.bytes[place..place + bytes.len()].copy_from_slice(bytes);
    }

    ghost has_size = { λ p o out. (out.sized.size, out.sized.known) };
}
