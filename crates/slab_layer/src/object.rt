//! Objects, whose state is in their type.
//!
//! *The idea* (Bonwick 1994, section 2). An object that goes back to its cache keeps its constructed state, so
//! that the next client finds it ready. The state of each object is a promise, and here a type: an object is
//! `Home` in a slab, with any bytes, `Ready` with its image, or `Held` by a client, who may write it.
//!
//! *The invariant.* An object has as many bytes as its kind says. Those of a ready object are the image.
//!
//! *The reason.* The four changes of state, and the client's writes, are the only ways to touch the bytes.
//! `construct` and `restore` write the image, `hold` and `retire` leave the bytes alone, and `write` exists for
//! a held object only. So what a client gets has its image, whoever had it before, with no test at run time.
//! An object has its memory with it from the day it was made, so none of this can fail.

ghost use Rattle.std.specs.Prelude.{◌≡◌, ℕ, ◌<◌, ◌+◌, ◌≤◌, replicate, length, if◌then◌else◌};
ghost use Rattle.slab_layer.specs.Images.{patched};
ghost use Rattle.slab_layer.specs.declared.kind.TheConstants.{SLOTS};

use crate::kind::Kind;
use std::marker::PhantomData;

/// The object lies in a slab.
pub struct Home;

/// The object has its image.
pub struct Ready;

/// The object is a client's.
pub struct Held;

/// A state of an object: `Home`, `Ready` or `Held`.
pub trait State {
    ghost use Rattle.std.specs.Prelude.{Bool};

    /// Whether an object in this state has its image.
    ghost imaged: { Bool };
}

impl State for Home {
    ghost use Rattle.std.specs.Prelude.{false};

    ghost imaged = { false };
}

impl State for Ready {
    ghost use Rattle.std.specs.Prelude.{true};

    ghost imaged = { true };
}

impl State for Held {
    ghost use Rattle.std.specs.Prelude.{false};

    ghost imaged = { false };
}

// Writes the image over all bytes. Their number is known when this is compiled, so a short image takes a few moves.
#[inline(always)]
fn write_image<K: Kind>(bytes: &mut [u8])
    requires { length bytes.old ≡ K.SIZE }
    ensures { bytes.new ≡ replicate K.SIZE K.FILL }
{
    bytes[..K::SIZE].fill(K::FILL);
}

/// An object of a kind in a state. It must be spent, and can't be dropped.
pub struct Obj<K: Kind, S: State> {
    // A whole word, so that an object is moved word by word.
    slot: u64,
    // In a box, so that these words are two: an object is moved often between its slab and its client.
    bytes: Box<Vec<u8>>,
    of: PhantomData<(K, S)>,
    pub ghost placed: { slot < SLOTS },
    pub ghost sized: { length bytes.value.items ≡ K.SIZE },
    pub ghost image: { (if S.imaged then bytes.value.items else replicate K.SIZE K.FILL) ≡ replicate K.SIZE K.FILL },
}

impl<K: Kind, S: State> Obj<K, S> {
    /// The number of the object's slot, `page * SLOTS_OF_A_PAGE + index`, below `SLOTS`. It stays for the object's life.
    pub fn slot(&self) -> u32
        ensures { result ≡ self.now.slot }
    {
        self.slot as u32
    }
}

impl<K: Kind> Obj<K, Home> {
    /// An object of this slot, which owns these bytes from now on.
    pub(crate) fn new(slot: u32, bytes: Box<Vec<u8>>) -> Obj<K, Home>
        requires placed { slot < SLOTS }
        requires sized { length bytes.value.items ≡ K.SIZE }
        ensures { result.slot ≡ slot }
    {
        Obj {
            slot: u64::from(slot),
            bytes,
            of: PhantomData,
        }
    }

    /// Ends the object, and frees its bytes.
    pub(crate) fn destroy(self) {
        let Obj {
            slot: _,
            bytes: _,
            of: _,
        } = self;
    }

    /// Writes the image, as a constructor does (Bonwick 1994, section 2.1).
    pub fn construct(self) -> Obj<K, Ready>
        ensures slot { result.slot ≡ self.slot }
        ensures image { result.bytes.value.items ≡ replicate K.SIZE K.FILL }
    {
        let Obj {
            slot,
            mut bytes,
            of: _,
        } = self;
        write_image::<K>(bytes.as_mut_slice());
        Obj {
            slot,
            bytes,
            of: PhantomData,
        }
    }
}

impl<K: Kind> Obj<K, Ready> {
    /// Gives the object to a client, who finds the image.
    pub fn hold(self) -> Obj<K, Held>
        ensures slot { result.slot ≡ self.slot }
        ensures bytes { result.bytes.value.items ≡ self.bytes.value.items }
        ensures image { result.bytes.value.items ≡ replicate K.SIZE K.FILL }
    {
        let Obj { slot, bytes, of: _ } = self;
        Obj {
            slot,
            bytes,
            of: PhantomData,
        }
    }

    /// Sends the object home, to a slab.
    pub fn retire(self) -> Obj<K, Home>
        ensures slot { result.slot ≡ self.slot }
        ensures bytes { result.bytes.value.items ≡ self.bytes.value.items }
    {
        let Obj { of: _, slot, bytes } = self;
        Obj {
            slot,
            bytes,
            of: PhantomData,
        }
    }
}

impl<K: Kind> Obj<K, Held> {
    /// The bytes, as many as the kind says.
    pub fn bytes(&self) -> &[u8]
        ensures value { result.now ≡ self.now.bytes.value.items }
        ensures size { length result.now ≡ K.SIZE }
    {
        self.bytes.as_slice()
    }

    /// Writes these bytes over those from `place` on.
    pub fn write(&mut self, place: usize, with: &[u8])
        requires { place + length with.now ≤ K.SIZE }
        ensures slot { self.new.slot ≡ self.old.slot }
        ensures bytes { self.new.bytes.value.items ≡ patched self.old.bytes.value.items place with.now }
    {
        let bytes = self.bytes.as_mut_slice();
        // Most writes are of a word: one move, where the number of bytes is known when this is compiled.
        if with.len() == 8 {
            bytes[place..place + 8].copy_from_slice(&with[..8]);
            return;
        }
        let end = place + with.len();
        bytes[place..end].copy_from_slice(with);
    }

    /// Writes the image again, when the client is done with the object.
    pub fn restore(self) -> Obj<K, Ready>
        ensures slot { result.slot ≡ self.slot }
        ensures image { result.bytes.value.items ≡ replicate K.SIZE K.FILL }
    {
        let Obj {
            slot,
            bytes: mut used,
            of: _,
        } = self;
        write_image::<K>(used.as_mut_slice());
        Obj {
            slot,
            bytes: used,
            of: PhantomData,
        }
    }
}
