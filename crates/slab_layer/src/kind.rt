//! Kinds of object.
//!
//! *The idea* (Bonwick 1994, section 2). A cache holds objects of one kind, each with its state already
//! constructed. Here that state is an image: a fill byte, repeated.
//!
//! *The invariant.* The constants of a kind are those of one row of the table:
//!
//! | number | name | bytes | fill | rounds of a magazine | objects of a page |
//! |---|---|---|---|---|---|
//! | 0 | cell | 16 | 0x00 | 8 | 256 |
//! | 1 | record | 64 | 0xff | 4 | 64 |
//! | 2 | block | 512 | 0x5a | 2 | 8 |
//!
//! *The reason.* Code that is generic in the kind can rely on the table: a page has at least one object and at
//! most `SLOTS_OF_A_PAGE`, so that each has a slot of its own among those of its page.

ghost use Rattle.std.specs.Prelude.{◌≡◌, ◌≤◌, ◌<◌, ◌/◌, ℕ};
ghost use Rattle.slab_layer.specs.declared.kind.TheConstants.{PAGE_BYTES, SLOTS_OF_A_PAGE};

use vmem_arena::MAX_PAGES;

/// The bytes of a page.
pub const PAGE_BYTES: usize = 4096;

/// How many slots a page has. The slot of its object with some index is `page * SLOTS_OF_A_PAGE + index`.
pub const SLOTS_OF_A_PAGE: u32 = 256;

/// How many slots all pages have. The number of a slot is below this.
pub const SLOTS: u32 = MAX_PAGES * SLOTS_OF_A_PAGE;

/// A kind of object, which is a row of the table above.
pub trait Kind {
    ghost use Rattle.std.specs.Prelude.{ℕ, ◌/◌};
    ghost use Rattle.slab_layer.specs.declared.kind.TheConstants.{PAGE_BYTES};
    ghost use Rattle.slab_layer.specs.Kinds.{IsRow};

    ghost NUMBER: { ℕ };

    ghost SIZE: { ℕ };

    ghost FILL: { ℕ };

    ghost ROUNDS: { ℕ };

    /// The number by which programs name the kind.
    const NUMBER: u8;

    /// The bytes of an object.
    const SIZE: usize;

    /// The byte that the image repeats.
    const FILL: u8;

    /// How many objects a magazine of this kind takes.
    const ROUNDS: usize;

    /// The constants are those of one row.
    ghost is_row: { IsRow (record { number = NUMBER; size = SIZE; fill = FILL; rounds = ROUNDS; objects = PAGE_BYTES / SIZE }) };
}

/// Objects of 16 bytes, all 0x00.
pub struct CellKind;

impl Kind for CellKind {
    ghost use Rattle.std.proofs.Common.{inl, inr, refl};

    ghost NUMBER = { 0 };

    ghost SIZE = { 16 };

    ghost FILL = { 0 };

    ghost ROUNDS = { 8 };

    const NUMBER: u8 = 0;

    const SIZE: usize = 16;

    const FILL: u8 = 0x00;

    const ROUNDS: usize = 8;

    ghost is_row = { inl refl };
}

/// Objects of 64 bytes, all 0xff.
pub struct RecordKind;

impl Kind for RecordKind {
    ghost use Rattle.std.proofs.Common.{inl, inr, refl};

    ghost NUMBER = { 1 };

    ghost SIZE = { 64 };

    ghost FILL = { 255 };

    ghost ROUNDS = { 4 };

    const NUMBER: u8 = 1;

    const SIZE: usize = 64;

    const FILL: u8 = 0xff;

    const ROUNDS: usize = 4;

    ghost is_row = { inr (inl refl) };
}

/// Objects of 512 bytes, all 0x5a.
pub struct BlockKind;

impl Kind for BlockKind {
    ghost use Rattle.std.proofs.Common.{inl, inr, refl};

    ghost NUMBER = { 2 };

    ghost SIZE = { 512 };

    ghost FILL = { 90 };

    ghost ROUNDS = { 2 };

    const NUMBER: u8 = 2;

    const SIZE: usize = 512;

    const FILL: u8 = 0x5a;

    const ROUNDS: usize = 2;

    ghost is_row = { inr (inr refl) };
}

/// How many objects of the kind a page has: 256, 64 or 8.
pub fn objects_of_a_page<K: Kind>() -> usize
    ensures value { result ≡ PAGE_BYTES / K.SIZE }
    ensures some { 0 < result }
    ensures most { result ≤ SLOTS_OF_A_PAGE }
{
    PAGE_BYTES / K::SIZE
}
