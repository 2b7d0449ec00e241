//! Why a hand is refused an object.

use thiserror::Error;

/// Why a hand was given no object.
#[derive(Clone, Copy, Debug, Error)]
pub enum TakeFault {
    /// The arena has no free page, or gave one that the cache has already, which went back.
    #[error("no page is free")]
    NoSpan,
    /// The objects of one more page found no memory, and the page went back.
    #[error("out of memory")]
    NoMemory,
    /// Another thread had the slabs, or the arena, each time that the hand looked.
    #[error("another thread is at the slabs")]
    Busy,
    /// What the hand has lent and what lies aside are 128 objects, or it has lent 2^56 in all.
    #[error("the hand has lent as many objects as it may")]
    Full,
}
