//! Why an arena refuses.
//!
//! *The idea.* An arena is refused once, when it is made; a span whenever no run of free pages is as long. What
//! a caller can do about the two differs, so they are two types.

use thiserror::Error;

/// Why no arena was made.
#[derive(Clone, Copy, Debug, Error)]
pub enum ArenaFault {
    /// An arena has 1 to 256 pages.
    #[error("an arena has 1 to 256 pages")]
    Pages,
    /// The table of segments found no memory.
    #[error("out of memory")]
    NoMemory,
}

/// No run of free pages is as long as the span that was asked for.
#[derive(Clone, Copy, Debug, Error)]
#[error("no run of free pages is as long")]
pub struct NoSpan;
