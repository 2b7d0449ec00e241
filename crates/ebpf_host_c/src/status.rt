//! What a call returns.

/// The call did what it says.
pub const DONE: u32 = 0;

/// The bytes are refused.
pub const REFUSED: u32 = 1;

/// A declared number, of bytes or of objects, is out of its range.
pub const DECLARATION: u32 = 2;

/// The number of pages is out of its range.
pub const PAGES: u32 = 3;

/// The context doesn't have the declared length.
pub const CONTEXT: u32 = 4;

/// A handle holds nothing.
pub const EMPTY: u32 = 5;

/// An allocation failed.
pub const NO_MEMORY: u32 = 6;

/// No kind has the number.
pub const KIND: u32 = 7;

/// An object of the kind has fewer bytes.
pub const LENGTH: u32 = 8;

/// There is no page, or no memory, for one more object.
pub const NO_OBJECT: u32 = 9;

/// The number of workers is out of its range.
pub const WORKERS: u32 = 10;

/// As many workers are open as may be, or one is.
pub const BUSY: u32 = 11;
