//! What the search knows of a slot.

/// How far the search has come with a slot.
#[derive(Clone, Copy)]
pub enum Mark {
    /// It has not come to it.
    New,
    /// It is on the path, as the one of this number.
    Open(usize),
    /// It is in the order, as the one of this number, after all that it leads to.
    Done(usize),
}
