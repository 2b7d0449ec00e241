//! How an answer is written.

/// How an answer is written.
#[derive(Clone, Copy)]
pub enum Format {
    /// As lines for people.
    Text,
    /// As JSON Lines: an object on each line, for other programs.
    Json,
}
