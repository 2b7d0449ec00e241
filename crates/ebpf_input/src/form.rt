//! How an input spells a program.

/// How an input spells the bytes of a program.
#[derive(Clone, Copy)]
pub enum Form {
    /// As hex digits: blanks may be anywhere between them.
    Hex,
    /// As the bytes themselves, whatever they are.
    Raw,
}
