//! What the world answers to a call of `new`.

/// What an event brings to a call of `new`.
#[derive(Clone, Copy)]
pub enum Answer {
    /// Nothing: the instruction is no call of `new`.
    Absent,
    /// The call is refused.
    Null,
    /// The call is granted this slot.
    Slot(u32),
}
