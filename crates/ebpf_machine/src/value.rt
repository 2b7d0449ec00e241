//! Values of registers, and the cells of the stack.

/// The value of a register that is set.
#[derive(Clone, Copy)]
pub enum Value<N> {
    Number(u64),
    /// A byte counted from a base, before it or after it.
    Pointer { base: Base<N>, offset: i64 },
}

/// What the offset of a pointer is counted from.
///
/// `N` names an object. A run names an object by the slot of the call that was granted it: jumps lead forward, so each
/// call is made at most once. The world of many runs, which contracts alone see, names the object's slot too.
#[derive(Clone, Copy)]
pub enum Base<N> {
    /// The frame pointer: the end of the stack.
    Stack,
    /// The first byte of the context.
    Context,
    /// The first byte of an object.
    Object(N),
}

/// One of the 512 bytes of the stack.
#[derive(Clone, Copy)]
pub enum Cell<N> {
    Unset,
    Byte(u8),
    /// The part of this number, 0 to 7, of a pointer that was stored as a whole.
    Part(Value<N>, u8),
}
