//! What a program declares.

ghost use Rattle.std.specs.Prelude.{◌≡◌, ◌≤◌, ◌↔◌, IsSome, IfSome};
ghost use Rattle.ebpf_verify.specs.declared.decl.TheConstants.{MAX_CONTEXT, MAX_HELD};

/// The most bytes of a context.
pub const MAX_CONTEXT: u32 = 4096;

/// The most objects that a program may declare to hold at one time.
pub const MAX_HELD: u8 = 64;

/// What a program is verified for: the length of its context in bytes, 0 to [`MAX_CONTEXT`], and the most objects
/// that it may hold at one time, 0 to [`MAX_HELD`].
#[derive(Clone, Copy)]
pub struct Decl {
    pub context: u32,
    pub held: u8,
    ghost small: { context ≤ MAX_CONTEXT },
    ghost few: { held ≤ MAX_HELD },
}

impl Decl {
    /// The declaration, or `None` where a number is out of its range.
    pub fn new(context: u32, held: u8) -> Option<Decl>
        ensures some { IsSome result ↔ ((context ≤ MAX_CONTEXT) × (held ≤ MAX_HELD)) }
        ensures value { IfSome result (λ d. (d.context ≡ context) × (d.held ≡ held)) }
    {
        if context <= MAX_CONTEXT && held <= MAX_HELD {
            Some(Decl { context, held })
        } else {
            None
        }
    }
}
