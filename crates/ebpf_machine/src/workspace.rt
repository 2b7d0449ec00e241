//! The memory of a run, which outlives it.

ghost use Rattle.std.specs.Prelude.{◌≡◌, []};

use crate::parts::{ITEMS_APART, Parts};
use crate::registers::Registers;
use crate::stack::Stack;
use std::alloc::{AllocError, Global};

/// The memory of a run, in one box: its registers, its stack, and room for the objects that it holds. A run takes the box, and gives it back at its
/// end, so that the next one needs none. It must be freed.
pub struct Workspace<H> {
    // What the last run left in it doesn't matter, but for these lists.
    pub(crate) parts: Box<Parts<H>>,
    ghost held: { parts.value.held.items ≡ [] },
    ghost output: { parts.value.output.items ≡ [] },
    ghost replies: { parts.value.replies.items ≡ [] },
    ghost taken: { parts.value.taken.items ≡ [] },
}

impl<H> Workspace<H> {
    /// The memory of one run. It fails only where an allocation fails.
    pub fn new(alloc: Global) -> Result<Workspace<H>, AllocError> {
        Workspace::of(alloc, false)
    }

    /// The same, where runs write no line of the processor's cache on which anything else is: their lists take 128 bytes more each.
    pub fn apart(alloc: Global) -> Result<Workspace<H>, AllocError> {
        Workspace::of(alloc, true)
    }

    fn of(alloc: Global, is_apart: bool) -> Result<Workspace<H>, AllocError> {
        let parts = Parts {
            before: [0; ITEMS_APART],
            is_apart,
            pc: 0,
            registers: Registers::new(),
            stack: Stack::new(),
            output: Vec::new(alloc),
            held: Vec::new(alloc),
            replies: Vec::new(alloc),
            taken: Vec::new(alloc),
            exit: None,
            executed: 0,
            peak: 0,
            after: [0; ITEMS_APART],
        };
        match Box::new(alloc, parts) {
            Ok(parts) => Ok(Workspace { parts }),
            Err(failed) => {
                failed.value.free();
                Err(AllocError)
            }
        }
    }

    /// Frees the memory.
    pub fn free(self) {
        let Workspace { parts } = self;
        Box::into_inner(parts).free();
    }
}
