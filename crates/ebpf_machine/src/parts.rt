//! What a run is made of.

ghost use Rattle.std.specs.Prelude.{◌≡◌, []};

use crate::holding::Holding;
use crate::registers::Registers;
use crate::report::Reply;
use crate::stack::Stack;

/// How many bytes are unused before and after what a run writes, where that is on lines of the processor's cache of its own: two lines,
/// since they may be fetched together.
pub(crate) const BYTES_APART: usize = 128;

/// How many items of eight bytes or more take as much.
pub(crate) const ITEMS_APART: usize = 16;

/// What a run changes, of which nothing is promised: `crate::run::Run` says what always holds of it and of what stays fixed.
#[derive(Drop)]
pub(crate) struct Parts<H> {
    // It and `after` keep what other threads write off the lines of what is between them.
    pub(crate) before: [u64; ITEMS_APART],
    // Whether the lists leave as much room unused after their items.
    pub(crate) is_apart: bool,
    pub(crate) pc: usize,
    pub(crate) registers: Registers,
    pub(crate) stack: Stack,
    pub(crate) output: Vec<u64>,
    pub(crate) held: Vec<Holding<H>>,
    pub(crate) replies: Vec<Reply>,
    pub(crate) taken: Vec<u8>,
    pub(crate) exit: Option<u64>,
    pub(crate) executed: u64,
    pub(crate) peak: u64,
    pub(crate) after: [u64; ITEMS_APART],
}

impl<H> Parts<H> {
    /// Frees the memory of a run that holds nothing.
    pub(crate) fn free(self)
        requires { self.held.items ≡ [] }
    {
        let Parts { held, .. } = self;
        held.destroy_empty();
    }
}
