//! What a reader of scripts keeps from line to line.

use crate::again::Beginning;
use crate::words::Words;
use std::alloc::Global;

/// Memory that each line uses again, and how the last line began.
#[derive(Drop)]
pub(crate) struct Kept<'a> {
    /// Room for the words of a line.
    pub(crate) words: Words<'a>,
    /// Room for the context of a job.
    pub(crate) context: Vec<u8>,
    /// How the last line began, where it was one of a job.
    pub(crate) beginning: Option<Beginning<'a>>,
}

impl<'a> Kept<'a> {
    ghost use Rattle.std.specs.Prelude.{◌≡◌, None};

    /// No words, no bytes, and no line.
    pub(crate) fn new(alloc: Global) -> Kept<'a>
        ensures { result.beginning ≡ None }
    {
        Kept {
            words: Words::none(),
            context: Vec::new(alloc),
            beginning: None,
        }
    }
}
