//! Whose a slot is, as one word.

ghost use Rattle.std.specs.Prelude.{◌≡◌, ◌<◌};
ghost use Rattle.owners_table.specs.Marking.{mark_word, IsMarkWord};
ghost use Rattle.owners_table.specs.declared.mark.TheConstants.{WORDS_OF_A_RUN};

/// How many words a run has: one for each instruction slot that a program can have. The words below this are no run's.
pub const WORDS_OF_A_RUN: u64 = 4096;

/// How many shelves can own slots. Their numbers are those below this.
pub const SHELVES: u8 = 8;

/// The run that owns a slot, and the call of its program that was granted it.
#[derive(Clone, Copy)]
pub struct Mark {
    /// The number of the run.
    pub run: u32,
    /// The instruction slot of the call, below `WORDS_OF_A_RUN`.
    pub at: u16,
    pub ghost short: { at < WORDS_OF_A_RUN },
}

/// Who owns a slot.
#[derive(Clone, Copy)]
pub enum Owner {
    /// A run, by a call of its program.
    Run(Mark),
    /// The shelf of this number, below `SHELVES`: the slot's object is there, or is on the way to it or from it.
    Shelf(u8),
}

impl Mark {
    /// The mark as a word of the table, `WORDS_OF_A_RUN` or more, so that 0 is left for a free slot and the next words for
    /// shelves.
    pub fn word(self) -> u64
        ensures value { result ≡ mark_word self.run self.at }
        ensures range { IsMarkWord result }
    {
        (u64::from(self.run) + 1) * WORDS_OF_A_RUN + u64::from(self.at)
    }

    // The one mark that has this word.
    pub(crate) fn of_word(word: u64) -> Mark
        requires { IsMarkWord word }
        ensures { mark_word result.run result.at ≡ word }
    {
        let run = (word / WORDS_OF_A_RUN - 1) as u32;
        let at = (word % WORDS_OF_A_RUN) as u16;
        Mark { run, at }
    }
}
