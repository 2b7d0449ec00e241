//! How often the instruction at each slot of a program was executed, and how often another than the next one followed.

/// A count of each for every slot of the program.
#[derive(Drop)]
pub struct Counts {
    pub executed: Vec<u64>,
    pub taken: Vec<u64>,
}
