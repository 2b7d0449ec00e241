//! How far a stream of jobs is.

/// How many jobs were done and how many lines were read, and whether a line could not be read.
#[derive(Clone, Copy)]
pub struct Place {
    pub jobs: usize,
    pub lines: usize,
    pub faulty: bool,
}
