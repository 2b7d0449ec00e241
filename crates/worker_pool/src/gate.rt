//! Who learns how far the workers and the reaper are.

/// What a worker or the reaper has come to.
#[derive(Clone, Copy)]
pub enum Point {
    /// A job's first instruction comes next.
    Begin,
    /// A job's report is made.
    Answered,
    /// A pass of the reaper is over.
    Reaped,
}

/// Is called by each thread with how far it is, and may hold it up. No lock is held then. One worker does the jobs of a bundle, one after
/// another: so a gate that holds up a job until a neighbour is done may wait for ever.
pub trait Gate {
    /// A job of this number is at this point; or, at [`Point::Reaped`], a pass of the reaper.
    fn at(&self, job: u64, point: Point);
}

/// A gate that does nothing.
#[derive(Clone, Copy)]
pub struct NoGate;

impl Gate for NoGate {
    fn at(&self, _job: u64, _point: Point) {}
}
