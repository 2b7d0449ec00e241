//! Boxes for what reports need beside their small numbers, made before runs begin.

ghost use Rattle.std.specs.Prelude.{◌≡◌, true, is_some, OnOk};
ghost use Rattle.worker_pool.specs.Fours.{HasEach};

use job_list::Rest;
use std::alloc::{AllocError, Global};

/// A box for the report of each of four runs, or none.
#[derive(Drop)]
pub(crate) struct Spares {
    pub(crate) one: Option<Box<Rest>>,
    pub(crate) two: Option<Box<Rest>>,
    pub(crate) three: Option<Box<Rest>>,
    pub(crate) four: Option<Box<Rest>>,
}

impl Spares {
    /// No box yet.
    pub(crate) fn new() -> Spares {
        Spares {
            one: None,
            two: None,
            three: None,
            four: None,
        }
    }

    /// Has a box for each.
    ///
    /// # Errors
    /// An allocation failed.
    pub(crate) fn have_each(&mut self, alloc: Global) -> Result<(), AllocError>
        ensures { OnOk result (HasEach self.new) }
    {
        have(alloc, &mut self.one)?;
        have(alloc, &mut self.two)?;
        have(alloc, &mut self.three)?;
        have(alloc, &mut self.four)
    }
}

/// Has a box.
///
/// # Errors
/// An allocation failed.
#[inline(always)]
pub(crate) fn have(alloc: Global, spare: &mut Option<Box<Rest>>) -> Result<(), AllocError>
    ensures { OnOk result (is_some spare.new ≡ true) }
{
    if spare.is_none() {
        *spare = Some(Rest::boxed(alloc)?);
    }
    Ok(())
}
