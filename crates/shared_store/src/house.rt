//! What workers share, and the places for the tools of those that aren't open.

ghost use Rattle.std.specs.Prelude.{◌≡◌};

use crate::commons::Commons;
use crate::tools::Tools;
use lending_row::{Fitting, LendingRow, Loan};

/// Tools that are at home belong to what is shared, and hold nothing.
pub struct AtHome;

impl Fitting<Tools, Commons> for AtHome {
    ghost use Rattle.shared_store.specs.Tools.{AreAtHome};

    ghost fits = { AreAtHome };
}

/// A place for the tools of each worker: empty while the worker is open.
pub type Homes = LendingRow<Tools, Commons, AtHome>;

/// The right to bring tools back.
pub type Home = Loan<Tools, Commons>;

/// What workers share, with their tools while they aren't open.
#[derive(Drop)]
pub struct House {
    pub(crate) commons: Commons,
    pub(crate) homes: Homes,
    ghost told: { homes.key ≡ commons },
}
