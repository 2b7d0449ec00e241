//! What a shelf still holds when no run is left.

ghost use Rattle.std.specs.Prelude.{◌≡◌, ◌<◌, ◌≤◌};
ghost use Rattle.owners_table.specs.declared.mark.TheConstants.{SHELVES};
ghost use Rattle.owners_table.specs.declared.owners.TheConstants.{ARENA_SLOTS};
ghost use Rattle.ebpf_owned.specs.Claims.{HasFetched};

use owners_table::mark::Mark;
use owners_table::owners::{OwnerSeat, Owners};

/// Frees the slot of an object that came off the shelf of this number and goes back to its cache. A slot that isn't the shelf's is
/// left as it is.
pub fn unshelve(owners: &Owners, seat: &mut OwnerSeat, shelf: u8, slot: u32)
    requires slots { ARENA_SLOTS ≤ owners.now.slots }
    requires seated { seat.old.table ≡ owners.now.table }
    requires shelf { shelf < SHELVES }
    requires slot { slot < ARENA_SLOTS }
    ensures { HasFetched 1 seat.old seat.new }
{
    // No run has this number.
    let mark = Mark {
        run: u32::MAX,
        at: 0,
    };
    if let Ok(()) = owners.fetch(seat, slot, shelf, mark) {
        owners.release(seat, slot);
    }
}
