//! Taking a value that another thread may have for a moment.
//!
//! *The reason.* A place is taken for some hundred instructions. So a thread that finds it taken pauses and looks again, each time
//! after a longer pause: each look takes the line of the processor's cache away from the thread that has the place. After as many
//! pauses as it was told it gives up, for the other thread may not run at all.

ghost use Rattle.std.specs.Prelude.{◌≡◌, ◌<◌, IfSome, IfNone};
ghost use Rattle.shared_cache.specs.Asking.{Misses, Takes};

use shared_row::{Pass, Row, Scale};
use std::hint::spin_loop;

/// How many pauses make a tenth of a millisecond, where one turn of the first pause takes 140 cycles.
pub const PAUSES: u32 = 11;

// The longest pause, in turns of the first, as a power of two.
const LONGEST: u32 = 10;

// The pause with this number.
fn pause(number: u32) {
    for _turn in 0..1u32 << number.min(LONGEST) {
        spin_loop();
    }
}

/// Takes the value of a place, looked for at once and after each of so many pauses.
pub fn take_soon<T, P: Scale<T>>(
    row: &Row<T, P>,
    pass: &mut Pass<T, P>,
    place: usize,
    pauses: u32,
) -> Option<T>
    requires table { pass.old.table ≡ row.now.table }
    requires place { place < row.now.places }
    ensures taken { IfSome result (λ x. Takes pass.old pass.new place (P.left x) (P.right x)) }
    ensures none { IfNone result (Misses pass.old pass.new place) }
{
    if let Some(value) = row.take(pass, place) {
        return Some(value);
    }
    for number in 0..pauses {
        pause(number);
        if let Some(value) = row.take(pass, place) {
            return Some(value);
        }
    }
    None
}
