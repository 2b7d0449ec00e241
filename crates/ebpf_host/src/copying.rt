//! Copies into what room there is.

ghost use Rattle.std.specs.Prelude.{◌≡◌};
ghost use Rattle.ebpf_host.specs.Copying.{copied};

/// Copies as many items as there is room for. What is left of the room stays as it was.
//
// Not inlined, since a caller's loop of runs would keep in registers what most of its turns don't need.
#[inline(never)]
pub fn copy<T: Copy>(items: &[T], room: &mut [T])
    ensures { room.new ≡ copied items.now room.old }
{
    if room.is_empty() {
        return;
    }
    if items.len() <= room.len() {
        room[..items.len()].copy_from_slice(items);
    } else {
        room.copy_from_slice(&items[..room.len()]);
    }
}
