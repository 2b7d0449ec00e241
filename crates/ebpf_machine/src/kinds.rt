//! The kinds of object, by number.

ghost use Rattle.std.specs.Prelude.{◌≡◌, ◌<◌, [], length, slice_index_or};
ghost use Rattle.ebpf_state.specs.Kinds.{kind_names};
ghost use Rattle.ebpf_machine.specs.Kinds.{known_kinds};
ghost use Rattle.ebpf_machine.specs.World.{image_of, image_at};

use ebpf_state::kinds::{KindRow, kinds};

/// The row of a kind: its name, and what the bytes of a new object of it are.
pub fn row_of(kind: u8) -> KindRow
    requires { kind < length known_kinds }
    ensures name { result.name.now ≡ slice_index_or kind_names kind [] }
    ensures image { image_of (record { size = result.size; fill = result.fill }) ≡ image_at known_kinds kind }
{
    kinds()[kind as usize]
}
