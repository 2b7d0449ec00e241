//! The objects that a run holds.

ghost use Rattle.std.specs.Prelude.{◌≡◌, ◌≢◌, ◌<◌, ℕ, length, map, Contains, slice_index_or, vec_len};
ghost use Rattle.ebpf_machine.specs.Parting.{IsTaken};
ghost use Rattle.ebpf_machine.specs.declared.holding.Holding.{Holding};

/// An object, with the call that was granted it and its kind.
#[derive(Drop)]
pub struct Holding<H> {
    /// The slot of the call.
    pub call: u16,
    pub kind: u8,
    pub object: H,
}

/// The place of the object that was granted to a call, among those that are held.
pub(crate) fn place_of<H>(held: &[Holding<H>], call: u16) -> usize
    requires { Contains (map (λ h. h.call) held.now) call }
    ensures inside { result < length held.now }
    ensures value { (d : Holding H) → (slice_index_or held.now result d).call ≡ call }
    ensures first { (k : ℕ) (d : Holding H) → k < result → k < length held.now → (slice_index_or held.now k d).call ≢ call }
{
    'places: for place in 0..held.len() {
        if held[place].call == call {
            return place;
        }
    }
    unreachable!()
}

/// Takes the object at a place from those that are held. It is mostly the last one, and then no other is moved.
#[inline(always)]
pub(crate) fn take_at<H>(held: &mut Vec<Holding<H>>, place: usize) -> Holding<H>
    requires { place < vec_len held.old }
    ensures { IsTaken place held.old held.new result }
{
    if place + 1 == held.len() {
        return held.take_last();
    }
    take_from_within(held, place)
}

// The same where others are after it. Out of line: it is seldom called, and takes more registers.
#[inline(never)]
fn take_from_within<H>(held: &mut Vec<Holding<H>>, place: usize) -> Holding<H>
    requires { place < vec_len held.old }
    ensures { IsTaken place held.old held.new result }
{
    held.remove(place)
}
