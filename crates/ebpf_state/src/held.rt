//! The references that are held.

ghost use Rattle.std.specs.Prelude.{◌≡◌, map, OnOk, OnErr};
ghost use Rattle.ebpf_state.specs.Ascending.{IsAscending};
ghost use Rattle.ebpf_state.specs.References.{held_with, held_without, tested_reference, settled_held};

use std::alloc::AllocError;

/// A reference that a call of `new` gave and that was not freed yet.
#[derive(Clone, Copy, PartialEq, Eq)]
pub struct Held {
    /// The slot of the call.
    pub call: u16,
    /// The kind that the call asked for.
    pub kind: u8,
    /// It was compared with null, and isn't.
    pub tested: bool,
}

impl Held {
    // The reference, tested where it is that of the call.
    fn test(self, call: u16) -> Held
        ensures { result ≡ tested_reference call self }
    {
        if self.call == call {
            Held {
                call: self.call,
                kind: self.kind,
                tested: true,
            }
        } else {
            self
        }
    }
}

/// Holds a new reference, in the place of its call; where that call holds one already, the new one takes its place.
pub(crate) fn hold_reference(held: &mut Vec<Held>, new: Held) -> Result<(), AllocError>
    requires { IsAscending (map (λ h. h.call) held.old.items) }
    ensures ok { OnOk result (held.new.items ≡ held_with new held.old.items) }
    ensures err { OnErr result (held.new.items ≡ held.old.items) }
    ensures ascending { IsAscending (map (λ h. h.call) held.new.items) }
{
    match held.binary_search_by_key(&new.call, |reference| reference.call) {
        Ok(place) => held[place] = new,
        Err(place) => held.insert(place, new)?,
    }
    Ok(())
}

/// Says of the reference of a call whether it is null: then it is no longer held, else it was tested.
pub(crate) fn settle_held(held: &mut Vec<Held>, call: u16, null: bool)
    requires { IsAscending (map (λ h. h.call) held.old.items) }
    ensures value { held.new.items ≡ settled_held call null held.old.items }
    ensures ascending { IsAscending (map (λ h. h.call) held.new.items) }
{
    if null {
        forget_held(held, call);
    } else {
        mark_tested(held, call);
    }
}

/// No longer holds the reference of a call: its answer was null, or its object was given back.
pub(crate) fn forget_held(held: &mut Vec<Held>, call: u16)
    requires { IsAscending (map (λ h. h.call) held.old.items) }
    ensures value { held.new.items ≡ held_without call held.old.items }
    ensures ascending { IsAscending (map (λ h. h.call) held.new.items) }
{
    held.retain(|reference| reference.call != call);
}

// Says that the reference of a call was compared with null.
fn mark_tested(held: &mut Vec<Held>, call: u16)
    ensures { held.new.items ≡ map (tested_reference call) held.old.items }
{
    for i in 0..held.len() {
        held[i] = held[i].test(call);
    }
}
