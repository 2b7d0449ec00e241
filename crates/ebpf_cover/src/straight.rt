//! How far a program goes straight on.

ghost use Rattle.std.specs.Prelude.{◌≡◌, ◌+◌, ◌<◌, ℕ, true, length, get_or, IfOk};
ghost use Rattle.ebpf_insn.specs.declared.program.TheConstants.{MAX_SLOTS};
ghost use Rattle.ebpf_cover.specs.Stretches.{AreStraight, goes_on};

use ebpf_verify::verified::Verified;
use std::alloc::{AllocError, Global};

/// For each slot of a program, how many instructions from there on lead to the slot after them and nowhere else. It fails only if an
/// allocation fails.
pub(crate) fn straight_in(alloc: Global, verified: &Verified) -> Result<Vec<u16>, AllocError>
    ensures straight { IfOk result (λ s. AreStraight verified.now.program s.items) }
    ensures inside { IfOk result (λ s. (slot : ℕ) → slot < length s.items → slot + get_or s.items slot 0 < length s.items) }
    ensures long { IfOk result (λ s. length s.items ≡ length verified.now.program) }
{
    let slots = verified.program().slots();
    let mut straight = vec![in alloc; 0; slots]?;
    'slots: for past in 0..slots {
        let slot = slots - 1 - past;
        if goes_on(verified, slot) {
            straight[slot] = straight[slot + 1] + 1;
        }
    }
    Ok(straight)
}

// Whether the instruction at a slot leads to the next slot and nowhere else.
fn goes_on(verified: &Verified, slot: usize) -> bool
    requires { slot < MAX_SLOTS }
    ensures value { result ≡ goes_on verified.now.program slot }
    ensures inside { result ≡ true → slot + 1 < length verified.now.program }
{
    let edges = verified.successors(slot);
    match edges.fall {
        Some(fall) => match edges.jump {
            None => fall as usize == slot + 1,
            Some(_) => false,
        },
        None => false,
    }
}
