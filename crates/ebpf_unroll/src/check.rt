//! Whether the edges of copies lead to copies of what they should.

ghost use Rattle.std.specs.Prelude.{◌≡◌, ◌≤◌, ◌<◌, ℕ, true, length, Some, None};
ghost use Rattle.ebpf_insn.specs.declared.program.TheConstants.{MAX_SLOTS};
ghost use Rattle.ebpf_layout.specs.Layout.{copied_in};
ghost use Rattle.ebpf_unroll.specs.Unrolling.{IsStub, IsCopyOrStub, IsWayTo, LeadsAs, JumpsAs, FallsAs, AreCopies, IsUnrolled};

use ebpf_flow::edges::{displacement_of, fall_of, falls, jump_of};
use ebpf_insn::insn::Insn;
use ebpf_insn::program::{MAX_SLOTS, Program};
use ebpf_operation::helper::helper_of;

/// Whether a program of copies of another one's instructions is that program unrolled: each edge of a copy leads to a copy of what the
/// edge of the instruction leads to, or to a stub.
pub(crate) fn is_unrolled(old: &Program, new: &Program, of: &[Option<u16>]) -> bool
    requires same { AreCopies old.now new.now (copied_in of.now) }
    requires few { length of.now ≤ MAX_SLOTS }
    ensures { result ≡ true → IsUnrolled old.now new.now (copied_in of.now) }
{
    if !is_copy_of(of, 0, 0) {
        return false;
    }
    for at in 0..of.len() {
        if !leads_well(old, new, of, at) {
            return false;
        }
    }
    true
}

// Whether a slot has no copy, or one that leads where it should.
fn leads_well(old: &Program, new: &Program, of: &[Option<u16>], at: usize) -> bool
    requires inside { at < length of.now }
    requires few { length of.now ≤ MAX_SLOTS }
    ensures { result ≡ true → (slot : ℕ) → copied_in of.now at ≡ Some slot → LeadsAs old.now new.now (copied_in of.now) at slot }
{
    match of[at] {
        Some(slot) => leads_as(old, new, of, at, slot as usize),
        None => true,
    }
}

// Whether a copy leads to copies of what the instruction at a slot leads to.
fn leads_as(old: &Program, new: &Program, of: &[Option<u16>], at: usize, slot: usize) -> bool
    requires few { at < MAX_SLOTS }
    ensures { result ≡ true → LeadsAs old.now new.now (copied_in of.now) at slot }
{
    if slot >= MAX_SLOTS {
        return false;
    }
    let Some(insn) = old.at(slot) else {
        return false;
    };
    let Some(copy) = new.at(at) else {
        return false;
    };
    if !jumps_as(new, of, *copy, at, *insn, slot) {
        return false;
    }
    if !falls_as(new, of, *copy, at, *insn, slot) {
        return false;
    }
    true
}

// Whether a copy leads where an instruction jumps, if that does.
fn jumps_as(
    new: &Program,
    of: &[Option<u16>],
    copy: Insn,
    at: usize,
    insn: Insn,
    slot: usize,
) -> bool
    requires few { at < MAX_SLOTS }
    requires inside { slot < MAX_SLOTS }
    ensures { result ≡ true → JumpsAs new.now (copied_in of.now) copy at insn slot }
{
    match displacement_of(insn) {
        Some(_) => leads(new, of, jump_of(copy, at), jump_of(insn, slot)),
        None => true,
    }
}

// Whether a copy leads where an instruction falls, if that does.
fn falls_as(
    new: &Program,
    of: &[Option<u16>],
    copy: Insn,
    at: usize,
    insn: Insn,
    slot: usize,
) -> bool
    requires few { at < MAX_SLOTS }
    requires inside { slot < MAX_SLOTS }
    ensures { result ≡ true → FallsAs new.now (copied_in of.now) copy at insn slot }
{
    if falls(insn) {
        leads(new, of, fall_of(copy, at), fall_of(insn, slot))
    } else {
        true
    }
}

// Whether both are there, and the one is a way to the other.
fn leads(new: &Program, of: &[Option<u16>], next: Option<usize>, to: Option<usize>) -> bool
    ensures { result ≡ true → (n : ℕ) × (t : ℕ) × (next ≡ Some n) × (to ≡ Some t) × IsWayTo new.now (copied_in of.now) n t }
{
    match (next, to) {
        (Some(next), Some(to)) => is_way(new, of, next, to),
        _ => false,
    }
}

// Whether a copy of what is at a slot is here, or a stub, or a jump to one of these.
fn is_way(new: &Program, of: &[Option<u16>], at: usize, to: usize) -> bool
    ensures { result ≡ true → IsWayTo new.now (copied_in of.now) at to }
{
    if is_copy_or_stub(new, of, at, to) {
        return true;
    }
    if at >= MAX_SLOTS {
        return false;
    }
    match new.at(at) {
        Some(Insn::Jump { offset }) => match jump_of(Insn::Jump { offset: *offset }, at) {
            Some(on) => is_copy_or_stub(new, of, on, to),
            None => false,
        },
        _ => false,
    }
}

// Whether a copy of what is at a slot is here, or a stub.
fn is_copy_or_stub(new: &Program, of: &[Option<u16>], at: usize, to: usize) -> bool
    ensures { result ≡ true → IsCopyOrStub new.now (copied_in of.now) at to }
{
    is_copy_of(of, at, to) || is_stub(new, at)
}

// Whether a copy of what is at a slot is here.
fn is_copy_of(of: &[Option<u16>], at: usize, to: usize) -> bool
    ensures { result ≡ true → copied_in of.now at ≡ Some to }
{
    if at >= of.len() {
        return false;
    }
    match of[at] {
        Some(slot) => slot as usize == to,
        None => false,
    }
}

// Whether a call of no helper is here.
fn is_stub(new: &Program, at: usize) -> bool
    ensures { result ≡ true → IsStub new.now at }
{
    match new.at(at) {
        Some(Insn::Call { number }) => helper_of(*number).is_none(),
        _ => false,
    }
}
