//! How many calls a program has.

ghost use Rattle.std.specs.Prelude.{◌≡◌, if◌then◌else◌, option_copied, count_by};
ghost use Rattle.ebpf_operation.specs.Helpers.{helper_of};
ghost use Rattle.ebpf_verify.specs.CallCount.{is_counted, is_swap};
ghost use Rattle.ebpf_verify.specs.declared.call_count.Counted.TheVariants.{Calls, Swaps};

use ebpf_insn::insn::Insn;
use ebpf_insn::program::Program;
use ebpf_operation::helper::{Helper, helper_of};

/// Which calls are counted.
#[derive(Clone, Copy)]
pub(crate) enum Counted {
    /// Those of any helper.
    Calls,
    /// Those of `swap`.
    Swaps,
}

/// How many calls a program has, and how many of them are of `swap`.
pub(crate) fn calls_in(program: &Program) -> (usize, usize)
    ensures calls { result.0 ≡ count_by (is_counted Calls) program.now }
    ensures swaps { result.1 ≡ count_by (is_counted Swaps) program.now }
{
    let mut calls = 0;
    let mut swaps = 0;
    for slot in 0..program.slots() {
        let insn = program.at(slot);
        calls += one_if(Counted::Calls, insn);
        swaps += one_if(Counted::Swaps, insn);
    }
    (calls, swaps)
}

// 1 where a call that is counted is at a slot, else 0.
#[inline(always)]
fn one_if(counted: Counted, insn: Option<&Insn>) -> usize
    ensures { result ≡ (if is_counted counted (option_copied insn.entry) then 1 else 0) }
{
    if is_counted(counted, insn) { 1 } else { 0 }
}

// Whether a call that is counted is at a slot.
fn is_counted(counted: Counted, insn: Option<&Insn>) -> bool
    ensures { result ≡ is_counted counted (option_copied insn.entry) }
{
    match (counted, insn) {
        (Counted::Calls, Some(Insn::Call { .. })) => true,
        (Counted::Swaps, Some(Insn::Call { number })) => is_swap(helper_of(*number)),
        _ => false,
    }
}

// Whether a helper is `swap`.
fn is_swap(helper: Option<Helper>) -> bool
    ensures { result ≡ is_swap helper }
{
    matches!(helper, Some(Helper::Swap))
}
