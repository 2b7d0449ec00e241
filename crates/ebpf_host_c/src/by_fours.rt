//! Runs of one program in turn, four at a time: each four go on together as long as they do the same.

ghost use Rattle.std.specs.Prelude.{◌≡◌, ◌≤◌, ℕ, length, slice_get};
ghost use Rattle.ebpf_machine.specs.Kinds.{known_kinds};
ghost use Rattle.ebpf_host.specs.Finding.{TellsShelves};
ghost use Rattle.ebpf_host_c.specs.InTurn.{AreContexts, AreRun};

use crate::reported::{Reported, write_at};
use ebpf_fours::memory::Memory;
use ebpf_fours::starting::LONG;
use ebpf_host::four_within::run_four_within;
use ebpf_host::program::Program;
use ebpf_insn::program::MAX_SLOTS;
use ebpf_machine::objects::Objects;
use ebpf_object::Object;

/// Runs a program on the first of these contexts, four at a time, with the objects of a store, and writes each report: all but the last ones
/// that are fewer than four; none of a short program, or within a limit that may end a run. Returns how many were run.
///
/// Where there is no memory for four, they are left, too: one may find enough.
pub(crate) fn run_by_fours<O: Objects<Held = Object>>(
    memory: &mut Memory<Object>,
    program: &Program,
    contexts: &[u8],
    objects: &mut O,
    limit: u64,
    output: &mut [u64],
    reports: &mut [Reported],
) -> usize
    requires kinds { O.store.kinds ≡ known_kinds }
    requires room { (store : O) → O.store.can_give store }
    requires tells { TellsShelves O.store }
    requires contexts { AreContexts program.now (length reports.old) contexts.now }
    ensures ran { AreRun O.store program.now contexts.now limit result reports.new (objects.old, output.old) (objects.new, output.new) }
    ensures outs { (k : ℕ) → O.store.outs objects.new k ≡ O.store.outs objects.old k }
    ensures most { result ≤ length reports.old }
    ensures all { length reports.new ≡ length reports.old }
    ensures unmade { (k : ℕ) → result ≤ k → slice_get reports.new k ≡ slice_get reports.old k }
{
    let mut done = 0;
    if limit < MAX_SLOTS as u64 || program.len() < LONG {
        return done;
    }
    'fours: while reports.len() - done >= 4 {
        let Ok(workspaces) = memory.take_four() else {
            return done;
        };
        let Ok(ended) = run_four_within(workspaces, program, contexts, done, objects, limit) else {
            return done;
        };
        write_at(&ended.one, done, output, reports);
        write_at(&ended.two, done + 1, output, reports);
        write_at(&ended.three, done + 2, output, reports);
        write_at(&ended.four, done + 3, output, reports);
        memory.put_four(ended.forget());
        done += 4;
    }
    done
}
