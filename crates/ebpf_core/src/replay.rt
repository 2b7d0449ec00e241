//! The world after a list of events.

ghost use Rattle.std.specs.Prelude.{◌≡◌, IfOk, IfErr, List};
ghost use Rattle.ebpf_core.specs.Replay.{world_after, IsReplayed, IsReplayFault};
ghost use Rattle.ebpf_core.specs.Isolation.{IsAlwaysSafe};
ghost use Rattle.ebpf_machine.specs.Kinds.{AreKnown};

use crate::event::Event;
use crate::fault::{ApplyFault, ReplayFault};
use crate::world::World;
use ebpf_verify::verified::Verified;
use std::alloc::Global;

/// The world after a list of events over accepted programs, from one with no slots and no runs. The programs were verified
/// with the kinds of [`ebpf_state::kinds::kinds`].
///
/// # Errors
/// `Bad` with the number of the first event that isn't legal, and the first code that applies to it; `NoMemory` where an
/// allocation failed.
pub fn replay<'v>(
    alloc: Global,
    programs: &'v [Verified],
    events: &[Event],
) -> Result<World<'v>, ReplayFault>
    requires known { AreKnown programs.now }
    // It is the world that the events lead to, and there is one exactly where each event is legal.
    ensures done { IfOk result (IsReplayed programs.now events.now) }
    ensures programs { IfOk result (λ w. w.programs ≡ programs.now) }
    ensures refused { IfErr result (IsReplayFault (world_after programs.now events.now)) }
    // The main theorem.
    ensures safe { IsAlwaysSafe programs.now events.now }
{
    accept(programs);
    let mut world = World::new(alloc, programs)?;
    for (index, event) in events.iter().enumerate() {
        match world.follow(event) {
            Ok(()) => {}
            Err(ApplyFault::Bad(code)) => return Err(ReplayFault::Bad { index, code }),
            Err(ApplyFault::NoMemory) => return Err(ReplayFault::NoMemory),
        }
    }
    Ok(world)
}

// The main theorem: every list of events over accepted programs is safe. That a program was accepted is in its type, and
// the check knows this only of a value that the code reads: so each is read once, and nothing is done with it.
fn accept(programs: &[Verified])
    requires { AreKnown programs.now }
    ensures { (events : List Event) → IsAlwaysSafe programs.now events }
{
    for verified in programs {
        let _ = verified.program();
    }
}
