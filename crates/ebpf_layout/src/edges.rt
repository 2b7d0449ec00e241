//! Where an instruction leads, forward or back, and the same instruction with another way to lead.

ghost use Rattle.std.specs.Prelude.{◌≡◌, ◌<◌, pos};
ghost use Rattle.ebpf_insn.specs.declared.program.TheConstants.{MAX_SLOTS};
ghost use Rattle.ebpf_flow.specs.Edges.{edges_at};
ghost use Rattle.ebpf_layout.specs.Layout.{moved};
ghost use Rattle.ebpf_layout.specs.Search.{standing};

use ebpf_flow::edges::{fall_of, jump_of};
use ebpf_insn::insn::Insn;
use ebpf_insn::program::Program;

/// The instruction with another displacement, if it jumps.
pub fn moved(insn: Insn, way: usize) -> Insn
    requires { way < 8192 }
    ensures { result ≡ moved insn (pos way) }
{
    match insn {
        Insn::Jump { .. } => Insn::Jump { offset: way as i16 },
        Insn::JumpFar { .. } => Insn::JumpFar { offset: way as i32 },
        Insn::Branch {
            width,
            cond,
            left,
            right,
            ..
        } => Insn::Branch {
            width,
            cond,
            left,
            right,
            offset: way as i16,
        },
        _ => insn,
    }
}

// The instruction that a slot's jump leads to.
pub(crate) fn jump_from(program: &Program, slot: usize) -> Option<usize>
    requires { slot < MAX_SLOTS }
    ensures { result ≡ standing program.now (edges_at program.now slot).jump }
{
    let insn = program.at(slot)?;
    standing(program, jump_of(*insn, slot))
}

// The instruction that a slot goes on to.
pub(crate) fn fall_from(program: &Program, slot: usize) -> Option<usize>
    requires { slot < MAX_SLOTS }
    ensures { result ≡ standing program.now (edges_at program.now slot).fall }
{
    let insn = program.at(slot)?;
    standing(program, fall_of(*insn, slot))
}

// The slot that an edge leads to, if an instruction begins there.
fn standing(program: &Program, edge: Option<usize>) -> Option<usize>
    ensures { result ≡ standing program.now edge }
{
    let to = edge?;
    match program.at(to) {
        Some(_) => Some(to),
        None => None,
    }
}
