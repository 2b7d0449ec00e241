//! What the branches of a loop compare.

use ebpf_insn::insn::{Insn, Source};
use ebpf_state::state::State;
use ebpf_state::value::Abs;

/// What is known of the two registers that a branch compares. What is no register is unset, and so is all that doesn't branch.
#[derive(Clone, Copy)]
pub struct Compared {
    pub left: Abs,
    pub right: Abs,
}

impl Compared {
    /// By what is known before the instruction.
    pub(crate) fn by(insn: &Insn, state: &State) -> Compared {
        match *insn {
            Insn::Branch { left, right, .. } => Compared {
                left: state.reg(left),
                right: match right {
                    Source::Register(register) => state.reg(register),
                    Source::Imm(_) => Abs::Unset,
                },
            },
            _ => Compared {
                left: Abs::Unset,
                right: Abs::Unset,
            },
        }
    }
}
