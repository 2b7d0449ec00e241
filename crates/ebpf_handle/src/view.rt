//! What C keeps of a program, as many threads read it at once.

ghost use Rattle.std.specs.Prelude.{◌≡◌, Option, Some, None};
ghost use Rattle.std.specs.Option.{MatchOption};
ghost use Rattle.std.specs.declared.alloc.Global.{Global};
ghost use Rattle.std.specs.declared.sync.Arc.{Arc};
ghost use Rattle.ebpf_handle.specs.Ownership.{held, held_lent};
ghost use Rattle.ebpf_handle.specs.Rows.{shared_row};
ghost use Rattle.ebpf_host.specs.declared.program.Program.{Program};

use ebpf_host::program::Program;
use std::alloc::Global;
use std::marker::Model;
use std::sync::Arc;

/// A [`crate::program::ProgramHandle`], as a `&` shows it: the same word, which owns the same. A handle itself can't be read through a
/// `&`, since a function that C calls may take no struct that can.
#[repr(C)]
pub struct ProgramView {
    at: *mut u8,
    pub ghost value: { Option (Arc Program Global) },
}

impl Model for ProgramView {
    ghost also_owns = { λ h. held shared_row h.at h.value };

    ghost also_shares = { λ h _ κ. held_lent shared_row h.at h.value κ };
}

// Any thread may read the `Arc` of a program, and share it.
unsafe impl Sync for ProgramView {}

impl ProgramView {
    /// The program that it holds, if any.
    pub fn get(&self) -> Option<&Arc<Program>>
        ensures { MatchOption result (self.now.value ≡ None) (λ p. self.now.value ≡ Some p.now) }
    {
        let at = self.at as *const Arc<Program>;
        if at.is_null() {
            return None;
        }
        Some(unsafe { &*at })
    }
}
