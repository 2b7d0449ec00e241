//! What C keeps of a program.

ghost use Rattle.std.specs.Prelude.{◌≡◌, Option, Some, None};
ghost use Rattle.std.specs.Borrow.{sem};
ghost use Rattle.std.specs.Option.{MatchOption};
ghost use Rattle.std.specs.declared.alloc.Global.{Global};
ghost use Rattle.std.specs.declared.sync.Arc.{Arc};
ghost use Rattle.ebpf_handle.specs.Ownership.{held};
ghost use Rattle.ebpf_handle.specs.Rows.{shared_row};
ghost use Rattle.ebpf_host.specs.declared.program.Program.{Program};

use crate::held::Held;
use ebpf_host::program::Program;
use std::alloc::Global;
use std::marker::Model;
use std::mem::replace;
use std::sync::Arc;

/// A boxed `Arc` of a Program, or nothing: several handles may share one program. The pointer is null where there is nothing, so C may
/// begin with zeros. It names no type, since C may not see a type that holds a `Vec`.
#[repr(C)]
pub struct ProgramHandle {
    at: *mut u8,
    pub ghost value: { Option (Arc Program Global) },
}

impl Model for ProgramHandle {
    ghost also_owns = { λ h. held shared_row h.at h.value };
}

// It owns an `Arc` of a program and the block that has it: any thread may free both.
unsafe impl Send for ProgramHandle {}

impl ProgramHandle {
    ghost use Rattle.ebpf_handle.specs.Lending.{ProgramLends};

    fn of_held(from: Held<Arc<Program>>) -> ProgramHandle
        ensures { result.value ≡ from.value }
    {
        let Held { at } = from;
        ProgramHandle { at: at as *mut u8 }
    }

    fn into_held(self) -> Held<Arc<Program>>
        ensures { result.value ≡ self.value }
    {
        let ProgramHandle { at } = self;
        Held {
            at: at as *mut Arc<Program>,
        }
    }

    /// Lends what it holds, if anything. The handle's word stays as it is.
    pub fn get_mut(&mut self) -> Option<&mut Arc<Program>>
        ensures* writes_back { sem 𝓛 (ProgramLends self.entry result) }
        ensures held { MatchOption result (self.old.value ≡ None) (λ p. self.old.value ≡ Some p.now) }
    {
        let at = self.at as *mut Arc<Program>;
        if at.is_null() {
            return None;
        }
        Some(unsafe { &mut *at })
    }

    /// Takes the box out, and leaves the handle empty.
    pub fn take(&mut self, alloc: Global) -> Option<Box<Arc<Program>>>
        ensures taken { MatchOption result (self.old.value ≡ None) (λ b. self.old.value ≡ Some b.value) }
        ensures emptied { self.new.value ≡ None }
    {
        replace(self, ProgramHandle::of_held(Held::empty()))
            .into_held()
            .into_box(alloc)
    }

    /// Holds a value, and frees what it held before.
    pub fn put(&mut self, alloc: Global, value: Box<Arc<Program>>)
        ensures { self.new.value ≡ Some value.value }
    {
        drop(
            replace(self, ProgramHandle::of_held(Held::of(value)))
                .into_held()
                .into_box(alloc),
        );
    }
}
