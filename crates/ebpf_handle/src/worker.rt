//! What C keeps of a worker.

ghost use Rattle.std.specs.Prelude.{◌≡◌, Option, Some, None};
ghost use Rattle.std.specs.Borrow.{sem};
ghost use Rattle.std.specs.Option.{MatchOption};
ghost use Rattle.ebpf_handle.specs.Ownership.{held};
ghost use Rattle.ebpf_host.specs.declared.worker.Worker.{Worker};
ghost use Rattle.ebpf_host.specs.contracts.worker.Worker.{the_row as worker_row};

use crate::held::Held;
use ebpf_host::worker::Worker;
use std::alloc::Global;
use std::marker::Model;
use std::mem::replace;

/// A boxed Worker, or nothing. Its pointer is null where there is nothing, so C may begin with zeros. The pointer names no type, since
/// C may not see a type that holds a `Vec`.
#[repr(C)]
pub struct WorkerHandle {
    at: *mut u8,
    pub ghost value: { Option Worker },
}

impl Model for WorkerHandle {
    ghost also_owns = { λ h. held worker_row h.at h.value };
}

// It owns a worker and the block that has it: any thread may free both.
unsafe impl Send for WorkerHandle {}

impl WorkerHandle {
    ghost use Rattle.ebpf_handle.specs.Lending.{WorkerLends};

    fn of_held(from: Held<Worker>) -> WorkerHandle
        ensures { result.value ≡ from.value }
    {
        let Held { at } = from;
        WorkerHandle { at: at as *mut u8 }
    }

    fn into_held(self) -> Held<Worker>
        ensures { result.value ≡ self.value }
    {
        let WorkerHandle { at } = self;
        Held {
            at: at as *mut Worker,
        }
    }

    /// Lends what it holds, if anything. The handle's word stays as it is.
    pub fn get_mut(&mut self) -> Option<&mut Worker>
        ensures* writes_back { sem 𝓛 (WorkerLends self.entry result) }
        ensures held { MatchOption result (self.old.value ≡ None) (λ w. self.old.value ≡ Some w.now) }
    {
        let at = self.at as *mut Worker;
        if at.is_null() {
            return None;
        }
        Some(unsafe { &mut *at })
    }

    /// Takes the box out, and leaves the handle empty.
    pub fn take(&mut self, alloc: Global) -> Option<Box<Worker>>
        ensures taken { MatchOption result (self.old.value ≡ None) (λ b. self.old.value ≡ Some b.value) }
        ensures emptied { self.new.value ≡ None }
    {
        replace(self, WorkerHandle::of_held(Held::empty()))
            .into_held()
            .into_box(alloc)
    }

    /// Holds a value, and frees what it held before.
    pub fn put(&mut self, alloc: Global, value: Box<Worker>)
        ensures { self.new.value ≡ Some value.value }
    {
        drop(
            replace(self, WorkerHandle::of_held(Held::of(value)))
                .into_held()
                .into_box(alloc),
        );
    }
}
