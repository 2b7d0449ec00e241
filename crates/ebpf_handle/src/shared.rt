//! What C keeps of what workers share.

ghost use Rattle.std.specs.Prelude.{◌≡◌, Option, Some, None};
ghost use Rattle.std.specs.Borrow.{sem};
ghost use Rattle.std.specs.Option.{MatchOption};
ghost use Rattle.ebpf_handle.specs.Ownership.{held};
ghost use Rattle.ebpf_host.specs.declared.shared.Shared.{Shared};
ghost use Rattle.ebpf_host.specs.contracts.shared.Shared.{the_row as common_row};

use crate::held::Held;
use ebpf_host::shared::Shared;
use std::alloc::Global;
use std::marker::Model;
use std::mem::replace;

/// A boxed Shared, or nothing. Its pointer is null where there is nothing, so C may begin with zeros. The pointer names no type, since
/// C may not see a type that holds a `Vec`.
#[repr(C)]
pub struct SharedHandle {
    at: *mut u8,
    pub ghost value: { Option Shared },
}

impl Model for SharedHandle {
    ghost also_owns = { λ h. held common_row h.at h.value };
}

// It owns a Shared and the block that has it: any thread may free both.
unsafe impl Send for SharedHandle {}

impl SharedHandle {
    ghost use Rattle.ebpf_handle.specs.Lending.{SharedLends};

    fn of_held(from: Held<Shared>) -> SharedHandle
        ensures { result.value ≡ from.value }
    {
        let Held { at } = from;
        SharedHandle { at: at as *mut u8 }
    }

    fn into_held(self) -> Held<Shared>
        ensures { result.value ≡ self.value }
    {
        let SharedHandle { at } = self;
        Held {
            at: at as *mut Shared,
        }
    }

    /// Lends what it holds, if anything. The handle's word stays as it is.
    pub fn get_mut(&mut self) -> Option<&mut Shared>
        ensures* writes_back { sem 𝓛 (SharedLends self.entry result) }
        ensures held { MatchOption result (self.old.value ≡ None) (λ s. self.old.value ≡ Some s.now) }
    {
        let at = self.at as *mut Shared;
        if at.is_null() {
            return None;
        }
        Some(unsafe { &mut *at })
    }

    /// Takes the box out, and leaves the handle empty.
    pub fn take(&mut self, alloc: Global) -> Option<Box<Shared>>
        ensures taken { MatchOption result (self.old.value ≡ None) (λ b. self.old.value ≡ Some b.value) }
        ensures emptied { self.new.value ≡ None }
    {
        replace(self, SharedHandle::of_held(Held::empty()))
            .into_held()
            .into_box(alloc)
    }

    /// Holds a value, and frees what it held before.
    pub fn put(&mut self, alloc: Global, value: Box<Shared>)
        ensures { self.new.value ≡ Some value.value }
    {
        drop(
            replace(self, SharedHandle::of_held(Held::of(value)))
                .into_held()
                .into_box(alloc),
        );
    }
}
