//! What C keeps of a machine.

ghost use Rattle.std.specs.Prelude.{◌≡◌, Option, Some, None};
ghost use Rattle.std.specs.Borrow.{sem};
ghost use Rattle.std.specs.Option.{MatchOption};
ghost use Rattle.ebpf_handle.specs.Ownership.{held};
ghost use Rattle.ebpf_host.specs.declared.machine.Machine.{Machine};
ghost use Rattle.ebpf_host.specs.contracts.machine.Machine.{the_row as machine_row};

use crate::held::Held;
use ebpf_host::machine::Machine;
use std::alloc::Global;
use std::marker::Model;
use std::mem::replace;

/// A boxed Machine, or nothing. Its pointer is null where there is nothing, so C may begin with zeros. The pointer names no type, since
/// C may not see a type that holds a `Vec`.
#[repr(C)]
pub struct MachineHandle {
    at: *mut u8,
    pub ghost value: { Option Machine },
}

impl Model for MachineHandle {
    ghost also_owns = { λ h. held machine_row h.at h.value };
}

// It owns a machine and the block that has it: any thread may free both.
unsafe impl Send for MachineHandle {}

impl MachineHandle {
    ghost use Rattle.ebpf_handle.specs.Lending.{MachineLends};

    fn of_held(from: Held<Machine>) -> MachineHandle
        ensures { result.value ≡ from.value }
    {
        let Held { at } = from;
        MachineHandle { at: at as *mut u8 }
    }

    fn into_held(self) -> Held<Machine>
        ensures { result.value ≡ self.value }
    {
        let MachineHandle { at } = self;
        Held {
            at: at as *mut Machine,
        }
    }

    /// Lends what it holds, if anything. The handle's word stays as it is.
    pub fn get_mut(&mut self) -> Option<&mut Machine>
        ensures* writes_back { sem 𝓛 (MachineLends self.entry result) }
        ensures held { MatchOption result (self.old.value ≡ None) (λ m. self.old.value ≡ Some m.now) }
    {
        let at = self.at as *mut Machine;
        if at.is_null() {
            return None;
        }
        Some(unsafe { &mut *at })
    }

    /// Takes the box out, and leaves the handle empty.
    pub fn take(&mut self, alloc: Global) -> Option<Box<Machine>>
        ensures taken { MatchOption result (self.old.value ≡ None) (λ b. self.old.value ≡ Some b.value) }
        ensures emptied { self.new.value ≡ None }
    {
        replace(self, MachineHandle::of_held(Held::empty()))
            .into_held()
            .into_box(alloc)
    }

    /// Holds a value, and frees what it held before.
    pub fn put(&mut self, alloc: Global, value: Box<Machine>)
        ensures { self.new.value ≡ Some value.value }
    {
        drop(
            replace(self, MachineHandle::of_held(Held::of(value)))
                .into_held()
                .into_box(alloc),
        );
    }
}
