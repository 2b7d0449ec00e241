//! Shelves of machines, as C leaves objects on them and takes objects from there.

ghost use Rattle.std.specs.Prelude.{◌≡◌, ◌≢◌, ℕ, length};
ghost use Rattle.std.specs.Option.{MatchOption};
ghost use Rattle.ebpf_host_c.specs.Handles.{MachineGoes, PagesStay};
ghost use Rattle.ebpf_host_c.specs.Shelving.{ChangesAt, IsPutOn, IsPutStatus, IsTakenFrom, IsTakeStatus, kind_of};
ghost use Rattle.ebpf_host.specs.Shelving.{ShelvesStay};
ghost use Rattle.ebpf_host_c.specs.declared.status.TheConstants.{DONE, EMPTY};

use crate::status::{DONE, EMPTY, KIND, LENGTH, NO_OBJECT};
use ebpf_handle::machine::MachineHandle;
use ebpf_host::shelving::PutFault;
use ebpf_object::KindName;

/// Leaves an object with these bytes at its start on the shelf of a kind, and says whether it is there in place of another.
#[unsafe(no_mangle)]
pub extern "C" fn ebpf_machine_put(
    machine: &mut MachineHandle,
    kind: u32,
    bytes: &[u8],
    replaced: &mut bool,
) -> u32
    ensures put { result ≡ DONE → IsPutOn kind bytes.now machine.old.value machine.new.value replaced.new }
    ensures changes { MachineGoes (ChangesAt kind) machine.old.value machine.new.value }
    ensures pages { MachineGoes PagesStay machine.old.value machine.new.value }
    ensures status { MatchOption machine.old.value (result ≡ EMPTY) (λ _. IsPutStatus kind (length bytes.now) result) }
    ensures unchanged { result ≢ 0 → MachineGoes ShelvesStay machine.old.value machine.new.value }
    ensures unsaid { result ≢ 0 → replaced.new ≡ replaced.old }
{
    let Some(held) = machine.get_mut() else {
        return EMPTY;
    };
    let Some(kind) = kind_of(kind) else {
        return KIND;
    };
    match held.put(kind, bytes) {
        Ok(another) => {
            *replaced = another;
            DONE
        }
        Err(PutFault::TooLong) => LENGTH,
        Err(PutFault::NoObject) => NO_OBJECT,
    }
}

/// Takes what is on the shelf of a kind off it, copies its bytes as far as there is room, and says whether there was something.
#[unsafe(no_mangle)]
pub extern "C" fn ebpf_machine_take(
    machine: &mut MachineHandle,
    kind: u32,
    bytes: &mut [u8],
    found: &mut bool,
) -> u32
    ensures taken { result ≡ DONE → IsTakenFrom kind machine.old.value machine.new.value bytes.old bytes.new found.new }
    ensures changes { MachineGoes (ChangesAt kind) machine.old.value machine.new.value }
    ensures pages { MachineGoes PagesStay machine.old.value machine.new.value }
    ensures status { MatchOption machine.old.value (result ≡ EMPTY) (λ _. IsTakeStatus kind result) }
    ensures unchanged { result ≢ 0 → machine.new.value ≡ machine.old.value }
    ensures unsaid { result ≢ 0 → (bytes.new ≡ bytes.old) × (found.new ≡ found.old) }
{
    let Some(held) = machine.get_mut() else {
        return EMPTY;
    };
    let Some(kind) = kind_of(kind) else {
        return KIND;
    };
    *found = held.take(kind, bytes);
    DONE
}

/// The kind with this number, if there is one.
pub(crate) fn kind_of(number: u32) -> Option<KindName>
    ensures { result ≡ kind_of number }
{
    match number {
        0 => Some(KindName::Cell),
        1 => Some(KindName::Record),
        2 => Some(KindName::Block),
        _ => None,
    }
}
