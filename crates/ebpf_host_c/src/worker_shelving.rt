//! Shelves that workers share, as C leaves objects on them by a worker and takes objects from there.

ghost use Rattle.std.specs.Prelude.{◌≡◌, ◌≢◌, ◌⊎◌, length};
ghost use Rattle.std.specs.Option.{MatchOption};
ghost use Rattle.ebpf_host_c.specs.Shelving.{IsPutBy, IsPutStatus, IsTakenBy, IsTakeStatus};
ghost use Rattle.ebpf_host_c.specs.declared.status.TheConstants.{DONE, EMPTY, KIND};

use crate::shelving::kind_of;
use crate::status::{DONE, EMPTY, KIND, LENGTH, NO_OBJECT};
use ebpf_handle::worker::WorkerHandle;
use ebpf_host::shelving::PutFault;

/// Leaves an object with these bytes at its start on the shelf of a kind, for a program of any worker, and says whether it is there in place of
/// another.
#[unsafe(no_mangle)]
pub extern "C" fn ebpf_worker_put(
    worker: &mut WorkerHandle,
    kind: u32,
    bytes: &[u8],
    replaced: &mut bool,
) -> u32
    ensures put { result ≡ DONE → IsPutBy kind worker.old.value worker.new.value replaced.new }
    ensures status { MatchOption worker.old.value (result ≡ EMPTY) (λ _. IsPutStatus kind (length bytes.now) result) }
    ensures unchanged { (result ≡ EMPTY) ⊎ (result ≡ KIND) → worker.new.value ≡ worker.old.value }
    ensures unsaid { result ≢ 0 → replaced.new ≡ replaced.old }
{
    let Some(held) = worker.get_mut() else {
        return EMPTY;
    };
    let Some(kind) = kind_of(kind) else {
        return KIND;
    };
    match held.put(kind, bytes) {
        Ok(another) => {
            *replaced = another;
            DONE
        }
        Err(PutFault::TooLong) => LENGTH,
        Err(PutFault::NoObject) => NO_OBJECT,
    }
}

/// Takes what is on the shelf of a kind off it, copies its bytes as far as there is room, and says whether there was something.
#[unsafe(no_mangle)]
pub extern "C" fn ebpf_worker_take(
    worker: &mut WorkerHandle,
    kind: u32,
    bytes: &mut [u8],
    found: &mut bool,
) -> u32
    ensures taken { result ≡ DONE → IsTakenBy kind worker.old.value worker.new.value bytes.old bytes.new found.new }
    ensures status { MatchOption worker.old.value (result ≡ EMPTY) (λ _. IsTakeStatus kind result) }
    ensures unchanged { result ≢ 0 → worker.new.value ≡ worker.old.value }
    ensures unsaid { result ≢ 0 → (bytes.new ≡ bytes.old) × (found.new ≡ found.old) }
{
    let Some(held) = worker.get_mut() else {
        return EMPTY;
    };
    let Some(kind) = kind_of(kind) else {
        return KIND;
    };
    *found = held.take(kind, bytes);
    DONE
}
