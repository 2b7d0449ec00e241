//! Caches and shelves that workers share, as C makes them, opens workers on them, and frees them.

ghost use Rattle.std.specs.Prelude.{◌≡◌, ◌≢◌, ◌⊎◌, ◌<◌, ◌↔◌, None, is_some, true};
ghost use Rattle.std.specs.Option.{MatchOption};
ghost use Rattle.vmem_arena.specs.declared.arena.TheConstants.{MAX_PAGES};
ghost use Rattle.shared_store.specs.Tools.{HoldNothing};
ghost use Rattle.shared_store.specs.declared.keeper.TheConstants.{MAX_WORKERS};
ghost use Rattle.ebpf_host_c.specs.Totals.{AreTold};
ghost use Rattle.ebpf_host_c.specs.declared.status.TheConstants.{BUSY, DONE, EMPTY, NO_MEMORY, PAGES, WORKERS};

use crate::status::{BUSY, DONE, EMPTY, NO_MEMORY, PAGES, WORKERS};
use crate::totals::{Totals, all_told};
use ebpf_handle::shared::SharedHandle;
use ebpf_handle::worker::WorkerHandle;
use ebpf_host::shared::{Shared, SharedFault};
use shared_store::OpenFault;
use std::alloc::Global;

/// Makes caches and shelves for up to that many workers, whose objects lie on up to that many pages, and frees what the handle held before.
#[unsafe(no_mangle)]
pub extern "C" fn ebpf_shared_new(
    alloc: Global,
    shared: &mut SharedHandle,
    pages: u32,
    workers: u32,
) -> u32
    ensures made { result ≡ DONE → is_some shared.new.value ≡ true }
    ensures pages { (result ≡ PAGES) ↔ ((pages ≡ 0) ⊎ (MAX_PAGES < pages)) }
    ensures workers { result ≡ WORKERS → (workers ≡ 0) ⊎ (MAX_WORKERS < workers) }
    ensures statuses { (result ≡ DONE) ⊎ (result ≡ PAGES) ⊎ (result ≡ WORKERS) ⊎ (result ≡ NO_MEMORY) }
    ensures kept { result ≢ 0 → shared.new.value ≡ shared.old.value }
{
    match Shared::new(alloc, pages, workers) {
        Ok(made) => match Box::new(alloc, made) {
            Ok(boxed) => {
                shared.put(alloc, boxed);
                DONE
            }
            Err(_) => NO_MEMORY,
        },
        Err(SharedFault::Pages) => PAGES,
        Err(SharedFault::Workers) => WORKERS,
        Err(SharedFault::NoMemory) => NO_MEMORY,
    }
}

/// Opens a worker, and closes the one that the handle held before.
#[unsafe(no_mangle)]
pub extern "C" fn ebpf_worker_open(
    alloc: Global,
    worker: &mut WorkerHandle,
    shared: &mut SharedHandle,
) -> u32
    ensures opened { result ≡ DONE → MatchOption worker.new.value ⊥ HoldNothing }
    ensures status { MatchOption shared.old.value (result ≡ EMPTY) (λ _. (result ≡ DONE) ⊎ (result ≡ BUSY) ⊎ (result ≡ NO_MEMORY)) }
    ensures kept { result ≢ 0 → worker.new.value ≡ worker.old.value }
    ensures shared { is_some shared.new.value ≡ is_some shared.old.value }
{
    let Some(held) = shared.get_mut() else {
        return EMPTY;
    };
    match held.worker() {
        Ok(opened) => match Box::new(alloc, opened) {
            Ok(boxed) => {
                worker.put(alloc, boxed);
                DONE
            }
            Err(_) => NO_MEMORY,
        },
        Err(OpenFault::Busy) => BUSY,
        Err(OpenFault::NoMemory) => NO_MEMORY,
    }
}

/// A pass of the reaper: the pages on which there is no object go back to the arena. `pages` is how many did.
#[unsafe(no_mangle)]
pub extern "C" fn ebpf_shared_reap(shared: &mut SharedHandle, pages: &mut u32) -> u32
    ensures status { MatchOption shared.old.value (result ≡ EMPTY) (λ _. result ≡ DONE) }
    ensures shared { is_some shared.new.value ≡ is_some shared.old.value }
    ensures unsaid { result ≢ 0 → pages.new ≡ pages.old }
{
    match shared.get_mut() {
        None => EMPTY,
        Some(held) => {
            *pages = held.reap();
            DONE
        }
    }
}

/// Closes what workers shared, if no worker is open, and frees the handle. `totals` is what became of the objects.
#[unsafe(no_mangle)]
pub extern "C" fn ebpf_shared_close(
    alloc: Global,
    shared: &mut SharedHandle,
    totals: &mut Totals,
) -> u32
    ensures totals { result ≡ DONE → AreTold totals.new }
    ensures status { MatchOption shared.old.value (result ≡ EMPTY) (λ _. (result ≡ DONE) ⊎ (result ≡ BUSY)) }
    ensures emptied { result ≡ DONE → shared.new.value ≡ None }
    ensures kept { result ≢ 0 → is_some shared.new.value ≡ is_some shared.old.value }
    ensures unsaid { result ≢ 0 → totals.new ≡ totals.old }
{
    let Some(held) = shared.get_mut() else {
        return EMPTY;
    };
    let Some(closed) = held.close_in_place() else {
        return BUSY;
    };
    *totals = all_told(closed);
    ebpf_shared_free(alloc, shared);
    DONE
}

/// Frees the handle. What workers share is freed with the last of them that is open.
#[unsafe(no_mangle)]
pub extern "C" fn ebpf_shared_free(alloc: Global, shared: &mut SharedHandle)
    ensures { shared.new.value ≡ None }
{
    drop(shared.take(alloc));
}
