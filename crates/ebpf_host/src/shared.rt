//! Caches and shelves that a host's own threads share.
//!
//! *The idea.* The host makes a [`Shared`] for a number of workers, and opens a [`Worker`] for each of its threads. Nothing here starts a
//! thread or takes a lock, and no call waits for another. Workers may be opened and closed while others run, by whoever has the `Shared`.

ghost use Rattle.std.specs.Prelude.{◌≡◌, ◌⊎◌, ◌<◌, ◌≤◌, ◌↔◌, List, IfOk, OnOk, IfSome};
ghost use Rattle.vmem_arena.specs.declared.arena.TheConstants.{MAX_PAGES};
ghost use Rattle.shared_store.specs.declared.keeper.TheConstants.{MAX_WORKERS};
ghost use Rattle.shared_store.specs.Closing.{AreTotals};
ghost use Rattle.shared_store.specs.Tools.{HoldNothing, ToolsView};

use crate::stocks::WORDS_APART;
use crate::worker::Worker;
use shared_store::{Keeper, MAX_WORKERS, OpenFault, SharedTotals};
use std::alloc::Global;
use std::mem;
use thiserror::Error;
use vmem_arena::{Arena, ArenaFault};

/// Why nothing was made for workers.
#[derive(Clone, Copy, Debug, Error)]
pub enum SharedFault {
    /// The number of pages is out of its range.
    #[error("the number of pages is out of its range")]
    Pages,
    /// The number of workers is out of its range.
    #[error("the number of workers is out of its range")]
    Workers,
    /// An allocation failed.
    #[error("no memory")]
    NoMemory,
}

/// What workers share. One that is dropped leaves all to the workers that are open.
#[derive(Drop)]
pub struct Shared {
    alloc: Global,
    before: [u64; WORDS_APART],
    // None once it is closed.
    keeper: Option<Keeper>,
    after: [u64; WORDS_APART],
}

impl Shared {
    /// Caches and shelves for up to that many workers, 1 to 64, whose objects lie on up to n pages of 4,096 bytes, 1 to 256.
    ///
    /// # Errors
    /// `Pages` or `Workers` if that number is out of its range; `NoMemory` if an allocation failed.
    pub fn new(alloc: Global, pages: u32, workers: u32) -> Result<Shared, SharedFault>
        ensures pages { (result ≡ Err SharedFault.Pages) ↔ ((pages ≡ 0) ⊎ (MAX_PAGES < pages)) }
        ensures workers { result ≡ Err SharedFault.Workers → (workers ≡ 0) ⊎ (MAX_WORKERS < workers) }
        ensures some { OnOk result ((0 < workers) × (workers ≤ MAX_WORKERS)) }
    {
        let arena = match Arena::new(alloc, pages) {
            Ok(arena) => arena,
            Err(ArenaFault::Pages) => return Err(SharedFault::Pages),
            Err(ArenaFault::NoMemory) => return Err(SharedFault::NoMemory),
        };
        if workers == 0 || workers > MAX_WORKERS {
            return Err(SharedFault::Workers);
        }
        match Keeper::new(alloc, arena, workers) {
            Ok(keeper) => Ok(Shared {
                alloc,
                before: [0; WORDS_APART],
                keeper: Some(keeper),
                after: [0; WORDS_APART],
            }),
            Err(_) => Err(SharedFault::NoMemory),
        }
    }

    /// Opens a worker. It counts on from where the last one ended that had its place.
    ///
    /// # Errors
    /// `Busy` if as many are open as there may be; `NoMemory` if an allocation failed.
    pub fn worker(&mut self) -> Result<Worker, OpenFault>
        ensures { IfOk result HoldNothing }
    {
        let Some(keeper) = &self.keeper else {
            return Err(OpenFault::Busy);
        };
        let store = keeper.open()?;
        match Box::new(self.alloc, store) {
            Ok(store) => Ok(Worker::new(self.alloc, store)),
            Err(failed) => {
                failed.value.end();
                Err(OpenFault::NoMemory)
            }
        }
    }

    /// A pass of the reaper over the cache of each kind: the full magazines that nobody is at go home, and each page with no object out goes
    /// back to the arena, where objects of any kind may get it. The answer is how many pages did. What a worker is at is left for the next pass.
    pub fn reap(&mut self) -> u32 {
        match &mut self.keeper {
            Some(keeper) => keeper.reap(),
            None => 0,
        }
    }

    /// Ends what workers shared, and adds up what all of them did, what the host put on shelves and took from there, and what became of the
    /// objects. What is on the shelves goes back to the caches first.
    ///
    /// # Errors
    /// A worker is open, or a thread that closed one isn't through with it yet: nothing changed, and it comes back.
    pub fn close(mut self) -> Result<SharedTotals, Shared>
        // They are those of all workers, each with its own counts: what was taken came back, what was put on a shelf was got or is there.
        ensures { IfOk result (λ t. (all : List ToolsView) × AreTotals all t) }
    {
        match self.close_in_place() {
            Some(totals) => Ok(totals),
            None => Err(self),
        }
    }

    /// As [`Shared::close`], for a caller that can't give it away. After that no worker can be opened, and nothing is left to reap or to close.
    /// None if it can't be closed now, or is closed already.
    pub fn close_in_place(&mut self) -> Option<SharedTotals>
        ensures { IfSome result (λ t. (all : List ToolsView) × AreTotals all t) }
    {
        let keeper = mem::replace(&mut self.keeper, None)?;
        match keeper.close() {
            Ok(totals) => Some(totals),
            Err(keeper) => {
                self.keeper = Some(keeper);
                None
            }
        }
    }
}
