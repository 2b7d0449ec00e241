//! The arena, under a lock.

ghost use Rattle.std.specs.Prelude.{◌≡◌, ◌<◌, ◌↔◌, ◌⊎◌};
ghost use Rattle.vmem_arena.specs.declared.arena.TheConstants.{MAX_PAGES};

use std::alloc::Global;
use std::sync::Mutex;
use vmem_arena::{Arena, ArenaFault};

/// An arena that caches share.
#[derive(Drop)]
pub struct ArenaLock {
    pub(crate) arena: Mutex<Arena>,
}

impl ArenaLock {
    /// An arena of this many pages, 1 to `MAX_PAGES` of vmem_arena, all of them free.
    ///
    /// # Errors
    /// `Pages` for any other number; `NoMemory` where an allocation failed.
    pub fn new(alloc: Global, pages: u32) -> Result<ArenaLock, ArenaFault>
        ensures pages { (result ≡ Err ArenaFault.Pages) ↔ ((pages ≡ 0) ⊎ (MAX_PAGES < pages)) }
    {
        match Arena::new(alloc, pages) {
            Ok(arena) => Ok(ArenaLock {
                arena: Mutex::new(arena),
            }),
            Err(fault) => Err(fault),
        }
    }
}
