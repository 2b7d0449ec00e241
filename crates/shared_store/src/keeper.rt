//! Whoever opens workers, reaps, and closes.
//!
//! *The idea.* The tools of a worker that isn't open lie at home, in a place of their own. Opening a worker takes them from there, and
//! ending its store brings them back, on whatever thread. So no two workers ever have the same tools, and closing waits for nobody: it takes
//! what is at home, and where something is missing it puts all of it back.

ghost use Rattle.std.specs.Prelude.{◌≡◌, ◌+◌, ◌<◌, ◌≤◌, All, List, [], length, vec_capacity, vec_len, IfOk, IfErr, OnOk, IsTrue};
ghost use Rattle.std.specs.Arc.{arc_value};
ghost use Rattle.shared_store.specs.Making.{IsMade};
ghost use Rattle.shared_store.specs.Closing.{AreTotals};
ghost use Rattle.shared_store.specs.Room.{HasRoom};
ghost use Rattle.shared_store.specs.Tools.{AreAtHome, HoldNothing, ToolsView};

use crate::calling_in::{called_in, sent_back};
use crate::closing::closed;
use crate::commons::Commons;
use crate::house::{Home, Homes, House};
use crate::opening::made;
use crate::room::Room;
use crate::store::{OpenFault, Store};
use crate::tools::Tools;
use crate::totals::SharedTotals;
use lending_row::LendingRow;
use std::alloc::{AllocError, Global};
use std::sync::Arc;
use vmem_arena::Arena;

/// The most workers that share caches.
pub const MAX_WORKERS: u32 = 64;

/// Whoever opens workers, reaps, and closes. It has tools of its own, by which it reaps. One that is dropped leaves all to the workers that
/// are open: the memory is freed with the last of them, and there are no totals.
#[derive(Drop)]
pub struct Keeper {
    house: Arc<House>,
    own: Tools,
    workers: u32,
    // What closing fills, made before, so that it takes no memory.
    room: Room,
    tools: Vec<Tools>,
    homes: Vec<Home>,
    ghost of: { AreAtHome (arc_value house).commons own },
    ghost made: { IsMade (workers + 1) (arc_value house).commons },
    ghost places: { (arc_value house).homes.places ≡ workers },
    ghost few: { (0 < workers) × (workers ≤ 64) },
    ghost none: { (tools.items ≡ []) × (homes.items ≡ []) },
    ghost room_is: { HasRoom (workers + 1) room },
    ghost room_for: { (workers + 1 ≤ vec_capacity tools) × (workers ≤ vec_capacity homes) },
}

impl Keeper {
    /// Caches and shelves for this many workers, of which none is open. Objects lie on the pages of the arena.
    ///
    /// # Errors
    /// There was no memory: nothing was made, and the arena is gone.
    pub fn new(alloc: Global, arena: Arena, workers: u32) -> Result<Keeper, AllocError>
        requires { (0 < workers) × (workers ≤ 64) }
        ensures { IfOk result (λ k. k.workers ≡ workers) }
    {
        let (house, own) = housed(alloc, arena, workers)?;
        let (room, tools, homes) = lists(alloc, workers)?;
        Ok(Keeper {
            house,
            own,
            workers,
            room,
            tools,
            homes,
        })
    }

    /// Opens the worker with the lowest number that isn't open.
    ///
    /// # Errors
    /// `Busy` if all are open; `NoMemory` if what they share has as many owners as can be counted.
    pub fn open(&self) -> Result<Store, OpenFault>
        ensures { IfOk result (λ s. HoldNothing s.tools) }
    {
        for worker in 0..self.workers {
            match Store::open(&self.house, worker) {
                Ok(store) => return Ok(store),
                Err(OpenFault::NoMemory) => return Err(OpenFault::NoMemory),
                Err(OpenFault::Busy) => {}
            }
        }
        Err(OpenFault::Busy)
    }
    /// A pass of the reaper over the cache of each kind: the full magazines of the depots that nobody is at go home, and each page with no
    /// object out goes back to the arena. The answer is how many pages did. What a worker is at is left for the next pass.
    pub fn reap(&mut self) -> u32
        ensures { self.new.workers ≡ self.old.workers }
    {
        self.own.reap(&self.house.commons)
    }
    /// Ends what workers share, and adds up what they did. What is on the shelves goes back first.
    ///
    /// # Errors
    /// A worker is open, or was closed on another thread that isn't through with it: nothing changed, and the keeper comes back.
    pub fn close(self) -> Result<SharedTotals, Keeper>
        // They are those of all workers and of the keeper, each with its own counts.
        ensures totals { IfOk result (λ t. (all : List ToolsView) × (length all ≡ self.workers + 1) × AreTotals all t) }
        ensures back { IfErr result (λ k. k.workers ≡ self.workers) }
    {
        let Keeper {
            house,
            own,
            workers,
            room,
            mut tools,
            mut homes,
        } = self;
        let all_home = called_in(&house, workers, &mut tools, &mut homes);
        match unshared(house, all_home) {
            Ok(House { commons, homes: _ }) => {
                tools.push_reserved(own);
                Ok(closed(commons, tools, room))
            }
            Err(house) => {
                sent_back(&house, &mut tools, &mut homes);
                Err(Keeper {
                    house,
                    own,
                    workers,
                    room,
                    tools,
                    homes,
                })
            }
        }
    }
}

// What this many workers share, with the tools of each at home, and a set of tools more.
fn housed(alloc: Global, arena: Arena, workers: u32) -> Result<(Arc<House>, Tools), AllocError>
    requires { (0 < workers) × (workers ≤ 64) }
    ensures own { IfOk result (λ r. AreAtHome (arc_value r.0).commons r.1) }
    ensures made { IfOk result (λ r. IsMade (workers + 1) (arc_value r.0).commons) }
    ensures places { IfOk result (λ r. (arc_value r.0).homes.places ≡ workers) }
{
    let (commons, mut sets) = made(alloc, arena, workers + 1)?;
    let own = sets.take_last();
    let homes = homes(alloc, sets, &commons)?;
    let house = Arc::new(alloc, House { commons, homes })?;
    Ok((house, own))
}

// A place for each of these tools, with the tools there.
fn homes(alloc: Global, sets: Vec<Tools>, commons: &Commons) -> Result<Homes, AllocError>
    requires { All (AreAtHome commons.now) sets.items }
    ensures { IfOk result (λ h. (h.places ≡ vec_len sets) × (h.key ≡ commons.now)) }
{
    match LendingRow::new(alloc, sets, commons) {
        Ok(row) => Ok(row),
        Err(_) => Err(AllocError),
    }
}

// What closing fills: room for the parts of all tools, for the tools themselves, and for the loans of those of workers.
fn lists(alloc: Global, workers: u32) -> Result<(Room, Vec<Tools>, Vec<Home>), AllocError>
    requires few { workers ≤ 64 }
    ensures room { IfOk result (λ r. HasRoom (workers + 1) r.0) }
    ensures tools { IfOk result (λ r. (r.1.items ≡ []) × (workers + 1 ≤ vec_capacity r.1)) }
    ensures homes { IfOk result (λ r. (r.2.items ≡ []) × (workers ≤ vec_capacity r.2)) }
{
    let room = Room::new(alloc, workers + 1)?;
    let tools = Vec::with_capacity(alloc, workers as usize + 1)?;
    let homes = Vec::with_capacity(alloc, workers as usize)?;
    Ok((room, tools, homes))
}

// The house, if all tools are at home and no worker shares it any more.
fn unshared(house: Arc<House>, all_home: bool) -> Result<House, Arc<House>>
    ensures home { OnOk result (IsTrue all_home) }
    ensures house { IfOk result (λ h. h ≡ arc_value house) }
    ensures back { IfErr result (λ h. h ≡ house) }
{
    if !all_home {
        return Err(house);
    }
    Arc::try_unwrap(house)
}
