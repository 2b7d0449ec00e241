//! All that jobs need before there are workers: memory, tickets, supplies with their hands, and a list for workers.

ghost use Rattle.std.specs.Prelude.{◌≡◌, ◌≤◌, ◌<◌, [], All, length, vec_len, vec_capacity, IfOk};
ghost use Rattle.owners_table.specs.Drawing.{fresh};
ghost use Rattle.worker_pool.specs.EachKind.{AreAllFor};
ghost use Rattle.worker_pool.specs.Bundles.{IsBundleSize, IsShared, fewest_bundles};
ghost use Rattle.worker_pool.specs.Crews.{IsPrepared};
ghost use Rattle.worker_pool.specs.Numbering.{IsBlank, bundles_in};

use crate::answered::Answered;
use crate::each_kind::{Blanks, FreeHands, Supplies};
use crate::ledgers::Names;
use crate::worker::Worker;
use job_list::JobReport;
use object_cache::ArenaLock;
use owners_table::tickets::{TicketSeat, Tickets};
use std::alloc::{AllocError, Global};
use std::sync::Wait;

/// The most jobs of one ticket.
pub(crate) const MAX_BUNDLE: u64 = 512;

/// How many tickets there are for each worker, at least, where one is of more than one job: so workers end together.
pub(crate) const MIN_BUNDLES: u64 = 64;

/// The same where a program is so long that four runs of it go together: so that there are four in a ticket of fewer jobs.
pub(crate) const MIN_LONG_BUNDLES: u64 = 16;

/// The arena and a ticket for each bundle of jobs, and room to say how many jobs each worker did.
#[derive(Drop)]
pub(crate) struct Room {
    pub(crate) arena: ArenaLock,
    /// Whether any program is so long that four runs of it go together.
    pub(crate) long: bool,
    /// How many jobs a bundle has; the last one may have fewer.
    pub(crate) size: u64,
    pub(crate) tickets: Tickets,
    pub(crate) jobs_done: Vec<u64>,
}

impl Room {
    /// Room for this many workers and jobs, with a seat for each worker to draw tickets with.
    pub(crate) fn new(
        alloc: Global,
        pages: u32,
        workers: usize,
        jobs: usize,
        long: bool,
    ) -> Result<(Room, Vec<TicketSeat>), AllocError>
        requires workers { (0 < workers) × (workers ≤ 64) }
        ensures size { IfOk result (λ r. IsBundleSize r.0.size) }
        ensures tickets { IfOk result (λ r. (r.0.tickets.limit ≡ bundles_in r.0.size jobs) × (r.0.tickets.seats ≡ workers)) }
        ensures drawers { IfOk result (λ r. (length r.1.items ≡ workers) × All (λ s. s ≡ fresh r.0.tickets.table r.0.tickets.limit) r.1.items) }
        ensures jobs_done { IfOk result (λ r. (r.0.jobs_done.items ≡ []) × (workers ≤ vec_capacity r.0.jobs_done)) }
    {
        let Ok(arena) = ArenaLock::new(alloc, pages) else {
            return Err(AllocError);
        };
        let size = bundle_size(workers as u64, jobs as u64, long);
        let (tickets, drawers) = Tickets::new(alloc, (jobs as u64).div_ceil(size), workers as u32)?;
        let room = Room {
            arena,
            long,
            size,
            tickets,
            jobs_done: Vec::with_capacity(alloc, workers)?,
        };
        Ok((room, drawers))
    }
}

// How many jobs a bundle has: as many as leave each worker its number of bundles, by fours if there are enough.
fn bundle_size(workers: u64, jobs: u64, long: bool) -> u64
    requires workers { (0 < workers) × (workers ≤ 64) }
    ensures size { IsBundleSize result }
    ensures shared { IsShared result workers (fewest_bundles long) jobs }
{
    let fewest = if long { MIN_LONG_BUNDLES } else { MIN_BUNDLES };
    let size = (jobs / (workers * fewest)).clamp(1, MAX_BUNDLE);
    if size < 4 { size } else { size - size % 4 }
}

// That many empty lists.
fn blank_lists(alloc: Global, count: usize) -> Result<Vec<Answered>, AllocError>
    ensures { IfOk result (λ v. (length v.items ≡ count) × All IsBlank v.items) }
{
    let mut lists = Vec::with_capacity(alloc, count)?;
    for _list in 0..count {
        lists.push_reserved(Answered::new(alloc));
    }
    Ok(lists)
}

/// What workers are made of and work with, before there are any: for each a seat to draw tickets with, a list for what it does
/// and its hands; and memory for a place for each bundle of reports.
pub(crate) struct Setup<L: Names> {
    pub(crate) room: Room,
    pub(crate) drawers: Vec<TicketSeat>,
    pub(crate) answered: Vec<Answered>,
    pub(crate) places: Vec<Vec<JobReport>>,
    pub(crate) workers: Vec<Worker<L>>,
    pub(crate) supplies: Supplies<L>,
    pub(crate) hands: FreeHands<L>,
}

impl<L: Names> Setup<L> {
    /// All that this many workers and jobs need, of which some run a long program or none. The supplies come last, so that little is to be undone.
    ///
    /// # Errors
    /// There was no memory. All caches that were made were closed.
    pub(crate) fn new<R: Wait>(
        rt: &R,
        alloc: Global,
        pages: u32,
        count: usize,
        jobs: usize,
        long: bool,
        blanks: Blanks,
    ) -> Result<Setup<L>, AllocError>
        requires blanks { AreAllFor L.outs L.ins L.puts L.gets blanks }
        requires count { (0 < count) × (count ≤ 64) }
        ensures { IfOk result (IsPrepared count jobs) }
    {
        let (room, drawers) = Room::new(alloc, pages, count, jobs, long)?;
        let answered = blank_lists(alloc, count)?;
        let places = Vec::with_capacity(alloc, (jobs as u64).div_ceil(room.size) as usize)?;
        let workers = Vec::with_capacity(alloc, count)?;
        let Ok((supplies, hands)) = Supplies::open(rt, alloc, &room.arena, count, blanks) else {
            workers.destroy_empty();
            return Err(AllocError);
        };
        Ok(Setup {
            room,
            drawers,
            answered,
            places,
            workers,
            supplies,
            hands,
        })
    }
}
