//! The workers together: what they are made of, their work with the reaper beside them, and what is left of them.

ghost use Rattle.std.specs.Prelude.{◌≡◌, ◌≤◌, [], All, reverse, map, length, vec_capacity};
ghost use Rattle.worker_pool.specs.Crews.{AreFresh, HaveNone, IsBack, AreDismissed, seat_in};
ghost use Rattle.worker_pool.specs.Sharing.{AreDoneWith, CanBeginWith};
ghost use Rattle.worker_pool.specs.Working.{IsFresh};
ghost use denote.Param.Send.{IsSync};

use crate::answered::Answered;
use crate::beside::{Errand, beside};
use crate::each_kind::FreeHands;
use crate::gate::{Gate, Point};
use crate::hands::Tools;
use crate::ledgers::Names;
use crate::worker::{Ending, Shared, Worker, work};
use owners_table::owners::OwnerSeat;
use owners_table::tickets::TicketSeat;
use std::sync::Wait;
use std::thread;
use std::thread::Threads;

/// For each worker its hands, its seats and what it did.
pub(crate) struct Parts<L: Names> {
    pub(crate) hands: FreeHands<L>,
    pub(crate) seats: Vec<OwnerSeat>,
    pub(crate) drawers: Vec<TicketSeat>,
    pub(crate) answered: Vec<Answered>,
}

/// What all workers came to, beside their parts.
#[derive(Clone, Copy)]
pub(crate) struct Done {
    /// How many objects went back since their slots had an owner.
    pub(crate) clashes: u64,
    /// How many objects that came off a shelf went back since the table had their slots as another's.
    pub(crate) strays: u64,
    /// How they ended together.
    pub(crate) ending: Ending,
}

/// Makes workers of the parts, which are none then.
pub(crate) fn recruit<'a, L: Names, G: Gate + 'a, R: Wait + 'a>(
    shared: &Shared<'a, L, G, R>,
    parts: &mut Parts<L>,
    workers: &mut Vec<Worker<L>>,
)
    requires fresh { AreFresh shared.now.owners.now shared.now.tickets.now (length parts.old.seats.items) parts.old }
    requires none { workers.old.items ≡ [] }
    requires room { length parts.old.seats.items ≤ vec_capacity workers.old }
    ensures fresh { All (IsFresh shared.now.owners.now shared.now.tickets.now) workers.new.items }
    ensures seats { map seat_in workers.new.items ≡ reverse parts.old.seats.items }
    ensures none { HaveNone (length parts.old.seats.items) parts.new }
{
    for _worker in 0..parts.seats.len() {
        workers.push_reserved(Worker {
            tools: Some(Tools {
                hands: parts.hands.take_last(),
                seat: parts.seats.take_last(),
                clashes: 0,
                strays: 0,
            }),
            ticket: parts.drawers.take_last(),
            answered: parts.answered.take_last(),
            ending: Ending::Unstarted,
        });
    }
}

// All workers, each in a thread of its own where one can be made.
fn work_all<'a, L: Names + Send + Sync, G: Gate + Sync + 'a, R: Threads + Wait + Sync + 'a>(
    shared: &Shared<'a, L, G, R>,
    workers: &mut [Worker<L>],
)
    requires { CanBeginWith shared.now workers.old }
    ensures { AreDoneWith shared.now workers.old workers.new }
{
    let count = workers.len();
    thread::for_each_mut(shared.rt, workers, count, &|_, worker| work(shared, worker));
}

// The passes of the reaper.
fn reap<'a, L: Names, G: Gate + 'a, R: Wait + 'a>(shared: &Shared<'a, L, G, R>, reaps: u32) {
    for pass in 0..reaps {
        shared.supplies.reap(shared.rt, shared.arena);
        shared.gate.at(u64::from(pass), Point::Reaped);
    }
}

// The passes of the reaper, as work that may be left undone.
#[derive(Drop)]
struct Reaper<'s, L: Names, G: Gate, R: Wait> {
    shared: &'s Shared<'s, L, G, R>,
    reaps: u32,
}

impl<'s, L: Names, G: Gate + 's, R: Wait + 's> Errand for Reaper<'s, L, G, R> {
    fn run(&self) {
        reap(self.shared, self.reaps);
    }
}

/// All workers, and beside them the reaper, where it has passes to make: it takes a thread, and makes none where that can't be started.
pub(crate) fn work_and_reap<
    'a,
    L: Names + Send + Sync,
    G: Gate + Sync + 'a,
    R: Threads + Wait + Sync + 'a,
>(shared: &Shared<'a, L, G, R>, reaps: u32, workers: &mut [Worker<L>])
    requires { CanBeginWith shared.now workers.old }
    ensures { AreDoneWith shared.now workers.old workers.new }
{
    if reaps == 0 {
        work_all(shared, workers);
        return;
    }
    beside(
        shared.rt,
        &Reaper {
            shared: &*shared,
            reaps,
        },
        &mut ||
            requires { IsSync R.row × IsSync G.row × CanBeginWith shared.now workers.now }
            ensures { AreDoneWith shared.entry.now workers.entry.now workers.exit.now }
        { work_all(shared, workers) },
    );
}

/// Takes the workers apart, the last one first.
pub(crate) fn dismiss<L: Names>(workers: &mut Vec<Worker<L>>, parts: &mut Parts<L>) -> Done
    requires back { All IsBack workers.old.items }
    requires few { length workers.old.items ≤ 64 }
    requires none { HaveNone (length workers.old.items) parts.old }
    ensures none { workers.new.items ≡ [] }
    ensures dismissed { AreDismissed workers.old.items parts.new result }
{
    let mut done = Done {
        clashes: 0,
        strays: 0,
        ending: Ending::Unstarted,
    };
    for _worker in 0..workers.len() {
        let Worker {
            tools,
            ticket,
            answered,
            ending,
        } = workers.take_last();
        let Some(
            Tools {
                hands,
                seat,
                clashes,
                strays,
            },
        ) = tools
        else {
            unreachable!()
        };
        parts.hands.push_reserved(hands);
        parts.seats.push_reserved(seat);
        parts.drawers.push_reserved(ticket);
        parts.answered.push_reserved(answered);
        done.clashes += clashes;
        done.strays += strays;
        done.ending = done.ending.with(ending);
    }
    done
}
