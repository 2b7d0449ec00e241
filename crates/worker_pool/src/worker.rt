//! A worker.
//!
//! *The idea.* A worker draws the number of a bundle of neighbouring jobs. It runs the program of each over its own store, and keeps
//! the reports in their order, in a list for each bundle. Then it draws again, until no bundle is left. One that
//! finds no memory to begin with draws none, and leaves all jobs to the others. A bundle saves draws: each is a step on one word that
//! all workers share.
//!
//! *The invariant.* There are as many lists of a bundle as it was drawn. Each report is that of its job's program alone, with the
//! answers that it reports. Of each kind its hands gave back or left on the shelf all that they took or got from there. What they
//! took, got and were refused is what the reports say, clashes and strays aside.
//!
//! *The reason.* A run over any store leaves as many objects of each kind out as there were, and its report's answers are
//! what the store counts. Each bundle is drawn once, over all workers, and each job is in one bundle; so each job has one report.

ghost use Rattle.std.specs.Prelude.{◌≡◌, ◌≢◌, ◌⊎◌, ◌≤◌, ◌<◌, ◌*◌, [], All, length, true, false, is_some, vec_len, vec_capacity, IfOk, OnOk, OnErr};
ghost use Rattle.owners_table.specs.Drawing.{IsOf};
ghost use Rattle.owners_table.specs.declared.owners.TheConstants.{ARENA_SLOTS};
ghost use Rattle.worker_pool.specs.EachKind.{hands_of, IsEven};
ghost use Rattle.worker_pool.specs.declared.worker.Ending.TheVariants.{Through, OutOfMemory};
ghost use Rattle.worker_pool.specs.Bundles.{IsBundleSize};
ghost use Rattle.worker_pool.specs.Going.{HasAnsweredAll, tools_of};
ghost use Rattle.worker_pool.specs.Numbering.{IsBlank, IsWhole, bundles_in, many_in, told_by};
ghost use Rattle.worker_pool.specs.Working.{IsFresh, IsUnused, IsDone, IsServed, AreUsed, AreReady, Answers, HasDrawn};

use crate::answered::{Answered, Bundle};
use crate::bundle::answer_bundle;
use crate::client::Client;
use crate::each_kind::{Stocks, Supplies};
use crate::gate::Gate;
use crate::hands::Tools;
use crate::ledgers::Names;
use crate::spares::Spares;
use crate::store::Store;
use ebpf_fours::memory::Memory;
use ebpf_verify::verified::Verified;
use job_list::{JobReport, Jobs};
use object_cache::ArenaLock;
use owners_table::owners::Owners;
use owners_table::tickets::{TicketSeat, Tickets};
use std::alloc::{AllocError, Global};
use std::mem;
use std::sync::Wait;

/// What all workers use, and none owns: the supplies and tables, the programs and jobs, and the gate. There is a ticket for each bundle
/// of jobs.
#[derive(Drop)]
pub(crate) struct Shared<'a, L: Names, G: Gate, R: Wait> {
    pub(crate) rt: &'a R,
    pub(crate) alloc: Global,
    pub(crate) arena: &'a ArenaLock,
    pub(crate) owners: &'a Owners,
    pub(crate) supplies: &'a Supplies<L>,
    pub(crate) programs: &'a [Verified],
    pub(crate) jobs: &'a Jobs,
    /// Whether any program is so long that four runs of it go together.
    pub(crate) long: bool,
    /// How many jobs a bundle has.
    pub(crate) size: u64,
    pub(crate) tickets: &'a Tickets,
    pub(crate) gate: &'a G,
    ghost slots: { ARENA_SLOTS ≤ owners.now.slots },
    ghost sized: { IsBundleSize size },
    ghost limit: { tickets.now.limit ≡ bundles_in size (length jobs.now) },
}

/// How a worker ended, or several together.
#[derive(Clone, Copy)]
pub(crate) enum Ending {
    /// It found no jobs left.
    Through,
    /// It found no memory to begin with: it drew no job, and left all jobs to the others.
    Unstarted,
    /// It drew a bundle and found no memory for one of its jobs.
    OutOfMemory,
}

impl Ending {
    /// How two ended together: out of memory where one was, else through where one was.
    pub(crate) fn with(self, other: Ending) -> Ending
        ensures kept { result ≢ OutOfMemory → (self ≢ OutOfMemory) × (other ≢ OutOfMemory) }
        ensures through { result ≡ Through → (self ≡ Through) ⊎ (other ≡ Through) }
    {
        match (self, other) {
            (Ending::OutOfMemory, _) | (_, Ending::OutOfMemory) => Ending::OutOfMemory,
            (Ending::Unstarted, Ending::Unstarted) => Ending::Unstarted,
            _ => Ending::Through,
        }
    }
}

/// A worker. While it works its tools are its store's, and not here.
pub(crate) struct Worker<L: Names> {
    pub(crate) tools: Option<Tools<L>>,
    pub(crate) ticket: TicketSeat,
    pub(crate) answered: Answered,
    /// How it ended; before it works, `Unstarted`.
    pub(crate) ending: Ending,
}

/// Does jobs until none is left, or memory runs out.
pub(crate) fn work<'a, L: Names, G: Gate + 'a, R: Wait + 'a>(
    shared: &Shared<'a, L, G, R>,
    worker: &mut Worker<L>,
)
    requires ready { AreReady shared.now.programs.now shared.now.jobs.now }
    requires fresh { IsFresh shared.now.owners.now shared.now.tickets.now worker.old }
    ensures { IsDone shared.now.programs.now shared.now.jobs.now shared.now.size shared.now.tickets.now worker.old worker.new }
{
    let Some(tools) = worker.tools.take() else {
        unreachable!()
    };
    // What a job writes to lies with the thread, not beside what another worker writes to.
    let mut answered = mem::replace(&mut worker.answered, Answered::new(shared.alloc));
    let (left, ending) = work_with(shared, tools, &mut worker.ticket, &mut answered);
    worker.answered = answered;
    worker.ending = ending;
    match worker.tools.replace(left) {
        Some(_) => unreachable!(),
        None => {}
    }
}

// Does jobs with a store of these tools, which are handed back.
fn work_with<'a, L: Names, G: Gate + 'a, R: Wait + 'a>(
    shared: &Shared<'a, L, G, R>,
    tools: Tools<L>,
    ticket: &mut TicketSeat,
    answered: &mut Answered,
) -> (Tools<L>, Ending)
    requires ready { AreReady shared.now.programs.now shared.now.jobs.now }
    requires unused { IsUnused shared.now.owners.now tools }
    requires table { IsOf shared.now.tickets.now ticket.old }
    requires none { (ticket.old.drawn ≡ []) × (ticket.old.passed ≡ false) × IsBlank answered.old }
    ensures used { AreUsed tools result.0 (told_by shared.now.size answered.new) }
    ensures served { IsServed shared.now.programs.now shared.now.jobs.now shared.now.size shared.now.tickets.now ticket.new answered.new result.1 }
{
    let Tools {
        hands,
        seat,
        clashes: _,
        strays: _,
    } = tools;
    let client: Client<'a, R> = Client::new(shared.rt, shared.arena, shared.owners, seat);
    let stocks = Stocks::new(shared.supplies, hands);
    let mut store: Store<'a, L, R> = Store::new(client, stocks);
    let ending = serve(shared, &mut store, ticket, answered);
    (store.end(), ending)
}

// Draws bundles and does their jobs.
fn serve<'a, L: Names, G: Gate + 'a, R: Wait + 'a>(
    shared: &Shared<'a, L, G, R>,
    store: &mut Store<'a, L, R>,
    ticket: &mut TicketSeat,
    answered: &mut Answered,
) -> Ending
    requires ready { AreReady shared.now.programs.now shared.now.jobs.now }
    requires even { IsEven (hands_of store.old.stocks) }
    requires table { IsOf shared.now.tickets.now ticket.old }
    requires none { (ticket.old.drawn ≡ []) × (ticket.old.passed ≡ false) × IsBlank answered.old }
    ensures even { IsEven (hands_of store.new.stocks) }
    ensures table { IsOf shared.now.tickets.now ticket.new }
    ensures good { All (Answers shared.now.programs.now shared.now.jobs.now) (told_by shared.now.size answered.new) }
    ensures drawn { HasDrawn (bundles_in shared.now.size (length shared.now.jobs.now)) ticket.new answered.new.bundles.items result }
    ensures whole { result ≢ OutOfMemory → All (IsWhole shared.now.size (length shared.now.jobs.now)) answered.new.bundles.items }
    ensures goes { HasAnsweredAll (tools_of store.old.stocks store.old.client) (told_by shared.now.size answered.new)
        (tools_of store.new.stocks store.new.client) }
{
    let Ok(mut memory) = Memory::with_one(shared.alloc) else {
        return Ending::Unstarted;
    };
    let mut spares = Spares::new();
    for _ in shared.rt.forever() {
        let Some(number) = shared.tickets.draw(ticket) else {
            memory.free();
            return Ending::Through;
        };
        let Ok(mut reports) = room_for_bundle(shared, number, answered) else {
            memory.free();
            return Ending::OutOfMemory;
        };
        let done = answer_bundle(
            shared,
            number,
            store,
            &mut reports,
            &mut spares,
            &mut memory,
        );
        answered.bundles.push_reserved(Bundle { number, reports });
        let Ok(()) = done else {
            memory.free();
            return Ending::OutOfMemory;
        };
    }
    unreachable!()
}

// Room for a bundle more, and for the reports of its jobs.
fn room_for_bundle<'a, L: Names, G: Gate + 'a, R: Wait + 'a>(
    shared: &Shared<'a, L, G, R>,
    number: u64,
    answered: &mut Answered,
) -> Result<Vec<JobReport>, AllocError>
    requires { number < bundles_in shared.now.size (length shared.now.jobs.now) }
    ensures same { answered.new.bundles.items ≡ answered.old.bundles.items }
    ensures room { OnOk result (vec_len answered.new.bundles < vec_capacity answered.new.bundles) }
    ensures none { IfOk result (λ reports. reports.items ≡ []) }
    ensures all { IfOk result (λ reports. many_in shared.now.size (length shared.now.jobs.now) number ≤ vec_capacity reports) }
{
    answered.bundles.reserve(1)?;
    let left = shared.jobs.len() as u64 - number * shared.size;
    Vec::with_capacity(shared.alloc, shared.size.min(left) as usize)
}
