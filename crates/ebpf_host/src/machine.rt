//! A machine: what runs of programs need beside the programs, one run at a time.

ghost use Rattle.std.specs.Prelude.{◌≡◌, ◌⊎◌, ◌<◌, ◌↔◌, ◌∷◌, [], ℕ, None, is_some, length, IfOk, IfErr, OnOk, OnErr};
ghost use Rattle.vmem_arena.specs.declared.arena.TheConstants.{MAX_PAGES};
ghost use Rattle.ebpf_machine.specs.Turns.{IsStartFault};
ghost use Rattle.ebpf_host.specs.Finding.{AreFound};
ghost use Rattle.ebpf_host.specs.Leaving.{AreLeft};
ghost use Rattle.ebpf_host.specs.Reports.{IsReportWithin};
ghost use Rattle.ebpf_host.specs.Stocks.{stock_of};
ghost use Rattle.ebpf_host.specs.Whole.{whole};

use crate::program::Program;
use crate::stock::Counts;
use crate::stocks::{Stocks, WORDS_APART};
use crate::within::run_within;
use ebpf_fours::memory::Memory;
use ebpf_machine::ended::Ended;
use ebpf_machine::report::Report;
use ebpf_machine::run::StartFault;
use ebpf_object::Object;
use ebpf_state::kinds::KINDS;
use std::alloc::Global;
use std::marker::Model;
use vmem_arena::{Arena, ArenaFault};

/// The memory of runs and the objects that they take, give back and leave on shelves. It serves one run at a time, of whatever
/// program; what a run leaves on a shelf is there for the next. All of it ends with the machine.
pub struct Machine {
    // It and `after` keep what other threads use off the lines of the processor's cache on which runs write here.
    before: [u64; WORDS_APART],
    /// The objects, as the store of runs by [`run_within`].
    pub stocks: Box<Stocks>,
    /// The memory of runs.
    pub memory: Memory<Object>,
    after: [u64; WORDS_APART],
}

impl Model for Machine {
    ghost use Rattle.ebpf_host.specs.declared.stocks.Stocks.{Stocks};

    ghost Value = { Stocks };

    ghost view = { λ m. m.stocks.value };
}

impl Machine {
    /// A machine whose objects lie on up to n pages of 4,096 bytes, 1 to 256. A page is got when the first object on it is asked
    /// for.
    ///
    /// # Errors
    /// `Pages` where the number is out of its range; `NoMemory` where an allocation failed.
    pub fn new(alloc: Global, pages: u32) -> Result<Machine, ArenaFault>
        ensures bare { IfOk result (λ m. (kind : ℕ) → (stock_of m kind).shelf ≡ None) }
        ensures arena { IfOk result (λ m. m.arena.pages ≡ pages) }
        ensures pages { (result ≡ Err ArenaFault.Pages) ↔ ((pages ≡ 0) ⊎ (MAX_PAGES < pages)) }
    {
        let arena = Arena::new(alloc, pages)?;
        match Box::new(alloc, Stocks::new(alloc, arena)) {
            Ok(stocks) => Ok(Machine {
                before: [0; WORDS_APART],
                stocks,
                memory: Memory::new(alloc),
                after: [0; WORDS_APART],
            }),
            Err(failed) => {
                failed.value.end();
                Err(ArenaFault::NoMemory)
            }
        }
    }

    /// Runs a program on a context to its exit, `limit` instructions of it at most. A run that has not exited by then is given up: it
    /// gives its objects back, and its report has no exit. No program does more instructions than it has, 4,096 at most.
    ///
    /// The context is what the host gives; the data of a program that has some comes after it.
    ///
    /// # Errors
    /// `ContextLength` where the context doesn't have the length of [`Program::context`]; `NoMemory` where an allocation of the run failed.
    /// A call of `new` for which there is no page or no memory is answered null, and is no error.
    pub fn run(
        &mut self,
        program: &Program,
        context: &[u8],
        limit: u64,
    ) -> Result<Report, StartFault>
        // It is what the program does alone, with the answers of the report.
        ensures report { IfOk result (IsReportWithin program.now.verified (whole program.now context.now) limit) }
        ensures length { OnOk result (length (whole program.now context.now) ≡ program.now.verified.decl.context) }
        ensures refused { IfErr result (IsStartFault (length (whole program.now context.now)) program.now.verified.decl.context) }
        // A call of `swap` finds what was on its shelf before the run, or what the run has put there since.
        ensures found { IfOk result (AreFound self.old program.now.verified (whole program.now context.now)) }
        // What is on the shelves afterwards is what the program alone leaves there.
        ensures shelves { IfOk result (AreLeft self.old self.new program.now.verified (whole program.now context.now)) }
        ensures pages { self.new.arena.pages ≡ self.old.arena.pages }
        ensures unchanged { OnErr result (self.new ≡ self.old) }
    {
        let ended = self.run_in_place(program, context, limit)?;
        let (report, workspace) = ended.report();
        self.memory.put(workspace);
        Ok(report)
    }

    /// Runs a program as [`Machine::run`] does, and leaves what it did in the memory of the run, for [`Machine::keep`] to take back: so
    /// nothing is moved, and its lists keep their memory.
    ///
    /// # Errors
    /// As [`Machine::run`].
    pub fn run_in_place(
        &mut self,
        program: &Program,
        context: &[u8],
        limit: u64,
    ) -> Result<Ended<Object>, StartFault>
        ensures report { IfOk result (IsReportWithin program.now.verified (whole program.now context.now) limit) }
        ensures length { OnOk result (length (whole program.now context.now) ≡ program.now.verified.decl.context) }
        ensures refused { IfErr result (IsStartFault (length (whole program.now context.now)) program.now.verified.decl.context) }
        ensures found { IfOk result (AreFound self.old program.now.verified (whole program.now context.now)) }
        ensures shelves { IfOk result (AreLeft self.old self.new program.now.verified (whole program.now context.now)) }
        ensures pages { self.new.arena.pages ≡ self.old.arena.pages }
        ensures unchanged { OnErr result (self.new ≡ self.old) }
    {
        if context.len() != program.context() as usize {
            return Err(StartFault::ContextLength);
        }
        let workspace = self.memory.take()?;
        let stocks = &mut *self.stocks;
        let ended = run_within(workspace, program, context, stocks, limit)?;
        Ok(ended)
    }

    /// Keeps the memory of a run that has ended for the next one. What the run did is forgotten.
    pub fn keep(&mut self, ended: Ended<Object>)
        ensures { self.new ≡ self.old }
    {
        self.memory.put(ended.forget());
    }

    /// What runs did to the objects of each kind so far, in the order of the kinds' numbers.
    pub fn counts(&self) -> [Counts; KINDS] {
        self.stocks.counts()
    }

    /// Whether an object is on each shelf, in the order of the kinds' numbers.
    pub fn shelved(&self) -> [bool; KINDS]
        ensures { result ≡ is_some self.now.cells.shelf ∷ is_some self.now.records.shelf ∷ is_some self.now.blocks.shelf ∷ [] }
    {
        self.stocks.shelved()
    }

    /// Gives the pages on which no object is held, and none is on a shelf, back to the arena, where objects of any kind may get them.
    pub fn reap(&mut self)
        ensures shelves { (kind : ℕ) → (stock_of self.new kind).shelf ≡ (stock_of self.old kind).shelf }
        ensures pages { self.new.arena.pages ≡ self.old.arena.pages }
    {
        self.stocks.reap();
    }
}

impl Drop for Machine {
    fn drop(self) {
        let Machine {
            before: _,
            stocks,
            memory,
            after: _,
        } = self;
        Box::into_inner(stocks).end();
        memory.free();
    }
}
