//! Workers: each runs programs on a thread of the host, over caches and shelves that all share.

ghost use Rattle.std.specs.Prelude.{◌≡◌, length, IfOk, IfErr, OnOk, OnErr};
ghost use Rattle.ebpf_machine.specs.Turns.{IsStartFault};
ghost use Rattle.ebpf_host.specs.Reports.{IsReportWithin};
ghost use Rattle.ebpf_host.specs.Whole.{whole};
ghost use Rattle.shared_store.specs.Going.{GoesBy};
ghost use Rattle.shared_store.specs.Tools.{HoldNothing};

use crate::program::Program;
use crate::stocks::WORDS_APART;
use crate::within::run_within;
use ebpf_fours::memory::Memory;
use ebpf_machine::ended::Ended;
use ebpf_machine::report::Report;
use ebpf_machine::run::StartFault;
use ebpf_object::Object;
use shared_store::Store;
use std::alloc::Global;
use std::marker::Model;

/// A worker of [`crate::shared::Shared`]. It serves one run at a time, of whatever program, and may go from thread to thread. One that is
/// dropped is closed: another can be opened in its place.
///
/// Contracts see its tools: what it was granted and refused, what it got off shelves, and what it holds, which is nothing between two calls.
pub struct Worker {
    // It and `after` keep what other threads use off the lines of the processor's cache on which runs write here.
    before: [u64; WORDS_APART],
    /// Where its objects come from, as the store of runs by [`run_within`].
    pub store: Box<Store>,
    /// The memory of its runs.
    pub memory: Memory<Object>,
    after: [u64; WORDS_APART],
}

impl Model for Worker {
    ghost use Rattle.shared_store.specs.Tools.{HoldNothing, ToolsView};

    ghost Value = { ToolsView };

    ghost view = { λ w. w.store.value.tools };

    ghost invariant = { λ w. HoldNothing w.store.value.tools };
}

impl Worker {
    /// A worker over a store that holds nothing.
    pub(crate) fn new(alloc: Global, store: Box<Store>) -> Worker
        requires { HoldNothing store.value.tools }
    {
        Worker {
            before: [0; WORDS_APART],
            store,
            memory: Memory::new(alloc),
            after: [0; WORDS_APART],
        }
    }

    /// Runs a program on a context to its exit, `limit` instructions of it at most, as [`crate::machine::Machine::run`] does. What a call of
    /// `swap` finds on a shelf is what any worker left there, or the host. A call of `new` is answered null if there is no page or no memory, or
    /// if other workers are at the slabs or the arena for too long: that is no error.
    ///
    /// # Errors
    /// `ContextLength` if the context doesn't have the length of [`Program::context`]; `NoMemory` if an allocation of the run failed.
    pub fn run(
        &mut self,
        program: &Program,
        context: &[u8],
        limit: u64,
    ) -> Result<Report, StartFault>
        // It is what the program does alone, with the answers of the report.
        ensures report { IfOk result (IsReportWithin program.now.verified (whole program.now context.now) limit) }
        ensures length { OnOk result (length (whole program.now context.now) ≡ program.now.verified.decl.context) }
        ensures refused { IfErr result (IsStartFault (length (whole program.now context.now)) program.now.verified.decl.context) }
        // The worker was answered what the report says, and holds nothing afterwards.
        ensures goes { IfOk result (λ r. GoesBy self.old r.answers self.new) }
        ensures none { OnOk result (HoldNothing self.new) }
        ensures unchanged { OnErr result (self.new ≡ self.old) }
    {
        let ended = self.run_in_place(program, context, limit)?;
        let (report, workspace) = ended.report();
        self.memory.put(workspace);
        Ok(report)
    }

    /// Runs a program as [`Worker::run`] does, and leaves what it did in the memory of the run, for [`Worker::keep`] to take back: so nothing is
    /// moved, and its lists keep their memory.
    ///
    /// # Errors
    /// As [`Worker::run`].
    pub fn run_in_place(
        &mut self,
        program: &Program,
        context: &[u8],
        limit: u64,
    ) -> Result<Ended<Object>, StartFault>
        ensures report { IfOk result (IsReportWithin program.now.verified (whole program.now context.now) limit) }
        ensures length { OnOk result (length (whole program.now context.now) ≡ program.now.verified.decl.context) }
        ensures refused { IfErr result (IsStartFault (length (whole program.now context.now)) program.now.verified.decl.context) }
        ensures goes { IfOk result (λ r. GoesBy self.old r.answers self.new) }
        ensures none { OnOk result (HoldNothing self.new) }
        ensures unchanged { OnErr result (self.new ≡ self.old) }
    {
        if context.len() != program.context() as usize {
            return Err(StartFault::ContextLength);
        }
        let workspace = self.memory.take()?;
        let store = &mut *self.store;
        let ended = run_within(workspace, program, context, store, limit)?;
        Ok(ended)
    }

    /// Keeps the memory of a run that has ended for the next one. What the run did is forgotten.
    pub fn keep(&mut self, ended: Ended<Object>)
        ensures { self.new ≡ self.old }
    {
        self.memory.put(ended.forget());
    }

    /// Closes the worker. Its tools are at home then, with its counts, for the next that is opened in its place.
    pub fn close(self) {
        drop(self);
    }
}

impl Drop for Worker {
    fn drop(self) {
        let Worker {
            before: _,
            store,
            memory,
            after: _,
        } = self;
        Box::into_inner(store).end();
        memory.free();
    }
}
