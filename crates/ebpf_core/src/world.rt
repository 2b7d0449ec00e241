//! The world.
//!
//! *The idea.* A world is a list of runs, and what they share: of each kind its slots, and where each slot is. An event is
//! tested against the world as it is: the first cause that makes it illegal is reported, and the world stays as it was. A legal
//! event changes one run, or one slot, or one shelf. The object that a run asks for or frees passes to or from it through a store
//! that has no other object in it but those on the shelves.
//!
//! *The invariant.* Each run is sound for its program and is where it would be alone (ebpf_machine). Each slot is where it is
//! kept: at home, in the ledger of its object's kind and with its image, with the one run that holds it, or on the shelf of its
//! kind. All programs were verified with the known kinds, and the model has a world that all this shows.
//!
//! *The reason.* A step sees its own run, the object that it is lent and the shelves, and nothing else: so what is known of all other runs
//! and slots stays, and the world that is kept shows the model's world after the event. The main theorem is about the model's
//! world alone; what ties the code to it is what each call here says of every world that is shown (specs/Shown).

ghost use Rattle.std.specs.Prelude.{◌≡◌, length, slice_get, option_map, OnOk, OnErr, IfOk, IfErr};
ghost use Rattle.ebpf_core.specs.Events.{first_world, happened};
ghost use Rattle.ebpf_core.specs.declared.event.Event.TheVariants.{Start, Exec, Grow, Reap};
ghost use Rattle.ebpf_core.specs.Faults.{IsMemoryDue};
ghost use Rattle.ebpf_core.specs.Shown.{Shows, OfWorld, IsDone, IsRefused};
ghost use Rattle.ebpf_machine.specs.Kinds.{AreKnown};
ghost use Rattle.ebpf_core.specs.Readers.{status_in, output_in, executed_in, owner_in, shelf_in, bytes_in, ledger_in};
ghost use Rattle.ebpf_state.specs.Ascending.{IsAscending};

use crate::event::{Answer, Event};
use crate::fault::{ApplyCode, ApplyFault};
use crate::ledger::{Ledger, join, leave};
use crate::passing::slot_reached;
use crate::place::{Place, exchange, is_home_of, lend, put};
use crate::stepping::{answer_fault, start_fault, step_in};
use ebpf_machine::context::Context;
use ebpf_machine::run::{Run, StartFault};
use ebpf_shelves::object::Object;
use ebpf_shelves::shelves::Shelves;
use ebpf_state::kinds::KINDS;
use ebpf_verify::verified::Verified;
use std::alloc::{AllocError, Global};
use std::collections::BTreeMap;
use std::marker::Model;
use std::mem;

/// How far a run is.
#[derive(Clone, Copy)]
pub enum Status {
    /// It goes on at the instruction of this slot.
    Going(u16),
    /// It has exited with this number.
    Exited(u64),
}

/// Runs of accepted programs, with what they share: the objects, and a shelf of each kind.
#[derive(Drop)]
pub struct World<'v> {
    alloc: Global,
    programs: &'v [Verified],
    runs: Vec<Run<'v, Object>>,
    ledgers: [Ledger; KINDS],
    places: BTreeMap<u32, Place>,
    shelves: Shelves,
}

impl<'v> Model for World<'v> {
    ghost use Rattle.ebpf_core.specs.Shown.{WorldState, IsTendedWorld};

    ghost Value = { WorldState };

    ghost view = { λ w. record { programs = w.programs.now; runs = w.runs.items; ledgers = w.ledgers; places = w.places.entries; shelves = w.shelves } };

    ghost invariant = { λ w. IsTendedWorld (record { programs = w.programs.now; runs = w.runs.items; ledgers = w.ledgers; places = w.places.entries; shelves = w.shelves }) };
}

impl<'v> World<'v> {
    /// The world of these programs before any event: it has no slots and no runs. The programs were verified with the
    /// kinds of [`ebpf_state::kinds::kinds`].
    ///
    /// # Errors
    /// It fails only where an allocation fails.
    pub fn new(alloc: Global, programs: &'v [Verified]) -> Result<World<'v>, AllocError>
        requires known { AreKnown programs.now }
        ensures shows { IfOk result (Shows first_world) }
        ensures programs { IfOk result (λ w. w.programs ≡ programs.now) }
    {
        Ok(World {
            alloc,
            programs,
            runs: Vec::new(alloc),
            ledgers: [Ledger::new(alloc), Ledger::new(alloc), Ledger::new(alloc)],
            places: BTreeMap::new(alloc),
            shelves: Shelves::empty(),
        })
    }

    /// One event.
    ///
    /// # Errors
    /// `Bad` where the event isn't legal, with the first code that applies; `NoMemory` where it is legal and an allocation
    /// failed, of a run that starts or of a slot that joins. The world is as it was then.
    pub fn apply(&mut self, event: Event) -> Result<(), ApplyFault>
        ensures done { OnOk result (IsDone event self.old self.new) }
        ensures refused { IfErr result (IsRefused event self.old) }
        ensures memory { IfErr result (IsMemoryDue event) }
        ensures unchanged { OnErr result (self.new ≡ self.old) }
        ensures programs { self.new.programs ≡ self.old.programs }
    {
        match event {
            Event::Start { program, context } => self.start(program, context),
            other => self.follow(&other),
        }
    }

    // One event, of which the context of a start is copied.
    pub(crate) fn follow(&mut self, event: &Event) -> Result<(), ApplyFault>
        ensures done { OnOk result (IsDone event.now self.old self.new) }
        ensures refused { IfErr result (IsRefused event.now self.old) }
        ensures memory { IfErr result (IsMemoryDue event.now) }
        ensures unchanged { OnErr result (self.new ≡ self.old) }
        ensures programs { self.new.programs ≡ self.old.programs }
    {
        match event {
            Event::Start { program, context } => {
                if let Some(code) = start_fault(self.programs, *program, context.bytes.len()) {
                    return Err(ApplyFault::Bad(code));
                }
                let Ok(bytes) = context.bytes.to_vec(self.alloc) else {
                    return Err(ApplyFault::NoMemory);
                };
                self.start(*program, Context { bytes })
            }
            Event::Exec { run, answer } => self.execute(*run, *answer),
            Event::Grow { kind, slot } => self.grow(*kind, *slot),
            Event::Reap { kind, slot } => self.reap(*kind, *slot),
        }
    }

    // A run starts.
    fn start(&mut self, program: usize, context: Context) -> Result<(), ApplyFault>
        ensures done { OnOk result (IsDone (Start program context) self.old self.new) }
        ensures refused { IfErr result (IsRefused (Start program context) self.old) }
        ensures unchanged { OnErr result (self.new ≡ self.old) }
        ensures programs { self.new.programs ≡ self.old.programs }
    {
        let programs = self.programs;
        if program >= programs.len() {
            return Err(ApplyFault::Bad(ApplyCode::NoSuchProgramOrKind));
        }
        match Run::start(self.alloc, &programs[program], context.bytes) {
            Ok(run) => {
                if self.runs.push(run).is_err() {
                    return Err(ApplyFault::NoMemory);
                }
                Ok(())
            }
            Err(StartFault::ContextLength) => Err(ApplyFault::Bad(ApplyCode::WrongContext)),
            Err(StartFault::NoMemory) => Err(ApplyFault::NoMemory),
        }
    }

    // A run does the instruction at its pc.
    fn execute(&mut self, run: usize, answer: Answer) -> Result<(), ApplyFault>
        ensures done { OnOk result (IsDone (Exec run answer) self.old self.new) }
        ensures refused { IfErr result (IsRefused (Exec run answer) self.old) }
        ensures memory { IfErr result (IsMemoryDue (Exec run answer)) }
        ensures unchanged { OnErr result (self.new ≡ self.old) }
        ensures programs { self.new.programs ≡ self.old.programs }
    {
        let number = run;
        if number >= self.runs.len() {
            return Err(ApplyFault::Bad(ApplyCode::NoSuchRun));
        }
        let run = &mut self.runs[number];
        if run.exit().is_some() {
            return Err(ApplyFault::Bad(ApplyCode::RunEnded));
        }
        if let Some(code) = answer_fault(&self.places, answer, run.wants()) {
            return Err(ApplyFault::Bad(code));
        }
        let at = run.pc() as u16;
        let reached = run.reaches();
        let stood = slot_reached(&self.shelves, reached);
        let lent = lend(&mut self.places, answer, number, at);
        let shelves = mem::replace(&mut self.shelves, Shelves::empty());
        let (freed, shelves) = step_in(run, lent, shelves);
        let stands = slot_reached(&shelves, reached);
        self.shelves = shelves;
        put(&mut self.places, freed);
        exchange(&mut self.places, reached, stood, stands, number, at);
        Ok(())
    }

    // A slot joins the ledger of a kind.
    fn grow(&mut self, kind: u8, slot: u32) -> Result<(), ApplyFault>
        ensures done { OnOk result (IsDone (Grow kind slot) self.old self.new) }
        ensures refused { IfErr result (IsRefused (Grow kind slot) self.old) }
        ensures unchanged { OnErr result (self.new ≡ self.old) }
        ensures programs { self.new.programs ≡ self.old.programs }
    {
        let number = kind as usize;
        if number >= self.ledgers.len() {
            return Err(ApplyFault::Bad(ApplyCode::NoSuchProgramOrKind));
        }
        if self.places.contains_key(&slot) {
            return Err(ApplyFault::Bad(ApplyCode::SlotInLedger));
        }
        let Ok(object) = Object::new(self.alloc, slot, kind) else {
            return Err(ApplyFault::NoMemory);
        };
        if join(&mut self.ledgers, number, slot).is_err() {
            return Err(ApplyFault::NoMemory);
        }
        if self.places.insert(slot, Place::Home(object)).is_err() {
            leave(&mut self.ledgers, number, slot); // as it was
            return Err(ApplyFault::NoMemory);
        }
        Ok(())
    }

    // A slot leaves the ledger of a kind.
    fn reap(&mut self, kind: u8, slot: u32) -> Result<(), ApplyFault>
        ensures done { OnOk result (IsDone (Reap kind slot) self.old self.new) }
        ensures refused { IfErr result (IsRefused (Reap kind slot) self.old) }
        ensures memory { IfErr result (IsMemoryDue (Reap kind slot)) }
        ensures unchanged { OnErr result (self.new ≡ self.old) }
        ensures programs { self.new.programs ≡ self.old.programs }
    {
        let number = kind as usize;
        if number >= self.ledgers.len() {
            return Err(ApplyFault::Bad(ApplyCode::NoSuchProgramOrKind));
        }
        if !is_home_of(self.places.get(&slot), kind) {
            return Err(ApplyFault::Bad(ApplyCode::SlotNotReapable));
        }
        leave(&mut self.ledgers, number, slot);
        self.places.remove(&slot);
        Ok(())
    }

    /// How many runs were started.
    pub fn runs(&self) -> usize
        ensures { OfWorld self.now (λ w. result ≡ length w.runs) }
    {
        self.runs.len()
    }

    // The run of a number.
    fn run_at(&self, run: usize) -> Option<&Run<'v, Object>>
        ensures { option_map (λ r. r.now) result ≡ slice_get self.now.runs run }
    {
        self.runs.get(run)
    }

    /// How far a run is; `None` where there is no such run.
    pub fn status(&self, run: usize) -> Option<Status>
        ensures { OfWorld self.now (λ w. result ≡ status_in w run) }
    {
        let run = self.run_at(run)?;
        Some(match run.exit() {
            Some(number) => Status::Exited(number),
            None => Status::Going(run.pc() as u16),
        })
    }

    /// What a run added to its output; `None` where there is no such run.
    pub fn output(&self, run: usize) -> Option<&[u64]>
        ensures { OfWorld self.now (λ w. option_map (λ o. o.now) result ≡ output_in w run) }
    {
        Some(self.run_at(run)?.output())
    }

    /// How many instructions a run did; `None` where there is no such run.
    pub fn executed(&self, run: usize) -> Option<u64>
        ensures { OfWorld self.now (λ w. result ≡ executed_in w run) }
    {
        Some(self.run_at(run)?.executed())
    }

    /// The run that holds a slot, and the place in its program of the call that was granted it; `None` where the slot has
    /// no owner, or is on a shelf.
    pub fn owner(&self, slot: u32) -> Option<(usize, u16)>
        ensures { OfWorld self.now (λ w. result ≡ owner_in w slot) }
    {
        match self.places.get(&slot) {
            Some(Place::Held { run, at }) => Some((*run, *at)),
            _ => None,
        }
    }

    /// The slot on a shelf; `None` where nothing is there, or there is no such shelf. A shelf's number is that of its kind.
    pub fn shelf(&self, shelf: u8) -> Option<u32>
        ensures { OfWorld self.now (λ w. result ≡ shelf_in w shelf) }
    {
        self.shelves.slot_on(shelf)
    }

    /// The bytes of a slot; `None` where it is in no ledger.
    pub fn bytes(&self, slot: u32) -> Option<&[u8]>
        ensures { OfWorld self.now (λ w. option_map (λ b. b.now) result ≡ bytes_in w slot) }
    {
        match self.places.get(&slot)? {
            Place::Home(object) => Some(&object.bytes),
            Place::Held { run, at } => Some(&self.runs[*run].object(*at)?.bytes),
            Place::Shelved { shelf } => self.shelves.bytes_on(*shelf),
        }
    }

    /// The slots in the ledger of a kind, ascending; none for a number that is no kind.
    pub fn ledger(&self, kind: u8) -> &[u32]
        ensures value { OfWorld self.now (λ w. result.now ≡ ledger_in w kind) }
        ensures ascending { IsAscending result.now }
    {
        match self.ledgers.get(kind as usize) {
            Some(ledger) => ledger.slots(),
            None => &[],
        }
    }
}
