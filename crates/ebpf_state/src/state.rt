//! Abstract states.
//!
//! *The idea.* A state speaks of every run that may be at a slot: it says of each register and of each word of the stack what
//! all of them have in common, and which references all of them hold. Where two paths meet, their states are joined: what
//! both know stays, what only one knows is forgotten.
//!
//! *The invariant.* There are eleven registers; at most 64 words, each of them a spill of something or a mask; references
//! ascend by their calls.
//!
//! *The reason.* A state has only what an instruction's rule asks for, and forgetting is always sound: a state that knows less
//! refuses more. Most programs use few words of the stack, so only the topmost ones are kept, down to the lowest of which
//! something is known. References ascend so that two states hold the same ones exactly where the lists are equal.

ghost use Rattle.std.specs.Prelude.{◌≡◌, ◌≤◌, ◌<◌, true, All, length, map, IfOk, OnOk, OnErr, Some};
ghost use Rattle.ebpf_state.specs.declared.value.Abs.{Abs};
ghost use Rattle.ebpf_state.specs.declared.word.Word.{Word};
ghost use Rattle.ebpf_state.specs.Abstract.{joined_value};
ghost use Rattle.ebpf_state.specs.Words.{joined_word, all_words, IsProperWord};
ghost use Rattle.ebpf_state.specs.States.{joined_list, is_same_held};
ghost use Rattle.ebpf_state.specs.References.{settled_value, settled_word, forgotten_value, forgotten_word};

use crate::held::{Held, forget_held, hold_reference, settle_held};
use crate::stack::{
    StackFault, StoreFault, bytes_in, is_whole_word, known_word, load_at, may_point, place_of,
    store_at,
};
use crate::value::Abs;
use crate::word::Word;
use ebpf_insn::insn::Size;
use ebpf_insn::register::Reg;
use std::alloc::{AllocError, Global};
use std::marker::Model;
use thiserror::Error;

/// What is known before a slot: of each register, of each word of the stack, and which references are held.
///
/// A state lies on the heap, so it moves as a pointer does: a walk over a program hands the same one on from slot to slot.
#[derive(Drop)]
pub struct State {
    facts: Box<Facts>,
}

#[derive(Drop)]
struct Facts {
    registers: [Abs; 11],
    // The topmost words of the stack, in ascending order. Nothing is known of those below them, which most programs never use.
    words: Vec<Word>,
    held: Vec<Held>,
}

impl Model for State {
    ghost use Rattle.ebpf_state.specs.StateView.{StateView};

    ghost Value = { StateView };

    ghost use Rattle.ebpf_state.specs.StateView.{AreFacts};
    ghost use Rattle.ebpf_state.specs.Words.{all_words};

    ghost view = { λ s. record { registers = s.facts.value.registers; words = all_words s.facts.value.words.items; held = s.facts.value.held.items } };

    ghost invariant = { λ s. AreFacts s.facts.value.registers s.facts.value.words.items s.facts.value.held.items };
}

/// Why two states have no join.
#[derive(Clone, Copy, Debug, Error)]
pub enum JoinFault {
    /// They don't hold the same references, tested alike.
    #[error("the paths that meet hold different references")]
    HeldDiffer,
    /// An allocation failed.
    #[error("out of memory")]
    NoMemory,
}

impl From<AllocError> for JoinFault {
    ghost use Rattle.ebpf_state.specs.declared.state.JoinFault.TheVariants.{NoMemory};

    ghost from_gives = { λ _ e. e ≡ NoMemory };

    fn from(_e: AllocError) -> JoinFault {
        JoinFault::NoMemory
    }
}

impl State {
    ghost use Rattle.ebpf_state.specs.References.{holding, kind_held, settled, forgotten};
    ghost use Rattle.ebpf_state.specs.Stack.{loaded, stored, word_of, Stores};
    ghost use Rattle.ebpf_state.specs.StateView.{StateView};
    ghost use Rattle.ebpf_state.specs.States.{first_state, joined_state, then_joined, register_of, with_register, Joins, JoinsInto};

    /// The state before slot 0: `r1` points to the context, `r10` is the frame pointer, and nothing else is set or held.
    ///
    /// # Errors
    /// It fails only where an allocation fails.
    pub fn start(alloc: Global) -> Result<State, AllocError>
        ensures { IfOk result (λ s. s ≡ first_state) }
    {
        let mut registers = [Abs::Unset; 11];
        registers[1] = Abs::Ctx(0, 0);
        registers[10] = Abs::Stk(0);
        let facts = Facts {
            registers,
            words: Vec::new(alloc),
            held: Vec::new(alloc),
        };
        Ok(State {
            facts: Box::new(alloc, facts)?,
        })
    }

    /// A copy of the state.
    ///
    /// # Errors
    /// It fails only where an allocation fails.
    pub fn copy(&self) -> Result<State, AllocError>
        ensures { IfOk result (λ s. s ≡ self.now) }
    {
        let alloc = *self.facts.held.allocator();
        let facts = Facts {
            registers: self.facts.registers,
            words: Vec::from_slice(alloc, &self.facts.words)?,
            held: self.facts.held.clone()?,
        };
        Ok(State {
            facts: Box::new(alloc, facts)?,
        })
    }

    /// How many references are held.
    pub fn held(&self) -> usize
        ensures { result ≡ length self.now.held }
    {
        self.facts.held.len()
    }

    /// The kind of the object that a call holds, whether its answer was compared with null or not; `None` where it holds none.
    pub fn kind(&self, call: u16) -> Option<u8>
        ensures { result ≡ kind_held call self.now }
    {
        let held = self.facts.held.as_slice();
        held.iter()
            .find(|reference| reference.call == call)
            .map(|reference| reference.kind)
    }

    /// The references that are held, in the order of their calls.
    pub fn references(&self) -> &[Held]
        ensures { result.now ≡ self.now.held }
    {
        &self.facts.held
    }

    /// What is known of the word of the stack with this number, 0 to 63: of the bytes from `8 * number - 512` on, from the frame
    /// pointer. Nothing is known of a word with another number.
    pub fn word(&self, number: usize) -> Word
        ensures value { result ≡ word_of self.now.words number }
        ensures proper { IsProperWord result }
    {
        known_word(&self.facts.words, number)
    }

    /// What is known of a register.
    pub fn reg(&self, register: Reg) -> Abs
        ensures { result ≡ register_of self.now register }
    {
        self.facts.registers[register.number()]
    }

    /// Says what is known of a register from now on.
    pub fn set(&mut self, register: Reg, value: Abs)
        ensures { self.new ≡ with_register self.old register value }
    {
        let number = register.number();
        self.facts.registers[number] = value;
    }

    /// Says that a call asked for an object of a kind: from now on it may hold one, which is not tested yet. Where it holds
    /// one already, the new one takes its place.
    ///
    /// # Errors
    /// It fails only where an allocation fails, and the state stays as it is.
    pub fn hold(&mut self, call: u16, kind: u8) -> Result<(), AllocError>
        ensures ok { OnOk result (self.new ≡ holding call kind self.old) }
        ensures err { OnErr result (self.new ≡ self.old) }
    {
        let new = Held {
            call,
            kind,
            tested: false,
        };
        hold_reference(&mut self.facts.held, new)
    }

    /// Says that the answer of a call is null, or is not: from now on it is 0 and nothing is held by it, or it is the object
    /// that the call was granted, which is held as one that was tested.
    pub fn settle(&mut self, call: u16, null: bool)
        ensures { self.new ≡ settled call null self.old }
    {
        let facts = &mut *self.facts;
        settle_registers(&mut facts.registers, call, null);
        settle_words(&mut facts.words, call, null);
        settle_held(&mut facts.held, call, null);
    }

    /// Says that the object of a call was given back: from now on nothing is known of what points to it, or may, and it is
    /// no longer held.
    pub fn forget(&mut self, call: u16)
        ensures { self.new ≡ forgotten call self.old }
    {
        let facts = &mut *self.facts;
        forget_registers(&mut facts.registers, call);
        forget_words(&mut facts.words, call);
        forget_held(&mut facts.held, call);
    }

    /// What is known of the value that is loaded from an offset from the frame pointer, or why it can't be. A number that
    /// is narrower than a register may be extended by its sign.
    ///
    /// # Errors
    /// `Bounds` where the bytes are not all of the stack, else `UnsetByte` where one of them may be unset, else
    /// `SplitPointer` where one is part of a pointer, or of an answer not compared yet.
    pub fn load(&self, size: Size, signed: bool, offset: i64) -> Result<Abs, StackFault>
        ensures { result ≡ loaded self.now size signed offset }
    {
        let bytes = bytes_in(size);
        match place_of(offset, bytes) {
            Some(place) => load_at(&self.facts.words, place, bytes, signed),
            None => Err(StackFault::Bounds),
        }
    }

    /// Says that a value is stored at an offset from the frame pointer.
    ///
    /// # Errors
    /// `Bounds` where the bytes are not all of the stack, else `SplitPointer` where a pointer, or an answer not compared
    /// yet, would not be an aligned word; `NoMemory` where an allocation failed. The state stays as it is.
    pub fn store(&mut self, size: Size, offset: i64, value: Abs) -> Result<(), StoreFault>
        ensures { Stores (stored self.old size offset value) self.old self.new result }
    {
        let bytes = bytes_in(size);
        let Some(place) = place_of(offset, bytes) else {
            return Err(StoreFault::Refused(StackFault::Bounds));
        };
        if may_point(value) && !is_whole_word(place, bytes) {
            return Err(StoreFault::Refused(StackFault::SplitPointer));
        }
        let facts = &mut *self.facts;
        store_at(&mut facts.words, place, bytes, value)?;
        Ok(())
    }

    /// What is known where two paths meet, one of which knows each.
    ///
    /// # Errors
    /// `HeldDiffer` where the two don't hold the same references; `NoMemory` where an allocation failed.
    #[tactic(auto, using(crate::proofs::JoinOrder::state_commutes, crate::proofs::JoinOrder::state_exchanges))]
    pub fn join(&self, other: &State) -> Result<State, JoinFault>
        ensures joins { Joins (joined_state self.now other.now) result }
        ensures commutes { joined_state other.now self.now ≡ joined_state self.now other.now }
        ensures associates { (third : StateView) → then_joined (joined_state self.now other.now) third ≡ then_joined (joined_state self.now third) other.now }
    {
        if !is_same_held(&self.facts.held, &other.facts.held) {
            return Err(JoinFault::HeldDiffer);
        }
        let mut joined = self.copy()?;
        joined.join_facts(other);
        Ok(joined)
    }

    /// Joins another state into this one, which takes no memory. It says whether the two hold the same references; where
    /// they don't, this one stays as it is.
    pub fn join_with(&mut self, other: &State) -> bool
        ensures { JoinsInto (joined_state self.old other.now) self.old self.new result }
    {
        if !is_same_held(&self.facts.held, &other.facts.held) {
            return false;
        }
        self.join_facts(other);
        true
    }

    // Joins another state into this one, which holds the same references.
    fn join_facts(&mut self, other: &State)
        requires same { is_same_held self.old.held other.now.held ≡ true }
        ensures { joined_state self.old other.now ≡ Some self.new }
    {
        let here = &mut *self.facts;
        let there = &*other.facts;
        join_registers(&mut here.registers, &there.registers);
        join_words(&mut here.words, &there.words);
    }
}

/// Whether two hold the same references, tested alike and in the same order: only then can what is known be joined.
pub fn is_same_held(left: &[Held], right: &[Held]) -> bool
    ensures { result ≡ is_same_held left.now right.now }
{
    left == right
}

fn join_registers(left: &mut [Abs; 11], right: &[Abs; 11])
    ensures { left.new ≡ joined_list joined_value left.old right.now }
{
    for i in 0..11 {
        left[i].join_with(&right[i]);
    }
}

// Says in each register whether the answer of a call is null.
fn settle_registers(registers: &mut [Abs; 11], call: u16, null: bool)
    ensures { registers.new ≡ map (settled_value call null) registers.old }
{
    for i in 0..11 {
        registers[i] = registers[i].settle(call, null);
    }
}

// Says in each word whether the answer of a call is null.
fn settle_words(words: &mut Vec<Word>, call: u16, null: bool)
    requires { All IsProperWord words.old.items }
    ensures value { words.new.items ≡ map (settled_word call null) words.old.items }
    ensures proper { All IsProperWord words.new.items }
{
    for i in 0..words.len() {
        words[i] = words[i].settle(call, null);
    }
}

// Forgets in each register what points to the object of a call, or may.
fn forget_registers(registers: &mut [Abs; 11], call: u16)
    ensures { registers.new ≡ map (forgotten_value call) registers.old }
{
    for i in 0..11 {
        registers[i] = registers[i].forget(call);
    }
}

// Forgets in each word what points to the object of a call, or may.
fn forget_words(words: &mut Vec<Word>, call: u16)
    requires { All IsProperWord words.old.items }
    ensures value { words.new.items ≡ map (forgotten_word call) words.old.items }
    ensures proper { All IsProperWord words.new.items }
{
    for i in 0..words.len() {
        words[i] = words[i].forget(call);
    }
}

// Joins the topmost words of two stacks. Where nothing is known of a word of one of them, nothing is afterwards.
fn join_words(left: &mut [Word], right: &[Word])
    requires few_left { length left.old ≤ 64 }
    requires few_right { length right.now ≤ 64 }
    requires proper { All IsProperWord left.old }
    ensures value { all_words left.new ≡ joined_list joined_word (all_words left.old) (all_words right.now) }
    ensures len { length left.new ≡ length left.old }
    ensures proper { All IsProperWord left.new }
{
    let below = left.len().saturating_sub(right.len());
    let beyond = right.len().saturating_sub(left.len());
    let (low, high) = left.split_at_mut(below);
    low.fill(Word::Bytes(0));
    let (_, both) = right.split_at(beyond);
    join_each(high, both);
}

// Joins words that lie side by side.
fn join_each(here: &mut [Word], there: &[Word])
    requires same { length here.old ≡ length there.now }
    requires proper { All IsProperWord here.old }
    ensures value { here.new ≡ joined_list joined_word here.old there.now }
    ensures len { length here.new ≡ length here.old }
    ensures proper { All IsProperWord here.new }
{
    for i in 0..here.len() {
        here[i].join_with(&there[i]);
    }
}
