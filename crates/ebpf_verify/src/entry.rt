//! What is known before a slot, of all runs that come there.

ghost use Rattle.std.specs.Prelude.{◌≡◌, IfOk, OnOk, false};

use ebpf_state::state::State;
use std::alloc::AllocError;

/// What is known before a slot of all runs that come there from the slots that were looked at.
#[derive(Drop)]
pub enum EntryState {
    /// No run comes.
    Unreached,
    /// This is known of all that come.
    Known(State),
    /// Runs come that hold different references.
    Conflict,
}

impl EntryState {
    ghost use Rattle.ebpf_verify.specs.declared.entry.EntryState.TheVariants.{Unreached};
    ghost use Rattle.ebpf_verify.specs.Entry.{with_state};

    /// The same once more.
    ///
    /// # Errors
    /// It fails only where an allocation fails.
    pub(crate) fn copy(&self) -> Result<EntryState, AllocError>
        ensures { IfOk result (λ e. e ≡ self.now) }
    {
        Ok(match self {
            EntryState::Unreached => EntryState::Unreached,
            EntryState::Known(state) => EntryState::Known(state.copy()?),
            EntryState::Conflict => EntryState::Conflict,
        })
    }

    /// Some run comes.
    pub(crate) fn is_reached(&self) -> bool
        ensures { result ≡ false → self.now ≡ Unreached }
    {
        match self {
            EntryState::Unreached => false,
            _ => true,
        }
    }

    /// Adds one more state to what comes, which takes no memory.
    #[inline(always)]
    pub(crate) fn take(&mut self, state: State)
        ensures { self.new ≡ with_state self.old state }
    {
        match self {
            EntryState::Unreached => *self = EntryState::Known(state),
            _ => self.join(&state),
        }
    }

    /// Adds one more state to what comes. It is copied only where none came before.
    ///
    /// # Errors
    /// It fails only where an allocation fails.
    pub(crate) fn add(&mut self, state: &State) -> Result<(), AllocError>
        ensures { OnOk result (self.new ≡ with_state self.old state.now) }
    {
        match self {
            EntryState::Unreached => *self = EntryState::Known(state.copy()?),
            _ => self.join(state),
        }
        Ok(())
    }

    // Adds one more state to what comes where some came before. It is kept apart, so that callers are short for the slots to
    // which one state comes, as most are.
    #[inline(never)]
    fn join(&mut self, state: &State)
        requires { self.old ≡ Unreached → ⊥ }
        ensures { self.new ≡ with_state self.old state.now }
    {
        let differs = match self {
            EntryState::Known(known) => !known.join_with(state),
            _ => false,
        };
        if differs {
            *self = EntryState::Conflict;
        }
    }
}
