//! An object that a host leaves on a shelf.
//!
//! *The idea.* It is done as a run does it: an object is taken, written, and exchanged for what is on the shelf, which goes back.

ghost use Rattle.std.specs.Prelude.{◌≡◌, ◌≤◌, ℕ, length, IfSome, IfNone};
ghost use Rattle.ebpf_machine.specs.Kinds.{known_kinds};
ghost use Rattle.ebpf_machine.specs.World.{image_at};
ghost use Rattle.ebpf_object.specs.KindName.{number_of};
ghost use Rattle.shared_store.specs.Putting.{HasPut, HoldAsMuch};
ghost use Rattle.shared_store.specs.Tools.{AreOf, HaveAnswered, puts_at};

use crate::commons::Commons;
use crate::store::Store;
use crate::tools::Tools;
use ebpf_object::KindName;
use owners_table::mark::Mark;

impl Tools {
    // Leaves an object that begins with these bytes on the shelf of its kind. None if there is none to be had: then nothing was put.
    fn put(&mut self, commons: &Commons, kind: KindName, bytes: &[u8], mark: Mark) -> Option<bool>
        requires of { AreOf commons.now self.old }
        requires fits { length bytes.now ≤ length (image_at known_kinds (number_of kind)) }
        ensures put { IfSome result (HasPut self.old self.new kind) }
        ensures none { IfNone result ((k : ℕ) → puts_at self.new k ≡ puts_at self.old k) }
        ensures of { AreOf commons.now self.new }
        ensures held { HoldAsMuch self.old self.new }
    {
        let number = number(kind);
        let mut object = self.take(commons, number, mark)?;
        object.write(0, bytes);
        if !self.can_get(commons, kind) {
            self.give(commons, object);
            return None;
        }
        match self.swap(commons, number, Some(object), mark) {
            Some(before) => {
                self.give(commons, before);
                Some(true)
            }
            None => Some(false),
        }
    }
}

impl Store {
    /// Leaves an object that begins with these bytes on the shelf of its kind, for whatever run gets it there. The answer is whether it is
    /// there in place of another, which goes back. None if there is none to be had: then nothing was put.
    pub fn put(&mut self, kind: KindName, bytes: &[u8]) -> Option<bool>
        requires { length bytes.now ≤ length (image_at known_kinds (number_of kind)) }
        ensures put { IfSome result (HasPut self.old.tools self.new.tools kind) }
        ensures none { IfNone result ((k : ℕ) → puts_at self.new.tools k ≡ puts_at self.old.tools k) }
        ensures held { HoldAsMuch self.old.tools self.new.tools }
    {
        let mark = Mark {
            run: self.worker,
            at: 0,
        };
        self.tools.put(&self.house.commons, kind, bytes, mark)
    }
}

// The number of a kind.
fn number(kind: KindName) -> u8
    ensures { result ≡ number_of kind }
{
    match kind {
        KindName::Cell => 0,
        KindName::Record => 1,
        KindName::Block => 2,
    }
}
