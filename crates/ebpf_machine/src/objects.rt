//! Where the objects of a run come from.

ghost use Rattle.std.specs.Prelude.{◌≡◌, ◌≢◌, ◌≤◌, ◌<◌, ◌+◌, ◌==◌, if◌then◌else◌, ℕ, [], ◌∷◌, length, IfSome, IfNone};
ghost use Rattle.ebpf_insn.specs.declared.program.TheConstants.{MAX_SLOTS};
ghost use Rattle.ebpf_machine.specs.Bytes.{patched};
ghost use Rattle.ebpf_machine.specs.World.{image_at};
ghost use Rattle.ebpf_machine.specs.Store.{Store, AllStay, AllStayBut, OthersStayThan, ShelvesStay, ShelvesExchange, IsNobodys, one_of};
ghost use Rattle.ebpf_machine.specs.Store.{reply_to_new, reply_to_swap};

/// A store of objects: it answers calls of `new`, `free` and `swap`, and keeps the bytes of the objects that are out.
///
/// What an implementation promises is said by one ghost member, `store`, which is no code: specs/Store says what it says of
/// the store in each of its states. Its relation `goes` holds from each state to any later one, with the replies between them,
/// so it says what the store keeps and what it counts.
pub trait Objects {
    /// An object that is out. It must be given back and is not dropped.
    type Held;

    ghost store: { Store Self Self.Held };

    /// Answers a call of `new` for a kind, made by the instruction at the slot `at`: an object that wasn't out, with its
    /// kind's fill in all its bytes, or none.
    fn take(&mut self, kind: u8, at: u16) -> Option<Self::Held>
        requires kind { kind < length store.kinds }
        requires at { at < MAX_SLOTS }
        ensures granted { IfSome result (λ h. store.can_grant self.old kind at (store.slot_of h)) }
        ensures refused { IfNone result (store.can_refuse self.old kind) }
        ensures out { IfSome result (λ h. store.is_out self.new h × (store.kind_of h ≡ kind)) }
        ensures apart { IfSome result (λ h. IsNobodys (store.slot_of h) store self.old) }
        ensures image { IfSome result (λ h. store.bytes_of self.new h ≡ image_at store.kinds kind) }
        ensures goes { store.goes self.old (reply_to_new result ∷ []) self.new }
        ensures outs { (k : ℕ) → store.outs self.new k ≡ store.outs self.old k + one_of result kind k }
        ensures shelves { ShelvesStay store self.old self.new }
        ensures others { AllStay store self.old self.new };

    /// Takes an object back: it is no longer out, and nothing else comes out by that.
    fn give(&mut self, kind: u8, object: Self::Held)
        requires room { store.can_give self.old }
        requires out { store.is_out self.old object }
        requires kind { store.kind_of object ≡ kind }
        ensures goes { store.goes self.old [] self.new }
        ensures outs { (k : ℕ) → store.outs self.new k + (if k == kind then 1 else 0) ≡ store.outs self.old k }
        ensures back { (other : Self.Held) → store.is_out self.new other → store.is_out self.old other × (store.slot_of other ≢ store.slot_of object) }
        ensures shelves { ShelvesStay store self.old self.new }
        ensures others { AllStayBut (store.slot_of object) store self.old self.new };

    /// Answers a call of `swap`, made by the instruction at the slot `at`: takes an object of the shelf's kind, or nothing, onto
    /// the shelf in place of what was there, which is out from then on, with the bytes that it had. What is taken is no longer out.
    fn swap(&mut self, shelf: u8, given: Option<Self::Held>, at: u16) -> Option<Self::Held>
        requires shelf { shelf < length store.kinds }
        requires at { at < MAX_SLOTS }
        requires given { IfSome given (λ g. store.is_out self.old g × (store.kind_of g ≡ shelf)) }
        ensures fetched { IfSome result (λ h. store.can_fetch self.old shelf (store.slot_of h) (store.bytes_of self.new h)) }
        ensures missed { IfNone result (store.can_miss self.old shelf) }
        ensures out { IfSome result (λ h. store.is_out self.new h × (store.kind_of h ≡ shelf)) }
        ensures apart { IfSome result (λ h. IsNobodys (store.slot_of h) store self.old) }
        ensures goes { store.goes self.old (reply_to_swap result ∷ []) self.new }
        ensures outs { (k : ℕ) → store.outs self.new k + one_of given shelf k ≡ store.outs self.old k + one_of result shelf k }
        ensures gone { IfSome given (λ g. store.is_out self.new g → ⊥) }
        ensures shelves { ShelvesExchange given shelf store self.old self.new }
        ensures others { OthersStayThan given store self.old self.new };

    /// The bytes of an object.
    fn bytes<'a>(&'a self, held: &'a Self::Held) -> &'a [u8]
        requires { store.is_out self.now held.now }
        ensures { result.now ≡ store.bytes_of self.now held.now };

    /// Writes bytes of an object, from a place on.
    fn write(&mut self, held: &mut Self::Held, place: usize, bytes: &[u8])
        requires out { store.is_out self.old held.old }
        requires fits { place + length bytes.now ≤ length (store.bytes_of self.old held.old) }
        ensures same { (store.slot_of held.new ≡ store.slot_of held.old) × (store.kind_of held.new ≡ store.kind_of held.old) × store.is_out self.new held.new }
        ensures written { store.bytes_of self.new held.new ≡ patched (store.bytes_of self.old held.old) place bytes.now }
        ensures goes { store.goes self.old [] self.new }
        ensures outs { (k : ℕ) → store.outs self.new k ≡ store.outs self.old k }
        ensures shelves { ShelvesStay store self.old self.new }
        ensures others { AllStayBut (store.slot_of held.old) store self.old self.new };

    /// An object that is out has its kind's size, and is of a kind that there is.
    ghost has_size: { (o : Self) (h : Self.Held) → store.is_out o h →
        (length (store.bytes_of o h) ≡ length (image_at store.kinds (store.kind_of h))) × (store.kind_of h < length store.kinds) };
}
