//! What a run is found to have done.

use std::marker::Model;

/// The numbers that a run added to its output, in order. Contracts see it as the list.
#[derive(Drop)]
pub struct Output {
    pub numbers: Vec<u64>,
}

impl Model for Output {
    ghost use Rattle.std.specs.Prelude.{List, ℕ};

    ghost Value = { List ℕ };

    ghost view = { λ o. o.numbers.items };
}

/// What a call of `new` or of `swap` was answered.
#[derive(Clone, Copy)]
pub enum Reply {
    /// A call of `new`: no object.
    Null,
    /// A call of `new`: an object of the kind that it asked for.
    Granted,
    /// A call of `swap`: nothing was on the shelf.
    Empty,
    /// A call of `swap`: what was on the shelf.
    Shelf,
}

/// What each call of `new` and of `swap` that a run made was answered, in order. Contracts see it as the list.
#[derive(Drop)]
pub struct Answers {
    pub replies: Vec<Reply>,
}

impl Model for Answers {
    ghost use Rattle.std.specs.Prelude.{List};
    ghost use Rattle.ebpf_machine.specs.declared.report.Reply.{Reply};

    ghost Value = { List Reply };

    ghost view = { λ a. a.replies.items };
}

/// The bytes of what a run took off shelves, one object after another in the order of its calls. Contracts see it as the list.
#[derive(Drop)]
pub struct Taken {
    pub bytes: Vec<u8>,
}

impl Model for Taken {
    ghost use Rattle.std.specs.Prelude.{List, ℕ};

    ghost Value = { List ℕ };

    ghost view = { λ t. t.bytes.items };
}

/// What a run did until it exited, or until it was given up.
#[derive(Drop)]
pub struct Report {
    /// The number that it returned, or `None` where it was given up before its exit.
    pub exit: Option<u64>,
    /// What it added to its output.
    pub output: Output,
    /// How many instructions it did.
    pub executed: u64,
    /// What its calls of `new` and of `swap` were answered.
    pub answers: Answers,
    /// The bytes of each object that a call of `swap` was answered, as they were on the shelf.
    pub taken: Taken,
    /// The most objects that it held at one time.
    pub peak: u64,
}
