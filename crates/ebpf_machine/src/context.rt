//! What a run is given to read.

use std::marker::Model;

/// The bytes that a run's program reads as its context. Contracts see it as the list.
#[derive(Drop)]
pub struct Context {
    pub bytes: Vec<u8>,
}

impl Model for Context {
    ghost use Rattle.std.specs.Prelude.{List, ℕ};

    ghost Value = { List ℕ };

    ghost view = { λ c. c.bytes.items };
}
