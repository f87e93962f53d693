//! The frames of a round, by their names.

use plain_text::Kind;
use std::marker::Model;

/// A frame of a thread, by its kind and its number among those of its kind, from 1.
#[derive(Clone, Copy, Debug, PartialEq, Eq)]
pub struct FrameName {
    pub kind: Kind,
    pub thread: u64,
    pub number: u64,
}

impl Model for FrameName {
    ghost use Rattle.recovery_world.specs.Many.{Message};

    ghost Value = { Message };

    ghost view = { λ f. record { kind = f.kind; thread = f.thread; number = f.number } };

    ghost inverse = { λ m. record { kind = m.kind; thread = m.thread; number = m.number } };
}
