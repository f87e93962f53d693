use crate::What;
use std::marker::Model;

/// One entry of a log, as plain data: the `number`-th logged move of `thread`, counted from 1, and what it did.
#[derive(Clone, Copy, Debug, PartialEq, Eq)]
pub struct LogEntry {
    /// The thread that made the move.
    pub thread: u32,
    /// Its number among the logged moves of the thread, from 1.
    pub number: u64,
    /// What the move did: a touch or a read of a variable, or a time or a random word that was told.
    pub what: What,
}

impl Model for LogEntry {
    ghost use Rattle.entry_order.specs.Log.{Entry};

    ghost Value = { Entry };

    ghost view = { λ e. record { thread = e.thread; number = e.number; what = e.what } };

    ghost inverse = { λ e. record { thread = e.thread; number = e.number; what = e.what } };
}
