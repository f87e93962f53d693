/// What became of a log entry that arrived.
#[derive(Clone, Copy, Debug, PartialEq, Eq)]
pub enum EntryTook {
    /// It is held now.
    New,
    /// It was held or covered before, and nothing changed.
    Known,
    /// It is of an earlier epoch, and nothing changed.
    OldEpoch,
}

/// What became of an output that arrived.
#[derive(Clone, Copy, Debug, PartialEq, Eq)]
pub enum OutputTook {
    /// It is released.
    Release,
    /// It waits. This log entry is missing: of the least thread that lacks one, the first.
    Wait { thread: u32, number: u64 },
    /// The output of its thread and number was released or waits, and nothing changed.
    Again,
    /// It is of an earlier epoch, and nothing changed.
    OldEpoch,
}
