/// What an element of a picture stands for. It says how the element looks.
#[derive(Clone, Copy)]
pub enum Class {
    /// The white behind all.
    Paper,
    /// The title as a line of the picture.
    Heading,
    /// A word beside a lane, or in the legend.
    Label,
    /// A small word at a mark.
    Note,
    /// The line on which the marks of a thread stand.
    Lane,
    /// The ground of an epoch, and of the one behind it.
    Band,
    OtherBand,
    /// The kinds of moves.
    Take,
    Touch,
    Read,
    Clock,
    Draw,
    Send,
    End,
    /// A move that a new master makes again, and one that was lost.
    Again,
    Lost,
    /// From an access to the next one of the same variable.
    Arrow,
    /// A log entry that has arrived.
    Entry,
    /// An output that waits, and one that is released.
    Waiting,
    Released,
    /// What happens to the snapshots and to the master.
    Snap,
    Store,
    Crash,
    Recover,
    /// How many packets came in, how many left, and how many wait.
    Fed,
    Left,
    Held,
    /// The moves of a thread in a slice of a run.
    Bar,
}
