ghost use Rattle.std.specs.Prelude.{IsTrue, ◌↔◌};
ghost use Rattle.link_store.specs.Beside.{IsBeside};
ghost use Rattle.link_store.specs.Links.{IsOutputOf};

use plain_text::Kind;

/// Where a frame is looked up: it tells the `number`-th entry or output of `thread`, counted from 1, that the master of
/// this epoch made.
#[derive(Clone, Copy, Debug, PartialEq, Eq, PartialOrd, Ord)]
pub struct Address {
    /// The epoch in which it was sent, from 1.
    pub epoch: u32,
    /// Whether it tells a log entry or an output.
    pub kind: Kind,
    /// The thread that made the entry or output.
    pub thread: u32,
    /// Its number among those of the thread and kind, from 1.
    pub number: u64,
}

impl Address {
    /// Whether the other address is of the same epoch, kind and thread.
    pub(crate) fn is_beside(&self, other: &Address) -> bool
        ensures { IsTrue result ↔ IsBeside self.now other.now }
    {
        self.thread == other.thread && self.kind == other.kind && self.epoch == other.epoch
    }

    /// Whether it is that of an output of this epoch.
    pub(crate) fn is_output_of(&self, epoch: u32) -> bool
        ensures { IsTrue result ↔ IsOutputOf epoch self.now }
    {
        self.kind == Kind::Out && self.epoch == epoch
    }
}
