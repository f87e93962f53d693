ghost use Rattle.std.specs.Prelude.{◌≡◌, List, [], ◌∷◌};
ghost use Rattle.std.specs.Borrow.{ftrue};
ghost use Rattle.world_told.specs.Events.{Event};

use std::marker::Model;

/// A call that moved something, with the number of its file.
#[derive(Clone, Copy)]
pub enum Call {
    /// A name was opened, and its file got this number.
    Opened(u32),
    /// The next bytes of this file were read.
    Read(u32),
    /// The end of this file was found.
    Ended(u32),
    /// A name was created, and its file got this number.
    Created(u32),
    /// Bytes were appended to this file.
    Wrote(u32),
}

/// The calls of a world with their names or bytes, the newest first. It takes no memory.
#[derive(Drop)]
pub struct Record {
    /// The calls, of which only contracts know.
    pub ghost events: { List Event },
}

impl Model for Record {
    ghost also_owns = { λ _. ftrue };
}

impl Record {
    /// No call was made.
    pub(crate) fn new() -> Record
        ensures { result.events ≡ [] }
    {
        Record {}
    }

    /// Notes a call, with its name or with the bytes that it moved.
    pub(crate) fn note(&mut self, _call: &Call, _bytes: &[u8])
        ensures { self.new.events ≡ (_call.now, _bytes.now) ∷ self.old.events }
    {}
}
