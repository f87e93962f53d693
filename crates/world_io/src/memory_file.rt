ghost use Rattle.std.specs.Prelude.{◌≡◌, ◌≢◌, ◌++◌, length};
ghost use Rattle.world_io.specs.Stream.{FillCount, filled_bytes, EndsAtEnd};

use crate::Filled;
use plain_text::{Bytes, Text};
use std::marker::Model;

/// A file of a world in memory, which has the number of its place, counted from 1.
#[derive(Drop)]
pub enum MemoryFile {
    /// One to be read.
    Opened(OpenedFile),
    /// One to be written.
    Created(CreatedFile),
}

/// A file that was created: its name, and what it was sent.
#[derive(Drop)]
pub struct CreatedFile {
    /// The name under which it was created.
    pub name: Text,
    /// The bytes that it was sent, in order.
    pub sent: Bytes,
}

/// A file that was opened: the bytes that its name had then. Contracts see those that are left.
#[derive(Drop)]
pub struct OpenedFile {
    bytes: Bytes,
    taken: usize,
}

impl Model for OpenedFile {
    ghost use Rattle.std.specs.Prelude.{List, ℕ, ◌≤◌, length, drop};

    ghost Value = { List ℕ };

    ghost view = { λ f. drop f.taken f.bytes };

    ghost invariant = { λ f. f.taken ≤ length f.bytes };
}

impl OpenedFile {
    /// A file of these bytes, of which all are left.
    pub fn of(bytes: Bytes) -> OpenedFile
        ensures { result ≡ bytes }
    {
        OpenedFile { bytes, taken: 0 }
    }

    /// Takes the next bytes into the piece, from its first byte on. It never fails.
    pub fn fill(&mut self, piece: &mut [u8]) -> Filled
        ensures count { FillCount result (length piece.old) }
        ensures reads { self.old ≡ filled_bytes result piece.new ++ self.new }
        ensures end { EndsAtEnd result self.old }
        ensures never_fails { result ≢ Filled.Failed }
    {
        let rest = &self.bytes.as_slice()[self.taken..];
        if rest.is_empty() {
            return Filled::End;
        }
        let count = piece.len().min(rest.len());
        piece[..count].copy_from_slice(&rest[..count]);
        self.taken += count;
        Filled::Got(count)
    }
}
