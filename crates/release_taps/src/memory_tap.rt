ghost use Rattle.std.specs.Prelude.{◌≡◌, ◌↔◌, ◌+◌, [], IfOk, IsTrue, length};
ghost use Rattle.release_taps.specs.Recorded.{Records, IsPast};

use crate::{Shown, Tap};
use plain_text::{Bytes, NoMemory};
use std::alloc::Global;
use std::marker::Model;

/// A tap in memory, for tests. It tells its bytes, and fails at each piece that would take it past
/// a limit.
#[derive(Drop)]
pub struct MemoryTap {
    bytes: Bytes,
    limit: Option<u64>,
    faults: u64,
    lacks: u64,
}

impl Model for MemoryTap {
    ghost use Rattle.release_taps.specs.Recorded.{Recorded};

    ghost Value = { Recorded };

    ghost view = { λ t. record {
      bytes = t.bytes;
      limit = t.limit;
      faults = t.faults;
      lacks = t.lacks;
    } };
}

impl MemoryTap {
    /// A tap that was shown nothing, and fails past this many bytes.
    pub fn new(alloc: Global, fail_past: Option<u64>) -> Result<Self, NoMemory>
        ensures { IfOk result
            (λ tap. tap ≡ record { bytes = []; limit = fail_past; faults = 0; lacks = 0 }) }
    {
        Ok(MemoryTap {
            bytes: Bytes::new(alloc),
            limit: fail_past,
            faults: 0,
            lacks: 0,
        })
    }

    /// The bytes that it was shown, in order.
    pub fn bytes(&self) -> &[u8]
        ensures { result.now ≡ self.now.bytes }
    {
        self.bytes.as_slice()
    }

    fn is_past(&self, piece: &[u8]) -> bool
        ensures { IsTrue result ↔ IsPast self.now.limit (length self.now.bytes + length piece.now) }
    {
        let Some(limit) = self.limit else {
            return false;
        };
        match limit.checked_sub(self.bytes.len() as u64) {
            Some(room) => piece.len() as u64 > room,
            None => true,
        }
    }

    fn record(&mut self, piece: &[u8]) -> Shown
        ensures { Records self.old piece.now result self.new }
    {
        if self.is_past(piece) {
            self.faults = self.faults.saturating_add(1);
            return Shown::Failed;
        }
        match self.bytes.extend(piece) {
            Ok(()) => Shown::Took,
            Err(NoMemory) => {
                self.lacks = self.lacks.saturating_add(1);
                Shown::NoMemory
            }
        }
    }
}

impl Tap for MemoryTap {
    ghost use Rattle.std.specs.Prelude.{⊤, []};

    ghost tells = { λ _. ⊤ };

    ghost seen = { λ t. t.bytes };

    ghost fault_count = { λ t. t.faults };

    ghost lack_count = { λ t. t.lacks };

    ghost label = { λ _. [] };

    fn show(&mut self, piece: &[u8]) -> Shown
        ensures records { Records self.old piece.now result self.new }
    {
        self.record(piece)
    }

    fn faults(&self) -> u64 {
        self.faults
    }

    fn lacks(&self) -> u64 {
        self.lacks
    }
}
