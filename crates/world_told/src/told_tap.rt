ghost use Rattle.std.specs.Prelude.{IsTrue};
ghost use Rattle.world_io.specs.World.{is_writable};
ghost use Rattle.world_told.specs.Ledgers.{told_ledger};

use crate::Told;
use world_io::{OpenFault, World};

/// A tap that writes what it is shown to a file of a world of its own, of whose calls there is a record.
///
/// As long as it did not fail it tells what it was shown: this is what its file was sent, by the record. Where a fault
/// comes within a piece, the file may end in a first part of the piece.
#[derive(Drop)]
pub struct ToldTap<W: World> {
    pub world: Told<W>,
    pub file: u32,
    pub faults: u64,
    pub lacks: u64,
    ghost writable: { IsTrue (is_writable (told_ledger W.ledger world) file) },
}

/// Why the file of a tap was not created, and the world in which it was to be.
#[derive(Drop)]
pub struct Refused<W> {
    pub fault: OpenFault,
    pub world: W,
}
