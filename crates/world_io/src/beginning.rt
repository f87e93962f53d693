ghost use Rattle.std.specs.Prelude.{◌≡◌, ◌++◌, IsErrOf, IfOk, OnOk};
ghost use Rattle.plain_text.specs.Octets.{AreBytes};
ghost use Rattle.world_io.specs.Beginning.{ReadsFront, IsFront, FrontIsBytes};
ghost use Rattle.world_io.specs.Stream.{GoesOn, HasFailed};
ghost use Rattle.world_io.specs.World.{Start};

use crate::{Filled, Source};
use plain_text::{Bytes, NoMemory};
use std::alloc::Global;

/// The bytes that are asked of a source at once.
const PIECE: usize = 8_192;

/// The first bytes of a source, up to a limit.
#[derive(Drop)]
pub enum Front {
    /// All that was left.
    All(Bytes),
    /// As many bytes as the limit. More were left.
    More(Bytes),
}

/// Why the first bytes of a source were not read.
#[derive(Clone, Copy, PartialEq, Eq)]
pub enum FrontError {
    /// Reading failed, and the source's count of faults rose.
    Failed,
    NoMemory,
}

impl From<NoMemory> for FrontError {
    ghost use Rattle.std.specs.Prelude.{◌≡◌};
    ghost use Rattle.world_io.specs.declared.beginning.FrontError.TheVariants as error;

    ghost from_gives = { λ _ e. e ≡ error.NoMemory };

    fn from(_: NoMemory) -> Self {
        FrontError::NoMemory
    }
}

/// Reads all that is left, or the first bytes of it, as many as the limit.
///
/// Where more is left, it has taken the limit and one byte more, which is lost. After an error some bytes may have been
/// taken, and these are lost.
pub fn read_front<S: Source>(alloc: Global, source: &mut S, limit: u64) -> Result<Front, FrontError>
    ensures reads { ReadsFront S.reads result limit source.old source.new }
    ensures bytes { IfOk result FrontIsBytes }
    ensures goes_on { GoesOn S.faults S.healthy source.old source.new }
    ensures cause { IsErrOf result FrontError.Failed
        → HasFailed S.faults S.healthy source.old source.new }
    ensures ends { (p : Start) → S.honest p source.new
        → IsFront result limit (S.remains p source.old) (S.remains p source.new) }
{
    let mut bytes = Bytes::new(alloc);
    let mut room = limit;
    let mut piece = [0u8; PIECE];
    loop {
        let want = room.saturating_add(1).min(PIECE as u64) as usize;
        match source.fill(&mut piece[..want]) {
            Filled::End => return Ok(Front::All(bytes)),
            Filled::Failed => return Err(FrontError::Failed),
            Filled::Got(count) => {
                let kept = (count as u64).min(room) as usize;
                keep(&mut bytes, &piece[..kept])?;
                if kept < count {
                    return Ok(Front::More(bytes));
                }
                room -= kept as u64;
            }
        }
    }
}

/// Appends what was read.
fn keep(bytes: &mut Bytes, piece: &[u8]) -> Result<(), NoMemory>
    ensures ok { OnOk result (bytes.new ≡ bytes.old ++ piece.now) }
    ensures octets { AreBytes piece.now }
{
    bytes.extend(piece)
}
