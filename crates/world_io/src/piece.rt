ghost use Rattle.std.specs.Prelude.{◌≡◌, ◌≤◌, ◌<◌, ◌++◌, [], IsNone, IsErrOf, IfSome, IfOk};
ghost use Rattle.std.specs.Prelude.{MatchOption, List, ℕ, length, take, vec_len};
ghost use Rattle.plain_text.specs.Octets.{AreBytes};
ghost use Rattle.world_io.specs.Beginning.{ReadsBehind};
ghost use Rattle.world_io.specs.Stream.{GoesOn, HasFailed};
ghost use Rattle.world_io.specs.World.{Start};

use crate::{Filled, FrontError, Source};
use plain_text::{Bytes, NoMemory};
use std::alloc::Global;

/// Fills the piece from the source, and says how many bytes it got: fewer than the piece has only
/// where no more were left. None comes where reading failed, after any bytes.
pub fn fill_piece<S: Source>(source: &mut S, piece: &mut [u8]) -> Option<usize>
    ensures taken { MatchOption result ((taken : List ℕ) × S.reads source.old taken source.new)
        (λ n. S.reads source.old (take n piece.new) source.new) }
    ensures within { IfSome result (λ n. n ≤ length piece.new) }
    ensures octets { AreBytes piece.new }
    ensures goes_on { GoesOn S.faults S.healthy source.old source.new }
    ensures cause { IsNone result → HasFailed S.faults S.healthy source.old source.new }
    ensures runs_out { (p : Start) → S.honest p source.new
        → IfSome result (λ n. n < length piece.new → S.remains p source.new ≡ []) }
{
    let mut done = 0;
    while done < piece.len() {
        match source.fill(&mut piece[done..]) {
            Filled::Got(count) => done += count,
            Filled::End => return Some(done),
            Filled::Failed => return None,
        }
    }
    Some(done)
}

/// Puts the first bytes into the piece, fills the rest of it from the source, and says how many
/// bytes the piece has then. None comes where reading failed, after any bytes.
pub fn fill_behind<S: Source>(source: &mut S, first: &[u8], piece: &mut [u8]) -> Option<usize>
    requires { length first.now ≤ length piece.old }
    ensures taken { MatchOption result ((taken : List ℕ) × S.reads source.old taken source.new)
        (λ n. (taken : List ℕ) × S.reads source.old taken source.new
        × (first.now ++ taken ≡ take n piece.new)) }
    ensures within { IfSome result (λ n. n ≤ length piece.new) }
    ensures octets { AreBytes piece.new }
    ensures goes_on { GoesOn S.faults S.healthy source.old source.new }
    ensures cause { IsNone result → HasFailed S.faults S.healthy source.old source.new }
    ensures runs_out { (p : Start) → S.honest p source.new
        → IfSome result (λ n. n < length piece.new → S.remains p source.new ≡ []) }
{
    let start = first.len();
    piece[..start].copy_from_slice(first);
    match fill_piece(source, &mut piece[start..]) {
        Some(had) => Some(start + had),
        None => None,
    }
}

/// What stands in a piece before it is read.
static ZEROS: [u8; 2_048] = [0; 2_048];

/// As many zeros. They are copied by pieces, which is faster than one by one.
fn zeros(alloc: Global, count: usize) -> Result<Vec<u8>, NoMemory>
    ensures { IfOk result (λ zeros. vec_len zeros ≡ count) }
{
    let mut zeros = Vec::with_capacity(alloc, count)?;
    'pieces: while zeros.len() < count {
        let more = (count - zeros.len()).min(ZEROS.len());
        zeros.extend_from_slice(&ZEROS[..more])?;
    }
    Ok(zeros)
}

/// These bytes, and behind them what is read of the source until there are this many, or no more
/// are left. After an error some bytes may have been taken, and these are lost.
pub fn read_behind<S: Source>(
    alloc: Global,
    source: &mut S,
    first: &[u8],
    count: usize,
) -> Result<Bytes, FrontError>
    requires { length first.now ≤ count }
    ensures reads { ReadsBehind S.reads first.now result source.old source.new }
    ensures within { IfOk result (λ bytes. length bytes ≤ count) }
    ensures bytes { IfOk result AreBytes }
    ensures goes_on { GoesOn S.faults S.healthy source.old source.new }
    ensures cause { IsErrOf result FrontError.Failed
        → HasFailed S.faults S.healthy source.old source.new }
    ensures runs_out { (p : Start) → S.honest p source.new
        → IfOk result (λ bytes. length bytes < count → S.remains p source.new ≡ []) }
{
    let Ok(mut bytes) = zeros(alloc, count) else {
        return Err(FrontError::NoMemory);
    };
    let Some(had) = fill_behind(source, first, bytes.as_mut_slice()) else {
        return Err(FrontError::Failed);
    };
    bytes.truncate(had);
    Ok(Bytes::from_vec(bytes))
}
