ghost use Rattle.std.specs.Prelude.{◌≡◌, ◌≤◌, ◌<◌, [], IsNone, IfSome, MatchOption, List};
ghost use Rattle.std.specs.Prelude.{ℕ, length};
ghost use Rattle.world_io.specs.Stream.{GoesOn, HasFailed};
ghost use Rattle.world_io.specs.World.{Start};

use world_io::{Filled, Source};

/// The bytes that are read past at once.
const PAST: usize = 8_192;

/// Reads past this number of bytes, and says how many it passed: fewer only where no more were left. None comes where
/// reading failed, after any bytes.
pub(crate) fn read_past<S: Source>(source: &mut S, count: u64) -> Option<u64>
    ensures taken { MatchOption result ((taken : List ℕ) × S.reads source.old taken source.new)
        (λ n. (taken : List ℕ) × S.reads source.old taken source.new × (length taken ≡ n)) }
    ensures within { IfSome result (λ n. n ≤ count) }
    ensures goes_on { GoesOn S.faults S.healthy source.old source.new }
    ensures cause { IsNone result → HasFailed S.faults S.healthy source.old source.new }
    ensures runs_out { (p : Start) → S.honest p source.new
        → IfSome result (λ n. n < count → S.remains p source.new ≡ []) }
{
    let mut piece = [0u8; PAST];
    let mut done = 0;
    while done < count {
        let most = (count - done).min(PAST as u64) as usize;
        match source.fill(&mut piece[..most]) {
            Filled::Got(got) => done += got as u64,
            Filled::End => return Some(done),
            Filled::Failed => return None,
        }
    }
    Some(done)
}
