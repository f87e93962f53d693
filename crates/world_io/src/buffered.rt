ghost use Rattle.std.specs.Prelude.{◌≡◌, ◌<◌, ◌++◌, [], length, min, take, vec_len};
ghost use Rattle.world_io.specs.Stream.{GoesOn, HasFailed};
ghost use Rattle.world_io.specs.Buffered.{HoldsSome};
ghost use Rattle.world_io.specs.World.{Start};

use crate::{Filled, Source};
use std::marker::Model;

/// A source that asks the source below it for large pieces, so that small fills make few calls
/// there.
///
/// Contracts see the source below and the bytes that are held, in the order in which they will be
/// given. When it is let go, the bytes held are lost: the source below has given them already.
#[derive(Drop)]
pub struct BufferedSource<S> {
    source: S,
    buffer: Vec<u8>,
    given: usize,
    filled: usize,
}

impl<S> Model for BufferedSource<S> {
    ghost use Rattle.std.specs.Prelude.{ℕ, List, ◌≤◌, ◌<◌, vec_len, take, drop};

    ghost Value = { S × List ℕ };

    ghost view = { λ b. (b.source, drop b.given (take b.filled b.buffer.items)) };

    ghost invariant = { λ b.
        (b.given ≤ b.filled) × (b.filled ≤ vec_len b.buffer) × (0 < vec_len b.buffer) };
}

impl<S> BufferedSource<S> {
    /// Holds no bytes yet. The source below is asked for as many bytes at once as the buffer has
    /// room for.
    pub fn of(source: S, buffer: Vec<u8>) -> BufferedSource<S>
        requires { 0 < vec_len buffer }
        ensures { result ≡ (source, []) }
    {
        BufferedSource {
            source,
            buffer,
            given: 0,
            filled: 0,
        }
    }

    /// The source below. The bytes held are lost.
    pub fn into_inner(self) -> S
        ensures { result ≡ self.0 }
    {
        self.source
    }

    /// How many bytes are held.
    fn held(&self) -> usize
        ensures { result ≡ length self.now.1 }
    {
        self.filled - self.given
    }

    /// Gives the first bytes held, as many as fit into the piece.
    fn give(&mut self, piece: &mut [u8]) -> usize
        ensures count { result ≡ min (length piece.old) (length self.old.1) }
        ensures given { self.old.1 ≡ take result piece.new ++ self.new.1 }
        ensures source { self.new.0 ≡ self.old.0 }
    {
        let start = self.given;
        let count = piece.len().min(self.filled - start);
        let end = start + count;
        piece[..count].copy_from_slice(&self.buffer[start..end]);
        self.given = end;
        count
    }
}

impl<S: Source> BufferedSource<S> {
    /// Fetches the next piece of the source below.
    fn refill(&mut self) -> Filled
        requires { length self.old.1 ≡ 0 }
        ensures reads { S.reads self.old.0 self.new.1 self.new.0 }
        ensures holds { HoldsSome result self.new.1 }
        ensures goes_on { GoesOn S.faults S.healthy self.old.0 self.new.0 }
        ensures cause { result ≡ Filled.Failed
            → HasFailed S.faults S.healthy self.old.0 self.new.0 }
        ensures ends { (p : Start) → S.honest p self.new.0
            → result ≡ Filled.End → S.remains p self.old.0 ≡ [] }
    {
        let filled = self.source.fill(self.buffer.as_mut_slice());
        self.given = 0;
        self.filled = match filled {
            Filled::Got(count) => count,
            Filled::End | Filled::Failed => 0,
        };
        filled
    }
}

impl<S: Source> Source for BufferedSource<S> {
    ghost use Rattle.std.specs.Prelude.{◌++◌};
    ghost use Rattle.world_io.specs.Buffered.{TakesThrough, TakesThrough-nothing};
    ghost use Rattle.world_io.specs.Buffered.{TakesThrough-more, TakesThrough-told};

    ghost honest = { λ p b. S.honest p b.0 };

    ghost remains = { λ p b. b.1 ++ S.remains p b.0 };

    ghost faults = { λ b. S.faults b.0 };

    ghost healthy = { λ b. S.healthy b.0 };

    ghost reads = { λ a taken b. TakesThrough S.reads taken a b };

    ghost reads_nothing = { λ b. TakesThrough-nothing S.reads S.reads_nothing b };

    ghost reads_more = { λ a b c first more r s.
        TakesThrough-more S.reads S.reads_more first more a b c r s };

    ghost reads_before = { λ p a b taken h r. S.reads_before p a.0 b.0 r.fetched h r.below };

    ghost reads_shown = { λ p a b taken h r. TakesThrough-told S.reads (S.remains p) taken a b r
        (S.reads_shown p a.0 b.0 r.fetched h r.below) };

    fn fill(&mut self, piece: &mut [u8]) -> Filled {
        if self.held() > 0 {
            return Filled::Got(self.give(piece));
        }
        match self.refill() {
            Filled::Got(_) => Filled::Got(self.give(piece)),
            stopped => stopped,
        }
    }
}
