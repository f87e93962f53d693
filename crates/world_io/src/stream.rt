ghost use Rattle.std.specs.Prelude.{◌≡◌, ◌++◌, [], List, ℕ, length};
ghost use Rattle.world_io.specs.Stream.{GoesOn, HasFailed, FillCount, filled_bytes};
ghost use Rattle.world_io.specs.Stream.{PutCount, put_bytes};
ghost use Rattle.world_io.specs.World.{Start};

use std::marker::Model;

/// How many bytes a fill took from a source, or why none.
#[derive(Clone, Copy, PartialEq, Eq)]
pub enum Filled {
    /// The number of bytes that were put into the piece, from its first byte on; at least one,
    /// unless the piece is empty.
    Got(usize),
    /// Nothing was left to be read.
    End,
    /// Reading failed, and took nothing.
    Failed,
}

/// How many bytes a put gave to a sink, or why none.
#[derive(Clone, Copy, PartialEq, Eq)]
pub enum Put {
    /// The number of the piece's first bytes that were appended; at least one, unless the piece is
    /// empty.
    Took(usize),
    /// Writing failed, and appended nothing.
    Failed,
    /// There was no memory, and nothing was appended.
    NoMemory,
}

/// Bytes to be read in order, in pieces of any size.
///
/// What a call took is known, since it stands in the piece. What is left is known by a beginning of
/// which all answers so far are honest. A source may say that it is healthy: then no call fails,
/// and it stays healthy.
pub trait Source {
    /// That each answer so far is that of files which held these bytes at the beginning.
    ghost honest: { Start → Self → Type 0 };

    /// The bytes left, by this beginning, where all answers are honest.
    ghost remains: { Start → Self → List ℕ };

    /// How often reading failed. A count at 2^64 - 1 stays there.
    ghost faults: { Self → ℕ };

    /// From the one state to the other these bytes were taken, and all else but the count of faults
    /// stays.
    ghost reads: { Self → List ℕ → Self → Type 0 };

    /// That no call fails from here on.
    ghost healthy: { Self → Type 0 };

    /// Takes the next bytes into the piece, from its first byte on.
    fn fill(&mut self, piece: &mut [u8]) -> Filled
        ensures count { FillCount result (length piece.old) }
        ensures reads { reads self.old (filled_bytes result piece.new) self.new }
        ensures goes_on { GoesOn faults healthy self.old self.new }
        ensures cause { result ≡ Filled.Failed → HasFailed faults healthy self.old self.new }
        ensures ends { (p : Start) → honest p self.new
            → result ≡ Filled.End → remains p self.old ≡ [] };

    ghost reads_nothing: { (s : Self) → reads s [] s };

    ghost reads_more: { (a b c : Self) (first more : List ℕ)
        → reads a first b → reads b more c → reads a (first ++ more) c };

    ghost reads_before: { (p : Start) (a b : Self) (taken : List ℕ)
        → honest p b → reads a taken b → honest p a };

    ghost reads_shown: { (p : Start) (a b : Self) (taken : List ℕ)
        → honest p b → reads a taken b → remains p a ≡ taken ++ remains p b };
}

/// A place to append bytes to. A sink may say that it is healthy: then no call fails, and it stays
/// healthy.
pub trait Sink {
    /// That each answer so far is that of files which held these bytes at the beginning.
    ghost honest: { Start → Self → Type 0 };

    /// The bytes written, by this beginning, where all answers are honest.
    ghost holds: { Start → Self → List ℕ };

    /// How often writing failed. A count at 2^64 - 1 stays there.
    ghost faults: { Self → ℕ };

    /// From the one state to the other these bytes were appended, and all else but the count of
    /// faults stays.
    ghost writes: { Self → List ℕ → Self → Type 0 };

    /// That no call fails from here on.
    ghost healthy: { Self → Type 0 };

    /// Appends the first bytes of the piece.
    fn put(&mut self, piece: &[u8]) -> Put
        ensures count { PutCount result (length piece.now) }
        ensures writes { writes self.old (put_bytes result piece.now) self.new }
        ensures goes_on { GoesOn faults healthy self.old self.new }
        ensures cause { result ≡ Put.Failed → HasFailed faults healthy self.old self.new };

    ghost writes_nothing: { (s : Self) → writes s [] s };

    ghost writes_more: { (a b c : Self) (first more : List ℕ)
        → writes a first b → writes b more c → writes a (first ++ more) c };

    ghost writes_before: { (p : Start) (a b : Self) (added : List ℕ)
        → honest p b → writes a added b → honest p a };

    ghost writes_shown: { (p : Start) (a b : Self) (added : List ℕ)
        → honest p b → writes a added b → holds p b ≡ holds p a ++ added };
}

/// A source that is lent is a source. What it read is known of the source afterwards.
impl<'a, S: Source> Source for &'a mut S {
    ghost use Rattle.std.specs.Prelude.{◌≡◌, refl};
    ghost use Rattle.std.proofs.Common.{◌∙◌};

    ghost honest = { λ p s. S.honest p s.now };

    ghost remains = { λ p s. S.remains p s.now };

    ghost faults = { λ s. S.faults s.now };

    ghost healthy = { λ s. S.healthy s.now };

    ghost reads = { λ a taken b. (b.ghost_name ≡ a.ghost_name) × S.reads a.now taken b.now };

    ghost reads_nothing = { λ s. (refl, S.reads_nothing s.now) };

    ghost reads_more = { λ a b c first more r s.
        (s.0 ∙ r.0, S.reads_more a.now b.now c.now first more r.1 s.1) };

    ghost reads_before = { λ p a b taken h r. S.reads_before p a.now b.now taken h r.1 };

    ghost reads_shown = { λ p a b taken h r. S.reads_shown p a.now b.now taken h r.1 };

    fn fill(&mut self, piece: &mut [u8]) -> Filled {
        (**self).fill(piece)
    }
}

/// A sink that is lent is a sink. What it wrote is known of the sink afterwards.
impl<'a, K: Sink> Sink for &'a mut K {
    ghost use Rattle.std.specs.Prelude.{◌≡◌, refl};
    ghost use Rattle.std.proofs.Common.{◌∙◌};

    ghost honest = { λ p s. K.honest p s.now };

    ghost holds = { λ p s. K.holds p s.now };

    ghost faults = { λ s. K.faults s.now };

    ghost healthy = { λ s. K.healthy s.now };

    ghost writes = { λ a added b. (b.ghost_name ≡ a.ghost_name) × K.writes a.now added b.now };

    ghost writes_nothing = { λ s. (refl, K.writes_nothing s.now) };

    ghost writes_more = { λ a b c first more r s.
        (s.0 ∙ r.0, K.writes_more a.now b.now c.now first more r.1 s.1) };

    ghost writes_before = { λ p a b added h r. K.writes_before p a.now b.now added h r.1 };

    ghost writes_shown = { λ p a b added h r. K.writes_shown p a.now b.now added h r.1 };

    fn put(&mut self, piece: &[u8]) -> Put {
        (**self).put(piece)
    }
}

/// The bytes of a slice as a source, which never fails. Contracts see the bytes left.
#[derive(Drop)]
pub struct SliceSource<'a> {
    rest: &'a [u8],
}

impl<'a> Model for SliceSource<'a> {
    ghost use Rattle.std.specs.Prelude.{List, ℕ};

    ghost Value = { List ℕ };

    ghost view = { λ s. s.rest.now };
}

impl<'a> SliceSource<'a> {
    /// Reads this slice from its first byte.
    pub fn of(bytes: &'a [u8]) -> SliceSource<'a>
        ensures { result ≡ bytes.now }
    {
        SliceSource { rest: bytes }
    }
}

impl<'a> Source for SliceSource<'a> {
    ghost use Rattle.std.specs.Prelude.{◌≡◌, ◌++◌, ⊤, refl};
    ghost use Rattle.std.proofs.Common.{◌∙◌, sym, ap, append_assoc};

    ghost honest = { λ _ _. ⊤ };

    ghost remains = { λ _ s. s };

    ghost faults = { λ _. 0 };

    ghost healthy = { λ _. ⊤ };

    ghost reads = { λ a taken b. a ≡ taken ++ b };

    ghost reads_nothing = { λ _. refl };

    ghost reads_more = { λ a b c first more r s.
        r ∙ ap (λ l. first ++ l) s ∙ sym (append_assoc first more c) };

    ghost reads_before = { λ _ _ _ _ _ _. tt };

    ghost reads_shown = { λ _ a b taken _ r. r };

    fn fill(&mut self, piece: &mut [u8]) -> Filled {
        if self.rest.is_empty() {
            return Filled::End;
        }
        let count = piece.len().min(self.rest.len());
        let (taken, rest) = self.rest.split_at(count);
        piece[..count].copy_from_slice(taken);
        self.rest = rest;
        Filled::Got(count)
    }
}
