ghost use Rattle.std.specs.Prelude.{◌≡◌, ◌++◌, IsTrue, refl};
ghost use Rattle.std.proofs.Common.{◌∙◌, sym, ap};
ghost use Rattle.world_io.specs.World.{is_writable};
ghost use Rattle.world_io.specs.OneFile.{ReadsOneFile, WritesOneFile, ReadsOneFile-nothing};
ghost use Rattle.world_io.specs.OneFile.{ReadsOneFile-more, WritesOneFile-nothing};
ghost use Rattle.world_io.specs.OneFile.{WritesOneFile-more};

use crate::{Filled, Put, Sink, Source, World};

/// One opened file of a world, as a source.
///
/// It holds the world for as long as it lives. What it read is known of the world afterwards.
#[derive(Drop)]
pub struct WorldSource<'a, W: World> {
    /// The world that opened it.
    pub world: &'a mut W,
    /// The number that the world gave it.
    pub file: u32,
    ghost opened: { IsTrue ((W.ledger world.now).opened file) },
}

impl<'a, W: World> WorldSource<'a, W> {
    /// Reads this file, which the world has opened.
    pub fn of(world: &'a mut W, file: u32) -> WorldSource<'a, W>
        requires { IsTrue ((W.ledger world.old).opened file) }
        ensures same_reference { result.world.ghost_name ≡ world.entry.ghost_name }
        ensures file { result.file ≡ file }
        ensures world { result.world.now ≡ world.old }
    {
        WorldSource { world, file }
    }
}

impl<'a, W: World> Source for WorldSource<'a, W> {
    ghost honest = { λ p s. W.honest p s.world.now };

    ghost remains = { λ p s. (W.shows p s.world.now).left s.file };

    ghost faults = { λ s. (W.ledger s.world.now).read_faults };

    ghost healthy = { λ s. W.healthy s.world.now };

    ghost reads = { λ a taken b. (b.world.ghost_name ≡ a.world.ghost_name) × ((b.file ≡ a.file)
        × ReadsOneFile W.honest W.shows W.ledger a.file taken a.world.now b.world.now) };

    ghost reads_nothing = { λ s. (
      refl,
      (
        refl,
        ReadsOneFile-nothing W.honest W.shows W.ledger s.file s.world.now,
      ),
    ) };

    ghost reads_more = { λ a b c first more r s. (
      s.0 ∙ r.0,
      (
        s.1.0 ∙ r.1.0,
        ReadsOneFile-more W.honest W.shows W.ledger a.file b.file first more
            a.world.now b.world.now c.world.now r.1.0 r.1.1 s.1.1,
      ),
    ) };

    ghost reads_before = { λ p a b taken h r. (r.1.1.honest_read p h).0 };

    ghost reads_shown = { λ p a b taken h r. (r.1.1.honest_read p h).1.left
        ∙ ap (λ k. taken ++ (W.shows p b.world.now).left k) (sym r.1.0) };

    fn fill(&mut self, piece: &mut [u8]) -> Filled {
        self.world.fill(self.file, piece)
    }
}

/// One created file of a world, or its report, as a sink.
///
/// It holds the world for as long as it lives. What it wrote is known of the world afterwards.
#[derive(Drop)]
pub struct WorldSink<'a, W: World> {
    pub world: &'a mut W,
    pub file: u32,
    ghost writable: { IsTrue (is_writable (W.ledger world.now) file) },
}

impl<'a, W: World> WorldSink<'a, W> {
    /// Writes to this file, which the world has created, or to the report, which is file 0.
    pub fn of(world: &'a mut W, file: u32) -> WorldSink<'a, W>
        requires { IsTrue (is_writable (W.ledger world.old) file) }
        ensures same_reference { result.world.ghost_name ≡ world.entry.ghost_name }
        ensures file { result.file ≡ file }
        ensures world { result.world.now ≡ world.old }
    {
        WorldSink { world, file }
    }
}

impl<'a, W: World> Sink for WorldSink<'a, W> {
    ghost honest = { λ p s. W.honest p s.world.now };

    ghost holds = { λ p s. (W.shows p s.world.now).sent s.file };

    ghost faults = { λ s. (W.ledger s.world.now).write_faults };

    ghost healthy = { λ s. W.healthy s.world.now };

    ghost writes = { λ a added b. (b.world.ghost_name ≡ a.world.ghost_name) × ((b.file ≡ a.file)
        × WritesOneFile W.honest W.shows W.ledger a.file added a.world.now b.world.now) };

    ghost writes_nothing = { λ s. (
      refl,
      (
        refl,
        WritesOneFile-nothing W.honest W.shows W.ledger s.file s.world.now,
      ),
    ) };

    ghost writes_more = { λ a b c first more r s. (
      s.0 ∙ r.0,
      (
        s.1.0 ∙ r.1.0,
        WritesOneFile-more W.honest W.shows W.ledger a.file b.file first more
            a.world.now b.world.now c.world.now r.1.0 r.1.1 s.1.1,
      ),
    ) };

    ghost writes_before = { λ p a b added h r. (r.1.1.honest_written p h).0 };

    ghost writes_shown = { λ p a b added h r.
        ap (λ k. (W.shows p b.world.now).sent k) r.1.0 ∙ (r.1.1.honest_written p h).1.sent };

    fn put(&mut self, piece: &[u8]) -> Put {
        self.world.put(self.file, piece)
    }
}
