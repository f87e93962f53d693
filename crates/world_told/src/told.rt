ghost use Rattle.std.specs.Prelude.{◌≡◌, ◌<◌, ◌-◌, ◌^◌, [], true, IsTrue, length, IfOk, OnErr};
ghost use Rattle.std.specs.Prelude.{IsErrOf};
ghost use Rattle.world_io.specs.Stream.{Rose, FillCount, filled_bytes, PutCount, put_bytes};
ghost use Rattle.world_io.specs.World.{Start, OpensFile, ReadsFile, CreatesFile, WritesFile};
ghost use Rattle.world_io.specs.World.{CreatesNothing, GivesOpened, GivesCreated, is_writable};
ghost use Rattle.world_io.specs.World.{KeepsLedgerReading, KeepsLedgerWriting, FilledNothing};
ghost use Rattle.world_told.specs.Events.{after_open, after_fill, after_create, after_put};
ghost use Rattle.world_told.specs.Ledgers.{told_ledger};

use crate::record::{Call, Record};
use plain_text::Text;
use std::marker::Model;
use world_io::{Filled, OpenFault, Put, World};

/// Any world, with a record of its calls and their answers. Contracts see both.
///
/// It passes each call on, and shows its bytes by each beginning of which the answers so far are
/// honest. Its ledger has the files of the record: not those that the world below opened or created
/// before.
#[derive(Drop)]
pub struct Told<W: World> {
    inner: W,
    calls: Record,
}

impl<W: World> Model for Told<W> {
    ghost use Rattle.world_told.specs.Events.{WithCalls};
    ghost use Rattle.world_told.specs.Ledgers.{WereMade};

    ghost Value = { WithCalls W };

    ghost view = { λ t. record { world = t.inner; calls = t.calls.events } };

    ghost invariant = { λ t. WereMade t.calls.events (W.ledger t.inner) };
}

impl<W: World> Told<W> {
    /// No call was made of this world.
    pub fn of(inner: W) -> Told<W>
        ensures { result ≡ record { world = inner; calls = [] } }
    {
        Told {
            inner,
            calls: Record::new(),
        }
    }

    /// The world below, which stays there.
    pub fn world(&self) -> &W
        ensures { result.now ≡ self.now.world }
    {
        &self.inner
    }

    /// The world below.
    pub fn into_inner(self) -> W
        ensures { result ≡ self.world }
    {
        self.inner
    }
}

impl<W: World> World for Told<W> {
    ghost use Rattle.world_told.specs.Events.{shown_after};
    ghost use Rattle.world_told.specs.Honest.{IsHonest};
    ghost use Rattle.world_told.specs.Ledgers.{told_ledger};

    ghost honest = { λ p t. IsHonest p t.calls };

    ghost shows = { λ p t. shown_after p t.calls };

    ghost ledger = { λ t. told_ledger W.ledger t };

    ghost healthy = { λ _. ⊥ };

    // Each call says what it adds to the record, and, of a world below whose answers are honest,
    // that it was made there. What any world promises follows from the record.

    fn open_file(&mut self, name: &Text) -> Result<u32, OpenFault>
        requires { (W.ledger self.old.world).given < 2 ^ 32 - 1 }
        ensures given { IfOk result
            (λ file. GivesOpened name.now file
            (told_ledger W.ledger self.old) (told_ledger W.ledger self.new)) }
        ensures not_given { OnErr result
            (KeepsLedgerReading
            (told_ledger W.ledger self.old) (told_ledger W.ledger self.new)) }
        ensures cause { IsErrOf result OpenFault.Failed
            → Rose (W.ledger self.old.world).read_faults (W.ledger self.new.world).read_faults }
        ensures noted { self.new.calls ≡ after_open name.now result self.old.calls }
        ensures through { (p : Start) → W.honest p self.new.world → IfOk result
            (λ file. OpensFile name.now file (W.shows p self.old.world) (W.shows p self.new.world)) }
        ensures through_err { (p : Start) → W.honest p self.new.world
            → OnErr result (W.shows p self.new.world ≡ W.shows p self.old.world) }
    {
        let file = self.inner.open_file(name)?;
        self.calls
            .note(&Call::Opened(file), name.as_str().as_bytes());
        Ok(file)
    }

    fn fill(&mut self, file: u32, piece: &mut [u8]) -> Filled
        requires { IsTrue ((told_ledger W.ledger self.old).opened file) }
        ensures count { FillCount result (length piece.old) }
        ensures ledger { KeepsLedgerReading
            (told_ledger W.ledger self.old) (told_ledger W.ledger self.new) }
        ensures cause { result ≡ Filled.Failed
            → Rose (W.ledger self.old.world).read_faults (W.ledger self.new.world).read_faults }
        ensures end_found { result ≡ Filled.End
            → (told_ledger W.ledger self.new).ended file ≡ true }
        ensures nothing_more { (told_ledger W.ledger self.old).ended file ≡ true
            → FilledNothing result }
        ensures noted { self.new.calls ≡ after_fill file result piece.new self.old.calls }
        ensures through { (p : Start) → W.honest p self.new.world
            → ReadsFile file (filled_bytes result piece.new)
            (W.shows p self.old.world) (W.shows p self.new.world) }
        ensures through_end { (p : Start) → W.honest p self.new.world
            → result ≡ Filled.End → (W.shows p self.old.world).left file ≡ [] }
    {
        let filled = self.inner.fill(file, piece);
        match filled {
            Filled::Got(count) => self.calls.note(&Call::Read(file), &piece[..count]),
            Filled::End => self.calls.note(&Call::Ended(file), &[]),
            Filled::Failed => {}
        }
        filled
    }

    fn create_file(&mut self, name: &Text) -> Result<u32, OpenFault>
        requires { (W.ledger self.old.world).given < 2 ^ 32 - 1 }
        ensures given { IfOk result
            (λ file. GivesCreated file
            (told_ledger W.ledger self.old) (told_ledger W.ledger self.new)) }
        ensures not_given { OnErr result
            (KeepsLedgerWriting
            (told_ledger W.ledger self.old) (told_ledger W.ledger self.new)) }
        ensures cause { IsErrOf result OpenFault.Failed
            → Rose (W.ledger self.old.world).write_faults (W.ledger self.new.world).write_faults }
        ensures noted { self.new.calls ≡ after_create name.now result self.old.calls }
        ensures through { (p : Start) → W.honest p self.new.world → IfOk result
            (λ file. CreatesFile name.now file (W.shows p self.old.world) (W.shows p self.new.world)) }
        ensures through_err { (p : Start) → W.honest p self.new.world → OnErr result
            (CreatesNothing name.now (W.shows p self.old.world) (W.shows p self.new.world)) }
    {
        let file = self.inner.create_file(name)?;
        self.calls
            .note(&Call::Created(file), name.as_str().as_bytes());
        Ok(file)
    }

    fn put(&mut self, file: u32, piece: &[u8]) -> Put
        requires { IsTrue (is_writable (told_ledger W.ledger self.old) file) }
        ensures count { PutCount result (length piece.now) }
        ensures ledger { KeepsLedgerWriting
            (told_ledger W.ledger self.old) (told_ledger W.ledger self.new) }
        ensures cause { result ≡ Put.Failed
            → Rose (W.ledger self.old.world).write_faults (W.ledger self.new.world).write_faults }
        ensures noted { self.new.calls ≡ after_put file result piece.now self.old.calls }
        ensures through { (p : Start) → W.honest p self.new.world
            → WritesFile file (put_bytes result piece.now)
            (W.shows p self.old.world) (W.shows p self.new.world) }
    {
        let put = self.inner.put(file, piece);
        if let Put::Took(count) = put {
            self.calls.note(&Call::Wrote(file), &piece[..count]);
        }
        put
    }
}
