ghost use Rattle.std.specs.Prelude.{◌≡◌, ◌<◌, ◌-◌, ◌^◌, length, IsTrue, ⊤, IfOk, OnOk, OnErr};
ghost use Rattle.std.specs.Option.{option_copied};
ghost use Rattle.world_io.specs.Stream.{FillCount, PutCount, put_bytes};
ghost use Rattle.world_io.specs.World.{Start, KeepsLedgerWriting, OpensFile, WritesFile};
ghost use Rattle.world_io.specs.World.{is_writable};
ghost use Rattle.world_io.specs.Names.{bytes_under, SetsName};
ghost use Rattle.world_io.specs.Calls.{with_failing};
ghost use Rattle.world_io.specs.Files.{file_of, is_opened, is_created};
ghost use Rattle.world_io.specs.Memory.{empty_memory, IsHealthy, shown_of, ledger_of, Opens, Fills};
ghost use Rattle.world_io.specs.Memory.{Creates, Sends, Puts};

use crate::calls::Calls;
use crate::files::Files;
use crate::names::Names;
use crate::{Filled, OpenFault, Put, World};
use plain_text::{Bytes, NoMemory, Text};
use std::alloc::Global;
use std::marker::Model;

/// A world in memory, for tests: names with their bytes, the report, and calls that fail where they
/// are told to.
///
/// Calls of `open_file` and `fill` are numbered together from 1, and so are those of `create_file`
/// and `put`, over the world's life and whatever they answered. Numbers go up to 2^64 - 1, and
/// every later call has this last number too. Opening a name that is not there fails. A file that
/// was opened goes on with the bytes that its name had then. The world is healthy where none of the
/// calls still to come is told to fail.
#[derive(Drop)]
pub struct MemoryWorld {
    alloc: Global,
    names: Names,
    files: Files,
    opened_names: Vec<Text>,
    report: Bytes,
    reading: Calls,
    writing: Calls,
}

impl Model for MemoryWorld {
    ghost use Rattle.world_io.specs.Memory.{Memory};

    ghost Value = { Memory };

    ghost view = { λ w. record {
      names = w.names;
      files = w.files;
      opened_names = w.opened_names.items;
      report = w.report;
      reading = w.reading;
      writing = w.writing;
    } };
}

impl MemoryWorld {
    /// No names, an empty report, no calls and no faults.
    pub fn new(alloc: Global) -> Result<MemoryWorld, NoMemory>
        ensures empty { IfOk result (λ world. world ≡ empty_memory) }
        ensures healthy { IfOk result IsHealthy }
    {
        Ok(MemoryWorld {
            alloc,
            names: Names::new(alloc),
            files: Files::new(alloc),
            opened_names: Vec::new(alloc),
            report: Bytes::new(alloc),
            reading: Calls::new(alloc),
            writing: Calls::new(alloc),
        })
    }

    /// Sets the bytes of a name.
    pub fn add(&mut self, name: &Text, bytes: Bytes) -> Result<(), NoMemory>
        ensures ok { OnOk result (SetsName name.now bytes self.old.names self.new.names) }
        ensures others { self.new ≡ record self.old { names = self.new.names } }
        ensures stays_healthy { IsHealthy self.old → IsHealthy self.new }
        ensures err { OnErr result (self.new ≡ self.old) }
    {
        self.names.set(self.alloc, name, bytes)
    }

    /// Makes the nth call of `open_file` or `fill` fail.
    pub fn fail_read(&mut self, nth: u64) -> Result<(), NoMemory>
        ensures ok { OnOk result
            (self.new ≡ record self.old { reading = with_failing nth self.old.reading }) }
        ensures err { OnErr result (self.new ≡ self.old) }
    {
        self.reading.fail(nth)
    }

    /// Makes the nth call of `create_file` or `put` fail.
    pub fn fail_write(&mut self, nth: u64) -> Result<(), NoMemory>
        ensures ok { OnOk result
            (self.new ≡ record self.old { writing = with_failing nth self.old.writing }) }
        ensures err { OnErr result (self.new ≡ self.old) }
    {
        self.writing.fail(nth)
    }

    /// The bytes of a name, or none exactly where the name is not there.
    pub fn bytes(&self, name: &Text) -> Option<&[u8]>
        ensures { option_copied result ≡ bytes_under self.now.names name.now }
    {
        self.names.bytes(name.as_str())
    }

    /// The bytes that were put to the report, in order.
    pub fn report(&self) -> &[u8]
        ensures { result.now ≡ self.now.report }
    {
        self.report.as_slice()
    }

    fn open(&mut self, name: &Text) -> Result<u32, OpenFault>
        requires { length self.old.files < 2 ^ 32 - 1 }
        ensures { Opens self.old name.now result self.new }
    {
        if self.reading.next_fails() {
            return Err(OpenFault::Failed);
        }
        let Some(bytes) = self.names.bytes(name.as_str()) else {
            self.reading.fault();
            return Err(OpenFault::Failed);
        };
        let bytes = Bytes::of(self.alloc, bytes)?;
        let copy = Text::of(self.alloc, name.as_str())?;
        if self.opened_names.reserve(1).is_err() {
            return Err(OpenFault::NoMemory);
        }
        self.files.open(bytes)?;
        self.opened_names.push(copy).unwrap();
        Ok(self.files.len() as u32)
    }

    fn take(&mut self, file: u32, piece: &mut [u8]) -> Filled
        requires { IsTrue (is_opened (file_of self.old.files file)) }
        ensures count { FillCount result (length piece.old) }
        ensures fills { Fills self.old file result piece.new self.new }
    {
        if self.reading.next_fails() {
            return Filled::Failed;
        }
        self.files.fill(file, piece)
    }

    fn create(&mut self, name: &Text) -> Result<u32, OpenFault>
        requires { length self.old.files < 2 ^ 32 - 1 }
        ensures { Creates self.old name.now result self.new }
    {
        if self.writing.next_fails() {
            return Err(OpenFault::Failed);
        }
        let count = self.files.len();
        let copy = Text::of(self.alloc, name.as_str())?;
        self.files.create(copy, Bytes::new(self.alloc))?;
        if self
            .names
            .set(self.alloc, name, Bytes::new(self.alloc))
            .is_err()
        {
            self.files.truncate(count);
            return Err(OpenFault::NoMemory);
        }
        Ok(self.files.len() as u32)
    }

    fn append(&mut self, file: u32, piece: &[u8]) -> Put
        requires { IsTrue (is_writable (ledger_of self.old) file) }
        ensures { Puts self.old file result piece.now self.new }
    {
        if self.writing.next_fails() {
            return Put::Failed;
        }
        if file == 0 {
            return match self.report.extend(piece) {
                Ok(()) => Put::Took(piece.len()),
                Err(NoMemory) => Put::NoMemory,
            };
        }
        match self.send(file, piece) {
            Ok(()) => Put::Took(piece.len()),
            Err(NoMemory) => Put::NoMemory,
        }
    }

    /// Appends to a created file, and to the bytes of its name.
    fn send(&mut self, file: u32, piece: &[u8]) -> Result<(), NoMemory>
        requires { IsTrue (is_created (file_of self.old.files file)) }
        ensures ok { OnOk result (Sends file piece.now self.old self.new) }
        ensures err { OnErr result (self.new ≡ self.old) }
    {
        let sent = self.files.created(file).sent.len();
        self.files.send(file, piece)?;
        let name = self.files.created(file).name.as_str();
        if self.names.append(name, piece).is_err() {
            self.files.cut(file, sent);
            return Err(NoMemory);
        }
        Ok(())
    }
}

impl World for MemoryWorld {
    ghost use Rattle.std.specs.Prelude.{⊤};
    ghost use Rattle.world_io.specs.Memory.{IsHealthy, shown_of, ledger_of};

    // It shows its own bytes, whatever the beginning.
    ghost honest = { λ _ _. ⊤ };

    ghost shows = { λ _ w. shown_of w };

    ghost ledger = { ledger_of };

    ghost healthy = { IsHealthy };

    // Each call says when it fails, and what it does to the plain data. What any world promises
    // follows from that; it stands here only where the check does not find it by itself.

    fn open_file(&mut self, name: &Text) -> Result<u32, OpenFault>
        requires { (ledger_of self.old).given < 2 ^ 32 - 1 }
        ensures shows { (p : Start) → ⊤ → IfOk result
            (λ file. OpensFile name.now file (shown_of self.old) (shown_of self.new)) }
        ensures stays_healthy { IsHealthy self.old → IsHealthy self.new }
        ensures opens { Opens self.old name.now result self.new }
    {
        self.open(name)
    }

    fn fill(&mut self, file: u32, piece: &mut [u8]) -> Filled
        requires { IsTrue ((ledger_of self.old).opened file) }
        ensures count { FillCount result (length piece.old) }
        ensures fills { Fills self.old file result piece.new self.new }
    {
        self.take(file, piece)
    }

    fn create_file(&mut self, name: &Text) -> Result<u32, OpenFault>
        requires { (ledger_of self.old).given < 2 ^ 32 - 1 }
        ensures creates { Creates self.old name.now result self.new }
    {
        self.create(name)
    }

    fn put(&mut self, file: u32, piece: &[u8]) -> Put
        requires { IsTrue (is_writable (ledger_of self.old) file) }
        ensures count { PutCount result (length piece.now) }
        ensures shows { (p : Start) → ⊤
            → WritesFile file (put_bytes result piece.now) (shown_of self.old) (shown_of self.new) }
        ensures ledger { KeepsLedgerWriting (ledger_of self.old) (ledger_of self.new) }
        ensures puts { Puts self.old file result piece.now self.new }
    {
        self.append(file, piece)
    }
}
