ghost use Rattle.std.specs.Prelude.{◌≡◌, ◌≢◌, ◌<◌, ◌-◌, ◌^◌, ℕ, length, IsTrue, IfOk, OnErr};
ghost use Rattle.std.specs.Prelude.{IsErrOf, true};
ghost use Rattle.std.specs.Io.KnownBytes.{Appends, Consumes, IsAtEnd};
ghost use Rattle.world_io.specs.Calls.{counted};
ghost use Rattle.world_io.specs.Stream.{Rose, FillCount, filled_bytes, PutCount, put_bytes};
ghost use Rattle.world_io.specs.World.{KeepsLedgerReading, KeepsLedgerWriting, GivesOpened};
ghost use Rattle.world_io.specs.World.{GivesCreated, FilledNothing, is_writable};
ghost use Rattle.world_real.specs.Real.{IsUnused, file_at, held_at, left_at, real_ledger};

use crate::notice::Notice;
use crate::pieces::{count_report, read_some, write_some};
use crate::real_file::RealFile;
use plain_text::Text;
use std::alloc::Global;
use std::fs::{self, OpenOptions};
use std::io::{self, Write};
use std::marker::Model;
use std::rt::Files;
use world_io::{Filled, OpenFault, Put, World};

/// The name of standard output.
const STDOUT: &str = "/dev/stdout";

/// The files of the system, by their paths, and standard output as the report, or standard error, where the notice
/// prints it there. A piece of the report whose pipe is closed counts as taken, though nothing of it was written
/// (`count_report`): that nobody reads the report is no fault.
///
/// `/dev/stdout` is written after what it has: of a file that standard output appends to nothing is taken away.
///
/// It shows no bytes, by no beginning: contracts see the numbers that it gave, which count from 1
/// and are given once, the names of the opened files, in order, and how often reading and writing
/// failed. It never says that it is healthy: any call may fail.
///
/// A file that was read to its end is closed, and is read no more: it may have grown since, and a
/// terminal gives more after an end.
#[derive(Drop)]
pub struct RealWorld<R: Files + Print + Drop, N: Notice + Drop> {
    alloc: Global,
    rt: R,
    notice: N,
    files: Vec<RealFile<R::File>>,
    opened_names: Vec<Text>,
    read_faults: u64,
    write_faults: u64,
}

impl<R: Files + Print + Drop, N: Notice + Drop> Model for RealWorld<R, N> {
    ghost use Rattle.world_real.specs.Real.{Real};

    ghost Value = { Real R.File };

    ghost view = { λ w. record {
      files = w.files.items;
      opened_names = w.opened_names.items;
      read_faults = w.read_faults;
      write_faults = w.write_faults;
    } };
}

impl<R: Files + Print + Drop, N: Notice + Drop> RealWorld<R, N> {
    /// No number was given, and nothing failed. The notice is told how much is written.
    pub fn new(alloc: Global, rt: R, notice: N) -> Self
        ensures { IsUnused (real_ledger result) }
    {
        RealWorld {
            alloc,
            rt,
            notice,
            files: Vec::new(alloc),
            opened_names: Vec::new(alloc),
            read_faults: 0,
            write_faults: 0,
        }
    }

    /// What is told while a command runs.
    pub fn notice(&self) -> &N {
        &self.notice
    }

    /// Prints a piece of the report, and tells the notice what was taken of it.
    fn report(&mut self, piece: &[u8]) -> Put
        ensures count { PutCount result (length piece.now) }
        ensures memory { result ≢ Put.NoMemory }
        ensures rest { self.new ≡ self.old }
    {
        let put = match self.notice.report(piece) {
            Some(put) => put,
            None => count_report(io::writer(&self.rt).write(piece), piece.len()),
        };
        if let Put::Took(count) = put {
            self.notice.reported(&piece[..count]);
        }
        put
    }

    /// The file of this name, to be written from its first byte; standard output after what it has.
    fn create(&self, name: &str) -> io::Result<R::File> {
        if name == STDOUT {
            return OpenOptions::new().append(true).open(&self.rt, name);
        }
        fs::create(&self.rt, name)
    }

    /// Counts a fault of writing.
    fn write_fault(&mut self) -> Put
        ensures failed { result ≡ Put.Failed }
        ensures counted { self.new
            ≡ record self.old { write_faults = counted self.old.write_faults } }
    {
        self.write_faults = self.write_faults.saturating_add(1);
        Put::Failed
    }

    /// Tells the notice what was written.
    fn took(&mut self, put: Put) -> Put
        ensures same { result ≡ put }
        ensures rest { self.new ≡ self.old }
    {
        if let Put::Took(count) = put {
            self.notice.wrote(count);
        }
        put
    }

    /// Counts a fault of reading.
    fn read_fault(&mut self) -> Filled
        ensures failed { result ≡ Filled.Failed }
        ensures counted { self.new
            ≡ record self.old { read_faults = counted self.old.read_faults } }
    {
        self.read_faults = self.read_faults.saturating_add(1);
        Filled::Failed
    }
}

impl<R: Files + Print + Drop, N: Notice + Drop> World for RealWorld<R, N> {
    ghost use Rattle.world_real.specs.Real.{nothing_shown, real_ledger};

    ghost honest = { λ _ _. ⊥ };

    ghost shows = { λ _ _. nothing_shown };

    ghost ledger = { real_ledger };

    ghost healthy = { λ _. ⊥ };

    fn open_file(&mut self, name: &Text) -> Result<u32, OpenFault>
        requires { (real_ledger self.old).given < 2 ^ 32 - 1 }
        ensures given { IfOk result
            (λ file. GivesOpened name.now file (real_ledger self.old) (real_ledger self.new)) }
        ensures not_given { OnErr result
            (KeepsLedgerReading (real_ledger self.old) (real_ledger self.new)) }
        ensures cause { IsErrOf result OpenFault.Failed
            → Rose self.old.read_faults self.new.read_faults }

        // Beyond any world: the number is the next.
        ensures number { IfOk result (λ file. file ≡ length self.new.files) }
    {
        let copy = Text::of(self.alloc, name.as_str())?;
        if self.files.reserve(1).is_err() || self.opened_names.reserve(1).is_err() {
            return Err(OpenFault::NoMemory);
        }
        let Ok(file) = fs::open(&self.rt, name.as_str()) else {
            self.read_faults = self.read_faults.saturating_add(1);
            return Err(OpenFault::Failed);
        };
        self.files.push(RealFile::Reading(file)).unwrap();
        self.opened_names.push(copy).unwrap();
        Ok(self.files.len() as u32)
    }

    fn fill(&mut self, file: u32, piece: &mut [u8]) -> Filled
        requires { IsTrue ((real_ledger self.old).opened file) }
        ensures count { FillCount result (length piece.old) }
        ensures ledger { KeepsLedgerReading (real_ledger self.old) (real_ledger self.new) }
        ensures cause { result ≡ Filled.Failed → Rose self.old.read_faults self.new.read_faults }
        ensures end_found { result ≡ Filled.End → (real_ledger self.new).ended file ≡ true }
        ensures nothing_more { (real_ledger self.old).ended file ≡ true → FilledNothing result }

        // Beyond any world: what it takes of a file that tells its bytes.
        ensures takes { Consumes (left_at R.File.remaining self.old file)
            (left_at R.File.remaining self.new file) (filled_bytes result piece.new) }
        ensures others { (k : ℕ) → k ≢ file → file_at self.new.files k ≡ file_at self.old.files k }
        ensures at_end { result ≡ Filled.End → IsAtEnd (left_at R.File.remaining self.old file) }
    {
        let place = file as usize - 1;
        let from = match &mut self.files[place] {
            RealFile::Reading(from) => from,
            RealFile::Ended => return Filled::End,
            RealFile::Writing(_) => unreachable!(),
        };
        match read_some(from, piece) {
            Filled::Failed => self.read_fault(),
            Filled::End => {
                self.files[place] = RealFile::Ended;
                Filled::End
            }
            filled => filled,
        }
    }

    fn create_file(&mut self, name: &Text) -> Result<u32, OpenFault>
        requires { (real_ledger self.old).given < 2 ^ 32 - 1 }
        ensures given { IfOk result
            (λ file. GivesCreated file (real_ledger self.old) (real_ledger self.new)) }
        ensures not_given { OnErr result
            (KeepsLedgerWriting (real_ledger self.old) (real_ledger self.new)) }
        ensures cause { IsErrOf result OpenFault.Failed
            → Rose self.old.write_faults self.new.write_faults }

        // Beyond any world: the number is the next.
        ensures number { IfOk result (λ file. file ≡ length self.new.files) }
    {
        if self.files.reserve(1).is_err() {
            return Err(OpenFault::NoMemory);
        }
        let Ok(file) = self.create(name.as_str()) else {
            self.write_faults = self.write_faults.saturating_add(1);
            return Err(OpenFault::Failed);
        };
        self.files.push(RealFile::Writing(file)).unwrap();
        Ok(self.files.len() as u32)
    }

    fn put(&mut self, file: u32, piece: &[u8]) -> Put
        requires { IsTrue (is_writable (real_ledger self.old) file) }
        ensures count { PutCount result (length piece.now) }
        ensures ledger { KeepsLedgerWriting (real_ledger self.old) (real_ledger self.new) }
        ensures cause { result ≡ Put.Failed → Rose self.old.write_faults self.new.write_faults }

        // Beyond any world: what it appends to a file that tells its bytes. It asks for no memory.
        ensures appends { Appends (held_at R.File.contents self.old file)
            (held_at R.File.contents self.new file) (put_bytes result piece.now) }
        ensures others { (k : ℕ) → k ≢ file → file_at self.new.files k ≡ file_at self.old.files k }
        ensures memory { result ≢ Put.NoMemory }
    {
        if file == 0 {
            return match self.report(piece) {
                Put::Failed => self.write_fault(),
                put => self.took(put),
            };
        }
        let RealFile::Writing(to) = &mut self.files[file as usize - 1] else {
            unreachable!()
        };
        match write_some(to, piece) {
            Put::Failed => self.write_fault(),
            put => self.took(put),
        }
    }
}
