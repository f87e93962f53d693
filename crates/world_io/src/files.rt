ghost use Rattle.std.specs.Prelude.{◌≡◌, ◌≢◌, ◌++◌, ◌∷◌, [], length, take, IsTrue, OnOk, OnErr};
ghost use Rattle.world_io.specs.declared.memory_file.MemoryFile.TheVariants.{Opened, Created};
ghost use Rattle.world_io.specs.Stream.{FillCount, filled_bytes, EndsAtEnd};
ghost use Rattle.world_io.specs.Files.{file_of, is_opened, is_created, left_in, TakesFromFile};
ghost use Rattle.world_io.specs.Files.{SendsToFile, CutsFile};

use crate::Filled;
use crate::memory_file::{CreatedFile, MemoryFile, OpenedFile};
use plain_text::{Bytes, NoMemory, Text};
use std::alloc::Global;
use std::marker::Model;

/// The files that a world in memory opened and created, in the order of their numbers, which count
/// from 1.
#[derive(Drop)]
pub struct Files {
    files: Vec<MemoryFile>,
}

impl Model for Files {
    ghost use Rattle.std.specs.Prelude.{List};
    ghost use Rattle.world_io.specs.declared.memory_file.MemoryFile.{MemoryFile};

    ghost Value = { List MemoryFile };

    ghost view = { λ f. f.files.items };
}

impl Files {
    /// No files. It takes no memory.
    pub fn new(alloc: Global) -> Files
        ensures { result ≡ [] }
    {
        Files {
            files: Vec::new(alloc),
        }
    }

    /// How many files were opened and created, which is the number of the last one.
    pub fn len(&self) -> usize
        ensures { result ≡ length self.now }
    {
        self.files.len()
    }

    /// Adds a file to be read from the first of these bytes.
    pub fn open(&mut self, bytes: Bytes) -> Result<(), NoMemory>
        ensures ok { OnOk result (self.new ≡ self.old ++ Opened bytes ∷ []) }
        ensures err { OnErr result (self.new ≡ self.old) }
    {
        self.files.push(MemoryFile::Opened(OpenedFile::of(bytes)))?;
        Ok(())
    }

    /// Adds a file to be written, under this name.
    pub fn create(&mut self, name: Text, sent: Bytes) -> Result<(), NoMemory>
        ensures ok { OnOk result
            (self.new ≡ self.old ++ Created (record { name = name; sent = sent }) ∷ []) }
        ensures err { OnErr result (self.new ≡ self.old) }
    {
        self.files
            .push(MemoryFile::Created(CreatedFile { name, sent }))?;
        Ok(())
    }

    /// Keeps this number of the first files, and drops the others.
    pub fn truncate(&mut self, count: usize)
        ensures { self.new ≡ take count self.old }
    {
        self.files.truncate(count);
    }

    /// Takes the next bytes of an opened file into the piece, from its first byte on. It never
    /// fails.
    pub fn fill(&mut self, number: u32, piece: &mut [u8]) -> Filled
        requires { IsTrue (is_opened (file_of self.old number)) }
        ensures count { FillCount result (length piece.old) }
        ensures takes { TakesFromFile number (filled_bytes result piece.new) self.old self.new }
        ensures end { EndsAtEnd result (left_in (file_of self.old number)) }
        ensures never_fails { result ≢ Filled.Failed }
    {
        match &mut self.files[number as usize - 1] {
            MemoryFile::Opened(opened) => opened.fill(piece),
            MemoryFile::Created(_) => unreachable!(),
        }
    }

    /// The created file of this number.
    pub fn created(&self, number: u32) -> &CreatedFile
        requires { IsTrue (is_created (file_of self.now number)) }
        ensures { file_of self.now number ≡ Some (Created result.now) }
    {
        match &self.files[number as usize - 1] {
            MemoryFile::Created(created) => created,
            MemoryFile::Opened(_) => unreachable!(),
        }
    }

    /// Sends these bytes to a created file.
    pub fn send(&mut self, number: u32, bytes: &[u8]) -> Result<(), NoMemory>
        requires { IsTrue (is_created (file_of self.old number)) }
        ensures ok { OnOk result (SendsToFile number bytes.now self.old self.new) }
        ensures err { OnErr result (self.new ≡ self.old) }
    {
        match &mut self.files[number as usize - 1] {
            MemoryFile::Created(created) => created.sent.extend(bytes),
            MemoryFile::Opened(_) => unreachable!(),
        }
    }

    /// Keeps this number of the first bytes that a created file was sent.
    pub fn cut(&mut self, number: u32, count: usize)
        requires { IsTrue (is_created (file_of self.old number)) }
        ensures { CutsFile number count self.old self.new }
    {
        match &mut self.files[number as usize - 1] {
            MemoryFile::Created(created) => created.sent.truncate(count),
            MemoryFile::Opened(_) => unreachable!(),
        }
    }
}
