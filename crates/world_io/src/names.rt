ghost use Rattle.std.specs.Prelude.{◌≡◌, [], position, OnOk, OnErr};
ghost use Rattle.std.specs.Option.{option_copied};
ghost use Rattle.std.specs.Str.{bytes_eq};
ghost use Rattle.world_io.specs.Names.{bytes_under, SetsName, AppendsToName};

use plain_text::{Bytes, NoMemory, Text};
use std::alloc::Global;
use std::marker::Model;

/// A name and its bytes.
#[derive(Drop)]
pub struct NamedBytes {
    /// The name, which no other of the world is.
    pub name: Text,
    /// The bytes that it has now.
    pub bytes: Bytes,
}

/// The names of a world in memory. They are few, and are looked through from the first.
#[derive(Drop)]
pub struct Names {
    entries: Vec<NamedBytes>,
}

impl Model for Names {
    ghost use Rattle.std.specs.Prelude.{List};
    ghost use Rattle.world_io.specs.declared.names.NamedBytes.{NamedBytes};

    ghost Value = { List NamedBytes };

    ghost view = { λ n. n.entries.items };
}

impl Names {
    /// No names. It takes no memory.
    pub fn new(alloc: Global) -> Names
        ensures { result ≡ [] }
    {
        Names {
            entries: Vec::new(alloc),
        }
    }

    /// The bytes of a name; `None` exactly where the name is not there.
    pub fn bytes(&self, name: &str) -> Option<&[u8]>
        ensures { option_copied result ≡ bytes_under self.now name.now }
    {
        match self.place(name) {
            Some(place) => Some(self.entries[place].bytes.as_slice()),
            None => None,
        }
    }

    /// Sets the bytes of a name.
    pub fn set(&mut self, alloc: Global, name: &Text, bytes: Bytes) -> Result<(), NoMemory>
        ensures ok { OnOk result (SetsName name.now bytes self.old self.new) }
        ensures err { OnErr result (self.new ≡ self.old) }
    {
        match self.place(name.as_str()) {
            Some(place) => self.entries[place].bytes = bytes,
            None => {
                let name = Text::of(alloc, name.as_str())?;
                self.entries.push(NamedBytes { name, bytes })?;
            }
        }
        Ok(())
    }

    /// Appends to the bytes of a name, where it is there.
    pub fn append(&mut self, name: &str, bytes: &[u8]) -> Result<(), NoMemory>
        ensures ok { OnOk result (AppendsToName name.now bytes.now self.old self.new) }
        ensures err { OnErr result (self.new ≡ self.old) }
    {
        match self.place(name) {
            Some(place) => self.entries[place].bytes.extend(bytes),
            None => Ok(()),
        }
    }

    /// Where a name stands.
    fn place(&self, name: &str) -> Option<usize>
        ensures { result ≡ position (λ n. bytes_eq n.name name.now) self.now }
    {
        self.entries
            .iter()
            .position(|entry| entry.name.as_str() == name)
    }
}
