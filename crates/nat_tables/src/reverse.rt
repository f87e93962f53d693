ghost use Rattle.std.specs.Prelude.{◌≡◌, [], IfOk, OnOk, OnErr, length};
ghost use Rattle.nat_tables.specs.Keys.{port_key};
ghost use Rattle.nat_tables.specs.Reverses.{endpoint_of, bind, unbind, bound_at};
ghost use Rattle.nat_tables.specs.Rows.{present};
ghost use Rattle.nat_tables.specs.Shown.{all_bound_text};

use crate::first_seen::FirstSeen;
use crate::showing::text_of_bound;
use crate::{BoundPort, Endpoint, PortKey};
use plain_text::{NoMemory, Text};
use std::alloc::Global;
use std::marker::Model;

/// Outside ports that are bound, each to one inside endpoint, in the order in which they were bound. Contracts see the
/// list of the ports with their endpoints.
#[derive(Debug, Drop)]
pub struct Reverse {
    endpoints: FirstSeen<PortKey, Endpoint>,
    alloc: Global,
}

impl Model for Reverse {
    ghost use Rattle.std.specs.Prelude.{List};
    ghost use Rattle.nat_tables.specs.declared.entries.Endpoint.{Endpoint};
    ghost use Rattle.nat_tables.specs.declared.entries.PortKey.{PortKey};
    ghost use Rattle.nat_tables.specs.Rows.{present};

    ghost Value = { List (PortKey × Endpoint) };

    ghost view = { λ t. present t.endpoints };
}

/// Where more than half of the rows are empty, or rows are not indexed, the empty ones go.
fn sweep(alloc: Global, endpoints: &mut FirstSeen<PortKey, Endpoint>) -> Result<(), NoMemory>
    ensures { present endpoints.new ≡ present endpoints.old }
{
    if endpoints.is_indexed() && endpoints.rows() / 2 < endpoints.len() + 32 {
        return Ok(());
    }
    let swept = endpoints.swept(alloc)?;
    *endpoints = swept;
    Ok(())
}

impl Reverse {
    /// No bound ports. It takes no memory.
    pub fn new(alloc: Global) -> Self
        ensures { result ≡ [] }
    {
        Reverse {
            endpoints: FirstSeen::new(alloc),
            alloc,
        }
    }

    /// The endpoint that a port is bound to. None exactly where nothing is bound.
    pub fn find(&self, protocol: u8, port: u16) -> Option<Endpoint>
        ensures { result ≡ endpoint_of (port_key protocol port) self.now }
    {
        match self.endpoints.find(&PortKey { protocol, port }) {
            Some((_, key)) => Some(key),
            None => None,
        }
    }

    /// Binds a port. One that is bound gets the new endpoint in its old place.
    pub fn bind(&mut self, protocol: u8, port: u16, key: &Endpoint) -> Result<(), NoMemory>
        ensures ok { OnOk result (self.new ≡ bind (port_key protocol port) key.now self.old) }
        ensures err { OnErr result (self.new ≡ self.old) }
    {
        let port = PortKey { protocol, port };
        if let Some((at, _)) = self.endpoints.find(&port) {
            self.endpoints.put(at, *key);
            return Ok(());
        }
        sweep(self.alloc, &mut self.endpoints)?;
        self.endpoints.push(port, *key)?;
        Ok(())
    }

    /// Unbinds a port, and closes up. It changes nothing where the port is not bound.
    pub fn unbind(&mut self, protocol: u8, port: u16)
        ensures { self.new ≡ unbind (port_key protocol port) self.old }
    {
        if let Some((at, _)) = self.endpoints.find(&PortKey { protocol, port }) {
            self.endpoints.clear(at);
        }
    }

    /// How many ports are bound.
    pub fn len(&self) -> usize
        ensures { result ≡ length self.now }
    {
        self.endpoints.len()
    }

    /// The bound port at an index, in first-seen order. None exactly where the index is past the last one.
    pub fn entry(&self, index: usize) -> Option<BoundPort>
        ensures { result ≡ bound_at index self.now }
    {
        let (port, key) = self.endpoints.entry(index)?;
        Some(BoundPort {
            protocol: port.protocol,
            port: port.port,
            key,
        })
    }

    /// A table with the same bound ports, in the same order. As with `Forward`, a copy looks at each port until it
    /// gets a new one, and the copy of a copy finds them in no time.
    pub fn copy(&self) -> Result<Self, NoMemory>
        ensures { IfOk result (λ copy. copy ≡ self.now) }
    {
        if self.endpoints.is_indexed() {
            return Ok(Reverse {
                endpoints: self.endpoints.copy(self.alloc)?,
                alloc: self.alloc,
            });
        }
        Ok(Reverse {
            endpoints: self.endpoints.swept(self.alloc)?,
            alloc: self.alloc,
        })
    }

    /// The bound ports in their order, with `; ` between two, or `-` where there is none.
    pub fn text(&self, alloc: Global) -> Result<Text, NoMemory>
        ensures { IfOk result (λ text. text ≡ all_bound_text self.now) }
    {
        let entries = self.endpoints.entries(alloc)?;
        let mut ports = entries.iter();
        let Some((port, key)) = ports.next() else {
            return Text::of(alloc, "-");
        };
        let mut text = String::new(alloc);
        text.push_str(text_of_bound(alloc, port, key)?.as_str())?;
        for (port, key) in ports {
            text.push_str("; ")?;
            text.push_str(text_of_bound(alloc, port, key)?.as_str())?;
        }
        Text::of(alloc, text.as_str())
    }
}
