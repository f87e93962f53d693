ghost use Rattle.std.specs.Prelude.{◌≡◌, [], IfOk, OnErr, length};
ghost use Rattle.nat_tables.specs.Forwards.{find_or_bind, mapping_at, slot_of, refresh, without};
ghost use Rattle.nat_tables.specs.Forwards.{with_phase, first_idle, idle_taken};
ghost use Rattle.nat_tables.specs.Shown.{mappings_text};
ghost use Rattle.balancer_box.specs.Connections.{find_connection, check_connection};

use nat_tables::{Bind, Endpoint, Find, Forward, Mapping, Phase, Slot};
use plain_text::{NoMemory, Text};
use std::alloc::Global;
use std::marker::Model;

/// The connections of clients, in the order in which they were made. They are kept in a table of mappings: a client's
/// endpoint stands there with the number of its backend in place of an outside port. Contracts see the list of the
/// clients with their slots.
#[derive(Debug, Drop)]
pub struct Connections {
    table: Forward,
}

impl Model for Connections {
    ghost use Rattle.std.specs.Prelude.{List};
    ghost use Rattle.nat_tables.specs.declared.entries.Endpoint.{Endpoint};
    ghost use Rattle.nat_tables.specs.declared.slot.Slot.{Slot};

    ghost Value = { List (Endpoint × Slot) };

    ghost view = { λ t. t.table };
}

impl Connections {
    /// No connections. It takes no memory.
    pub fn new(alloc: Global) -> Self
        ensures { result ≡ [] }
    {
        Connections {
            table: Forward::new(alloc),
        }
    }

    /// What a client's packet finds. A live connection is refreshed, and closed where the packet
    /// resets it. One that is idle is removed. Where there is none, the first idle connection of the table is removed,
    /// in first-seen order, if there is one. The answer has the number of the backend in place of a port.
    pub fn find(&mut self, client: &Endpoint, now: u64, resets: bool) -> Find
        ensures { (result, self.new) ≡ find_connection resets client.now now self.old }
    {
        let found = self.table.find(client, now);
        if let Find::Live(_) = found {
            if resets {
                self.table.remove(client);
            }
        }
        found
    }

    /// Connects the client to this backend, unless it has a connection by now: that one, idle or not, is refreshed and
    /// stays. A new connection stands last.
    pub fn find_or_bind(
        &mut self,
        client: &Endpoint,
        backend: u16,
        now: u64,
    ) -> Result<Bind, NoMemory>
        ensures ok { IfOk result (λ bind. (bind, self.new)
            ≡ find_or_bind client.now backend now self.old) }
        ensures err { OnErr result (self.new ≡ self.old) }
    {
        self.table.find_or_bind(client, backend, now)
    }

    /// Whether an answer from this backend finds the client connected to it. It refreshes nothing, and closes the
    /// connection where it resets it.
    pub fn check(&mut self, client: &Endpoint, backend: u16, now: u64, resets: bool) -> bool
        ensures { (result, self.new) ≡ check_connection resets client.now backend now self.old }
    {
        let there = self.table.lives(client, backend, now);
        if there && resets {
            self.table.remove(client);
        }
        there
    }

    /// The connection of a client.
    pub(crate) fn slot_of(&self, client: &Endpoint) -> Option<Slot>
        ensures { result ≡ slot_of client.now self.now }
    {
        self.table.slot_of(client)
    }

    /// Notes a use of a client's connection, if there is one.
    pub(crate) fn refresh(&mut self, client: &Endpoint, now: u64)
        ensures { self.new ≡ refresh client.now now self.old }
    {
        self.table.refresh(client, now);
    }

    /// Puts a client's connection into another phase, if there is one.
    pub(crate) fn set_phase(&mut self, client: &Endpoint, phase: Phase)
        ensures { self.new ≡ with_phase client.now phase self.old }
    {
        self.table.set_phase(client, phase);
    }

    /// Removes a client's connection, if there is one.
    pub(crate) fn remove(&mut self, client: &Endpoint)
        ensures { self.new ≡ without client.now self.old }
    {
        self.table.remove(client);
    }

    /// Removes the first connection that is idle, in first-seen order, if there is one, and answers it.
    pub(crate) fn take_first_idle(&mut self, now: u64) -> Option<(Endpoint, Slot)>
        ensures { (result, self.new) ≡ idle_taken now self.old (first_idle now self.old) }
    {
        self.table.take_first_idle(now)
    }

    /// How many connections there are.
    pub fn len(&self) -> usize
        ensures { result ≡ length self.now }
    {
        self.table.len()
    }

    /// The connection at an index, in first-seen order. None exactly where the index is past the last one.
    pub fn entry(&self, index: usize) -> Option<Mapping>
        ensures { result ≡ mapping_at index self.now }
    {
        self.table.entry(index)
    }

    /// A table with the same connections, in the same order.
    pub fn copy(&self) -> Result<Self, NoMemory>
        ensures { IfOk result (λ copy. copy ≡ self.now) }
    {
        Ok(Connections {
            table: self.table.copy()?,
        })
    }

    /// The connections in their order, with `; ` between two, or `-` where there is none.
    pub fn text(&self, alloc: Global) -> Result<Text, NoMemory>
        ensures { IfOk result (λ text. text ≡ mappings_text self.now) }
    {
        self.table.text(alloc)
    }
}
