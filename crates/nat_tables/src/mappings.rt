ghost use Rattle.std.specs.Prelude.{◌≡◌, [], IfOk, OnOk, OnErr};
ghost use Rattle.nat_tables.specs.Forwards.{Forwards, slot_of, lives, find, find_or_bind};
ghost use Rattle.nat_tables.specs.Forwards.{first_idle, idle_removed, without, mark, keep};
ghost use Rattle.nat_tables.specs.Hosts.{count_of, is_full, first_idle_of, given_up};
ghost use Rattle.nat_tables.specs.Hosts.{find_within, bind_within};
ghost use Rattle.nat_tables.specs.HostCounts.{AreCounts, HasOneMore};
ghost use Rattle.nat_tables.specs.Shown.{mappings_text};

use crate::host_counts::{Host, HostCounts};
use crate::{Bind, Endpoint, Find, Forward, Freed, Segment, Slot};
use plain_text::{NoMemory, Text};
use std::alloc::Global;
use std::marker::Model;

/// A forward table that may limit the mappings of a host, which are those of an inside address and a protocol (RFC
/// 6888, REQ-4). Contracts see the list of the endpoints with their slots.
#[derive(Debug, Drop)]
pub struct Mappings {
    table: Forward,
    /// How many mappings each host has, so that a limit is looked up in no time. Where none are kept, rows are counted.
    counts: Option<HostCounts>,
}

impl Model for Mappings {
    ghost use Rattle.std.specs.Prelude.{List};
    ghost use Rattle.nat_tables.specs.declared.entries.Endpoint.{Endpoint};
    ghost use Rattle.nat_tables.specs.declared.slot.Slot.{Slot};
    ghost use Rattle.nat_tables.specs.HostCounts.{AreCounts};

    ghost Value = { List (Endpoint × Slot) };

    ghost view = { λ m. m.table };

    ghost invariant = { λ m. AreCounts m.counts m.table };
}

/// Counts one mapping more of the endpoint's host, where counts are kept.
fn raise(counts: &mut Option<HostCounts>, key: &Endpoint) -> Result<(), NoMemory>
    ensures ok { OnOk result ((few many : Forwards) → HasOneMore key.now few many
        → AreCounts counts.old few → AreCounts counts.new many) }
    ensures err { OnErr result (counts.new ≡ counts.old) }
{
    match counts {
        Some(counts) => counts.raise(Host::of(key)),
        None => Ok(()),
    }
}

/// Counts one mapping less of the endpoint's host, where counts are kept.
fn lower(counts: &mut Option<HostCounts>, key: &Endpoint)
    ensures { (few many : Forwards) → HasOneMore key.now few many
        → AreCounts counts.old many → AreCounts counts.new few }
{
    if let Some(counts) = counts {
        counts.lower(Host::of(key));
    }
}

/// The same counts, where they are kept.
fn copied(counts: &Option<HostCounts>) -> Result<Option<HostCounts>, NoMemory>
    ensures { IfOk result (λ copy. copy ≡ counts.now) }
{
    match counts {
        Some(counts) => Ok(Some(counts.copy()?)),
        None => Ok(None),
    }
}

impl Mappings {
    /// No mappings. It takes no memory. Where it counts, a limit is looked up in a time that does not grow with the
    /// table.
    pub fn new(alloc: Global, counting: bool) -> Self
        ensures { result ≡ [] }
    {
        Mappings {
            table: Forward::new(alloc),
            counts: if counting {
                Some(HostCounts::new(alloc))
            } else {
                None
            },
        }
    }

    /// What the endpoint is mapped to.
    pub fn slot_of(&self, key: &Endpoint) -> Option<Slot>
        ensures { result ≡ slot_of key.now self.now }
    {
        self.table.slot_of(key)
    }

    /// Whether the endpoint is mapped to this outside port, and the mapping is live. It refreshes nothing.
    pub fn lives(&self, key: &Endpoint, port: u16, now: u64) -> bool
        ensures { result ≡ lives key.now port now self.now }
    {
        self.table.lives(key, port, now)
    }

    /// How many mappings the endpoint's host has, idle ones included.
    fn count_of(&self, key: &Endpoint) -> usize
        ensures { result ≡ count_of key.now.protocol key.now.address self.now }
    {
        match &self.counts {
            Some(counts) => counts.count(Host::of(key)),
            None => self.table.count_of(key),
        }
    }

    /// Whether the endpoint's host has as many mappings as this, or more.
    pub fn is_full(&self, most: u32, key: &Endpoint) -> bool
        ensures { result ≡ is_full most key.now self.now }
    {
        self.count_of(key) >= most as usize
    }

    /// Removes an endpoint's mapping, and closes up. It changes nothing where there is none.
    fn remove(&mut self, key: &Endpoint)
        ensures { self.new ≡ without key.now self.old }
    {
        if let Some(_known) = self.table.slot_of(key) {
            self.table.remove(key);
            lower(&mut self.counts, key);
        }
    }

    /// Removes the first mapping that is idle, if there is one, and answers its outside port.
    fn remove_first_idle(&mut self, now: u64) -> Option<Freed>
        ensures { (result, self.new) ≡ idle_removed now self.old (first_idle now self.old) }
    {
        let (key, slot) = self.table.take_first_idle(now)?;
        lower(&mut self.counts, &key);
        Some(Freed {
            protocol: key.protocol,
            port: slot.port,
        })
    }

    /// What an outbound packet finds of its source: as `Forward` has it.
    pub fn find(&mut self, key: &Endpoint, now: u64) -> Find
        ensures { (result, self.new) ≡ find key.now now self.old }
    {
        let Some(slot) = self.table.slot_of(key) else {
            return Find::Absent(self.remove_first_idle(now));
        };
        if slot.is_idle(key, now) {
            self.remove(key);
            return Find::Absent(Some(Freed {
                protocol: key.protocol,
                port: slot.port,
            }));
        }
        self.table.refresh(key, now);
        Find::Live(slot.port)
    }

    /// What is found of a source that has no mapping and whose host has as many as it may have: the first of the host's
    /// that is idle is removed, in first-seen order, if there is one. Where there is none, no mapping is removed,
    /// whoever has it.
    fn find_of_full(&mut self, key: &Endpoint, now: u64) -> Find
        ensures { (result, self.new)
            ≡ given_up self.old (first_idle_of key.now now self.old) }
    {
        let Some((own, slot)) = self.table.first_idle_of(key, now) else {
            return Find::Absent(None);
        };
        self.remove(&own);
        Find::Absent(Some(Freed {
            protocol: own.protocol,
            port: slot.port,
        }))
    }

    /// What an outbound packet finds of its source, where a host may have so many mappings. A host that has them gives
    /// up one of its own that is idle for a new one; where it has none that is idle, nothing is changed.
    pub fn find_within(&mut self, most: u32, key: &Endpoint, now: u64) -> Find
        ensures { (result, self.new) ≡ find_within most key.now now self.old }
    {
        if self.slot_of(key).is_none() && self.is_full(most, key) {
            return self.find_of_full(key, now);
        }
        self.find(key, now)
    }

    /// Maps the endpoint to this outside port, unless it has a mapping by now: that one, idle or not, is refreshed and
    /// stays. A new mapping stands last.
    pub fn find_or_bind(&mut self, key: &Endpoint, port: u16, now: u64) -> Result<Bind, NoMemory>
        ensures ok { IfOk result (λ bind. (bind, self.new)
            ≡ find_or_bind key.now port now self.old) }
        ensures err { OnErr result (self.new ≡ self.old) }
    {
        if let Some(slot) = self.table.slot_of(key) {
            self.table.refresh(key, now);
            return Ok(Bind::Other(slot.port));
        }
        raise(&mut self.counts, key)?;
        match self.table.find_or_bind(key, port, now) {
            Ok(bind) => Ok(bind),
            Err(none) => {
                lower(&mut self.counts, key);
                Err(none)
            }
        }
    }

    /// As `find_or_bind`, where a host may have so many mappings: none, and nothing changed, exactly where the endpoint
    /// has no mapping and its host has as many as that.
    pub fn bind_within(
        &mut self,
        most: u32,
        key: &Endpoint,
        port: u16,
        now: u64,
    ) -> Result<Option<Bind>, NoMemory>
        ensures ok { IfOk result (λ bind. (bind, self.new)
            ≡ bind_within most key.now port now self.old) }
        ensures err { OnErr result (self.new ≡ self.old) }
    {
        if self.slot_of(key).is_none() && self.is_full(most, key) {
            return Ok(None);
        }
        Ok(Some(self.find_or_bind(key, port, now)?))
    }

    /// Notes a segment from an endpoint in its mapping, if there is one. A connection that is not established is kept
    /// for so many seconds.
    pub fn mark(&mut self, key: &Endpoint, seconds: u32, segment: Segment)
        ensures { self.new ≡ mark key.now seconds segment self.old }
    {
        self.table.mark(key, seconds, segment);
    }

    /// Maps the endpoint to this outside port for good, unless it has a mapping; a limit does not hold it back.
    pub fn keep(&mut self, key: &Endpoint, port: u16) -> Result<(), NoMemory>
        ensures ok { OnOk result (self.new ≡ keep key.now port self.old) }
        ensures err { OnErr result (self.new ≡ self.old) }
    {
        if let Some(_kept) = self.table.slot_of(key) {
            return Ok(());
        }
        raise(&mut self.counts, key)?;
        match self.table.keep(key, port) {
            Ok(()) => Ok(()),
            Err(none) => {
                lower(&mut self.counts, key);
                Err(none)
            }
        }
    }

    /// A table with the same mappings, in the same order.
    pub fn copy(&self) -> Result<Self, NoMemory>
        ensures { IfOk result (λ copy. copy ≡ self.now) }
    {
        Ok(Mappings {
            table: self.table.copy()?,
            counts: copied(&self.counts)?,
        })
    }

    /// The mappings in their order, with `; ` between two, or `-` where there is none.
    pub fn text(&self, alloc: Global) -> Result<Text, NoMemory>
        ensures { IfOk result (λ text. text ≡ mappings_text self.now) }
    {
        self.table.text(alloc)
    }
}
