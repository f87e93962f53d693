ghost use Rattle.std.specs.Prelude.{◌≡◌, [], ◌∷◌, ◌++◌, Some, None, IfOk, OnOk, OnErr, MatchOption};
ghost use Rattle.std.specs.Prelude.{ℕ, ◌+◌, ◌^◌, ◌<◌, ◌≤◌, false, length};
ghost use Rattle.nat_tables.specs.Forwards.{slot_of, find, idle_removed, find_or_bind, refresh};
ghost use Rattle.nat_tables.specs.Forwards.{without, lives, mapping_at, first_idle, mark, keep};
ghost use Rattle.nat_tables.specs.Forwards.{with_phase, idle_taken};
ghost use Rattle.nat_tables.specs.Hosts.{count_of, first_idle_of};
ghost use Rattle.nat_tables.specs.HostCounts.{row_is_of_host};
ghost use Rattle.nat_tables.specs.Rows.{present, row_at};
ghost use Rattle.nat_tables.specs.Idling.{AreLiveUntil, IsFirstIdle, NoneIsIdle, row_is_idle};
ghost use Rattle.nat_tables.specs.Idling.{IsLiveUntil};
ghost use Rattle.nat_tables.specs.Shown.{mappings_text};

use crate::first_seen::FirstSeen;
use crate::showing::text_of_mapping;
use crate::times::Times;
use crate::{Bind, Endpoint, Find, Freed, Mapping, Phase, Segment, Slot};
use plain_text::{NoMemory, Text};
use std::alloc::Global;
use std::marker::Model;

/// Mappings of inside endpoints, in the order in which they were made. Contracts see the list of the endpoints with
/// their slots.
#[derive(Debug, Drop)]
pub struct Forward {
    slots: FirstSeen<Endpoint, Slot>,
    /// For each row a time up to which its mapping is live, or no times: then each row is looked at. A use makes it
    /// later, which is noted only when an idle mapping is looked for. A segment may make it earlier, which is noted at
    /// once.
    live_until: Times,
    alloc: Global,
}

impl Model for Forward {
    ghost use Rattle.std.specs.Prelude.{List};
    ghost use Rattle.nat_tables.specs.declared.entries.Endpoint.{Endpoint};
    ghost use Rattle.nat_tables.specs.declared.slot.Slot.{Slot};
    ghost use Rattle.nat_tables.specs.Rows.{present};
    ghost use Rattle.nat_tables.specs.Idling.{AreLiveUntil};

    ghost Value = { List (Endpoint × Slot) };

    ghost view = { λ t. present t.slots };

    ghost invariant = { λ t. AreLiveUntil t.live_until t.slots };
}

/// Whether the mapping of a row is idle; an empty row has none.
fn is_idle(row: Option<(Endpoint, Slot)>, now: u64) -> bool
    ensures { result ≡ row_is_idle now row }
{
    match row {
        Some((key, slot)) => slot.is_idle(&key, now),
        None => false,
    }
}

/// Whether the mapping of a row is of this endpoint's host; an empty row has none.
fn is_of_host(key: &Endpoint, row: Option<(Endpoint, Slot)>) -> bool
    ensures { result ≡ row_is_of_host key.now row }
{
    match row {
        Some((own, _)) => own.protocol == key.protocol && own.address == key.address,
        None => false,
    }
}

/// The last time at which the mapping of a row is live; of an empty row the last one that there is.
fn live_until(row: Option<(Endpoint, Slot)>) -> u64
    ensures live { IsLiveUntil result row }
    ensures last { (now : ℕ) → now < 2 ^ 64 → row_is_idle now row ≡ false → now ≤ result }
{
    match row {
        Some((key, slot)) => slot.live_until(&key),
        None => u64::MAX,
    }
}

/// As `first_idle`, by looking at each row.
fn scan(slots: &FirstSeen<Endpoint, Slot>, start: usize, now: u64) -> Option<usize>
    ensures { MatchOption result (NoneIsIdle start now slots.now)
        (λ at. IsFirstIdle start now slots.now at) }
{
    for at in start..slots.rows() {
        if is_idle(slots.row(at), now) {
            return Some(at);
        }
    }
    None
}

/// The row of the first mapping that is idle, of those in this row and the later ones. What was noted of the rows
/// before it, and is too early, is corrected.
fn first_idle(
    slots: &FirstSeen<Endpoint, Slot>,
    live: &mut Times,
    start: usize,
    now: u64,
) -> Option<usize>
    requires { AreLiveUntil live.old slots.now }
    ensures live { AreLiveUntil live.new slots.now }
    ensures first { MatchOption result (NoneIsIdle start now slots.now)
        (λ at. IsFirstIdle start now slots.now at) }
{
    while let Some(at) = live.first_before(start, now) {
        let row = slots.row(at);
        if is_idle(row, now) {
            return Some(at);
        }
        live.set(at, live_until(row));
    }
    scan(slots, live.len().max(start), now)
}

/// The first mapping of the endpoint's host that is idle. It looks at rows with an idle mapping alone.
fn first_idle_of(
    slots: &FirstSeen<Endpoint, Slot>,
    live: &mut Times,
    key: &Endpoint,
    now: u64,
) -> Option<(Endpoint, Slot)>
    requires { AreLiveUntil live.old slots.now }
    ensures live { AreLiveUntil live.new slots.now }
    ensures first { result ≡ first_idle_of key.now now (present slots.now) }
{
    let rows = slots.rows();
    let mut start = 0;
    while start < rows {
        let Some(at) = first_idle(slots, live, start, now) else {
            return None;
        };
        let row = slots.row(at);
        if is_of_host(key, row) {
            return row;
        }
        start = at + 1;
    }
    None
}

/// The times of these rows, and of so many in all.
fn times_of(
    alloc: Global,
    slots: &FirstSeen<Endpoint, Slot>,
    count: usize,
) -> Result<Times, NoMemory>
    requires { length slots.now ≤ count }
    ensures live { IfOk result (λ times. AreLiveUntil times slots.now) }
    ensures count { IfOk result (λ times. length times ≡ count) }
{
    let mut times = Times::all_never(alloc, count)?;
    for at in 0..slots.rows() {
        times.set(at, live_until(slots.row(at)));
    }
    Ok(times)
}

/// Room for one more row: where there is none, or rows are not indexed, the empty rows go, and there is room for as
/// many again.
fn make_room(
    alloc: Global,
    slots: &mut FirstSeen<Endpoint, Slot>,
    live: &mut Times,
) -> Result<(), NoMemory>
    requires { AreLiveUntil live.old slots.old }
    ensures live { AreLiveUntil live.new slots.new }
    ensures same { present slots.new ≡ present slots.old }
    ensures room { OnOk result (length slots.new < length live.new) }
{
    if slots.is_indexed() && slots.rows() < live.len() {
        return Ok(());
    }
    let swept = slots.swept(alloc)?;
    let times = times_of(
        alloc,
        &swept,
        swept.rows().saturating_mul(2).saturating_add(64),
    )?;
    *slots = swept;
    *live = times;
    Ok(())
}

impl Forward {
    /// No mappings. It takes no memory.
    pub fn new(alloc: Global) -> Self
        ensures { result ≡ [] }
    {
        Forward {
            slots: FirstSeen::new(alloc),
            live_until: Times::new(alloc),
            alloc,
        }
    }

    /// What the endpoint is mapped to.
    pub fn slot_of(&self, key: &Endpoint) -> Option<Slot>
        ensures { result ≡ slot_of key.now self.now }
    {
        match self.slots.find(key) {
            Some((_, slot)) => Some(slot),
            None => None,
        }
    }

    /// Removes an endpoint's mapping, and closes up. It changes nothing where there is none.
    pub fn remove(&mut self, key: &Endpoint)
        ensures { self.new ≡ without key.now self.old }
    {
        if let Some((at, _)) = self.slots.find(key) {
            self.slots.clear(at);
        }
    }

    /// Notes a use of an endpoint's mapping, which keeps its place.
    pub fn refresh(&mut self, key: &Endpoint, now: u64)
        ensures { self.new ≡ refresh key.now now self.old }
    {
        if let Some((at, slot)) = self.slots.find(key) {
            self.slots.put(at, slot.refreshed(now));
        }
    }

    /// Notes a segment from an endpoint in its mapping, if there is one. A connection that is not established is kept
    /// for so many seconds.
    pub fn mark(&mut self, key: &Endpoint, seconds: u32, segment: Segment)
        ensures { self.new ≡ mark key.now seconds segment self.old }
    {
        if let Some((at, slot)) = self.slots.find(key) {
            let marked = slot.marked(seconds, segment);
            self.slots.put(at, marked);
            self.live_until.note(at, marked.live_until(key));
        }
    }

    /// Puts an endpoint's mapping into another phase, if there is one.
    pub fn set_phase(&mut self, key: &Endpoint, phase: Phase)
        ensures { self.new ≡ with_phase key.now phase self.old }
    {
        if let Some((at, slot)) = self.slots.find(key) {
            let later = slot.in_phase(phase);
            self.slots.put(at, later);
            self.live_until.note(at, later.live_until(key));
        }
    }

    /// Maps an endpoint that has no mapping; it stands last.
    fn append(&mut self, key: &Endpoint, slot: Slot) -> Result<(), NoMemory>
        requires { slot_of key.now self.old ≡ None }
        ensures ok { OnOk result (self.new ≡ self.old ++ (key.now, slot) ∷ []) }
        ensures err { OnErr result (self.new ≡ self.old) }
    {
        make_room(self.alloc, &mut self.slots, &mut self.live_until)?;
        let at = self.slots.rows();
        self.slots.push(*key, slot)?;
        self.live_until.set(at, slot.live_until(key));
        Ok(())
    }

    /// Removes the first mapping that is idle, in first-seen order, if there is one, and answers it.
    pub fn take_first_idle(&mut self, now: u64) -> Option<(Endpoint, Slot)>
        ensures { (result, self.new) ≡ idle_taken now self.old (first_idle now self.old) }
    {
        let at = first_idle(&self.slots, &mut self.live_until, 0, now)?;
        let (key, slot) = self.slots.row(at)?;
        self.slots.clear(at);
        self.live_until.note(at, u64::MAX);
        Some((key, slot))
    }

    /// Removes the first mapping that is idle, if there is one, and answers its outside port.
    fn remove_first_idle(&mut self, now: u64) -> Option<Freed>
        ensures { (result, self.new) ≡ idle_removed now self.old (first_idle now self.old) }
    {
        let (key, slot) = self.take_first_idle(now)?;
        Some(Freed {
            protocol: key.protocol,
            port: slot.port,
        })
    }

    /// What an outbound packet finds of its source. A live mapping is refreshed (RFC 4787, REQ-6). One that is idle
    /// is removed. Where there is none, the first idle mapping of the table is removed, in first-seen order, if there
    /// is one; it may be of the other protocol.
    pub fn find(&mut self, key: &Endpoint, now: u64) -> Find
        ensures { (result, self.new) ≡ find key.now now self.old }
    {
        let Some(slot) = self.slot_of(key) else {
            return Find::Absent(self.remove_first_idle(now));
        };
        if slot.is_idle(key, now) {
            self.remove(key);
            return Find::Absent(Some(Freed {
                protocol: key.protocol,
                port: slot.port,
            }));
        }
        self.refresh(key, now);
        Find::Live(slot.port)
    }

    /// Maps the endpoint to this outside port, unless it has a mapping by now: that one, idle or not, is refreshed and
    /// stays. A new mapping stands last.
    pub fn find_or_bind(&mut self, key: &Endpoint, port: u16, now: u64) -> Result<Bind, NoMemory>
        ensures ok { IfOk result (λ bind. (bind, self.new)
            ≡ find_or_bind key.now port now self.old) }
        ensures err { OnErr result (self.new ≡ self.old) }
    {
        if let Some(slot) = self.slot_of(key) {
            self.refresh(key, now);
            return Ok(Bind::Other(slot.port));
        }
        let slot = Slot {
            port,
            last: now,
            phase: Phase::Plain,
        };
        self.append(key, slot)?;
        Ok(Bind::Bound)
    }

    /// Maps the endpoint to this outside port for good, unless it has a mapping. Nothing removes the new mapping but
    /// `remove`, and it stands last.
    pub fn keep(&mut self, key: &Endpoint, port: u16) -> Result<(), NoMemory>
        ensures ok { OnOk result (self.new ≡ keep key.now port self.old) }
        ensures err { OnErr result (self.new ≡ self.old) }
    {
        if let Some(_kept) = self.slot_of(key) {
            return Ok(());
        }
        let slot = Slot {
            port,
            last: 0,
            phase: Phase::Kept,
        };
        self.append(key, slot)?;
        Ok(())
    }

    /// Whether the endpoint is mapped to this outside port, and the mapping is live. It refreshes nothing.
    pub fn lives(&self, key: &Endpoint, port: u16, now: u64) -> bool
        ensures { result ≡ lives key.now port now self.now }
    {
        match self.slot_of(key) {
            Some(slot) => slot.port == port && !slot.is_idle(key, now),
            None => false,
        }
    }

    /// How many mappings there are, idle ones included.
    pub fn len(&self) -> usize
        ensures { result ≡ length self.now }
    {
        self.slots.len()
    }

    /// How many mappings the endpoint's host has, idle ones included. It looks at each row.
    pub(crate) fn count_of(&self, key: &Endpoint) -> usize
        ensures { result ≡ count_of key.now.protocol key.now.address self.now }
    {
        let mut count = 0;
        for at in 0..self.slots.rows() {
            if is_of_host(key, self.slots.row(at)) {
                count += 1;
            }
        }
        count
    }

    /// The first of the mappings of the endpoint's host that is idle. It looks at no live mapping,
    /// whoever has it.
    pub(crate) fn first_idle_of(&mut self, key: &Endpoint, now: u64) -> Option<(Endpoint, Slot)>
        ensures first { result ≡ first_idle_of key.now now self.old }
        ensures same { self.new ≡ self.old }
    {
        first_idle_of(&self.slots, &mut self.live_until, key, now)
    }

    /// The mapping at an index, in first-seen order. None exactly where the index is past the last one.
    pub fn entry(&self, index: usize) -> Option<Mapping>
        ensures { result ≡ mapping_at index self.now }
    {
        let (key, slot) = self.slots.entry(index)?;
        Some(Mapping {
            key,
            port: slot.port,
            last: slot.last,
        })
    }

    /// A table with the same mappings, in the same order. A copy of a table that finds endpoints in no time looks at
    /// each mapping until it gets a new one: mostly it is kept, and never asked. The copy of such a copy finds them in
    /// no time again.
    pub fn copy(&self) -> Result<Self, NoMemory>
        ensures { IfOk result (λ copy. copy ≡ self.now) }
    {
        if self.slots.is_indexed() {
            return Ok(Forward {
                slots: self.slots.copy(self.alloc)?,
                live_until: Times::new(self.alloc),
                alloc: self.alloc,
            });
        }
        let slots = self.slots.swept(self.alloc)?;
        Ok(Forward {
            live_until: times_of(self.alloc, &slots, slots.rows())?,
            slots,
            alloc: self.alloc,
        })
    }

    /// The mappings in their order, with `; ` between two, or `-` where there is none.
    pub fn text(&self, alloc: Global) -> Result<Text, NoMemory>
        ensures { IfOk result (λ text. text ≡ mappings_text self.now) }
    {
        let entries = self.slots.entries(alloc)?;
        let mut slots = entries.iter();
        let Some((key, slot)) = slots.next() else {
            return Text::of(alloc, "-");
        };
        let mut text = String::new(alloc);
        text.push_str(text_of_mapping(alloc, key, slot)?.as_str())?;
        for (key, slot) in slots {
            text.push_str("; ")?;
            text.push_str(text_of_mapping(alloc, key, slot)?.as_str())?;
        }
        Text::of(alloc, text.as_str())
    }
}
