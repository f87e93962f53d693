ghost use Rattle.std.specs.Prelude.{◌≡◌, ℕ, ◌+◌, ◌-◌, ◌^◌, ◌<◌, ◌≤◌, Some, None, MatchOption, IfOk};
ghost use Rattle.std.specs.Prelude.{length, slice_index_or, false, true, if◌then◌else◌};
ghost use Rattle.nat_tables.specs.Ports.{chosen, reserved_of, given_back_to, ports_from, no_ports};
ghost use Rattle.nat_tables.specs.Ports.{has_port, ports_without};
ghost use Rattle.nat_tables.specs.Keys.{port_key};
ghost use Rattle.nat_tables.specs.Placing.{groups_ports};

use crate::PortKey;
use crate::parity_ports::ParityPorts;
use plain_text::NoMemory;
use std::alloc::Global;
use std::marker::Model;

/// The free ports of one protocol, those of each parity in increasing order.
#[derive(Debug, Drop)]
pub(crate) struct FreePorts {
    even: ParityPorts,
    odd: ParityPorts,
}

impl Model for FreePorts {
    ghost use Rattle.nat_tables.specs.Ports.{Ports};
    ghost use Rattle.nat_tables.specs.Placing.{groups_ports};

    ghost Value = { Ports };

    ghost view = { λ p. record { even = groups_ports 0 p.even; odd = groups_ports 1 p.odd } };
}

/// Takes out of the ports of this parity the one that the draw chooses.
fn choose(ports: &mut ParityPorts, parity: u16, draw: u64) -> Option<u16>
    requires { parity < 2 }
    ensures some { MatchOption result (chosen draw (groups_ports parity ports.old) ≡ None)
        (λ port. chosen draw (groups_ports parity ports.old)
        ≡ Some (port, groups_ports parity ports.new)) }
    ensures none { result ≡ None
        → groups_ports parity ports.new ≡ groups_ports parity ports.old }
{
    let count = ports.count();
    if count == 0 {
        return None;
    }
    let at = (draw % count as u64) as usize;
    Some(ports.take(parity, at))
}

/// Marks the ports of a protocol that stand in a list.
fn mark_ports(marks: &mut [bool], list: &[PortKey], protocol: u8)
    requires { length marks.old ≡ 2 ^ 16 }
    ensures { (port : ℕ) → port < 2 ^ 16 → slice_index_or marks.new port false
        ≡ (if has_port (port_key protocol port) list.now then true
        else slice_index_or marks.old port false) }
{
    for key in list {
        if key.protocol == protocol {
            marks[usize::from(key.port)] = true;
        }
    }
}

/// This number of marks, none of them set.
fn no_marks(alloc: Global, count: usize) -> Result<Vec<bool>, NoMemory>
    ensures long { IfOk result (λ marks. length marks.items ≡ count) }
    ensures none { IfOk result (λ marks. (port : ℕ)
        → slice_index_or marks.items port false ≡ false) }
{
    Ok(vec![in alloc; false; count]?)
}

/// For each port, whether it stands in a list under a protocol.
fn marks_of(alloc: Global, list: &[PortKey], protocol: u8) -> Result<Vec<bool>, NoMemory>
    ensures long { IfOk result (λ marks. length marks.items ≡ 2 ^ 16) }
    ensures each { IfOk result (λ marks. (port : ℕ) → port < 2 ^ 16
        → slice_index_or marks.items port false ≡ has_port (port_key protocol port) list.now) }
{
    let mut marks = no_marks(alloc, 65536)?;
    mark_ports(&mut marks, list, protocol);
    Ok(marks)
}

impl FreePorts {
    /// All ports from `low` to `high`.
    pub(crate) fn full(alloc: Global, low: u16, high: u16) -> Result<Self, NoMemory>
        requires { low ≤ high }
        ensures { IfOk result (λ ports. ports ≡ ports_from low (high + 1 - low) no_ports) }
    {
        let mut ports = FreePorts {
            even: ParityPorts::empty(alloc)?,
            odd: ParityPorts::empty(alloc)?,
        };
        for number in u32::from(low)..u32::from(high) + 1 {
            ports.give_back(number as u16);
        }
        Ok(ports)
    }

    /// Makes a port free, unless it is marked.
    fn give_back_unless(&mut self, marked: bool, port: u16)
        ensures { self.new ≡ (if marked then self.old else given_back_to port self.old) }
    {
        if !marked {
            self.give_back(port);
        }
    }

    /// The ports of a protocol from `low` to `high` that are not of this list.
    #[tactic(auto, using(crate::proofs::Pooling::without_next))]
    pub(crate) fn without(
        alloc: Global,
        out: &[PortKey],
        protocol: u8,
        low: u16,
        high: u16,
    ) -> Result<Self, NoMemory>
        requires { low ≤ high }
        ensures { IfOk result (λ ports. ports
            ≡ ports_without out.now protocol low (high + 1 - low)) }
    {
        let marks = marks_of(alloc, out, protocol)?;
        let mut ports = FreePorts {
            even: ParityPorts::empty(alloc)?,
            odd: ParityPorts::empty(alloc)?,
        };
        for number in u32::from(low)..u32::from(high) + 1 {
            ports.give_back_unless(marks[number as usize], number as u16);
        }
        Ok(ports)
    }

    /// Takes out the port that the draw chooses, of this port's parity while one is free.
    pub(crate) fn reserve(&mut self, port: u16, draw: u64) -> Option<u16>
        ensures { (result, self.new) ≡ reserved_of port draw self.old }
    {
        if port % 2 == 0 {
            match choose(&mut self.even, 0, draw) {
                Some(chosen) => Some(chosen),
                None => choose(&mut self.odd, 1, draw),
            }
        } else {
            match choose(&mut self.odd, 1, draw) {
                Some(chosen) => Some(chosen),
                None => choose(&mut self.even, 0, draw),
            }
        }
    }

    /// Makes a port free, and changes nothing where it is free. It takes no memory.
    pub(crate) fn give_back(&mut self, port: u16)
        ensures { self.new ≡ given_back_to port self.old }
    {
        if port % 2 == 0 {
            self.even.put(0, port);
        } else {
            self.odd.put(1, port);
        }
    }

    /// How many ports are free.
    pub(crate) fn count(&self) -> usize
        ensures { result ≡ length self.now.even + length self.now.odd }
    {
        self.even.count() + self.odd.count()
    }

    /// The same ports.
    pub(crate) fn copy(&self) -> Result<Self, NoMemory>
        ensures { IfOk result (λ copy. copy ≡ self.now) }
    {
        Ok(FreePorts {
            even: self.even.copy()?,
            odd: self.odd.copy()?,
        })
    }
}
