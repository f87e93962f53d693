ghost use Rattle.std.specs.Prelude.{◌≡◌, ◌≤◌, IfOk};
ghost use Rattle.nat_tables.specs.Ports.{reserve, give_back, full_pool, pool_without, free_count};
ghost use Rattle.nat_tables.specs.Shown.{pool_text};

use crate::PortKey;
use crate::free_ports::FreePorts;
use crate::showing::text_of_pool;
use packet_headers::{TCP, UDP};
use plain_text::{NoMemory, Text};
use std::alloc::Global;
use std::marker::Model;

/// The free ports of a range, of TCP and of UDP. Contracts see the range, and per protocol the free ports of each
/// parity in increasing order.
#[derive(Debug, Drop)]
pub struct Pool {
    low: u16,
    high: u16,
    tcp: FreePorts,
    udp: FreePorts,
}

impl Model for Pool {
    ghost use Rattle.nat_tables.specs.Ports.{PoolPorts};

    ghost Value = { PoolPorts };

    ghost view = { λ p. record { low = p.low; high = p.high; tcp = p.tcp; udp = p.udp } };
}

impl Pool {
    /// All ports from `low` to `high`, of both protocols. There is room to give each of them back.
    pub fn new(alloc: Global, low: u16, high: u16) -> Result<Self, NoMemory>
        requires some { 1 ≤ low }
        requires order { low ≤ high }
        ensures { IfOk result (λ pool. pool ≡ full_pool low high) }
    {
        Ok(Pool {
            low,
            high,
            tcp: FreePorts::full(alloc, low, high)?,
            udp: FreePorts::full(alloc, low, high)?,
        })
    }

    /// The ports from `low` to `high` that are not of this list. There is room to give each port of the range back.
    pub fn without(alloc: Global, out: &[PortKey], low: u16, high: u16) -> Result<Self, NoMemory>
        requires some { 1 ≤ low }
        requires order { low ≤ high }
        ensures { IfOk result (λ pool. pool ≡ pool_without out.now low high) }
    {
        Ok(Pool {
            low,
            high,
            tcp: FreePorts::without(alloc, out, TCP, low, high)?,
            udp: FreePorts::without(alloc, out, UDP, low, high)?,
        })
    }

    /// Takes out a free port of the protocol, as the draw chooses: one of this port's parity while one is free (RFC
    /// 4787, REQ-4, port parity). A port that is out is not free, so that it stands for one endpoint (RFC 4787, REQ-3,
    /// no port overloading). None exactly where no port of the protocol is free.
    pub fn reserve(&mut self, protocol: u8, port: u16, draw: u64) -> Option<u16>
        ensures { (result, self.new) ≡ reserve protocol port draw self.old }
    {
        match protocol {
            TCP => self.tcp.reserve(port, draw),
            UDP => self.udp.reserve(port, draw),
            _ => None,
        }
    }

    /// Makes a port free. It changes nothing where the port is out of range or free, or the protocol is neither TCP nor
    /// UDP. It takes no memory.
    pub fn give_back(&mut self, protocol: u8, port: u16)
        ensures { self.new ≡ give_back protocol port self.old }
    {
        if port < self.low || self.high < port {
            return;
        }
        match protocol {
            TCP => self.tcp.give_back(port),
            UDP => self.udp.give_back(port),
            _ => {}
        }
    }

    /// How many ports of the protocol are free; 0 where it is neither TCP nor UDP.
    pub fn free(&self, protocol: u8) -> u64
        ensures { result ≡ free_count protocol self.now }
    {
        match protocol {
            TCP => self.tcp.count() as u64,
            UDP => self.udp.count() as u64,
            _ => 0,
        }
    }

    /// A pool of the same range with the same free ports.
    pub fn copy(&self) -> Result<Self, NoMemory>
        ensures { IfOk result (λ copy. copy ≡ self.now) }
    {
        Ok(Pool {
            low: self.low,
            high: self.high,
            tcp: self.tcp.copy()?,
            udp: self.udp.copy()?,
        })
    }

    /// How many ports are free, such as `tcp 4 udp 3`.
    pub fn text(&self, alloc: Global) -> Result<Text, NoMemory>
        ensures { IfOk result (λ text. text ≡ pool_text self.now) }
    {
        text_of_pool(alloc, self)
    }
}
