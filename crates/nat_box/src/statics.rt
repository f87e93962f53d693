ghost use Rattle.std.specs.Prelude.{◌≡◌, [], IfOk, OnOk};
ghost use Rattle.nat_tables.specs.Ports.{pool_without};
ghost use Rattle.nat_box.specs.Statics.{inside_of, outside_of, is_whole, clash, is_new, kept};
ghost use Rattle.nat_box.specs.Statics.{outside_ports};
ghost use Rattle.nat_box.specs.Nat.{kept_mappings, kept_bound};
ghost use Rattle.nat_box.specs.Starting.{mapped_one, mapped_all, bound_one, bound_all};

use crate::{NatBox, StaticPort};
use nat_tables::{Endpoint, Mappings, Pool, PortKey, Reverse};
use packet_headers::{TCP, UDP};
use plain_text::NoMemory;
use std::alloc::Global;

impl StaticPort {
    /// The inside endpoint.
    fn inside(self) -> Endpoint
        ensures { result ≡ inside_of self }
    {
        Endpoint {
            protocol: self.protocol,
            address: self.address,
            port: self.port,
        }
    }

    /// Its outside port.
    fn outside_key(self) -> PortKey
        ensures { result ≡ outside_of self }
    {
        PortKey {
            protocol: self.protocol,
            port: self.outside,
        }
    }

    /// Whether it is of TCP or UDP, and its outside port not 0. The types of its numbers are their widths.
    fn is_whole(self) -> bool
        ensures { result ≡ is_whole self }
    {
        matches!(self.protocol, TCP | UDP) && self.outside != 0
    }

    /// Whether it has the endpoint of the other, or the outside port.
    fn clashes(self, other: StaticPort) -> bool
        ensures { result ≡ clash self other }
    {
        self.protocol == other.protocol
            && (self.address == other.address && self.port == other.port
                || self.outside == other.outside)
    }

    /// Whether it clashes with none of these.
    fn is_new(self, before: &[StaticPort]) -> bool
        ensures { result ≡ is_new self before.now }
    {
        for other in before {
            if self.clashes(*other) {
                return false;
            }
        }
        true
    }
}

/// The static ports that count: each that is whole and clashes with none before it.
fn kept(alloc: Global, ports: &[StaticPort]) -> Result<Vec<StaticPort>, NoMemory>
    ensures { IfOk result (λ kept_ports. kept_ports.items ≡ kept ports.now) }
{
    let mut kept = Vec::new(alloc);
    for port in ports {
        if port.is_whole() && port.is_new(kept.as_slice()) {
            kept.push(*port)?;
        }
    }
    Ok(kept)
}

/// The outside ports of these.
fn outside_ports(alloc: Global, ports: &[StaticPort]) -> Result<Vec<PortKey>, NoMemory>
    ensures { IfOk result (λ keys. keys.items ≡ outside_ports ports.now) }
{
    let mut keys = Vec::new(alloc);
    for port in ports {
        keys.push(port.outside_key())?;
    }
    Ok(keys)
}

impl NatBox {
    /// Puts a static port into a forward table of this number, where it is that of its endpoint.
    fn keep_in(&self, port: StaticPort, var: u32, table: &mut Mappings) -> Result<(), NoMemory>
        ensures { OnOk result
            (table.new ≡ mapped_one self.now.settings var port table.old) }
    {
        let key = port.inside();
        if self.forward_table(&key) == var {
            table.keep(&key, port.outside)?;
        }
        Ok(())
    }

    /// A forward table with these static ports, one after another.
    fn mappings_of(
        &self,
        alloc: Global,
        ports: &[StaticPort],
        var: u32,
    ) -> Result<Mappings, NoMemory>
        ensures { IfOk result (λ table. table
            ≡ mapped_all self.now.settings var ports.now []) }
    {
        let mut table = Mappings::new(alloc, self.settings.limit.is_some());
        for port in ports {
            self.keep_in(*port, var, &mut table)?;
        }
        Ok(table)
    }

    /// Puts a static port into a reverse table of this number, where it is that of its outside port.
    fn bind_in(&self, port: StaticPort, var: u32, table: &mut Reverse) -> Result<(), NoMemory>
        ensures { OnOk result
            (table.new ≡ bound_one self.now.settings var port table.old) }
    {
        let key = port.outside_key();
        if self.reverse_table(&key) == var {
            table.bind(key.protocol, key.port, &port.inside())?;
        }
        Ok(())
    }

    /// A reverse table with these static ports, one after another.
    fn bound_of(&self, alloc: Global, ports: &[StaticPort], var: u32) -> Result<Reverse, NoMemory>
        ensures { IfOk result (λ table. table
            ≡ bound_all self.now.settings var ports.now []) }
    {
        let mut table = Reverse::new(alloc);
        for port in ports {
            self.bind_in(*port, var, &mut table)?;
        }
        Ok(table)
    }

    /// The pool at the start: the range without the static ports.
    pub(crate) fn fresh_pool(&self, alloc: Global) -> Result<Pool, NoMemory>
        ensures { IfOk result (λ pool. pool
            ≡ pool_without (outside_ports (kept self.now.settings.statics))
            self.now.settings.low self.now.settings.high) }
    {
        let ports = kept(alloc, self.settings.statics.as_slice())?;
        let out = outside_ports(alloc, ports.as_slice())?;
        Pool::without(alloc, out.as_slice(), self.settings.low, self.settings.high)
    }

    /// A forward table at the start: the static ports of its endpoints.
    pub(crate) fn fresh_mappings(&self, alloc: Global, var: u32) -> Result<Mappings, NoMemory>
        ensures { IfOk result (λ table. table
            ≡ kept_mappings self.now.settings var (kept self.now.settings.statics)) }
    {
        let ports = kept(alloc, self.settings.statics.as_slice())?;
        let table = self.mappings_of(alloc, ports.as_slice(), var)?;
        Ok(table)
    }

    /// A reverse table at the start: the static ports that it has.
    pub(crate) fn fresh_bound(&self, alloc: Global, var: u32) -> Result<Reverse, NoMemory>
        ensures { IfOk result (λ table. table
            ≡ kept_bound self.now.settings var (kept self.now.settings.statics)) }
    {
        let ports = kept(alloc, self.settings.statics.as_slice())?;
        let table = self.bound_of(alloc, ports.as_slice(), var)?;
        Ok(table)
    }
}
