ghost use Rattle.std.specs.Prelude.{◌≤◌, ◌<◌, ◌^◌};

use crate::{Class, NatSettings};
use icmp_errors::IcmpError;
use nat_tables::{Endpoint, PortKey};

/// The box `nat`: it gives endpoints of an inside network ports of one outside address (RFC 3022).
///
/// A mapping is of an inside endpoint, whatever remote it speaks with (RFC 4787, REQ-1). An outside port stands for one
/// inside endpoint (REQ-3), and is of the parity of the inside port while one of this parity is free (REQ-4). Outbound
/// packets refresh a mapping, inbound packets do not (REQ-6). A packet from inside to a mapped outside port goes back
/// inside, with the outside address and port of its source (REQ-9). What comes to a mapped port from any remote is let
/// in (REQ-8, endpoint-independent filtering).
///
/// Variable 0 counts drops by reason, variable 1 is the pool of free ports, the next `shards` variables are the forward
/// tables, and the next `shards` the reverse tables.
#[derive(Debug, Drop)]
pub struct NatBox {
    pub settings: NatSettings,
    pub ghost some: { 1 ≤ settings.shards },
    pub ghost few: { settings.shards ≤ 64 },
    pub ghost inside: { settings.inside < 2 ^ 32 },
    pub ghost long: { 1 ≤ settings.length },
    pub ghost short: { settings.length ≤ 32 },
    pub ghost above: { 1 ≤ settings.low },
    pub ghost order: { settings.low ≤ settings.high },
    pub ghost below: { settings.high < 2 ^ 16 },
}

impl NatBox {
    ghost use Rattle.std.specs.Prelude.{◌≡◌, ◌≤◌};
    ghost use Rattle.nat_box.specs.Nat.{is_inside, class_of_flow, class_of_error};
    ghost use Rattle.nat_box.specs.Nat.{forward_table, reverse_table, table_sum};
    ghost use Rattle.nat_box.specs.Boxes.{box_with};

    /// The box with these settings.
    pub fn new(settings: NatSettings) -> Self
        requires some { 1 ≤ settings.shards }
        requires few { settings.shards ≤ 64 }
        requires long { 1 ≤ settings.length }
        requires short { settings.length ≤ 32 }
        requires above { 1 ≤ settings.low }
        requires order { settings.low ≤ settings.high }
        ensures { result ≡ box_with settings }
    {
        NatBox { settings }
    }

    /// Whether an address is of the inside network.
    fn is_inside(&self, address: u32) -> bool
        ensures { result ≡ is_inside self.now.settings address }
    {
        let hidden = 32 - self.settings.length;
        address >> hidden == self.settings.inside >> hidden
    }

    /// The class of a flow; None where it is dropped as stray.
    pub(crate) fn class_of(&self, source: u32, dest: u32) -> Option<Class>
        ensures { result ≡ class_of_flow self.now.settings source dest }
    {
        match (self.is_inside(source), dest == self.settings.outside) {
            (true, true) => Some(Class::Hairpin),
            (true, false) if self.is_inside(dest) => None,
            (true, false) => Some(Class::Outbound),
            (false, true) => Some(Class::Inbound),
            (false, false) => None,
        }
    }

    /// The class of an error of ICMP; None where it is dropped as stray.
    pub(crate) fn class_of_error(&self, error: &IcmpError) -> Option<Class>
        ensures { result ≡ class_of_error self.now.settings error.now }
    {
        match (
            self.is_inside(error.source),
            error.dest == self.settings.outside,
        ) {
            (true, false) if self.is_inside(error.dest) => None,
            (true, false) if self.is_inside(error.quoted_dest) => Some(Class::OutboundError),
            (false, true) if error.quoted_source == self.settings.outside => Some(Class::Inbound),
            (true, _) | (false, _) => None,
        }
    }

    /// The number that says in which forward table the mapping of an endpoint is. Where hosts have a limit, it is the
    /// same for all ports of a host, so that one table has all its mappings of a protocol.
    fn table_sum(&self, key: &Endpoint) -> u64
        ensures { result ≡ table_sum self.now.settings.limit key.now }
    {
        let host = u64::from(key.protocol) + u64::from(key.address);
        match self.settings.limit {
            Some(_) => host,
            None => host + u64::from(key.port),
        }
    }

    /// The forward table of an inside endpoint.
    pub(crate) fn forward_table(&self, key: &Endpoint) -> u32
        ensures { result ≡ forward_table self.now.settings key.now }
    {
        2 + (self.table_sum(key) % u64::from(self.settings.shards)) as u32
    }

    /// The reverse table of an outside port.
    pub(crate) fn reverse_table(&self, port: &PortKey) -> u32
        ensures { result ≡ reverse_table self.now.settings port.now }
    {
        2 + self.settings.shards + u32::from(port.port) % self.settings.shards
    }
}
