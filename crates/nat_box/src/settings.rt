ghost use Rattle.std.specs.Prelude.{◌≡◌, []};
ghost use Rattle.nat_box.specs.Settings.{basic_settings};

use flow_boxes::ShortList;

/// An inside endpoint that always has this outside port.
#[derive(Clone, Copy, Debug, PartialEq, Eq)]
pub struct StaticPort {
    /// 6 for TCP, 17 for UDP.
    pub protocol: u8,
    /// The inside address.
    pub address: u32,
    /// The inside port.
    pub port: u16,
    /// The outside port.
    pub outside: u16,
}

/// What is set of the box `nat`.
#[derive(Debug, Drop)]
pub struct NatSettings {
    /// The number of forward tables, and of reverse tables, 1 to 64.
    pub shards: u32,
    /// An address of the inside network. Its bits past `length` do not matter.
    pub inside: u32,
    /// How many leading bits the addresses of the inside network share, 1 to 32.
    pub length: u32,
    /// The outside address.
    pub outside: u32,
    /// The first outside port, at least 1.
    pub low: u16,
    /// The last outside port.
    pub high: u16,
    /// For how many seconds a mapping of a TCP connection that is not established is kept without use (RFC 5382,
    /// REQ-5). Where there is no such number, connections are not followed, and each mapping is kept as its protocol
    /// says.
    pub closing: Option<u32>,
    /// The inside endpoints that always have their outside ports, at most 64.
    pub statics: ShortList<StaticPort>,
    /// Whether errors of ICMP about packets of a live mapping go through (RFC 5508, REQ-3 to REQ-6).
    pub errors: bool,
    /// How many mappings of each protocol an inside address may have (RFC 6888, REQ-4). Where there is no such number,
    /// as many as there are ports.
    pub limit: Option<u32>,
}

/// A list of no static ports.
pub fn no_statics() -> ShortList<StaticPort>
    ensures { result ≡ [] }
{
    ShortList::new(StaticPort {
        protocol: 0,
        address: 0,
        port: 0,
        outside: 0,
    })
}

impl NatSettings {
    /// This number of tables of each kind, this inside network, outside address and range of outside ports, and no
    /// more: connections are not followed, no errors of ICMP go through, and there is no static port and no limit.
    pub fn basic(shards: u32, inside: u32, length: u32, outside: u32, low: u16, high: u16) -> Self
        ensures { result ≡ basic_settings shards inside length outside low high }
    {
        NatSettings {
            shards,
            inside,
            length,
            outside,
            low,
            high,
            closing: None,
            statics: no_statics(),
            errors: false,
            limit: None,
        }
    }
}
