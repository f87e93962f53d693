/// One side of a flow: a port of a protocol at an address.
///
/// A mapping is of an inside endpoint, whatever remote endpoint it speaks with (RFC 4787, REQ-1, endpoint-independent
/// mapping).
#[derive(Clone, Copy, Debug, PartialEq, Eq, Hash)]
pub struct Endpoint {
    /// 6 for TCP, 17 for UDP, as in the IPv4 header.
    pub protocol: u8,
    /// The IPv4 address; the first byte on the wire is the highest.
    pub address: u32,
    /// The port of this protocol.
    pub port: u16,
}

/// A port of one protocol at the outside address.
#[derive(Clone, Copy, Debug, PartialEq, Eq, Hash)]
pub struct PortKey {
    /// 6 for TCP, 17 for UDP, as in the IPv4 header.
    pub protocol: u8,
    /// The port at the outside address, which is that of no inside host.
    pub port: u16,
}

/// The outside port of an idle mapping that was removed: it is to be unbound and given back.
pub type Freed = PortKey;

/// A mapping of a forward table: an inside endpoint, the outside port that stands for it, and when it was last used.
#[derive(Clone, Copy, Debug, PartialEq, Eq)]
pub struct Mapping {
    /// The inside endpoint.
    pub key: Endpoint,
    /// The outside port, of the same protocol.
    pub port: u16,
    /// When the mapping was last used, in microseconds.
    pub last: u64,
}

/// A bound port of a reverse table.
#[derive(Clone, Copy, Debug, PartialEq, Eq)]
pub struct BoundPort {
    /// 6 for TCP, 17 for UDP, as in the IPv4 header.
    pub protocol: u8,
    /// The outside port.
    pub port: u16,
    /// The inside endpoint that it is bound to.
    pub key: Endpoint,
}

/// What a forward table has for an endpoint at the time of a packet.
#[derive(Clone, Copy, Debug, PartialEq, Eq)]
pub enum Find {
    /// The outside port of its mapping, which is live and was refreshed.
    Live(u16),
    /// It has no mapping; and the outside port of the idle mapping that was removed, if one was.
    Absent(Option<Freed>),
}

/// What came of binding an endpoint.
#[derive(Clone, Copy, Debug, PartialEq, Eq)]
pub enum Bind {
    /// It is mapped to the given port.
    Bound,
    /// It was mapped to this port before, and the mapping was refreshed.
    Other(u16),
}
