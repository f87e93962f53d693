ghost use Rattle.std.specs.Prelude.{◌≡◌, []};

use flow_boxes::ShortList;

/// A server behind the virtual address.
#[derive(Clone, Copy, Debug, PartialEq, Eq)]
pub struct Backend {
    /// Its IPv4 address; the first byte on the wire is the highest.
    pub address: u32,
    /// Its TCP and UDP port.
    pub port: u16,
}

/// What is set of the box `balancer`.
#[derive(Debug, Drop)]
pub struct BalancerSettings {
    /// The number of connection tables, 1 to 64.
    pub shards: u32,
    /// The address that clients send to.
    pub address: u32,
    /// The port there, of TCP and of UDP.
    pub port: u16,
    /// The backends in the order in which they were named, 1 to 64. The first has number 0.
    pub backends: ShortList<Backend>,
    /// For how many seconds a TCP connection that both sides ended, or one reset, is kept without use. Where there is
    /// no such number, connections are not followed, and a reset closes one at once.
    pub closing: Option<u32>,
}

/// A list of no backends.
pub fn no_backends() -> ShortList<Backend>
    ensures { result ≡ [] }
{
    ShortList::new(Backend {
        address: 0,
        port: 0,
    })
}
