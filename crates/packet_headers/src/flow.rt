ghost use Rattle.std.specs.Prelude.{◌≡◌};
ghost use Rattle.packet_headers.specs.Steering.{steering_sum};

/// The protocol number of TCP (RFC 790).
pub const TCP: u8 = 6;

/// The protocol number of UDP (RFC 790).
pub const UDP: u8 = 17;

/// A frame's TCP or UDP flow: its protocol, its two endpoints, and where its transport header begins.
#[derive(Clone, Copy, Debug, PartialEq, Eq)]
pub struct Flow {
    /// 6 for TCP, 17 for UDP, as in the IPv4 header (RFC 791).
    pub protocol: u8,
    /// The IPv4 address of the sender; the first byte on the wire is the highest.
    pub source: u32,
    /// The port of the sender.
    pub source_port: u16,
    /// The IPv4 address of the receiver, likewise.
    pub dest: u32,
    /// The port of the receiver.
    pub dest_port: u16,
    /// The control bits of a TCP segment, CWR first and FIN last (RFC 9293, section 3.1); 0 for UDP.
    pub flags: u8,
    /// The place in the frame of the first byte behind the IPv4 header: 34, or more where it has options.
    pub transport_at: u32,
}

/// Why a frame is not a flow.
#[derive(Clone, Copy, Debug, PartialEq, Eq)]
pub enum NotFlow {
    /// The frame ends before a header does.
    Short = 1,
    /// It carries something else than IPv4.
    NotIpv4 = 2,
    /// An IPv4 or TCP header says that it is shorter than the shortest one.
    BadHeaderLength = 3,
    /// It is a piece of a packet that was fragmented.
    Fragment = 4,
    /// It carries something else than TCP or UDP.
    OtherProtocol = 5,
    /// The packet's total length has no room for its headers, or is more than the frame had.
    BadTotalLength = 6,
}

/// The steering sum: the sum of a flow's addresses, ports and protocol, as whole numbers. Both directions of a flow
/// have one sum, by which its packets are kept together.
pub fn steering_sum(flow: &Flow) -> u64
    ensures { result ≡ steering_sum flow.now }
{
    u64::from(flow.source)
        + u64::from(flow.dest)
        + u64::from(flow.source_port)
        + u64::from(flow.dest_port)
        + u64::from(flow.protocol)
}
